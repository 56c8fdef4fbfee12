//! The signs and words by which the levels of expressions go on.
ghost use Rattle.std.specs.Prelude.{◌≡◌, ◌∷◌, codes, None, option_map, IfSome};
ghost use Rattle.cpo_text.specs.Expressions.{link_sign};
ghost use Rattle.cpo_text.specs.code.Places.{said_word};
ghost use Rattle.cpo_text.specs.code.Rules.{behind};
ghost use Rattle.cpo_text.specs.code.Levels.{comparison_of, comparison_at, measure_of, gather_of};
ghost use Rattle.cpo_text.specs.code.Gives.{ahead};

use crate::expression::{Comparison, Gather, Link, Measure};
use crate::parts::is_sign;
use crate::place::Place;
use crate::word::{Token, Word};

pub fn sign_of(link: Link) -> &'static [u8]
    ensures { result.now ≡ link_sign link }
{
    match link {
        Link::Times => b"*",
        Link::And => b"&&",
        Link::Or => b"||",
    }
}

fn comparison_of(sign: &[u8]) -> Option<Comparison>
    ensures { result ≡ comparison_of sign.now }
{
    if sign == b"==".as_slice() {
        return Some(Comparison::Equal);
    }
    if sign == b"!=".as_slice() {
        return Some(Comparison::NotEqual);
    }
    if sign == b"<=".as_slice() {
        return Some(Comparison::AtMost);
    }
    if sign == b">=".as_slice() {
        return Some(Comparison::AtLeast);
    }
    if sign == b"<".as_slice() {
        return Some(Comparison::Below);
    }
    if sign == b">".as_slice() {
        return Some(Comparison::Above);
    }
    None
}

/// The sign of a comparison, if it comes next, and the place behind it.
#[tactic(auto, unfolding(crate::specs::code::Gives::ahead, crate::specs::code::Levels::comparison_at))]
pub fn comparison(place: Place<'_>) -> Option<(Comparison, Place<'_>)>
    ensures { option_map (λ x. (x.0, ahead x.1)) result ≡ comparison_at (ahead place.entry) }
{
    let (token, rest) = place.next()?;
    match token.word {
        Word::Sign(bytes) => {
            let comparison = comparison_of(bytes)?;
            Some((comparison, rest.onto()))
        }
        _ => None,
    }
}

pub fn measure_of(word: &[u8]) -> Option<Measure>
    ensures { result ≡ measure_of word.now }
{
    if word == b"startOf".as_slice() {
        return Some(Measure::StartOf);
    }
    if word == b"endOf".as_slice() {
        return Some(Measure::EndOf);
    }
    if word == b"sizeOf".as_slice() {
        return Some(Measure::SizeOf);
    }
    if word == b"lengthOf".as_slice() {
        return Some(Measure::LengthOf);
    }
    None
}

pub fn gather_of(word: &[u8]) -> Option<Gather>
    ensures { result ≡ gather_of word.now }
{
    if word == b"max".as_slice() {
        return Some(Gather::Max);
    }
    if word == b"min".as_slice() {
        return Some(Gather::Min);
    }
    if word == b"sum".as_slice() {
        return Some(Gather::Sum);
    }
    None
}

/// The token that comes next, unless it is a sign before an operand.
#[inline(always)]
#[tactic(auto, unfolding(crate::specs::code::Gives::ahead))]
pub fn plain(place: Place<'_>) -> Option<(Token<'_>, Place<'_>)>
    ensures is { IfSome result (λ x. ahead place.entry ≡ said_word x.0.word ∷ ahead x.1) }
    ensures no_not { IfSome result (λ x. behind (codes "!") (ahead place.entry) ≡ None) }
    ensures no_minus { IfSome result (λ x. behind (codes "-") (ahead place.entry) ≡ None) }
{
    let (token, rest) = place.next()?;
    if is_sign(b"!", token.word) || is_sign(b"-", token.word) {
        None
    } else {
        Some((token, rest.onto()))
    }
}
