ghost use Rattle.std.specs.Prelude.{◌≡◌, option_map, IfOk};
ghost use Rattle.cpo_text.specs.Words.{is_sign};
ghost use Rattle.cpo_text.specs.code.Places.{said_word};
ghost use Rattle.cpo_text.specs.code.Rules.{behind, behind_word, ended_at, name_at, size_at, signed_at, int_at, name_before, int_before, int_behind, range_at};
ghost use Rattle.cpo_text.specs.code.Gives.{ahead, Gives, GivesName, GivesPlace};

use crate::fault::Fault;
use crate::place::Place;
use crate::tree::{Int, Range};
use crate::word::Word;
use sched_base::{List, NoMemory};
use std::alloc::Global;

pub fn is_sign(sign: &[u8], word: Word<'_>) -> bool
    ensures { result ≡ is_sign sign.now (said_word word.entry) }
{
    match word {
        Word::Sign(bytes) => sign == bytes,
        _ => false,
    }
}

/// The place behind a sign, if it comes next.
#[tactic(auto, unfolding(crate::specs::code::Gives::ahead))]
pub fn behind<'a>(sign: &[u8], place: Place<'a>) -> Option<Place<'a>>
    ensures { option_map ahead result ≡ behind sign.now (ahead place.entry) }
{
    let (token, rest) = place.next()?;
    if is_sign(sign, token.word) {
        Some(rest.onto())
    } else {
        None
    }
}

/// The place behind a sign that has to come next.
pub fn sign<'a>(sign: &[u8], place: Place<'a>) -> Result<Place<'a>, Fault>
    ensures { GivesPlace result (behind sign.now (ahead place.entry)) }
{
    match behind(sign, place) {
        Some(rest) => Ok(rest),
        None => Err(Fault::Outside),
    }
}

/// A value behind which a sign has to come next, and the place behind that.
pub fn ended<'a, T: Drop>(value: T, end: &[u8], place: Place<'a>) -> Result<(T, Place<'a>), Fault>
    ensures { Gives result (ended_at value end.now (ahead place.entry)) }
{
    let rest = sign(end, place)?;
    Ok((value, rest))
}

#[tactic(auto, unfolding(crate::specs::code::Gives::ahead))]
pub fn name(place: Place<'_>) -> Result<(&[u8], Place<'_>), Fault>
    ensures { GivesName result (name_at (ahead place.entry)) }
{
    match place.next() {
        Some((token, rest)) => match token.word {
            Word::Name(bytes) => Ok((bytes, rest.onto())),
            _ => Err(Fault::Outside),
        },
        None => Err(Fault::Outside),
    }
}

/// The name that comes next, if one does, and the place behind it.
#[tactic(auto, unfolding(crate::specs::code::Gives::ahead))]
pub fn next_name(place: Place<'_>) -> Option<(&[u8], Place<'_>)>
    ensures { option_map (λ x. (x.0.now, ahead x.1)) result ≡ name_at (ahead place.entry) }
{
    let (token, rest) = place.next()?;
    match token.word {
        Word::Name(bytes) => Some((bytes, rest.onto())),
        _ => None,
    }
}

/// The place behind a word, if it comes next.
#[tactic(auto, unfolding(crate::specs::code::Rules::behind_word))]
pub fn behind_word<'a>(word: &[u8], place: Place<'a>) -> Option<Place<'a>>
    ensures { option_map ahead result ≡ behind_word word.now (ahead place.entry) }
{
    let (name, rest) = next_name(place)?;
    if name == word { Some(rest) } else { None }
}

/// A name with a sign behind it.
#[tactic(auto, unfolding(crate::specs::code::Rules::name_before))]
pub fn name_before<'a>(end: &[u8], place: Place<'a>) -> Result<(&'a [u8], Place<'a>), Fault>
    ensures { GivesName result (name_before end.now (ahead place.entry)) }
{
    let (bytes, rest) = name(place)?;
    let rest = sign(end, rest)?;
    Ok((bytes, rest))
}

#[tactic(auto, unfolding(crate::specs::code::Gives::ahead))]
pub fn size(place: Place<'_>) -> Result<(Option<u64>, Place<'_>), Fault>
    ensures { Gives result (size_at (ahead place.entry)) }
{
    match place.next() {
        Some((token, rest)) => match token.word {
            Word::Number(value) => Ok((value, rest.onto())),
            _ => Err(Fault::Outside),
        },
        None => Err(Fault::Outside),
    }
}

#[tactic(auto, unfolding(crate::specs::code::Rules::signed_at))]
fn signed(minus: bool, place: Place<'_>) -> Result<(Int, Place<'_>), Fault>
    ensures { Gives result (signed_at minus (ahead place.entry)) }
{
    let (size, rest) = size(place)?;
    Ok((Int { minus, size }, rest))
}

#[tactic(auto, unfolding(crate::specs::code::Rules::int_at))]
pub fn int(place: Place<'_>) -> Result<(Int, Place<'_>), Fault>
    ensures { Gives result (int_at (ahead place.entry)) }
{
    match behind(b"-", place) {
        Some(rest) => signed(true, rest),
        None => signed(false, place),
    }
}

/// A number with a sign behind it.
#[tactic(auto, unfolding(crate::specs::code::Rules::int_before))]
pub fn int_before<'a>(end: &[u8], place: Place<'a>) -> Result<(Int, Place<'a>), Fault>
    ensures { Gives result (int_before end.now (ahead place.entry)) }
{
    let (int, rest) = int(place)?;
    let rest = sign(end, rest)?;
    Ok((int, rest))
}

/// A number behind a sign, or nothing.
#[tactic(auto, unfolding(crate::specs::code::Rules::int_behind))]
pub fn int_behind<'a>(sign: &[u8], place: Place<'a>) -> Result<(Option<Int>, Place<'a>), Fault>
    ensures { Gives result (int_behind sign.now (ahead place.entry)) }
{
    match behind(sign, place) {
        Some(rest) => {
            let (int, rest) = int(rest)?;
            Ok((Some(int), rest))
        }
        None => Ok((None, place)),
    }
}

#[tactic(auto, unfolding(crate::specs::code::Rules::range_at))]
pub fn range(place: Place<'_>) -> Result<(Range, Place<'_>), Fault>
    ensures { Gives result (range_at (ahead place.entry)) }
{
    let (from, rest) = int(place)?;
    let (to, rest) = int_behind(b"..", rest)?;
    Ok((Range { from, to }, rest))
}

/// A name with a sign behind it, its bytes copied.
pub fn owned_before<'a>(
    alloc: Global,
    end: &[u8],
    place: Place<'a>,
) -> Result<(List<u8>, Place<'a>), Fault>
    ensures { Gives result (name_before end.now (ahead place.entry)) }
{
    let (bytes, rest) = name_before(end, place)?;
    Ok((copy(alloc, bytes)?, rest))
}

/// The bytes of a name, copied.
pub fn copy(alloc: Global, bytes: &[u8]) -> Result<List<u8>, NoMemory>
    ensures { IfOk result (λ name. name ≡ bytes.now) }
{
    let mut name = Vec::new(alloc);
    name.extend_from_slice(bytes)?;
    Ok(List::from_vec(name))
}
