ghost use Rattle.std.specs.Prelude.{◌≡◌, ◌<◌, ◌≤◌, None, drop, length, IfSome};

use crate::piece::{gap_at, piece_at};
use crate::word::{Token, word_of};

/// A place in a text that is no longer than its limit.
#[derive(Clone, Copy)]
pub struct Place<'a> {
    text: &'a [u8],
    at: usize,
    ghost within: { at ≤ length text.now },
    ghost short: { length text.now ≤ 16777216 },
}

impl<'a> Place<'a> {
    ghost use Rattle.cpo_text.specs.code.Lexing.{gap_of, piece_at, tokens_from};
    ghost use Rattle.cpo_text.specs.code.Places.{left, in_front};

    /// The beginning of a text.
    #[tactic(auto, unfolding(crate::specs::code::Places::left))]
    pub fn start(text: &'a [u8]) -> Place<'a>
        requires { length text.now ≤ 16777216 }
        ensures { left result ≡ tokens_from 0 text.now }
    {
        Place { text, at: 0 }
    }

    /// The offset of the next token, behind the blanks and comments that stand before it.
    fn offset(self) -> usize
        ensures same { tokens_from result (drop result self.entry.text.now) ≡ left self.entry }
        ensures gap { gap_of (piece_at (drop result self.entry.text.now)) ≡ None }
        ensures from { self.entry.at ≤ result }
        ensures to { result ≤ length self.entry.text.now }
    {
        let mut at = self.at;
        while at < self.text.len() {
            let (_, rest) = self.text.split_at(at);
            match gap_at(rest) {
                None => return at,
                Some(len) => at += len,
            }
        }
        at
    }

    /// The place of the next token, so that a look from there passes no blanks and comments.
    #[tactic(auto, unfolding(crate::specs::code::Places::left))]
    pub fn onto(self) -> Place<'a>
        ensures { left result ≡ left self.entry }
    {
        Place {
            text: self.text,
            at: self.offset(),
        }
    }

    /// The next token, and the place behind it.
    #[tactic(auto, using(crate::proofs::pieces::Walks::part_of))]
    pub fn next(self) -> Option<(Token<'a>, Place<'a>)>
        ensures tokens { left self.entry ≡ in_front result }
        ensures later { IfSome result (λ x. (self.entry.at < x.1.at) × (x.1.at ≤ 16777216)) }
    {
        let at = self.offset();
        let (_, rest) = self.text.split_at(at);
        let (piece, len) = piece_at(rest)?;
        let (bytes, _) = rest.split_at(len);
        let word = word_of(piece, bytes)?;
        let behind = Place {
            text: self.text,
            at: at + len,
        };
        Some((Token { at, word }, behind))
    }
}
