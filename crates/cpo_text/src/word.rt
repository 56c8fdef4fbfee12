ghost use Rattle.std.specs.Prelude.{◌≡◌, option_map};
ghost use Rattle.cpo_text.specs.Tokens.{bounded, digits_value, word_of};
ghost use Rattle.cpo_text.specs.code.Places.{said_word};

use crate::piece::Piece;
use sched_base::NUMBER_LIMIT;

/// What a token says. A number above the bound on literals has no value.
#[derive(Clone, Copy)]
pub enum Word<'a> {
    Name(&'a [u8]),
    Number(Option<u64>),
    Sign(&'a [u8]),
    Quoted,
}

/// A token that was read, with its offset.
#[derive(Clone, Copy)]
pub struct Token<'a> {
    pub at: usize,
    pub word: Word<'a>,
}

/// The value of some digits, where it is within the bound on literals.
fn value(digits: &[u8]) -> Option<u64>
    ensures { result ≡ bounded (digits_value digits.now) }
{
    let mut value = 0;
    for b in digits {
        let digit = b.saturating_sub(b'0');
        let next = u128::from(value) * 10 + u128::from(digit);
        if next > NUMBER_LIMIT as u128 {
            return None;
        }
        value = next as u64;
    }
    Some(value)
}

/// What a piece of these bytes says, if anything.
pub fn word_of(piece: Piece, bytes: &[u8]) -> Option<Word<'_>>
    ensures { option_map said_word result ≡ word_of piece bytes.now }
{
    match piece {
        Piece::Name => Some(Word::Name(bytes)),
        Piece::Int => Some(Word::Number(value(bytes))),
        Piece::Sign => Some(Word::Sign(bytes)),
        Piece::Quoted => Some(Word::Quoted),
        Piece::Blank | Piece::Line | Piece::Block => None,
    }
}
