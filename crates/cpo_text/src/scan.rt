ghost use Rattle.std.specs.Prelude.{◌≡◌, ◌≤◌, ◌<◌, ◌+◌, [], length, drop, IfOk, IfErr, if◌then◌else◌};
ghost use Rattle.cpo_text.specs.Tokens.{word_of};
ghost use Rattle.cpo_text.specs.Runs.{ended};
ghost use Rattle.cpo_text.specs.code.Lexing.{rest, tokens_from, says_end};

use crate::piece::{Piece, piece_at};
use crate::refusal::Cause;
use crate::text::Refusal;

/// How many semicolons a piece of these bytes is: one or none.
fn semicolons(piece: Piece, bytes: &[u8]) -> u32
    ensures count { result ≡ (if says_end (word_of piece bytes.now) then 1 else 0) }
    ensures most { result ≤ 1 }
{
    if matches!(piece, Piece::Sign) && b";".as_slice() == bytes {
        1
    } else {
        0
    }
}

/// Goes through a text piece by piece: all of it, or as far as its first bad byte, which is refused.
pub fn scan(text: &[u8]) -> Result<(), Refusal>
    requires { length text.now ≤ 16777216 }
    ensures ok { IfOk result (λ u. rest text.now ≡ []) }
    ensures err { IfErr result (λ r. (r ≡ record { number = 1; statement = 1 + ended (tokens_from 0 text.now); at = r.at })
        × (rest text.now ≡ drop r.at text.now) × (r.at < length text.now)) }
{
    let mut at = 0;
    let mut ended = 0;
    while at < text.len() {
        let (_, rest) = text.split_at(at);
        match piece_at(rest) {
            None => {
                return Err(Refusal {
                    number: Cause::BadByte as u32,
                    statement: 1 + ended,
                    at: at as u64,
                });
            }
            Some((piece, len)) => {
                let (bytes, _) = rest.split_at(len);
                ended += semicolons(piece, bytes);
                at += len;
            }
        }
    }
    Ok(())
}
