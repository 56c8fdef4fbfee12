//! The words of a text, as they are told apart: names and numbers, signs of one byte or two, quotations.
//! Blanks and comments are none. No promise rests on them.
ghost use Rattle.std.specs.Prelude.{◌<◌};

use crate::places::behind;
use sched_base::NoMemory;
use std::alloc::Global;

/// So many words of a statement are looked at.
const MOST: usize = 4_096;

/// A word: from its first byte to the one behind its last.
#[derive(Clone, Copy, Debug)]
pub struct Word {
    pub from: usize,
    pub to: usize,
}

fn is_name_byte(b: u8) -> bool {
    b.is_ascii_alphanumeric() || b == b'_'
}

fn is_blank(b: u8) -> bool {
    matches!(b, b' ' | b'\t' | b'\r' | b'\n')
}

fn is_pair(a: u8, b: u8) -> bool {
    match a {
        b'.' => b == b'.',
        b'=' => b == b'=' || b == b'>',
        b'!' | b'<' | b'>' => b == b'=',
        b'&' => b == b'&',
        b'|' => b == b'|',
        _ => false,
    }
}

/// How many bytes a comment has that begins here, behind its first two.
fn comment_len(rest: &[u8]) -> usize {
    match rest.windows(2).position(|w| matches!(w, b"*/")) {
        Some(k) => k.saturating_add(2),
        None => rest.len(),
    }
}

/// How many bytes stand here that are no word.
fn gap_len(text: &[u8]) -> usize {
    match text {
        [b'/', b'/', ..] => text.iter().take_while(|b| **b != b'\n').count(),
        [b'/', b'*', rest @ ..] => comment_len(rest).saturating_add(2),
        _ => text.iter().take_while(|b| is_blank(**b)).count(),
    }
}

/// How many bytes the word has that begins here, one at least.
fn word_len(text: &[u8]) -> usize
    ensures { 0 < result }
{
    let len = match text {
        [b'"', rest @ ..] => rest
            .iter()
            .take_while(|b| **b != b'"')
            .count()
            .saturating_add(2),
        [a, b, ..] if is_pair(*a, *b) => 2,
        _ => text.iter().take_while(|b| is_name_byte(**b)).count(),
    };
    len.max(1)
}

/// The words of a text in order, at most `MOST`.
pub fn words_of(alloc: Global, text: &[u8]) -> Result<Vec<Word>, NoMemory> {
    let mut words = Vec::new(alloc);
    let mut rest = text;
    let mut from = 0usize;
    while !rest.is_empty() && words.len() < MOST {
        let gap = gap_len(rest);
        if gap > 0 {
            rest = behind(rest, gap);
            from = from.saturating_add(gap);
        } else {
            let len = word_len(rest);
            let to = from.saturating_add(len);
            words.push(Word { from, to })?;
            rest = behind(rest, len);
            from = to;
        }
    }
    Ok(words)
}
