ghost use Rattle.std.specs.Prelude.{◌∷◌, codes};
ghost use Rattle.kernel.specs.Fit.{is_fit};
ghost use Rattle.logtext.specs.Spelling.{line_words};
ghost use Rattle.logtext.specs.Entries.{entry_words, is_fit_entry};
ghost use Rattle.logtext.specs.code.Reads.{ReadsWhole};

use crate::entry::{Entry, EntryFault};
use crate::solution::read_assignment;
use crate::step::{read_witness, take_guess};
use crate::value::is;
use crate::version::Version;
use kernel::Line;
use region::Numbers;
use std::alloc::Global;
use textline::Words;

/// Reads the words behind the letter of a line that learns a fact.
fn read_derive<W: Numbers>(
    alloc: Global,
    words: &mut Words<'_>,
    numbers: &mut Vec<i64>,
) -> Result<Line<W>, EntryFault>
    ensures { ReadsWhole (line_words W.numbers) (is_fit W.is_valid) (codes "d" ∷ words.old) result }
{
    let Some(guess) = take_guess(words) else {
        return Err(EntryFault::Bad);
    };
    match read_witness(alloc, words, numbers) {
        Ok(witness) => Ok(Line::Derive(guess, witness)),
        Err(fault) => Err(fault),
    }
}

/// Reads the words behind the letter of a line that closes a region.
fn read_fail<W: Numbers>(
    alloc: Global,
    words: &mut Words<'_>,
    numbers: &mut Vec<i64>,
) -> Result<Line<W>, EntryFault>
    ensures { ReadsWhole (line_words W.numbers) (is_fit W.is_valid) (codes "f" ∷ words.old) result }
{
    match read_witness(alloc, words, numbers) {
        Ok(witness) => Ok(Line::Fail(witness)),
        Err(fault) => Err(fault),
    }
}

/// Reads the words behind the letter of a line that cuts a region.
fn read_split<W: Numbers>(words: &mut Words<'_>) -> Result<Line<W>, EntryFault>
    ensures { ReadsWhole (line_words W.numbers) (is_fit W.is_valid) (codes "s" ∷ words.old) result }
{
    let Some(guess) = take_guess(words) else {
        return Err(EntryFault::Bad);
    };
    if !words.is_done() {
        return Err(EntryFault::Bad);
    }
    Ok(Line::Split(guess))
}

/// Reads the words behind the letter of a line with a solution.
fn read_sol<W: Numbers>(alloc: Global, words: &mut Words<'_>) -> Result<Line<W>, EntryFault>
    ensures { ReadsWhole (line_words W.numbers) (is_fit W.is_valid) (codes "v" ∷ words.old) result }
{
    match read_assignment(alloc, words) {
        Ok(assignment) => Ok(Line::Sol(assignment)),
        Err(fault) => Err(fault),
    }
}

/// Reads the words behind the letter of a line that steps.
fn read_step<W: Numbers>(
    alloc: Global,
    letter: &[u8],
    words: &mut Words<'_>,
    numbers: &mut Vec<i64>,
) -> Result<Line<W>, EntryFault>
    ensures { ReadsWhole (line_words W.numbers) (is_fit W.is_valid) (letter.now ∷ words.old) result }
{
    if is(letter, b"d") {
        return read_derive(alloc, words, numbers);
    }
    if is(letter, b"f") {
        return read_fail(alloc, words, numbers);
    }
    if is(letter, b"s") {
        return read_split(words);
    }
    if is(letter, b"v") {
        return read_sol(alloc, words);
    }
    if is(letter, b"restart") {
        if !words.is_done() {
            return Err(EntryFault::Bad);
        }
        return Ok(Line::Restart);
    }
    Err(EntryFault::Bad)
}

/// Reads a line from its words. What the list of numbers holds doesn't matter.
pub fn read_words<W: Numbers>(
    alloc: Global,
    words: &mut Words<'_>,
    numbers: &mut Vec<i64>,
) -> Result<Entry<W>, EntryFault>
    ensures { ReadsWhole (entry_words W.numbers) (is_fit_entry W.is_valid) words.old result }
{
    let Some(first) = words.next() else {
        return Err(EntryFault::Bad);
    };
    if is(first, b"schedlog") {
        let version = if words.take(b"1") {
            Version::One
        } else if words.take(b"2") {
            Version::Two
        } else {
            return Err(EntryFault::Bad);
        };
        if !words.is_done() {
            return Err(EntryFault::Bad);
        }
        return Ok(Entry::Head(version));
    }
    if is(first, b"end") {
        if !words.is_done() {
            return Err(EntryFault::Bad);
        }
        return Ok(Entry::Finish);
    }
    match read_step(alloc, first, words, numbers) {
        Ok(line) => Ok(Entry::Step(line)),
        Err(fault) => Err(fault),
    }
}
