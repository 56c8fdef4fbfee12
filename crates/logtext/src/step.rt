ghost use Rattle.std.specs.Prelude.{◌<◌, ◌^◌, pos, [], ◌∷◌};
ghost use Rattle.kernel.specs.Fit.{is_fit_guess, is_fit_witness};
ghost use Rattle.logtext.specs.Spelling.{guess_words, witness_words};
ghost use Rattle.logtext.specs.code.Reads.{Takes, ReadsWhole, ReadsNumbers, ReadsValue, extra_words};

use crate::entry::EntryFault;
use crate::kinds::{basic_place, cumul_place, hier_place, seq_place, state_place};
use crate::value::{is, take_bound, take_count, take_id, take_moment, take_pair};
use kernel::Witness;
use region::{Guess, Numbers};
use std::alloc::Global;
use textline::Words;

/// Takes a guess, whose first word tells its form.
pub fn take_guess(words: &mut Words<'_>) -> Option<Guess>
    ensures { Takes guess_words is_fit_guess words.old words.new result }
{
    let form = words.next()?;
    if is(form, b"P") {
        let x = take_id(words)?;
        return Some(Guess::Present(x));
    }
    if is(form, b"A") {
        let x = take_id(words)?;
        return Some(Guess::Absent(x));
    }
    if is(form, b"SL") {
        let (x, t) = take_bound(words)?;
        return Some(Guess::StartLe(x, t));
    }
    if is(form, b"SG") {
        let (x, t) = take_bound(words)?;
        return Some(Guess::StartGe(x, t));
    }
    if is(form, b"EL") {
        let (x, t) = take_bound(words)?;
        return Some(Guess::EndLe(x, t));
    }
    if is(form, b"EG") {
        let (x, t) = take_bound(words)?;
        return Some(Guess::EndGe(x, t));
    }
    if is(form, b"B") {
        let (p, x, y) = take_pair(words)?;
        return Some(Guess::Before(p, x, y));
    }
    None
}

/// Puts all the numbers that are left behind those at hand. They take room as they come.
fn read_numbers(words: &mut Words<'_>, numbers: &mut Vec<i64>) -> Result<(), EntryFault>
    ensures { ReadsNumbers words.old numbers.old.items numbers.new.items result }
{
    while !words.is_done() {
        let Some(z) = take_moment(words) else {
            return Err(EntryFault::Bad);
        };
        if numbers.push(z).is_err() {
            return Err(EntryFault::NoMemory);
        }
    }
    Ok(())
}

/// Reads the value whose numbers are those at hand, and then all that are left.
fn read_value<W: Numbers>(
    alloc: Global,
    words: &mut Words<'_>,
    numbers: &mut Vec<i64>,
) -> Result<W, EntryFault>
    ensures { ReadsValue W.numbers W.is_valid numbers.old.items words.old result }
{
    match read_numbers(words, numbers) {
        Ok(()) => {}
        Err(fault) => return Err(fault),
    }
    let Some(w) = W::from_numbers(alloc, numbers.as_slice())? else {
        return Err(EntryFault::Bad);
    };
    Ok(w)
}

/// Reads the numbers of a witness, behind the word of the kind at this place.
fn read_kind<W: Numbers>(
    alloc: Global,
    place: usize,
    words: &mut Words<'_>,
    numbers: &mut Vec<i64>,
) -> Result<W, EntryFault>
    requires { place < 2 ^ 32 }
    ensures { ReadsValue W.numbers W.is_valid (pos place ∷ []) words.old result }
{
    numbers.clear();
    if numbers.push(place as i64).is_err() {
        return Err(EntryFault::NoMemory);
    }
    read_value(alloc, words, numbers)
}

/// Reads the count and the numbers of an extra witness.
fn read_extra<W: Numbers>(
    alloc: Global,
    words: &mut Words<'_>,
    numbers: &mut Vec<i64>,
) -> Result<W, EntryFault>
    ensures { ReadsWhole (extra_words W.numbers) W.is_valid words.old result }
{
    let Some(count) = take_count(words) else {
        return Err(EntryFault::Bad);
    };
    numbers.clear();
    let w: W = match read_value(alloc, words, numbers) {
        Ok(w) => w,
        Err(fault) => return Err(fault),
    };
    if w.count() != count as usize {
        return Err(EntryFault::Bad);
    }
    Ok(w)
}

/// Reads a witness, whose first word tells its kind.
pub fn read_witness<W: Numbers>(
    alloc: Global,
    words: &mut Words<'_>,
    numbers: &mut Vec<i64>,
) -> Result<Witness<W>, EntryFault>
    ensures { ReadsWhole (witness_words W.numbers) (is_fit_witness W.is_valid) words.old result }
{
    let Some(kind) = words.next() else {
        return Err(EntryFault::Bad);
    };
    if let Some(place) = basic_place(kind) {
        return match read_kind(alloc, place, words, numbers) {
            Ok(w) => Ok(Witness::Basic(w)),
            Err(fault) => Err(fault),
        };
    }
    if let Some(place) = hier_place(kind) {
        return match read_kind(alloc, place, words, numbers) {
            Ok(w) => Ok(Witness::Hier(w)),
            Err(fault) => Err(fault),
        };
    }
    if let Some(place) = seq_place(kind) {
        return match read_kind(alloc, place, words, numbers) {
            Ok(w) => Ok(Witness::Seq(w)),
            Err(fault) => Err(fault),
        };
    }
    if let Some(place) = cumul_place(kind) {
        return match read_kind(alloc, place, words, numbers) {
            Ok(w) => Ok(Witness::Cumul(w)),
            Err(fault) => Err(fault),
        };
    }
    if let Some(place) = state_place(kind) {
        return match read_kind(alloc, place, words, numbers) {
            Ok(w) => Ok(Witness::State(w)),
            Err(fault) => Err(fault),
        };
    }
    if is(kind, b"EXTRA") {
        return match read_extra(alloc, words, numbers) {
            Ok(w) => Ok(Witness::Extra(w)),
            Err(fault) => Err(fault),
        };
    }
    Err(EntryFault::Bad)
}
