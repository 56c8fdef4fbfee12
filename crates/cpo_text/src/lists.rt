//! Lists in square brackets, their items with commas between.
ghost use Rattle.cpo_text.specs.code.Lists.{items_at, listed_at, names_at, ints_at, rows_at, step_at, steps_at};
ghost use Rattle.cpo_text.specs.code.Gives.{ahead, Gives};

use crate::fault::Fault;
use crate::parts::{behind, copy, ended, int, int_before, name, sign};
use crate::place::Place;
use crate::tree::{Int, StepPair};
use sched_base::List;
use std::alloc::Global;

/// Reads the items of a list.
pub trait Reader {
    ghost use Rattle.std.specs.Prelude.{◌<◌, List, length, IfOk};
    ghost use Rattle.cpo_text.specs.Words.{Word};
    ghost use Rattle.cpo_text.specs.code.Rules.{Found};
    ghost use Rattle.cpo_text.specs.code.Gives.{ahead, Gives};

    type Item: Drop;

    ghost reading: { List Word → Found Self.Item };

    /// An item, and the place behind it, which is further on.
    fn read(alloc: Global, place: Place<'_>) -> Result<(Self::Item, Place<'_>), Fault>
        ensures item { Gives result (reading (ahead place.entry)) }
        ensures later { IfOk result (λ x. length (ahead x.1) < length (ahead place.entry)) };
}

/// One item or more.
fn items<R: Reader>(alloc: Global, place: Place<'_>) -> Result<(List<R::Item>, Place<'_>), Fault>
    ensures { Gives result (items_at R.reading (ahead place.entry)) }
{
    let mut items = List::new(alloc);
    let mut here = place;
    loop {
        let (item, rest) = R::read(alloc, here)?;
        items.push(item)?;
        match behind(b",", rest) {
            Some(next) => here = next,
            None => return Ok((items, rest)),
        }
    }
}

#[tactic(auto, unfolding(crate::specs::code::Lists::listed_at))]
fn listed<R: Reader>(alloc: Global, place: Place<'_>) -> Result<(List<R::Item>, Place<'_>), Fault>
    ensures { Gives result (listed_at R.reading (ahead place.entry)) }
{
    let open = sign(b"[", place)?;
    if let Some(rest) = behind(b"]", open) {
        return Ok((List::new(alloc), rest));
    }
    let (items, rest) = items::<R>(alloc, open)?;
    ended(items, b"]", rest)
}

/// Reads names.
struct NameReader;

impl Reader for NameReader {
    ghost use Rattle.cpo_text.specs.code.Rules.{name_at};

    type Item = List<u8>;

    ghost reading = { name_at };

    fn read(alloc: Global, place: Place<'_>) -> Result<(List<u8>, Place<'_>), Fault> {
        let (bytes, rest) = name(place)?;
        Ok((copy(alloc, bytes)?, rest))
    }
}

/// Reads numbers.
struct IntReader;

impl Reader for IntReader {
    ghost use Rattle.cpo_text.specs.code.Rules.{int_at};

    type Item = Int;

    ghost reading = { int_at };

    fn read(_: Global, place: Place<'_>) -> Result<(Int, Place<'_>), Fault> {
        int(place)
    }
}

/// Reads lists of numbers.
struct RowReader;

impl Reader for RowReader {
    ghost use Rattle.cpo_text.specs.code.Lists.{ints_at};

    type Item = List<Int>;

    ghost reading = { ints_at };

    fn read(alloc: Global, place: Place<'_>) -> Result<(List<Int>, Place<'_>), Fault> {
        ints(alloc, place)
    }
}

/// A moment and the value from there on, in square brackets.
#[tactic(auto, unfolding(crate::specs::code::Lists::step_at))]
fn step(place: Place<'_>) -> Result<(StepPair, Place<'_>), Fault>
    ensures { Gives result (step_at (ahead place.entry)) }
{
    let (moment, rest) = int_before(b",", sign(b"[", place)?)?;
    let (value, rest) = int_before(b"]", rest)?;
    Ok((StepPair { moment, value }, rest))
}

/// Reads moments and values.
struct StepReader;

impl Reader for StepReader {
    ghost use Rattle.cpo_text.specs.code.Lists.{step_at};

    type Item = StepPair;

    ghost reading = { step_at };

    fn read(_: Global, place: Place<'_>) -> Result<(StepPair, Place<'_>), Fault> {
        step(place)
    }
}

/// A list of names.
#[tactic(auto, unfolding(crate::specs::code::Lists::names_at))]
pub fn names(alloc: Global, place: Place<'_>) -> Result<(List<List<u8>>, Place<'_>), Fault>
    ensures { Gives result (names_at (ahead place.entry)) }
{
    listed::<NameReader>(alloc, place)
}

/// A list of numbers.
#[tactic(auto, unfolding(crate::specs::code::Lists::ints_at))]
pub fn ints(alloc: Global, place: Place<'_>) -> Result<(List<Int>, Place<'_>), Fault>
    ensures { Gives result (ints_at (ahead place.entry)) }
{
    listed::<IntReader>(alloc, place)
}

/// A list of lists of numbers.
#[tactic(auto, unfolding(crate::specs::code::Lists::rows_at))]
pub fn rows(alloc: Global, place: Place<'_>) -> Result<(List<List<Int>>, Place<'_>), Fault>
    ensures { Gives result (rows_at (ahead place.entry)) }
{
    listed::<RowReader>(alloc, place)
}

/// A list of moments and values.
#[tactic(auto, unfolding(crate::specs::code::Lists::steps_at))]
pub fn steps(alloc: Global, place: Place<'_>) -> Result<(List<StepPair>, Place<'_>), Fault>
    ensures { Gives result (steps_at (ahead place.entry)) }
{
    listed::<StepReader>(alloc, place)
}
