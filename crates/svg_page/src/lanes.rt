ghost use Rattle.std.specs.Prelude.{◌≡◌, ◌++◌, ◌*◌, ◌<◌, ◌^◌, OnOk, IfOk};
ghost use Rattle.svg_page.specs.Texts.{numbered};
ghost use Rattle.svg_page.specs.Lanes.{absent, absent_at, is_listed, is_member, lanes, letter_size, row_height, sequence_lane, single_lane};
ghost use Rattle.sched_model.specs.Value.{is_here};

use sched_base::{Itv, NoMemory};
use sched_model::{Assignment, Model, SequenceDef, Slot};
use std::alloc::Global;

/// A row of the page: that of a sequence, or of an interval, by its place in the model.
#[derive(Clone, Copy, Debug, PartialEq, Eq)]
pub enum Lane {
    Sequence(usize),
    Interval(usize),
}

fn is_here(slot: Slot) -> bool
    ensures { result ≡ is_here slot }
{
    match slot {
        Slot::Absent => false,
        Slot::Present { s: _, e: _ } => true,
    }
}

fn push_sequence_lane(lanes: &mut Vec<Lane>, i: usize, d: &SequenceDef) -> Result<(), NoMemory>
    ensures { OnOk result (lanes.new.items ≡ lanes.old.items ++ sequence_lane i d.now) }
{
    if d.members.as_slice().is_empty() {
        return Ok(());
    }
    lanes.push(Lane::Sequence(i))?;
    Ok(())
}

fn push_sequence_lanes(lanes: &mut Vec<Lane>, defs: &[SequenceDef]) -> Result<(), NoMemory>
    ensures { OnOk result (lanes.new.items ≡ lanes.old.items ++ numbered sequence_lane 0 defs.now) }
{
    for i in 0..defs.len() {
        push_sequence_lane(lanes, i, &defs[i])?;
    }
    Ok(())
}

pub fn is_member(xs: &[Itv], i: usize) -> bool
    ensures { result ≡ is_member xs.now i }
{
    xs.iter().any(|x| x.0 as usize == i)
}

/// Whether some sequence has the interval.
fn is_listed(defs: &[SequenceDef], i: usize) -> bool
    ensures { result ≡ is_listed defs.now i }
{
    defs.iter().any(|d| is_member(d.members.as_slice(), i))
}

fn push_single_lane(
    lanes: &mut Vec<Lane>,
    defs: &[SequenceDef],
    i: usize,
    slot: Slot,
) -> Result<(), NoMemory>
    ensures { OnOk result (lanes.new.items ≡ lanes.old.items ++ single_lane defs.now i slot) }
{
    if !is_here(slot) || is_listed(defs, i) {
        return Ok(());
    }
    lanes.push(Lane::Interval(i))?;
    Ok(())
}

fn push_single_lanes(
    lanes: &mut Vec<Lane>,
    defs: &[SequenceDef],
    slots: &[Slot],
) -> Result<(), NoMemory>
    ensures { OnOk result (lanes.new.items ≡ lanes.old.items ++ numbered (single_lane defs.now) 0 slots.now) }
{
    for i in 0..slots.len() {
        push_single_lane(lanes, defs, i, slots[i])?;
    }
    Ok(())
}

/// The rows of a page: one for each sequence that has members, then one for each other interval that
/// is present.
pub fn lanes_of(alloc: Global, model: &Model, a: &Assignment) -> Result<Vec<Lane>, NoMemory>
    ensures { IfOk result (λ v. v.items ≡ lanes model.now a.now) }
{
    let mut lanes = Vec::new(alloc);
    push_sequence_lanes(&mut lanes, model.sequences())?;
    push_single_lanes(&mut lanes, model.sequences(), a.slots.as_slice())?;
    Ok(lanes)
}

fn push_absent_at(absent: &mut Vec<usize>, i: usize, slot: Slot) -> Result<(), NoMemory>
    ensures { OnOk result (absent.new.items ≡ absent.old.items ++ absent_at i slot) }
{
    if is_here(slot) {
        return Ok(());
    }
    absent.push(i)?;
    Ok(())
}

/// The intervals that are absent.
pub fn absent_of(alloc: Global, slots: &[Slot]) -> Result<Vec<usize>, NoMemory>
    ensures { IfOk result (λ v. v.items ≡ absent slots.now) }
{
    let mut absent = Vec::new(alloc);
    for i in 0..slots.len() {
        push_absent_at(&mut absent, i, slots[i])?;
    }
    Ok(absent)
}

/// The height of a row, by how many rows there are.
pub fn row_height(n: usize) -> u128
    ensures { result ≡ row_height n }
{
    if n <= 12 {
        return 34;
    }
    if n <= 40 {
        return 22;
    }
    14
}

/// The size of letters, by how many rows there are.
pub fn letter_size(n: usize) -> u128
    ensures { result ≡ letter_size n }
{
    if n <= 12 {
        return 13;
    }
    if n <= 40 {
        return 11;
    }
    9
}

/// How far down a row begins.
pub fn down_to(n: usize, row: usize) -> u128
    ensures value { result ≡ row * row_height n }
    ensures few { result < 2 ^ 72 }
{
    if n <= 12 {
        return row as u128 * 34;
    }
    if n <= 40 {
        return row as u128 * 22;
    }
    row as u128 * 14
}
