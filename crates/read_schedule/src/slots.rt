ghost use Rattle.std.specs.Prelude.{◌≡◌, ◌+ℤ◌, ◌-ℤ◌, true, int_le};
ghost use Rattle.std.specs.List.{list_all};
ghost use Rattle.textline.specs.Lines.{words_of};
ghost use Rattle.textline.specs.Words.{is_word};
ghost use Rattle.sched_model.specs.Domain.{fits_def};
ghost use Rattle.sched_model.specs.Valid.{IsValid, is_interval_def};
ghost use Rattle.sched_model.specs.Words.{is_between};
ghost use Rattle.sched_model.specs.declared.types.Slot.TheVariants.{Present};
ghost use Rattle.sched_text.specs.Answers.{slot_words};
ghost use Rattle.read_schedule.specs.code.Reads.{CanStand, EachCanStand, ReadsAll, ReadsRows, TakesRow, can_reach, is_spelled};
ghost use Rattle.read_schedule.specs.code.Rows.{slot_row};

use crate::lines::Lines;
use crate::stop::PartStop;
use crate::words::take_number;
use sched_base::List;
use sched_model::{IntervalDef, Model, Slot};
use std::alloc::Global;
use textline::Words;

fn starts_in(d: &IntervalDef, s: i64) -> bool
    ensures { result ≡ is_between d.now.start_lo d.now.start_hi s }
{
    d.start_lo <= s && s <= d.start_hi
}

fn ends_in(d: &IntervalDef, e: i64) -> bool
    ensures { result ≡ is_between d.now.end_lo d.now.end_hi e }
{
    d.end_lo <= e && e <= d.end_hi
}

fn lasts_in(d: &IntervalDef, s: i64, e: i64) -> bool
    ensures { result ≡ is_between d.now.size_lo d.now.size_hi (e -ℤ s) }
{
    let size = i128::from(e) - i128::from(s);
    if size < i128::from(d.size_lo) {
        return false;
    }
    size <= i128::from(d.size_hi)
}

#[tactic(auto, using(base_laws::specs::laws::Truth::second_fails, base_laws::specs::laws::Truth::third_decides))]
fn fits_ranges(d: &IntervalDef, s: i64, e: i64) -> bool
    ensures { result ≡ fits_def d.now (Present s e) }
{
    if !starts_in(d, s) {
        return false;
    }
    if !ends_in(d, e) {
        return false;
    }
    lasts_in(d, s, e)
}

fn fits(d: &IntervalDef, slot: Slot) -> bool
    ensures { result ≡ fits_def d.now slot }
{
    match slot {
        Slot::Absent => d.optional,
        Slot::Present { s, e } => fits_ranges(d, s, e),
    }
}

fn can_begin(d: &IntervalDef) -> bool
    ensures { result ≡ int_le (d.now.start_lo +ℤ d.now.size_lo) d.now.end_hi }
{
    i128::from(d.start_lo) + i128::from(d.size_lo) <= i128::from(d.end_hi)
}

fn can_end(d: &IntervalDef) -> bool
    ensures { result ≡ int_le d.now.end_lo (d.now.start_hi +ℤ d.now.size_hi) }
{
    i128::from(d.end_lo) <= i128::from(d.start_hi) + i128::from(d.size_hi)
}

/// Whether some end lies behind some start by a size of the range.
fn can_reach(d: &IntervalDef) -> bool
    ensures { result ≡ can_reach d.now }
{
    can_begin(d) && can_end(d)
}

/// Whether an interval has any slot.
fn can_stand(d: &IntervalDef) -> bool
    requires { is_interval_def d.now ≡ true }
    ensures { CanStand d.now result }
{
    if d.optional {
        return true;
    }
    can_reach(d)
}

fn each_of(defs: &[IntervalDef]) -> bool
    requires { list_all is_interval_def defs.now ≡ true }
    ensures { EachCanStand defs.now result }
{
    for d in defs {
        if !can_stand(d) {
            return false;
        }
    }
    true
}

/// Whether each interval has a slot, so that the model has an assignment in its domain.
pub fn each_can_stand(model: &Model) -> bool
    ensures stand { EachCanStand model.now.intervals result }
    ensures valid { IsValid model.now }
{
    each_of(model.intervals())
}

/// The slot that stands behind the name of an interval.
fn read_slot(words: &mut Words<'_>) -> Option<Slot>
    ensures { ReadsAll slot_words is_spelled words.old result }
{
    if words.take(b"absent") {
        if words.is_done() {
            return Some(Slot::Absent);
        }
        return None;
    }
    let Some(s) = take_number(words) else {
        return None;
    };
    let Some(e) = take_number(words) else {
        return None;
    };
    if words.is_done() {
        return Some(Slot::Present { s, e });
    }
    None
}

/// The slot in the words of an interval's line.
fn read_words(d: &IntervalDef, line: &[u8]) -> Option<Slot>
    ensures { ReadsAll (slot_row 0 d.now) is_spelled (words_of line.now) result }
{
    let mut words = Words::of(line);
    if !words.take(d.name.as_slice()) {
        return None;
    }
    read_slot(&mut words)
}

/// The slot in the next line.
fn next_slot(d: &IntervalDef, lines: &mut Lines<'_>) -> Option<Slot>
    requires def { is_interval_def d.now ≡ true }
    requires name { is_word d.now.name ≡ true }
    ensures { TakesRow (slot_row 0 d.now) (fits_def d.now) lines.old lines.new result }
{
    let Some(line) = lines.next() else {
        return None;
    };
    let Some(slot) = read_words(d, line) else {
        return None;
    };
    if fits(d, slot) {
        return Some(slot);
    }
    None
}

/// The slots, one line for each interval.
fn read_all(
    alloc: Global,
    defs: &[IntervalDef],
    lines: &mut Lines<'_>,
) -> Result<List<Slot>, PartStop>
    requires defs { list_all is_interval_def defs.now ≡ true }
    requires names { list_all (λ d. is_word d.name) defs.now ≡ true }
    ensures { ReadsRows slot_row fits_def defs.now lines.old lines.new result }
{
    let mut slots = List::new(alloc);
    for d in defs {
        let Some(slot) = next_slot(d, lines) else {
            return Err(PartStop::Line(slots.len()));
        };
        slots.push(slot)?;
    }
    Ok(slots)
}

/// Reads the lines of the intervals.
pub fn read_slots(
    alloc: Global,
    model: &Model,
    lines: &mut Lines<'_>,
) -> Result<List<Slot>, PartStop>
    ensures { ReadsRows slot_row fits_def model.now.intervals lines.old lines.new result }
{
    read_all(alloc, model.intervals(), lines)
}
