ghost use Rattle.std.specs.Prelude.{◌≡◌, ◌↔◌, [], true, IsTrue};
ghost use Rattle.sched_model.specs.Valid.{IsValid};
ghost use Rattle.read_schedule.specs.code.Reads.{EachCanStand, ReadsBody, TakesEnd};
ghost use Rattle.read_schedule.specs.Schedules.{Reads};

use crate::assignment::some_assignment;
use crate::fault::ScheduleFault;
use crate::header::take_header;
use crate::index::index_of;
use crate::lines::Lines;
use crate::orders::read_orders;
use crate::slots::{each_can_stand, read_slots};
use crate::states::read_states;
use crate::stop::PartStop;
use sched_model::{Assignment, Model};
use std::alloc::Global;

fn is(word: &[u8], other: &[u8]) -> bool
    ensures { IsTrue result ↔ (word.now ≡ other.now) }
{
    word == other
}

fn is_empty(bytes: &[u8]) -> bool
    ensures { IsTrue result ↔ (bytes.now ≡ []) }
{
    bytes.is_empty()
}

/// Whether the last line comes next, and nothing behind it.
fn read_end(lines: &mut Lines<'_>) -> Option<usize>
    ensures { TakesEnd lines.old result }
{
    let Some(line) = lines.next() else {
        return Some(0);
    };
    if !is(line, b"end") {
        return Some(0);
    }
    if is_empty(lines.rest()) {
        return None;
    }
    Some(1)
}

/// Reads all lines behind a header.
fn read_body(alloc: Global, model: &Model, lines: &mut Lines<'_>) -> Result<Assignment, PartStop>
    requires stand { EachCanStand model.now.intervals true }
    requires valid { IsValid model.now }
    ensures { ReadsBody model.now lines.old result }
{
    let slots = read_slots(alloc, model, lines)?;
    let index = index_of(alloc, model)?;
    let a = some_assignment(alloc, model, slots)?;
    let before = model.intervals().len();
    let (a, orders) = match read_orders(alloc, model, &index, a, lines) {
        Ok(read) => read,
        Err(PartStop::Line(n)) => return Err(PartStop::Line(before + n)),
        Err(PartStop::NoMemory) => return Err(PartStop::NoMemory),
    };
    let before = before + model.sequences().len();
    let (a, segs) = match read_states(alloc, model, a, lines) {
        Ok(read) => read,
        Err(PartStop::Line(n)) => return Err(PartStop::Line(before + n)),
        Err(PartStop::NoMemory) => return Err(PartStop::NoMemory),
    };
    let before = before + model.states().len();
    match read_end(lines) {
        None => Ok(Assignment {
            slots: a.slots,
            orders,
            segs,
        }),
        Some(n) => Err(PartStop::Line(before + n)),
    }
}

/// Reads a schedule text of a model: a header of two lines or none, a line for each interval, each
/// sequence and each state function, and `end`. It gives the one assignment that the text spells,
/// which is in the domain, or the first line that can't be continued to a schedule text. Where each
/// whole line can be, the line behind these is the one: it is missing, or has no line feed.
pub fn read_schedule(
    alloc: Global,
    model: &Model,
    bytes: &[u8],
) -> Result<Assignment, ScheduleFault>
    ensures { Reads model.now bytes.now result }
{
    if !each_can_stand(model) {
        return Err(ScheduleFault::Refused { line: 1 });
    }
    let mut lines = Lines::of(bytes);
    let Some(header) = take_header(&mut lines) else {
        return Err(ScheduleFault::Refused { line: 2 });
    };
    match read_body(alloc, model, &mut lines) {
        Ok(a) => Ok(a),
        Err(PartStop::Line(n)) => Err(ScheduleFault::Refused {
            line: (header + n + 1) as u32,
        }),
        Err(PartStop::NoMemory) => Err(ScheduleFault::NoMemory),
    }
}
