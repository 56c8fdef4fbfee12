ghost use Rattle.std.specs.Prelude.{codes};
ghost use Rattle.kernel.specs.Fit.{is_id, is_fit_segment, is_fit_order, are_fit_segments, is_fit_slot, is_fit_assignment};
ghost use Rattle.logtext.specs.Spelling.{slot_words, order_words, segment_words, segments_words, assignment_words};
ghost use Rattle.logtext.specs.code.Reads.{Takes, Reads, ReadsRow, ReadsNext, ReadsWhole, BeginsWith, BeginsSlot, are_so_many, ids_words, rows_words, counted_ids, counted_segments};

use crate::entry::EntryFault;
use crate::value::{take_count, take_id, take_moment};
use sched_base::{Itv, List};
use sched_model::{Assignment, Segment, Slot};
use std::alloc::Global;
use textline::Words;

/// Reads so many numbers of intervals. They take room as they come, whatever their count says.
fn read_ids(alloc: Global, count: u32, words: &mut Words<'_>) -> Result<List<Itv>, EntryFault>
    ensures { Reads ids_words (are_so_many count is_id) words.old words.new result }
{
    let mut ids = List::new(alloc);
    for _i in 0..count {
        let Some(x) = take_id(words) else {
            return Err(EntryFault::Bad);
        };
        ids.push(x)?;
    }
    Ok(ids)
}

/// Takes the start, the end and the state of a segment.
fn take_segment(words: &mut Words<'_>) -> Option<Segment>
    ensures { Takes segment_words is_fit_segment words.old words.new result }
{
    let Some(p) = take_moment(words) else {
        return None;
    };
    let Some(q) = take_moment(words) else {
        return None;
    };
    let Some(v) = take_moment(words) else {
        return None;
    };
    Some(Segment { p, q, v })
}

/// Reads so many segments. They take room as they come, whatever their count says.
fn read_segments(
    alloc: Global,
    count: u32,
    words: &mut Words<'_>,
) -> Result<List<Segment>, EntryFault>
    ensures { Reads rows_words (are_so_many count is_fit_segment) words.old words.new result }
{
    let mut segments = List::new(alloc);
    for _i in 0..count {
        let Some(segment) = take_segment(words) else {
            return Err(EntryFault::Bad);
        };
        segments.push(segment)?;
    }
    Ok(segments)
}

/// Reads the count and the members of a sequence.
fn read_order(alloc: Global, words: &mut Words<'_>) -> Result<List<Itv>, EntryFault>
    ensures { Reads counted_ids is_fit_order words.old words.new result }
{
    let Some(count) = take_count(words) else {
        return Err(EntryFault::Bad);
    };
    read_ids(alloc, count, words)
}

/// Reads the count and the segments of a state function.
fn read_function(alloc: Global, words: &mut Words<'_>) -> Result<List<Segment>, EntryFault>
    ensures { Reads counted_segments are_fit_segments words.old words.new result }
{
    let Some(count) = take_count(words) else {
        return Err(EntryFault::Bad);
    };
    read_segments(alloc, count, words)
}

/// Reads the next slot; none where the next word begins none.
fn next_slot(words: &mut Words<'_>) -> Result<Option<Slot>, EntryFault>
    ensures { ReadsNext slot_words is_fit_slot BeginsSlot words.old words.new result }
{
    if words.take(b"a") {
        return Ok(Some(Slot::Absent));
    }
    if !words.take(b"p") {
        return Ok(None);
    }
    let Some(s) = take_moment(words) else {
        return Err(EntryFault::Bad);
    };
    let Some(e) = take_moment(words) else {
        return Err(EntryFault::Bad);
    };
    Ok(Some(Slot::Present { s, e }))
}

/// Reads slots as far as they go on.
fn read_slots(alloc: Global, words: &mut Words<'_>) -> Result<List<Slot>, EntryFault>
    ensures { ReadsRow slot_words is_fit_slot BeginsSlot words.old words.new result }
{
    let mut slots = List::new(alloc);
    loop {
        match next_slot(words) {
            Ok(Some(slot)) => slots.push(slot)?,
            Ok(None) => return Ok(slots),
            Err(fault) => return Err(fault),
        }
    }
}

/// Reads the next order; none where the next word begins none.
fn next_order(alloc: Global, words: &mut Words<'_>) -> Result<Option<List<Itv>>, EntryFault>
    ensures { ReadsNext order_words is_fit_order (BeginsWith (codes "o")) words.old words.new result }
{
    if !words.take(b"o") {
        return Ok(None);
    }
    match read_order(alloc, words) {
        Ok(order) => Ok(Some(order)),
        Err(fault) => Err(fault),
    }
}

/// Reads orders as far as they go on.
fn read_orders(alloc: Global, words: &mut Words<'_>) -> Result<List<List<Itv>>, EntryFault>
    ensures { ReadsRow order_words is_fit_order (BeginsWith (codes "o")) words.old words.new result }
{
    let mut orders = List::new(alloc);
    loop {
        match next_order(alloc, words) {
            Ok(Some(order)) => orders.push(order)?,
            Ok(None) => return Ok(orders),
            Err(fault) => return Err(fault),
        }
    }
}

/// Reads the segments of the next state function; none where the next word begins none.
fn next_function(alloc: Global, words: &mut Words<'_>) -> Result<Option<List<Segment>>, EntryFault>
    ensures { ReadsNext segments_words are_fit_segments (BeginsWith (codes "g")) words.old words.new result }
{
    if !words.take(b"g") {
        return Ok(None);
    }
    match read_function(alloc, words) {
        Ok(segments) => Ok(Some(segments)),
        Err(fault) => Err(fault),
    }
}

/// Reads the segments of state functions as far as they go on.
fn read_functions(alloc: Global, words: &mut Words<'_>) -> Result<List<List<Segment>>, EntryFault>
    ensures { ReadsRow segments_words are_fit_segments (BeginsWith (codes "g")) words.old words.new result }
{
    let mut functions = List::new(alloc);
    loop {
        match next_function(alloc, words) {
            Ok(Some(segments)) => functions.push(segments)?,
            Ok(None) => return Ok(functions),
            Err(fault) => return Err(fault),
        }
    }
}

/// Reads an assignment of all the words.
pub fn read_assignment(alloc: Global, words: &mut Words<'_>) -> Result<Assignment, EntryFault>
    ensures { ReadsWhole assignment_words is_fit_assignment words.old result }
{
    let slots = match read_slots(alloc, words) {
        Ok(slots) => slots,
        Err(fault) => return Err(fault),
    };
    let orders = match read_orders(alloc, words) {
        Ok(orders) => orders,
        Err(fault) => return Err(fault),
    };
    let segs = match read_functions(alloc, words) {
        Ok(segs) => segs,
        Err(fault) => return Err(fault),
    };
    if !words.is_done() {
        return Err(EntryFault::Bad);
    }
    Ok(Assignment {
        slots,
        orders,
        segs,
    })
}
