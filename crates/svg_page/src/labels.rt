//! Names of rows, of bars, and of intervals that are absent.
ghost use Rattle.std.specs.Prelude.{◌≡◌, ◌++◌, OnOk, IfOk};
ghost use Rattle.std.specs.List.{flat_map};
ghost use Rattle.svg_page.specs.Bars.{given_name, lane_name, absent_name, absent_names, bar_name, bar_name_of, bar_names, lane_bar_names, lane_label, lane_labels};

use crate::axis::{Axis, place, width};
use crate::bars::{order_at, slot_at};
use crate::lanes::{Lane, down_to, row_height};
use crate::places::sequence_name;
use crate::shades::name_at;
use crate::text::{Room, push_count, push_framed, push_label};
use sched_base::{Itv, NoMemory};
use sched_model::{Assignment, Model, Name, Slot};
use std::alloc::Global;

/// An axis, and how many rows there are.
#[derive(Clone, Copy, Debug)]
pub struct Frame {
    pub axis: Axis,
    pub rows: usize,
}

fn push_bar_name_of(
    page: &mut Vec<u8>,
    frame: Frame,
    row: usize,
    name: &[u8],
    slot: Slot,
) -> Result<(), NoMemory>
    ensures { OnOk result (page.new.items ≡ page.old.items ++ bar_name_of frame.axis frame.rows row name.now slot) }
{
    match slot {
        Slot::Absent => Ok(()),
        Slot::Present { s, e } => {
            let room = Room {
                x: place(frame.axis, s),
                y: down_to(frame.rows, row),
                width: width(frame.axis, s, e),
                height: row_height(frame.rows),
            };
            push_framed(page, room, name)
        }
    }
}

fn push_bar_name(
    page: &mut Vec<u8>,
    model: &Model,
    a: &Assignment,
    frame: Frame,
    row: usize,
    i: usize,
) -> Result<(), NoMemory>
    ensures { OnOk result (page.new.items ≡ page.old.items ++ bar_name model.now a.now frame.axis frame.rows row i) }
{
    push_bar_name_of(page, frame, row, name_at(model, i), slot_at(a, i))
}

fn push_order_names(
    page: &mut Vec<u8>,
    model: &Model,
    a: &Assignment,
    frame: Frame,
    row: usize,
    order: &[Itv],
) -> Result<(), NoMemory>
    ensures { OnOk result (page.new.items ≡ page.old.items ++ flat_map (λ x. bar_name model.now a.now frame.axis frame.rows row x.0) order.now) }
{
    for x in order {
        push_bar_name(page, model, a, frame, row, x.0 as usize)?;
    }
    Ok(())
}

fn push_lane_bar_names(
    page: &mut Vec<u8>,
    model: &Model,
    a: &Assignment,
    frame: Frame,
    row: usize,
    lane: Lane,
) -> Result<(), NoMemory>
    ensures { OnOk result (page.new.items ≡ page.old.items ++ lane_bar_names model.now a.now frame.axis frame.rows row lane) }
{
    match lane {
        Lane::Sequence(i) => push_order_names(page, model, a, frame, row, order_at(a, i)),
        Lane::Interval(i) => push_bar_name(page, model, a, frame, row, i),
    }
}

/// The names upon the bars of all rows.
pub fn push_bar_names(
    page: &mut Vec<u8>,
    model: &Model,
    a: &Assignment,
    frame: Frame,
    lanes: &[Lane],
) -> Result<(), NoMemory>
    ensures { OnOk result (page.new.items ≡ page.old.items ++ bar_names model.now a.now frame.axis lanes.now frame.rows) }
{
    for k in 0..lanes.len() {
        push_lane_bar_names(page, model, a, frame, k, lanes[k])?;
    }
    Ok(())
}

/// A name that a thing has, or its number where it has none.
pub fn given_name(alloc: Global, i: usize, name: &Option<Name>) -> Result<Vec<u8>, NoMemory>
    ensures { IfOk result (λ v. v.items ≡ given_name i name.now) }
{
    let mut bytes = Vec::new(alloc);
    match name {
        None => push_count(&mut bytes, b"#", i as u128)?,
        Some(name) => bytes.extend_from_slice(name.as_slice())?,
    }
    Ok(bytes)
}

fn lane_name(alloc: Global, model: &Model, lane: Lane) -> Result<Vec<u8>, NoMemory>
    ensures { IfOk result (λ v. v.items ≡ lane_name model.now lane) }
{
    match lane {
        Lane::Sequence(i) => match model.sequences().get(i) {
            None => Ok(Vec::new(alloc)),
            Some(d) => sequence_name(alloc, model, i, &d.name),
        },
        Lane::Interval(i) => {
            let name = Vec::from_slice(alloc, name_at(model, i))?;
            Ok(name)
        }
    }
}

fn push_lane_label(
    page: &mut Vec<u8>,
    alloc: Global,
    model: &Model,
    rows: usize,
    row: usize,
    lane: Lane,
) -> Result<(), NoMemory>
    ensures { OnOk result (page.new.items ≡ page.old.items ++ lane_label model.now rows row lane) }
{
    let room = Room {
        x: 0,
        y: down_to(rows, row),
        width: 150,
        height: row_height(rows),
    };
    let name = lane_name(alloc, model, lane)?;
    push_label(page, room, name.as_slice())
}

/// The names of all rows.
pub fn push_lane_labels(
    page: &mut Vec<u8>,
    alloc: Global,
    model: &Model,
    rows: usize,
    lanes: &[Lane],
) -> Result<(), NoMemory>
    ensures { OnOk result (page.new.items ≡ page.old.items ++ lane_labels model.now lanes.now rows) }
{
    for k in 0..lanes.len() {
        push_lane_label(page, alloc, model, rows, k, lanes[k])?;
    }
    Ok(())
}

fn push_absent_name(page: &mut Vec<u8>, model: &Model, k: usize, i: usize) -> Result<(), NoMemory>
    ensures { OnOk result (page.new.items ≡ page.old.items ++ absent_name model.now k i) }
{
    let room = Room {
        x: 160 * (k % 6) as u128,
        y: 18 * (k / 6) as u128,
        width: 155,
        height: 18,
    };
    push_label(page, room, name_at(model, i))
}

/// The names of intervals that are absent.
pub fn push_absent_names(
    page: &mut Vec<u8>,
    model: &Model,
    absent: &[usize],
) -> Result<(), NoMemory>
    ensures { OnOk result (page.new.items ≡ page.old.items ++ absent_names model.now absent.now) }
{
    for k in 0..absent.len() {
        push_absent_name(page, model, k, absent[k])?;
    }
    Ok(())
}
