ghost use Rattle.std.specs.Prelude.{◌≡◌, ◌++◌, OnOk};
ghost use Rattle.std.specs.List.{flat_map};
ghost use Rattle.svg_page.specs.Bars.{bar, bar_of, bar_text, bars, lane_bars, order_at, outline, slot_at, told};
ghost use Rattle.svg_page.specs.Shades.{shade, shade_in};

use crate::lanes::Lane;
use crate::shades::{name_at, shade, shade_in};
use crate::text::{push, push_count, push_name, push_number};
use sched_base::{Itv, NoMemory};
use sched_model::{Assignment, Model, Slot};

pub fn push_outline(
    page: &mut Vec<u8>,
    shade: u128,
    s: i64,
    e: i64,
    row: usize,
) -> Result<(), NoMemory>
    ensures { OnOk result (page.new.items ≡ page.old.items ++ outline shade s e row) }
{
    push_count(page, b"<path class='c", shade)?;
    push_number(page, b"' d='M", s)?;
    push_count(page, b" ", row as u128)?;
    push_number(page, b".1H", e)?;
    push_number(page, b"v.8H", s)?;
    push(page, b"z'><title>")
}

pub fn push_told(page: &mut Vec<u8>, s: i64, e: i64) -> Result<(), NoMemory>
    ensures { OnOk result (page.new.items ≡ page.old.items ++ told s e) }
{
    push_number(page, b" ", s)?;
    push_number(page, b" to ", e)?;
    push(page, b"</title></path>\n")
}

/// The bar of an interval.
fn push_bar_text(
    page: &mut Vec<u8>,
    shade: u128,
    s: i64,
    e: i64,
    row: usize,
    name: &[u8],
) -> Result<(), NoMemory>
    ensures { OnOk result (page.new.items ≡ page.old.items ++ bar_text shade s e row name.now) }
{
    push_outline(page, shade, s, e, row)?;
    push_name(page, name)?;
    push_told(page, s, e)
}

pub fn slot_at(a: &Assignment, i: usize) -> Slot
    ensures { result ≡ slot_at a.now i }
{
    let slots = a.slots.as_slice();
    slots.get(i).copied().unwrap_or(Slot::Absent)
}

pub fn order_at(a: &Assignment, i: usize) -> &[Itv]
    ensures { result.now ≡ order_at a.now i }
{
    match a.orders.as_slice().get(i) {
        None => &[],
        Some(order) => order.as_slice(),
    }
}

fn push_bar_of(
    page: &mut Vec<u8>,
    row: usize,
    shade: u128,
    name: &[u8],
    slot: Slot,
) -> Result<(), NoMemory>
    ensures { OnOk result (page.new.items ≡ page.old.items ++ bar_of row shade name.now slot) }
{
    match slot {
        Slot::Absent => Ok(()),
        Slot::Present { s, e } => push_bar_text(page, shade, s, e, row, name),
    }
}

fn push_bar(
    page: &mut Vec<u8>,
    model: &Model,
    a: &Assignment,
    row: usize,
    shade: u128,
    i: usize,
) -> Result<(), NoMemory>
    ensures { OnOk result (page.new.items ≡ page.old.items ++ bar model.now a.now row shade i) }
{
    push_bar_of(page, row, shade, name_at(model, i), slot_at(a, i))
}

fn push_order_bars(
    page: &mut Vec<u8>,
    model: &Model,
    a: &Assignment,
    row: usize,
    p: usize,
    order: &[Itv],
) -> Result<(), NoMemory>
    ensures { OnOk result (page.new.items ≡ page.old.items ++ flat_map (λ x. bar model.now a.now row (shade_in model.now p x.0) x.0) order.now) }
{
    for x in order {
        let i = x.0 as usize;
        push_bar(page, model, a, row, shade_in(model, p, i), i)?;
    }
    Ok(())
}

fn push_lane_bars(
    page: &mut Vec<u8>,
    model: &Model,
    a: &Assignment,
    row: usize,
    lane: Lane,
) -> Result<(), NoMemory>
    ensures { OnOk result (page.new.items ≡ page.old.items ++ lane_bars model.now a.now row lane) }
{
    match lane {
        Lane::Sequence(i) => push_order_bars(page, model, a, row, i, order_at(a, i)),
        Lane::Interval(i) => push_bar(page, model, a, row, shade(model, i), i),
    }
}

/// The bars of all rows.
pub fn push_bars(
    page: &mut Vec<u8>,
    model: &Model,
    a: &Assignment,
    lanes: &[Lane],
) -> Result<(), NoMemory>
    ensures { OnOk result (page.new.items ≡ page.old.items ++ bars model.now a.now lanes.now) }
{
    for k in 0..lanes.len() {
        push_lane_bars(page, model, a, k, lanes[k])?;
    }
    Ok(())
}
