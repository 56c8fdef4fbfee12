//! The drawings of state functions.
ghost use Rattle.std.specs.Prelude.{◌≡◌, ◌++◌, OnOk, pos};
ghost use Rattle.std.specs.List.{flat_map};
ghost use Rattle.svg_page.specs.Axis.{lasting};
ghost use Rattle.svg_page.specs.States.{segment_box, segment_name, segments_at, state, state_drawing, state_label, states};

use crate::axis::{Axis, axis_length, place, width};
use crate::bars::{push_outline, push_told};
use crate::text::{
    Room, Scale, push, push_framed, push_group, push_label, push_number, push_scaled,
};
use sched_base::NoMemory;
use sched_model::{Assignment, Model, Segment, StateDef};
use std::alloc::Global;

/// The box of a segment.
fn push_segment_box(page: &mut Vec<u8>, s: Segment) -> Result<(), NoMemory>
    ensures { OnOk result (page.new.items ≡ page.old.items ++ segment_box s) }
{
    push_outline(page, u128::from(s.v.unsigned_abs() % 8), s.p, s.q, 0)?;
    push_number(page, b"", s.v)?;
    push_told(page, s.p, s.q)
}

fn push_segment_boxes(page: &mut Vec<u8>, segments: &[Segment]) -> Result<(), NoMemory>
    ensures { OnOk result (page.new.items ≡ page.old.items ++ flat_map segment_box segments.now) }
{
    for s in segments {
        push_segment_box(page, *s)?;
    }
    Ok(())
}

/// The number of a segment's state.
fn push_segment_name(
    page: &mut Vec<u8>,
    alloc: Global,
    axis: Axis,
    s: Segment,
) -> Result<(), NoMemory>
    ensures { OnOk result (page.new.items ≡ page.old.items ++ segment_name axis s) }
{
    let mut text = Vec::new(alloc);
    push_number(&mut text, b"", s.v)?;
    let room = Room {
        x: place(axis, s.p),
        y: 0,
        width: width(axis, s.p, s.q),
        height: 28,
    };
    push_framed(page, room, text.as_slice())
}

fn push_segment_names(
    page: &mut Vec<u8>,
    alloc: Global,
    axis: Axis,
    segments: &[Segment],
) -> Result<(), NoMemory>
    ensures { OnOk result (page.new.items ≡ page.old.items ++ flat_map (segment_name axis) segments.now) }
{
    for s in segments {
        push_segment_name(page, alloc, axis, *s)?;
    }
    Ok(())
}

fn segments_at(a: &Assignment, k: usize) -> &[Segment]
    ensures { result.now ≡ segments_at a.now k }
{
    match a.segs.as_slice().get(k) {
        None => &[],
        Some(segments) => segments.as_slice(),
    }
}

fn scale_of(axis: Axis) -> Scale
    ensures { result ≡ record { height = 28; left = axis.from; top = pos 0; width = lasting axis.from axis.to; units = pos 1 } }
{
    Scale {
        height: 28,
        left: axis.from,
        top: 0,
        width: axis_length(axis),
        units: 1,
    }
}

fn push_state_drawing(
    page: &mut Vec<u8>,
    alloc: Global,
    axis: Axis,
    k: usize,
    segments: &[Segment],
) -> Result<(), NoMemory>
    ensures { OnOk result (page.new.items ≡ page.old.items ++ state_drawing axis k segments.now) }
{
    push_group(page, 160, 36 * k as u128)?;
    push_scaled(page, scale_of(axis))?;
    push_segment_boxes(page, segments)?;
    push(page, b"</svg>\n")?;
    push_segment_names(page, alloc, axis, segments)?;
    push(page, b"</g>\n")
}

fn push_state_label(page: &mut Vec<u8>, k: usize, d: &StateDef) -> Result<(), NoMemory>
    ensures { OnOk result (page.new.items ≡ page.old.items ++ state_label k d.now) }
{
    let room = Room {
        x: 0,
        y: 0,
        width: 150,
        height: 28,
    };
    push_group(page, 5, 36 * k as u128)?;
    push_label(page, room, d.name.as_slice())?;
    push(page, b"</g>\n")
}

fn push_state(
    page: &mut Vec<u8>,
    alloc: Global,
    a: &Assignment,
    axis: Axis,
    k: usize,
    d: &StateDef,
) -> Result<(), NoMemory>
    ensures { OnOk result (page.new.items ≡ page.old.items ++ state a.now axis k d.now) }
{
    push_state_drawing(page, alloc, axis, k, segments_at(a, k))?;
    push_state_label(page, k, d)
}

/// The drawings of all state functions.
pub fn push_states(
    page: &mut Vec<u8>,
    alloc: Global,
    model: &Model,
    a: &Assignment,
    axis: Axis,
) -> Result<(), NoMemory>
    ensures { OnOk result (page.new.items ≡ page.old.items ++ states model.now a.now axis) }
{
    let defs = model.states();
    for k in 0..defs.len() {
        push_state(page, alloc, a, axis, k, &defs[k])?;
    }
    Ok(())
}
