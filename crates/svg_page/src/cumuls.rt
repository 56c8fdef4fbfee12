//! The drawings of cumulative functions.
ghost use Rattle.std.specs.Prelude.{◌≡◌, ◌++◌, [], OnOk, fold};
ghost use Rattle.std.specs.List.{flat_map};
ghost use Rattle.svg_page.specs.Axis.{lasting};
ghost use Rattle.svg_page.specs.Bars.{given_name};
ghost use Rattle.svg_page.specs.Profiles.{profile_at};
ghost use Rattle.svg_page.specs.Texts.{label, number};
ghost use Rattle.svg_page.specs.Cumuls.{above, area_during, area_if, area_over, area_text, areas, areas_of, beneath, both_areas, bound_in, cumul, cumul_drawing, cumul_names, cumul_of, cumuls, over_bound, over_step, profile_text, reach_of, shown, step_text, top_of, units_of, widened};

use crate::axis::{Axis, axis_length};
use crate::bars::slot_at;
use crate::labels::given_name;
use crate::profiles::Step;
use crate::text::{
    Room, Scale, push, push_group, push_label, push_level, push_number, push_scaled,
};
use sched_base::{Cum, List, NoMemory};
use sched_model::{Assignment, Constraint, CumulDef, Model, Slot, Window};
use std::alloc::Global;

/// How far down and up the drawing of a function reaches.
#[derive(Clone, Copy, Debug, PartialEq, Eq)]
pub struct Reach {
    pub low: i64,
    pub high: i64,
}

/// The bounds of a function in a window.
#[derive(Clone, Copy, Debug, PartialEq, Eq)]
pub struct Bound {
    pub f: Cum,
    pub window: Window,
    pub lo: i64,
    pub hi: i64,
}

/// What is so far, and further, is no level.
const FAR: i128 = 1_000_000_000_000;

/// A level that a page can show; a bound that is further stands for none.
fn shown(v: i128) -> Option<i64>
    ensures { result ≡ shown v }
{
    if v <= -FAR {
        return None;
    }
    if FAR <= v {
        return None;
    }
    Some(v as i64)
}

fn widened(r: Reach, v: Option<i64>) -> Reach
    ensures { result ≡ widened r v }
{
    match v {
        None => r,
        Some(v) => Reach {
            low: r.low.min(v),
            high: r.high.max(v),
        },
    }
}

fn over_step(r: Reach, s: Step) -> Reach
    ensures { result ≡ over_step r s }
{
    widened(r, shown(s.level))
}

fn bound_in(c: &Constraint) -> Option<Bound>
    ensures { result ≡ bound_in c.now }
{
    match c {
        Constraint::CumulIn { f, window, lo, hi } => Some(Bound {
            f: *f,
            window: *window,
            lo: *lo,
            hi: *hi,
        }),
        _ => None,
    }
}

fn lower(b: Bound) -> Option<i64>
    ensures { result ≡ shown b.lo }
{
    shown(i128::from(b.lo))
}

fn upper(b: Bound) -> Option<i64>
    ensures { result ≡ shown b.hi }
{
    shown(i128::from(b.hi))
}

fn over_bound(k: usize, r: Reach, c: &Constraint) -> Reach
    ensures { result ≡ over_bound k r c.now }
{
    match bound_in(c) {
        None => r,
        Some(b) => {
            if b.f.0 as usize != k {
                return r;
            }
            widened(widened(r, lower(b)), upper(b))
        }
    }
}

fn over_bounds(k: usize, r: Reach, constraints: &[Constraint]) -> Reach
    ensures { result ≡ fold (over_bound k) r constraints.now }
{
    let mut reach = r;
    for c in constraints {
        reach = over_bound(k, reach, c);
    }
    reach
}

fn over_steps(r: Reach, steps: &[Step]) -> Reach
    ensures { result ≡ fold over_step r steps.now }
{
    let mut reach = r;
    for s in steps {
        reach = over_step(reach, *s);
    }
    reach
}

/// How far the drawing of a function reaches: over all its levels and bounds.
fn reach_of(k: usize, constraints: &[Constraint], steps: &[Step]) -> Reach
    ensures { result ≡ reach_of k constraints.now steps.now }
{
    over_steps(
        over_bounds(k, Reach { low: 0, high: 1 }, constraints),
        steps,
    )
}

fn push_step_text(page: &mut Vec<u8>, s: Step) -> Result<(), NoMemory>
    ensures { OnOk result (page.new.items ≡ page.old.items ++ step_text s) }
{
    push_number(page, b"H", s.t)?;
    push_level(page, b"V", s.level)
}

fn push_step_texts(page: &mut Vec<u8>, steps: &[Step]) -> Result<(), NoMemory>
    ensures { OnOk result (page.new.items ≡ page.old.items ++ flat_map step_text steps.now) }
{
    for s in steps {
        push_step_text(page, *s)?;
    }
    Ok(())
}

/// The line of the levels.
fn push_profile(page: &mut Vec<u8>, axis: Axis, steps: &[Step]) -> Result<(), NoMemory>
    ensures { OnOk result (page.new.items ≡ page.old.items ++ profile_text axis steps.now) }
{
    push_number(page, b"<path class='p' d='M", axis.from)?;
    push(page, b" 0")?;
    push_step_texts(page, steps)?;
    push_number(page, b"H", axis.to)?;
    push(page, b"V0z'/>\n")
}

fn push_area(page: &mut Vec<u8>, s: i64, e: i64, v: i64, edge: i128) -> Result<(), NoMemory>
    ensures { OnOk result (page.new.items ≡ page.old.items ++ area_text s e v edge) }
{
    push_number(page, b"<path class='b' d='M", s)?;
    push_number(page, b" ", v)?;
    push_number(page, b"H", e)?;
    push_level(page, b"V", edge)?;
    push_number(page, b"H", s)?;
    push(page, b"z'/>\n")
}

fn push_area_during(page: &mut Vec<u8>, slot: Slot, v: i64, edge: i128) -> Result<(), NoMemory>
    ensures { OnOk result (page.new.items ≡ page.old.items ++ area_during slot v edge) }
{
    match slot {
        Slot::Absent => Ok(()),
        Slot::Present { s, e } => push_area(page, s, e, v, edge),
    }
}

/// The area beyond a bound, over its window.
fn push_area_over(
    page: &mut Vec<u8>,
    axis: Axis,
    a: &Assignment,
    window: Window,
    v: i64,
    edge: i128,
) -> Result<(), NoMemory>
    ensures { OnOk result (page.new.items ≡ page.old.items ++ area_over axis a.now window v edge) }
{
    match window {
        Window::Always => push_area(page, axis.from, axis.to, v, edge),
        Window::Moments { u, v: until } => push_area(page, u, until, v, edge),
        Window::During(x) => push_area_during(page, slot_at(a, x.0 as usize), v, edge),
    }
}

fn push_area_if(
    page: &mut Vec<u8>,
    axis: Axis,
    a: &Assignment,
    window: Window,
    v: Option<i64>,
    edge: i128,
) -> Result<(), NoMemory>
    ensures { OnOk result (page.new.items ≡ page.old.items ++ area_if axis a.now window v edge) }
{
    match v {
        None => Ok(()),
        Some(v) => push_area_over(page, axis, a, window, v, edge),
    }
}

/// A level above the drawing.
fn above(r: Reach) -> i128
    ensures { result ≡ above r }
{
    i128::from(r.high) + (i128::from(r.high) - i128::from(r.low))
}

/// A level beneath the drawing.
fn beneath(r: Reach) -> i128
    ensures { result ≡ beneath r }
{
    i128::from(r.low) - (i128::from(r.high) - i128::from(r.low))
}

fn push_both_areas(
    page: &mut Vec<u8>,
    axis: Axis,
    a: &Assignment,
    r: Reach,
    b: Bound,
) -> Result<(), NoMemory>
    ensures { OnOk result (page.new.items ≡ page.old.items ++ both_areas axis a.now r b) }
{
    push_area_if(page, axis, a, b.window, lower(b), beneath(r))?;
    push_area_if(page, axis, a, b.window, upper(b), above(r))
}

/// The areas that a constraint forbids to a function.
fn push_areas_of(
    page: &mut Vec<u8>,
    axis: Axis,
    a: &Assignment,
    k: usize,
    r: Reach,
    bound: Option<Bound>,
) -> Result<(), NoMemory>
    ensures { OnOk result (page.new.items ≡ page.old.items ++ areas_of axis a.now k r bound) }
{
    match bound {
        None => Ok(()),
        Some(b) => {
            if b.f.0 as usize != k {
                return Ok(());
            }
            push_both_areas(page, axis, a, r, b)
        }
    }
}

fn push_all_areas(
    page: &mut Vec<u8>,
    axis: Axis,
    a: &Assignment,
    k: usize,
    r: Reach,
    constraints: &[Constraint],
) -> Result<(), NoMemory>
    ensures { OnOk result (page.new.items ≡ page.old.items ++ flat_map (areas axis a.now k r) constraints.now) }
{
    for c in constraints {
        push_areas_of(page, axis, a, k, r, bound_in(c))?;
    }
    Ok(())
}

fn top_of(r: Reach) -> i128
    ensures { result ≡ top_of r }
{
    (i128::from(r.low) - i128::from(r.high)) - 8 * i128::from(r.high)
}

fn units_of(r: Reach) -> i128
    ensures { result ≡ units_of r }
{
    10 * (i128::from(r.high) - i128::from(r.low))
}

fn scale_of(axis: Axis, r: Reach) -> Scale
    ensures { result ≡ record { height = 80; left = axis.from; top = top_of r; width = lasting axis.from axis.to; units = units_of r } }
{
    Scale {
        height: 80,
        left: axis.from,
        top: top_of(r),
        width: axis_length(axis),
        units: units_of(r),
    }
}

/// The levels and the bounds of a function.
fn push_cumul_drawing(
    page: &mut Vec<u8>,
    model: &Model,
    a: &Assignment,
    axis: Axis,
    k: usize,
    steps: &[Step],
    r: Reach,
) -> Result<(), NoMemory>
    ensures { OnOk result (page.new.items ≡ page.old.items ++ cumul_drawing model.now a.now axis k steps.now r) }
{
    push_group(page, 160, 90 * k as u128)?;
    push_scaled(page, scale_of(axis, r))?;
    push(page, b"<g transform='scale(1 -8)'>\n")?;
    push_all_areas(page, axis, a, k, r, model.constraints())?;
    push_profile(page, axis, steps)?;
    push(page, b"</g></svg></g>\n")
}

fn push_level_label(page: &mut Vec<u8>, alloc: Global, y: u128, z: i64) -> Result<(), NoMemory>
    ensures { OnOk result (page.new.items ≡ page.old.items ++ label 110 y 45 16 (number [] z)) }
{
    let mut text = Vec::new(alloc);
    push_number(&mut text, b"", z)?;
    let room = Room {
        x: 110,
        y,
        width: 45,
        height: 16,
    };
    push_label(page, room, text.as_slice())
}

fn push_cumul_name(
    page: &mut Vec<u8>,
    alloc: Global,
    k: usize,
    d: &CumulDef,
) -> Result<(), NoMemory>
    ensures { OnOk result (page.new.items ≡ page.old.items ++ label 0 30 150 20 (given_name k d.now.name)) }
{
    let name = given_name(alloc, k, &d.name)?;
    let room = Room {
        x: 0,
        y: 30,
        width: 150,
        height: 20,
    };
    push_label(page, room, name.as_slice())
}

/// The name of a function, and how far it reaches.
fn push_cumul_names(
    page: &mut Vec<u8>,
    alloc: Global,
    k: usize,
    d: &CumulDef,
    r: Reach,
) -> Result<(), NoMemory>
    ensures { OnOk result (page.new.items ≡ page.old.items ++ cumul_names k d.now r) }
{
    push_group(page, 5, 90 * k as u128)?;
    push_cumul_name(page, alloc, k, d)?;
    push_level_label(page, alloc, 0, r.high)?;
    push_level_label(page, alloc, 64, r.low)?;
    push(page, b"</g>\n")
}

fn push_cumul_of(
    page: &mut Vec<u8>,
    alloc: Global,
    model: &Model,
    a: &Assignment,
    axis: Axis,
    k: usize,
    d: &CumulDef,
    steps: &[Step],
) -> Result<(), NoMemory>
    ensures { OnOk result (page.new.items ≡ page.old.items ++ cumul_of model.now a.now axis k d.now steps.now (reach_of k model.now.constraints steps.now)) }
{
    let r = reach_of(k, model.constraints(), steps);
    push_cumul_drawing(page, model, a, axis, k, steps, r)?;
    push_cumul_names(page, alloc, k, d, r)
}

fn profile_at(profiles: &[List<Step>], k: usize) -> &[Step]
    ensures { result.now ≡ profile_at profiles.now k }
{
    match profiles.get(k) {
        None => &[],
        Some(profile) => profile.as_slice(),
    }
}

/// The drawings of all functions.
pub fn push_cumuls(
    page: &mut Vec<u8>,
    alloc: Global,
    model: &Model,
    a: &Assignment,
    axis: Axis,
    profiles: &[List<Step>],
) -> Result<(), NoMemory>
    ensures { OnOk result (page.new.items ≡ page.old.items ++ cumuls model.now a.now axis profiles.now) }
{
    let defs = model.cumuls();
    for k in 0..defs.len() {
        push_cumul_of(
            page,
            alloc,
            model,
            a,
            axis,
            k,
            &defs[k],
            profile_at(profiles, k),
        )?;
    }
    Ok(())
}
