//! The levels of cumulative functions over time.
ghost use Rattle.std.specs.Prelude.{◌≡◌, ◌^◌, [], ◌∷◌, ◌++◌, ◌≤ℤ◌, ◌+ℤ◌, ◌-ℤ◌, OnOk, IfOk, neg_ℤ, pos};
ghost use Rattle.sched_model.specs.Changes.{change, changes_in, pulse_changes, rise, shape_changes};
ghost use Rattle.sched_model.specs.Value.{end_of, is_present, start_of};
ghost use Rattle.svg_page.specs.Profiles.{AreProfiles, IsProfile, goes_on, step_if, steps};

use sched_base::{Itv, List, NoMemory};
use sched_model::{Assignment, Change, CumulDef, Part, Shape, Slot, Slots, sort_changes};
use std::alloc::Global;

/// From the moment `t` on the level is this.
#[derive(Clone, Copy, Debug, PartialEq, Eq)]
pub struct Step {
    pub t: i64,
    pub level: i128,
}

fn is_present(a: &Assignment, x: Itv) -> bool
    ensures { result ≡ is_present a.now x }
{
    match a.slot(x) {
        Slot::Absent => false,
        Slot::Present { s: _, e: _ } => true,
    }
}

fn start_of(a: &Assignment, x: Itv) -> i64
    ensures { result ≡ start_of a.now x }
{
    match a.slot(x) {
        Slot::Absent => 0,
        Slot::Present { s, e: _ } => s,
    }
}

fn end_of(a: &Assignment, x: Itv) -> i64
    ensures { result ≡ end_of a.now x }
{
    match a.slot(x) {
        Slot::Absent => 0,
        Slot::Present { s: _, e } => e,
    }
}

fn add(changes: &mut Vec<Change>, t: i64, minus: bool, h: i64) -> Result<(), NoMemory>
    ensures { OnOk result (changes.new.items ≡ changes.old.items ++ change t minus h ∷ []) }
{
    changes.push(Change { t, minus, h })?;
    Ok(())
}

/// A pulse that isn't empty goes up and comes down.
fn add_pulse(changes: &mut Vec<Change>, minus: bool, u: i64, v: i64, h: i64) -> Result<(), NoMemory>
    ensures { OnOk result (changes.new.items ≡ changes.old.items ++ pulse_changes minus u v h) }
{
    if u >= v {
        return Ok(());
    }
    add(changes, u, minus, h)?;
    add(changes, v, !minus, h)
}

/// The changes of a part.
fn add_part(changes: &mut Vec<Change>, a: &Assignment, part: Part) -> Result<(), NoMemory>
    ensures { OnOk result (changes.new.items ≡ changes.old.items ++ shape_changes a.now part.minus part.shape) }
{
    let minus = part.minus;
    match part.shape {
        Shape::Pulse { u, v, h } => add_pulse(changes, minus, u, v, h),
        Shape::Step { u, h } => add(changes, u, minus, h),
        Shape::PulseOf { a: x, h } => {
            if !is_present(a, x) {
                return Ok(());
            }
            add_pulse(changes, minus, start_of(a, x), end_of(a, x), h)
        }
        Shape::StepAtStart { a: x, h } => {
            if !is_present(a, x) {
                return Ok(());
            }
            add(changes, start_of(a, x), minus, h)
        }
        Shape::StepAtEnd { a: x, h } => {
            if !is_present(a, x) {
                return Ok(());
            }
            add(changes, end_of(a, x), minus, h)
        }
    }
}

fn changes_of(alloc: Global, a: &Assignment, parts: &[Part]) -> Result<Vec<Change>, NoMemory>
    ensures { IfOk result (λ v. v.items ≡ changes_in a.now parts.now) }
{
    let mut changes = Vec::new(alloc);
    for part in parts {
        add_part(&mut changes, a, *part)?;
    }
    Ok(changes)
}

/// Whether the next change comes at this moment too.
fn goes_on(last: Change, rest: &[Change]) -> bool
    ensures { result ≡ goes_on last.t rest.now }
{
    match rest.first() {
        None => false,
        Some(c) => c.t == last.t,
    }
}

/// What a level is behind a change.
fn risen(level: i128, c: Change) -> i128
    requires low { neg_ℤ (pos (2 ^ 126)) ≤ℤ level }
    requires high { level ≤ℤ pos (2 ^ 126) }
    ensures value { result ≡ level +ℤ rise c }
    ensures low { (level -ℤ pos (2 ^ 63)) ≤ℤ result }
    ensures high { result ≤ℤ (level +ℤ pos (2 ^ 63)) }
{
    if c.minus {
        level - i128::from(c.h)
    } else {
        level + i128::from(c.h)
    }
}

fn push_step(shown: &mut Vec<Step>, more: bool, c: Change, level: i128) -> Result<(), NoMemory>
    ensures { OnOk result (shown.new.items ≡ shown.old.items ++ step_if more c.t level) }
{
    if more {
        return Ok(());
    }
    shown.push(Step { t: c.t, level })?;
    Ok(())
}

/// The steps of changes in the order of their moments.
fn push_steps(shown: &mut Vec<Step>, changes: &[Change]) -> Result<(), NoMemory>
    ensures { OnOk result (shown.new.items ≡ shown.old.items ++ steps (pos 0) changes.now) }
{
    let mut level: i128 = 0;
    for i in 0..changes.len() {
        let c = changes[i];
        level = risen(level, c);
        let (_, rest) = changes.split_at(i + 1);
        push_step(shown, goes_on(c, rest), c, level)?;
    }
    Ok(())
}

/// The steps of a function with these parts.
fn profile_of(alloc: Global, a: &Assignment, parts: &[Part]) -> Result<List<Step>, NoMemory>
    ensures { IfOk result (λ p. IsProfile a.now parts.now p) }
{
    let mut changes = changes_of(alloc, a, parts)?;
    sort_changes(changes.as_mut_slice());
    let mut steps = Vec::new(alloc);
    push_steps(&mut steps, changes.as_slice())?;
    Ok(List::from_vec(steps))
}

/// The steps of each function.
pub fn profiles_of(
    alloc: Global,
    a: &Assignment,
    defs: &[CumulDef],
) -> Result<Vec<List<Step>>, NoMemory>
    ensures { IfOk result (λ v. AreProfiles a.now defs.now v.items) }
{
    let mut profiles = Vec::new(alloc);
    for d in defs {
        let profile = profile_of(alloc, a, d.parts.as_slice())?;
        profiles.push(profile)?;
    }
    Ok(profiles)
}
