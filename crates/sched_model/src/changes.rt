//! The level of a cumulative function as a sum of changes, of which those inside a span of moments are
//! sorted and gone through once.
ghost use Rattle.std.specs.Prelude.{◌≡◌, ◌+◌, ◌^◌, ◌++◌, ◌∷◌, [], ◌≤◌, ◌≤ℤ◌, ◌+ℤ◌, ◌-ℤ◌, OnSome, length, neg_ℤ, pos, slice_get};
ghost use Rattle.std.specs.List.{list_all};
ghost use Rattle.std.specs.List.Sorted.{IsPermutation};
ghost use Rattle.std.specs.Ordering.{int_eq};
ghost use Rattle.sched_model.specs.Words.{passes};
ghost use Rattle.sched_model.specs.Cumulative.{signed};
ghost use Rattle.sched_model.specs.Changes.{IsInOrder, changes_in, changes_inside, is_inside, keeps, keeps_at, pulse_changes, rise, shape_changes};

use crate::cumulative::{Bound, is_in_window, is_within, signed};
use crate::slots::{end_of, is_present, start_of};
use crate::types::{Assignment, Part, Shape};
use arrayvec::ArrayVec;

/// A change of a level: from the moment `t` on it is `h` units more, or with `minus` less.
#[derive(Clone, Copy, Debug, Default, PartialEq, Eq)]
pub struct Change {
    pub t: i64,
    pub minus: bool,
    pub h: i64,
}

/// The moments behind `from`, until `to`.
#[derive(Clone, Copy, Debug, PartialEq, Eq)]
pub struct Span {
    pub from: i64,
    pub to: i64,
}

/// A place for the changes inside a span, 24 KiB.
pub type Changes = ArrayVec<Change, 1024>;

fn is_inside(span: Span, t: i64) -> bool
    ensures { result ≡ is_inside span t }
{
    span.from < t && t <= span.to
}

fn add(changes: &mut Changes, span: Span, c: Change) -> Option<()>
    ensures { OnSome result (changes.new.items ≡ changes.old.items ++ changes_inside span (c ∷ [])) }
{
    if !is_inside(span, c.t) {
        return Some(());
    }
    changes.try_push(c).ok()
}

fn add_two(changes: &mut Changes, span: Span, up: Change, down: Change) -> Option<()>
    ensures { OnSome result (changes.new.items ≡ changes.old.items ++ changes_inside span (up ∷ down ∷ [])) }
{
    add(changes, span, up)?;
    add(changes, span, down)
}

fn add_pulse(changes: &mut Changes, span: Span, minus: bool, u: i64, v: i64, h: i64) -> Option<()>
    ensures { OnSome result (changes.new.items ≡ changes.old.items ++ changes_inside span (pulse_changes minus u v h)) }
{
    if u >= v {
        return Some(());
    }
    let up = Change { t: u, minus, h };
    let down = Change {
        t: v,
        minus: !minus,
        h,
    };
    add_two(changes, span, up, down)
}

fn add_part(changes: &mut Changes, a: &Assignment, span: Span, part: Part) -> Option<()>
    ensures { OnSome result (changes.new.items ≡ changes.old.items ++ changes_inside span (shape_changes a.now part.minus part.shape)) }
{
    let minus = part.minus;
    match part.shape {
        Shape::Pulse { u, v, h } => add_pulse(changes, span, minus, u, v, h),
        Shape::Step { u, h } => add(changes, span, Change { t: u, minus, h }),
        Shape::PulseOf { a: x, h } => {
            if !is_present(a, x) {
                return Some(());
            }
            add_pulse(changes, span, minus, start_of(a, x), end_of(a, x), h)
        }
        Shape::StepAtStart { a: x, h } => {
            if !is_present(a, x) {
                return Some(());
            }
            add(
                changes,
                span,
                Change {
                    t: start_of(a, x),
                    minus,
                    h,
                },
            )
        }
        Shape::StepAtEnd { a: x, h } => {
            if !is_present(a, x) {
                return Some(());
            }
            add(
                changes,
                span,
                Change {
                    t: end_of(a, x),
                    minus,
                    h,
                },
            )
        }
    }
}

/// Fills the place with the changes of some parts inside a span, or answers none where they are too
/// many.
fn fill(changes: &mut Changes, a: &Assignment, parts: &[Part], span: Span) -> Option<()>
    ensures { OnSome result (changes.new.items ≡ changes_inside span (changes_in a.now parts.now)) }
{
    changes.clear();
    for part in parts {
        add_part(changes, a, span, *part)?;
    }
    Some(())
}

/// Puts changes in the order of their moments.
pub fn sort_changes(changes: &mut [Change])
    ensures moved { IsPermutation changes.old changes.new }
    ensures in_order { IsInOrder changes.new }
{
    changes.sort_unstable_by_key(|c| c.t);
}

/// The same by their moments.
pub fn fill_sorted(changes: &mut Changes, a: &Assignment, parts: &[Part], span: Span) -> Option<()>
    ensures { OnSome result (IsPermutation (changes_inside span (changes_in a.now parts.now)) changes.new.items × IsInOrder changes.new.items) }
{
    fill(changes, a, parts, span)?;
    sort_changes(changes.as_mut_slice());
    Some(())
}

/// Whether the change at a place is one of the same moment.
fn is_like(changes: &[Change], i: usize, c: Change) -> bool
    ensures { result ≡ passes (λ x. int_eq x.t c.t) (slice_get changes.now i) }
{
    match changes.get(i) {
        None => false,
        Some(x) => x.t == c.t,
    }
}

/// What a level is behind a change.
fn risen(level: i128, c: Change) -> i128
    requires low { neg_ℤ (pos (2 ^ 126 + 2 ^ 80)) ≤ℤ level }
    requires high { level ≤ℤ pos (2 ^ 126 + 2 ^ 80) }
    ensures value { result ≡ level +ℤ rise c }
    ensures low { (level -ℤ pos (2 ^ 63)) ≤ℤ result }
    ensures high { result ≤ℤ (level +ℤ pos (2 ^ 63)) }
{
    level + signed(c.minus, c.h)
}

fn keeps(a: &Assignment, b: Bound, c: Change, level: i128) -> bool
    ensures { result ≡ keeps a.now b.window b.lo b.hi c.t level }
{
    if !is_in_window(a, b.window, c.t) {
        return true;
    }
    is_within(b.lo, b.hi, level)
}

/// Whether the level, which was `before` when the changes began, keeps the bound at each change: behind
/// the last change of each moment it is tried once.
pub fn keep_each(a: &Assignment, b: Bound, before: i128, changes: &[Change]) -> bool
    requires order { IsInOrder changes.now }
    requires few { length changes.now ≤ 1024 }
    requires low { neg_ℤ (pos (2 ^ 126)) ≤ℤ before }
    requires high { before ≤ℤ pos (2 ^ 126) }
    ensures { result ≡ list_all (λ c. keeps_at a.now b.window b.lo b.hi before changes.now c.t) changes.now }
{
    let mut level = before;
    for i in 0..changes.len() {
        let c = changes[i];
        level = risen(level, c);
        if is_like(changes, i + 1, c) {
            continue;
        }
        if !keeps(a, b, c, level) {
            return false;
        }
    }
    true
}
