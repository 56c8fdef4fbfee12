ghost use Rattle.std.specs.Prelude.{◌≡◌, ◌^◌, ℤ, ◌+ℤ◌, ◌≤ℤ◌, ◌<ℤ◌, MatchOption, map, neg_ℤ, pos, true};
ghost use Rattle.std.specs.List.{list_all};
ghost use Rattle.sched_model.specs.Words.{is_between, total};
ghost use Rattle.sched_model.specs.Data.{parts_of};
ghost use Rattle.sched_model.specs.Changes.{end_of_window, keep_inside, window_span};
ghost use Rattle.sched_model.specs.Cumulative.{begin_of, between, corners, from_on, is_in_window, is_level_at, level_at, shape_at, signed};

use crate::changes::{Changes, Span, fill_sorted, keep_each};
use crate::model::Model;
use crate::slots::{end_of, is_present, start_of};
use crate::types::{Assignment, Part, Shape, Window};
use sched_base::{Cum, H};

fn from_on(u: i64, h: i64, t: i64) -> i64
    ensures { result ≡ from_on u h t }
{
    if u <= t { h } else { 0 }
}

fn between(u: i64, v: i64, h: i64, t: i64) -> i64
    ensures { result ≡ between u v h t }
{
    if u <= t && t < v { h } else { 0 }
}

/// The units that an elementary function has at a moment.
fn shape_at(a: &Assignment, shape: Shape, t: i64) -> i64
    ensures { result ≡ shape_at a.now shape t }
{
    match shape {
        Shape::Pulse { u, v, h } => between(u, v, h, t),
        Shape::Step { u, h } => from_on(u, h, t),
        Shape::PulseOf { a: x, h } => {
            if !is_present(a, x) {
                return 0;
            }
            between(start_of(a, x), end_of(a, x), h, t)
        }
        Shape::StepAtStart { a: x, h } => {
            if !is_present(a, x) {
                return 0;
            }
            from_on(start_of(a, x), h, t)
        }
        Shape::StepAtEnd { a: x, h } => {
            if !is_present(a, x) {
                return 0;
            }
            from_on(end_of(a, x), h, t)
        }
    }
}

fn parts_of(model: &Model, f: Cum) -> &[Part]
    ensures { result.now ≡ parts_of model.now f }
{
    match model.cumuls().get(f.0 as usize) {
        None => &[],
        Some(d) => d.parts.as_slice(),
    }
}

pub fn signed(minus: bool, z: i64) -> i128
    ensures { result ≡ signed minus z }
{
    if minus { -i128::from(z) } else { i128::from(z) }
}

/// What a part adds at a moment.
fn part_at(a: &Assignment, part: Part, t: i64) -> i128
    ensures value { result ≡ signed part.minus (shape_at a.now part.shape t) }
    ensures low { neg_ℤ (pos (2 ^ 63)) ≤ℤ result }
    ensures high { result ≤ℤ pos (2 ^ 63) }
{
    signed(part.minus, shape_at(a, part.shape, t))
}

/// The signed sum of some parts at a moment.
pub fn sum_at(a: &Assignment, parts: &[Part], t: i64) -> i128
    ensures value { result ≡ total (map (λ i. signed i.minus (shape_at a.now i.shape t)) parts.now) }
    ensures low { neg_ℤ (pos (2 ^ 126)) ≤ℤ result }
    ensures high { result ≤ℤ pos (2 ^ 126) }
{
    let mut sum: i128 = 0;
    for part in parts {
        sum += part_at(a, *part, t);
    }
    sum
}

pub fn is_in_window(a: &Assignment, window: Window, t: i64) -> bool
    ensures { result ≡ is_in_window a.now window t }
{
    match window {
        Window::Always => -H <= t && t < H,
        Window::Moments { u, v } => u <= t && t < v,
        Window::During(x) => is_present(a, x) && start_of(a, x) <= t && t < end_of(a, x),
    }
}

fn begin_of(a: &Assignment, window: Window) -> i64
    ensures { result ≡ begin_of a.now window }
{
    match window {
        Window::Always => -H,
        Window::Moments { u, v: _ } => u,
        Window::During(x) => start_of(a, x),
    }
}

/// The bounds of a cumulative function in a window, in units of the resource.
#[derive(Clone, Copy, Debug, PartialEq, Eq)]
pub struct Bound {
    pub f: Cum,
    pub window: Window,
    pub lo: i64,
    pub hi: i64,
}

pub fn is_within(lo: i64, hi: i64, level: i128) -> bool
    ensures { result ≡ is_between lo hi level }
{
    if level < i128::from(lo) {
        return false;
    }
    level <= i128::from(hi)
}

fn is_level_at(model: &Model, a: &Assignment, b: Bound, t: i64) -> bool
    ensures { result ≡ is_level_at model.now a.now b.f b.window b.lo b.hi t }
{
    if !is_in_window(a, b.window, t) {
        return true;
    }
    is_within(b.lo, b.hi, sum_at(a, parts_of(model, b.f), t))
}

fn end_of_window(a: &Assignment, window: Window) -> i64
    ensures { result ≡ end_of_window a.now window }
{
    match window {
        Window::Always => H,
        Window::Moments { u: _, v } => v,
        Window::During(x) => end_of(a, x),
    }
}

/// A moment halfway between the ends of a span, if there is one.
fn middle(span: Span) -> Option<i64>
    ensures { MatchOption result (span.to ≤ℤ (span.from +ℤ pos 1)) (λ t. (span.from <ℤ t) × (t <ℤ span.to)) }
{
    let width = i128::from(span.to) - i128::from(span.from);
    if width <= 1 {
        return None;
    }
    let half = (width as u64) / 2;
    Some((i128::from(span.from) + i128::from(half)) as i64)
}

/// Whether the level keeps its bounds at the changes inside a span, which are sorted in the place that
/// is lent. Where they are too many for it, each half of the span is gone through by itself; a span of
/// one moment has one level. The answer may only be no where the level leaves its bounds somewhere.
fn keep_inside(model: &Model, a: &Assignment, b: Bound, changes: &mut Changes, span: Span) -> bool
    ensures yes { result ≡ true → keep_inside model.now a.now b.f b.window b.lo b.hi span ≡ true }
    ensures no { ((t : ℤ) → is_level_at model.now a.now b.f b.window b.lo b.hi t ≡ true) → result ≡ true }
{
    let parts = parts_of(model, b.f);
    if fill_sorted(changes, a, parts, span).is_some() {
        let before = sum_at(a, parts, span.from);
        return keep_each(a, b, before, changes.as_slice());
    }
    match middle(span) {
        None => is_level_at(model, a, b, span.to),
        Some(t) => {
            let Span { from, to } = span;
            if !keep_inside(model, a, b, changes, Span { from, to: t }) {
                return false;
            }
            keep_inside(model, a, b, changes, Span { from: t, to })
        }
    }
}

/// The same inside the window, with the one place that all spans are lent. It is kept out of the frames
/// of callers.
#[inline(never)]
fn keep_in_window(model: &Model, a: &Assignment, b: Bound) -> bool
    ensures yes { result ≡ true → keep_inside model.now a.now b.f b.window b.lo b.hi (window_span a.now b.window) ≡ true }
    ensures no { ((t : ℤ) → is_level_at model.now a.now b.f b.window b.lo b.hi t ≡ true) → result ≡ true }
{
    let mut changes = Changes::new();
    let span = Span {
        from: begin_of(a, b.window),
        to: end_of_window(a, b.window),
    };
    keep_inside(model, a, b, &mut changes, span)
}

/// Whether the level keeps its bounds at each moment of the window: it is tried where the window
/// begins, and where a part changes inside it.
pub fn is_bounded(model: &Model, a: &Assignment, b: Bound) -> bool
    ensures { result ≡ list_all (is_level_at model.now a.now b.f b.window b.lo b.hi) (corners model.now a.now b.f b.window) }
{
    if !is_level_at(model, a, b, begin_of(a, b.window)) {
        return false;
    }
    keep_in_window(model, a, b)
}
