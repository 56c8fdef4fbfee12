//! A cumulative function from the side on which it must not rise.
ghost use Rattle.std.specs.Prelude.{◌≡◌, ◌^◌, ◌*◌, ◌≤ℤ◌, neg_ℤ, pos, length};
ghost use Rattle.sched_model.specs.declared.types.Shape.TheVariants.{Step};
ghost use Rattle.sched_model.specs.Cumulative.{signed};
ghost use Rattle.region.specs.Cells.{bounds_of};
ghost use Rattle.region.specs.Looks.{HasMoments, lst_in, ect_in};
ghost use Rattle.refute_cumul.specs.code.Loads.{counts, start_in, until_in, end_in, pulse_in, standing, bounded_of, height_at, bounded_shape, bounded, load_of, load, limit_of, is_from, window_of};

use region::{Bounds, Look, Presence, earliest_end, latest_start};
use sched_base::{H, Itv};
use sched_model::{Part, Shape, Window};

const UNKNOWN: Bounds = Bounds {
    presence: Presence::Maybe,
    smin: 0,
    smax: 0,
    emin: 0,
    emax: 0,
    pmin: 0,
    pmax: 0,
};

const NOTHING: Shape = Shape::Pulse { u: 0, v: 0, h: 0 };

/// What the look knows of an interval: nothing where there is no such interval.
fn known(look: &Look<'_>, x: Itv) -> Bounds
    ensures value { result ≡ bounds_of look.now.region x }
    ensures moments { HasMoments result }
{
    if x.0 as usize >= look.len() {
        return UNKNOWN;
    }
    look.bounds(x)
}

fn lst(c: Bounds) -> i64
    requires { HasMoments c }
    ensures { result ≡ lst_in c }
{
    latest_start(c.smax, c.emax, c.pmin)
}

fn ect(c: Bounds) -> i64
    requires { HasMoments c }
    ensures { result ≡ ect_in c }
{
    earliest_end(c.emin, c.smin, c.pmin)
}

/// Whether what is added, or with `minus` subtracted, stands at least.
fn counts(minus: bool, c: Bounds) -> bool
    ensures { result ≡ counts minus c }
{
    if minus {
        return c.presence != Presence::Absent;
    }
    c.presence == Presence::Present
}

fn start_in(minus: bool, c: Bounds) -> i64
    requires { HasMoments c }
    ensures { result ≡ start_in minus c }
{
    if minus { c.smin } else { lst(c) }
}

fn until_in(minus: bool, c: Bounds) -> i64
    requires { HasMoments c }
    ensures { result ≡ until_in minus c }
{
    if minus { c.emax } else { ect(c) }
}

fn end_in(minus: bool, c: Bounds) -> i64
    requires { HasMoments c }
    ensures { result ≡ end_in minus c }
{
    if minus { ect(c) } else { c.emax }
}

fn pulse(minus: bool, c: Bounds, h: i64) -> Shape
    requires { HasMoments c }
    ensures { result ≡ pulse_in minus c h }
{
    Shape::Pulse {
        u: start_in(minus, c),
        v: until_in(minus, c),
        h,
    }
}

fn step(u: i64, h: i64) -> Shape
    ensures { result ≡ Step u h }
{
    Shape::Step { u, h }
}

fn standing(minus: bool, c: Bounds, shape: Shape) -> Shape
    requires { HasMoments c }
    ensures { result ≡ standing minus c shape }
{
    match shape {
        Shape::PulseOf { a: _, h } => pulse(minus, c, h),
        Shape::StepAtStart { a: _, h } => step(start_in(minus, c), h),
        Shape::StepAtEnd { a: _, h } => step(end_in(minus, c), h),
        _ => shape,
    }
}

fn bounded_of(minus: bool, c: Bounds, shape: Shape) -> Shape
    requires { HasMoments c }
    ensures { result ≡ bounded_of minus c shape }
{
    if !counts(minus, c) {
        return NOTHING;
    }
    standing(minus, c, shape)
}

/// What stands at least of a shape that is added, or subtracted.
fn bounded_shape(look: &Look<'_>, minus: bool, shape: Shape) -> Shape
    ensures { result ≡ bounded_shape look.now.region minus shape }
{
    match shape {
        Shape::PulseOf { a, h: _ } => bounded_of(minus, known(look, a), shape),
        Shape::StepAtStart { a, h: _ } => bounded_of(minus, known(look, a), shape),
        Shape::StepAtEnd { a, h: _ } => bounded_of(minus, known(look, a), shape),
        _ => shape,
    }
}

/// What stands at least of a part, seen from above or from below.
pub fn bounded(look: &Look<'_>, below: bool, part: Part) -> Part
    ensures { result ≡ bounded look.now.region below part }
{
    let minus = below != part.minus;
    Part {
        minus,
        shape: bounded_shape(look, minus, part.shape),
    }
}

fn height_at(shape: Shape, t: i64) -> i64
    ensures { result ≡ height_at shape t }
{
    match shape {
        Shape::Pulse { u, v, h } => { if u <= t && t < v { h } else { 0 } }
        Shape::Step { u, h } => { if u <= t { h } else { 0 } }
        _ => 0,
    }
}

/// The height of what is added, or with `minus` subtracted.
pub fn signed(minus: bool, z: i64) -> i128
    ensures value { result ≡ signed minus z }
    ensures low { neg_ℤ (pos (2 ^ 63)) ≤ℤ result }
    ensures high { result ≤ℤ pos (2 ^ 63) }
{
    if minus { -i128::from(z) } else { i128::from(z) }
}

/// What a part with fixed moments adds at a moment.
pub fn load_of(part: Part, t: i64) -> i128
    ensures value { result ≡ load_of part t }
    ensures low { neg_ℤ (pos (2 ^ 63)) ≤ℤ result }
    ensures high { result ≤ℤ pos (2 ^ 63) }
{
    signed(part.minus, height_at(part.shape, t))
}

fn load_at(look: &Look<'_>, below: bool, part: Part, t: i64) -> i128
    ensures value { result ≡ load_of (bounded look.now.region below part) t }
    ensures low { neg_ℤ (pos (2 ^ 63)) ≤ℤ result }
    ensures high { result ≤ℤ pos (2 ^ 63) }
{
    load_of(bounded(look, below, part), t)
}

/// The load of some parts at a moment.
pub fn load(look: &Look<'_>, below: bool, parts: &[Part], t: i64) -> i128
    ensures value { result ≡ load look.now.region below parts.now t }
    ensures low { neg_ℤ (pos (2 ^ 63 * length parts.now)) ≤ℤ result }
    ensures high { result ≤ℤ pos (2 ^ 63 * length parts.now) }
{
    let mut sum: i128 = 0;
    for part in parts {
        sum += load_at(look, below, *part, t);
    }
    sum
}

/// The number that the load must not pass.
pub fn limit_of(below: bool, lo: i64, hi: i64) -> i128
    ensures value { result ≡ limit_of below lo hi }
    ensures low { neg_ℤ (pos (2 ^ 63)) ≤ℤ result }
    ensures high { result ≤ℤ pos (2 ^ 63) }
{
    if below {
        -i128::from(lo)
    } else {
        i128::from(hi)
    }
}

/// The first of the moments that surely lie in a window, and the first behind them.
pub fn window_of(look: &Look<'_>, window: Window) -> (i64, i64)
    ensures { result ≡ window_of look.now.region window }
{
    match window {
        Window::Always => (-H, H),
        Window::Moments { u, v } => (u, v),
        Window::During(x) => {
            let c = known(look, x);
            if !counts(false, c) {
                return (0, 0);
            }
            (start_in(false, c), until_in(false, c))
        }
    }
}

/// Whether a moment is one of those from the first until before the second.
pub fn is_from(span: (i64, i64), t: i64) -> bool
    ensures { result ≡ is_from span.0 span.1 t }
{
    span.0 <= t && t < span.1
}
