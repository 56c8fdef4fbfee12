//! Where no guess on an interval raises the level too far: the levels around it leave room for the height of its
//! one part, wherever that is moved.
ghost use Rattle.std.specs.Prelude.{◌≡◌, ◌<◌, ◌+ℤ◌, ◌-ℤ◌, ℤ, true, false, length, IfSome};
ghost use Rattle.std.specs.Int.{int_min, int_max};
ghost use Rattle.std.specs.List.{filter};
ghost use Rattle.sched_base.specs.declared.ids.Itv.{Itv as Itvs};
ghost use Rattle.sched_model.specs.Data.{parts_of};
ghost use Rattle.region.specs.Cells.{Region as Cells, bounds_of};
ghost use Rattle.region.specs.Looks.{IsRegionOf, HasMoments};
ghost use Rattle.refute_cumul.specs.code.Loads.{window_of};
ghost use Rattle.prop_cumul.specs.code.Tables.{is_of};
ghost use Rattle.prop_cumul.specs.code.Asking.{IsReady, IsQuietOn};
ghost use Rattle.prop_cumul.specs.code.Calm.{IsCalm, StaysLower, HasRoomAround, height_of, least_start, greatest_end, pulse_stretch, start_stretch, end_stretch, stretch_of};

use crate::side::Side;
use refute_cumul::{Profile, limit_of};
use region::{Bounds, Presence, earliest_end, latest_start};
use sched_base::{H, Itv};
use sched_model::{Part, Shape, Window};

/// The moments from one until before another at which a bound binds, whatever is guessed, and the number that
/// the load must not pass, nor does at any of them as things stand.
#[derive(Clone, Copy, Debug)]
pub struct Calm {
    pub from: i64,
    pub to: i64,
    pub limit: i128,
}

/// The moments of a window that no guess moves.
fn fixed_window(window: Window) -> Option<(i64, i64)>
    ensures { IfSome result (λ span. (r : Cells) → span ≡ window_of r window) }
{
    match window {
        Window::Always => Some((-H, H)),
        Window::Moments { u, v } => Some((u, v)),
        Window::During(_) => None,
    }
}

/// Where the bound binds, if no guess changes that and it isn't passed as things stand.
pub fn calm_of(at: &Side<'_>) -> Option<Calm>
    ensures { IfSome result (IsCalm at.now.bound at.now.below at.now.profile.now.levels) }
{
    let (from, to) = fixed_window(at.bound.window)?;
    let limit = limit_of(at.below, at.bound.lo, at.bound.hi);
    if at.profile.first_above(from, to, limit).is_some() {
        return None;
    }
    Some(Calm { from, to, limit })
}

/// The height of what a shape adds or takes away, if it is of this interval.
fn height_of(x: Itv, shape: Shape) -> Option<i64>
    ensures { result ≡ height_of x shape }
{
    let (a, h) = match shape {
        Shape::PulseOf { a, h } => (a, h),
        Shape::StepAtStart { a, h } => (a, h),
        Shape::StepAtEnd { a, h } => (a, h),
        _ => return None,
    };
    if a.0 == x.0 && 0 <= h {
        return Some(h);
    }
    None
}

fn greater(a: i64, b: i64) -> i64
    ensures { result ≡ int_max a b }
{
    if a < b { b } else { a }
}

fn smaller(a: i64, b: i64) -> i64
    ensures { result ≡ int_min a b }
{
    if b < a { b } else { a }
}

/// The earliest moment at which it must have started under a guess.
fn least_start(c: Bounds) -> i64
    requires { HasMoments c }
    ensures { result ≡ least_start c }
{
    latest_start(c.smin, c.emin, c.pmin)
}

/// The latest moment until which it must last under a guess.
fn greatest_end(c: Bounds) -> i64
    requires { HasMoments c }
    ensures { result ≡ greatest_end c }
{
    earliest_end(c.emax, c.smax, c.pmin)
}

/// The moments from one until before another at which a guess on an interval may change what one of its parts
/// adds or takes away at least; but where the interval is present not those from `kept_from` until before
/// `kept_to`.
#[derive(Clone, Copy, Debug)]
pub struct Stretch {
    pub from: i64,
    pub to: i64,
    pub kept_from: i64,
    pub kept_to: i64,
}

/// That of a pulse which is added, or taken away.
fn pulse_stretch(minus: bool, c: Bounds) -> Stretch
    requires { HasMoments c }
    ensures { result ≡ pulse_stretch minus c }
{
    if minus {
        return Stretch {
            from: c.smin,
            to: c.emax,
            kept_from: c.smax,
            kept_to: c.emin,
        };
    }
    Stretch {
        from: least_start(c),
        to: greatest_end(c),
        kept_from: latest_start(c.smax, c.emax, c.pmin),
        kept_to: earliest_end(c.emin, c.smin, c.pmin),
    }
}

/// That of a step at the start, up to a moment.
fn start_stretch(minus: bool, c: Bounds, end: i64) -> Stretch
    requires { HasMoments c }
    ensures { result ≡ start_stretch minus c end }
{
    if minus {
        return Stretch {
            from: c.smin,
            to: end,
            kept_from: c.smax,
            kept_to: end,
        };
    }
    Stretch {
        from: least_start(c),
        to: end,
        kept_from: latest_start(c.smax, c.emax, c.pmin),
        kept_to: end,
    }
}

/// That of a step at the end.
fn end_stretch(minus: bool, c: Bounds, end: i64) -> Stretch
    requires { HasMoments c }
    ensures { result ≡ end_stretch minus c end }
{
    if minus {
        return Stretch {
            from: earliest_end(c.emin, c.smin, c.pmin),
            to: end,
            kept_from: greatest_end(c),
            kept_to: end,
        };
    }
    Stretch {
        from: c.emin,
        to: end,
        kept_from: c.emax,
        kept_to: end,
    }
}

fn stretch_of(minus: bool, shape: Shape, c: Bounds, end: i64) -> Stretch
    requires { HasMoments c }
    ensures { result ≡ stretch_of minus shape c end }
{
    match shape {
        Shape::StepAtStart { .. } => start_stretch(minus, c, end),
        Shape::StepAtEnd { .. } => end_stretch(minus, c, end),
        _ => pulse_stretch(minus, c),
    }
}

/// Whether at those of the moments from one until before another at which the bound binds the level leaves
/// room for so much more.
fn stays_lower(profile: &Profile, calm: Calm, from: i64, to: i64, h: i64) -> bool
    ensures { result ≡ true → StaysLower profile.now.levels calm from to h }
{
    let Some(limit) = calm.limit.checked_sub(i128::from(h)) else {
        return false;
    };
    let from = greater(from, calm.from);
    let to = smaller(to, calm.to);
    profile.first_above(from, to, limit).is_none()
}

/// Whether the level leaves room for so much more wherever a guess may raise it.
fn has_room(profile: &Profile, calm: Calm, s: Stretch, presence: Presence, h: i64) -> bool
    ensures { result ≡ true → HasRoomAround profile.now.levels calm s presence h }
{
    if presence != Presence::Present || s.kept_to <= s.kept_from {
        return stays_lower(profile, calm, s.from, s.to, h);
    }
    stays_lower(profile, calm, s.from, s.kept_from, h)
        && stays_lower(profile, calm, s.kept_to, s.to, h)
}

/// Whether nothing is found of an interval with these parts, since there is room enough around it.
pub fn is_calm_on(at: &Side<'_>, calm: Option<Calm>, x: Itv, parts: &[Part]) -> bool
    requires ready { IsReady at.now.model.now at.now.region.now.region at.now.c at.now.bound at.now.below at.now.profile.now }
    requires calm { IfSome calm (IsCalm at.now.bound at.now.below at.now.profile.now.levels) }
    requires parts { parts.now ≡ filter (is_of x) (parts_of at.now.model.now at.now.bound.f) }
    requires within { x.0 < length at.now.region.now.region.bounds }
    ensures { result ≡ true → IsQuietOn at.now.model.now at.now.region.now.region at.now.bound at.now.below x }
{
    let Some(calm) = calm else {
        return false;
    };
    if parts.len() != 1 {
        return false;
    }
    let part = parts[0];
    let Some(h) = height_of(x, part.shape) else {
        return false;
    };
    let c = at.region.look(None, None).bounds(x);
    let s = stretch_of(at.below != part.minus, part.shape, c, calm.to);
    has_room(at.profile, calm, s, c.presence, h)
}
