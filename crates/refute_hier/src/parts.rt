//! What a row asks of an interval and its parts.
ghost use Rattle.std.specs.Prelude.{◌≡◌};
ghost use Rattle.std.specs.Int.{int_max, int_min};
ghost use Rattle.region.specs.Cells.{bounds_of, says_present, says_absent};
ghost use Rattle.region.specs.Looks.{HasMoments, lst_in, ect_in};
ghost use Rattle.refute_hier.specs.Parts.{are_apart, have_starts_apart, have_ends_apart, clash, plays, plays_in, at_part, some_part, part_count};

use region::{Bounds, Look, Presence, earliest_end, latest_start};
use sched_base::{Itv, at};

/// What a part can be to its interval: what the bounds of both say of them.
#[derive(Clone, Copy, Debug, PartialEq, Eq)]
pub enum Role {
    /// It is present.
    IsThere,
    /// It is present, and starts before the interval does.
    StartsBefore,
    /// It is present, and ends after the interval does.
    EndsAfter,
    /// It is present, and can't start and end with the interval.
    Clashes,
    /// It may be present and start no later than the interval does.
    MayStart,
    /// It may be present and end no earlier than the interval does.
    MayEnd,
    /// It may be present, and start and end with the interval.
    MayMatch,
}

const UNKNOWN: Bounds = Bounds {
    presence: Presence::Maybe,
    smin: 0,
    smax: 0,
    emin: 0,
    emax: 0,
    pmin: 0,
    pmax: 0,
};

/// What the look knows of an interval: nothing where there is no such interval.
pub fn known(look: &Look<'_>, x: Itv) -> Bounds
    ensures value { result ≡ bounds_of look.now.region x }
    ensures moments { HasMoments result }
{
    if x.0 as usize >= look.len() {
        return UNKNOWN;
    }
    look.bounds(x)
}

fn is_there(c: Bounds) -> bool
    ensures { result ≡ says_present c.presence }
{
    c.presence == Presence::Present
}

fn is_away(c: Bounds) -> bool
    ensures { result ≡ says_absent c.presence }
{
    c.presence == Presence::Absent
}

/// The latest start.
fn lst(c: Bounds) -> i64
    requires { HasMoments c }
    ensures { result ≡ lst_in c }
{
    latest_start(c.smax, c.emax, c.pmin)
}

/// The earliest end.
fn ect(c: Bounds) -> i64
    requires { HasMoments c }
    ensures { result ≡ ect_in c }
{
    earliest_end(c.emin, c.smin, c.pmin)
}

fn greater(x: i64, y: i64) -> i64
    ensures { result ≡ int_max x y }
{
    if x < y { y } else { x }
}

fn less(x: i64, y: i64) -> i64
    ensures { result ≡ int_min x y }
{
    if x < y { x } else { y }
}

/// Whether two ranges have no moment in common, by the first and the last moment of each.
fn are_apart(first: i64, last: i64, other_first: i64, other_last: i64) -> bool
    ensures { result ≡ are_apart first last other_first other_last }
{
    less(last, other_last) < greater(first, other_first)
}

fn have_starts_apart(x: Bounds, y: Bounds) -> bool
    requires first { HasMoments x }
    requires second { HasMoments y }
    ensures { result ≡ have_starts_apart x y }
{
    are_apart(x.smin, lst(x), y.smin, lst(y))
}

fn have_ends_apart(x: Bounds, y: Bounds) -> bool
    requires first { HasMoments x }
    requires second { HasMoments y }
    ensures { result ≡ have_ends_apart x y }
{
    are_apart(ect(x), x.emax, ect(y), y.emax)
}

/// Whether the two have no start, or no end, in common.
fn clash(x: Bounds, y: Bounds) -> bool
    requires first { HasMoments x }
    requires second { HasMoments y }
    ensures { result ≡ clash x y }
{
    have_starts_apart(x, y) || have_ends_apart(x, y)
}

/// Whether a part with the second bounds is that to an interval with the first.
pub fn plays(role: Role, a: Bounds, b: Bounds) -> bool
    requires first { HasMoments a }
    requires second { HasMoments b }
    ensures { result ≡ plays role a b }
{
    match role {
        Role::IsThere => is_there(b),
        Role::StartsBefore => is_there(b) && lst(b) < a.smin,
        Role::EndsAfter => is_there(b) && a.emax < ect(b),
        Role::Clashes => is_there(b) && clash(a, b),
        Role::MayStart => !is_away(b) && b.smin <= lst(a),
        Role::MayEnd => !is_away(b) && ect(a) <= b.emax,
        Role::MayMatch => !is_away(b) && !clash(a, b),
    }
}

/// Whether the interval is present.
pub fn shows_present(look: &Look<'_>, x: Itv) -> bool
    ensures { result ≡ says_present (bounds_of look.now.region x).presence }
{
    is_there(known(look, x))
}

/// Whether the interval is absent.
pub fn shows_absent(look: &Look<'_>, x: Itv) -> bool
    ensures { result ≡ says_absent (bounds_of look.now.region x).presence }
{
    is_away(known(look, x))
}

/// Whether a part is that to an interval.
pub fn plays_in(look: &Look<'_>, role: Role, a: Itv, b: Itv) -> bool
    ensures { result ≡ plays_in look.now.region role a b }
{
    plays(role, known(look, a), known(look, b))
}

/// Whether the part at a place is that.
pub fn at_part(look: &Look<'_>, role: Role, a: Itv, parts: &[Itv], i: u32) -> bool
    ensures { result ≡ at_part look.now.region role a parts.now i }
{
    match at(parts, i as usize) {
        None => false,
        Some(b) => plays_in(look, role, a, *b),
    }
}

/// Whether some part is that.
pub fn some_part(look: &Look<'_>, role: Role, a: Itv, parts: &[Itv]) -> bool
    ensures { result ≡ some_part look.now.region role a parts.now }
{
    parts.iter().any(|b| plays_in(look, role, a, *b))
}

/// How many parts are that.
pub fn part_count(look: &Look<'_>, role: Role, a: Itv, parts: &[Itv]) -> usize
    ensures { result ≡ part_count look.now.region role a parts.now }
{
    parts
        .iter()
        .filter(|b| plays_in(look, role, a, **b))
        .count()
}
