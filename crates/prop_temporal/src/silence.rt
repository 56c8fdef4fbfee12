//! Where ARC finds nothing, by a few comparisons.
ghost use Rattle.std.specs.Prelude.{◌≡◌, ◌+ℤ◌, ◌-ℤ◌, ◌≤ℤ◌, ◌^◌, pos, neg_ℤ, int_le, true, not, IsTrue, ◌||◌, slice_get};
ghost use Rattle.std.specs.Int.{int_max, int_min};
ghost use Rattle.sched_model.specs.declared.types.Constraint.TheVariants.{Temporal};
ghost use Rattle.sched_model.specs.Words.{passes};
ghost use Rattle.sched_model.specs.Valid.{is_moment, is_small};
ghost use Rattle.region.specs.Cells.{says_present};
ghost use Rattle.region.specs.Looks.{HasMoments};
ghost use Rattle.prop_temporal.specs.code.Silence.{earliest_in, latest_in, highest_in, lowest_in, is_in_time, is_silent_way};

use region::{Bounds, Presence, Region};
use sched_base::{Itv, at};
use sched_model::{Constraint, End, Model, is_small};

/// The greater of a number and a sum.
fn max_sum(n: i64, a: i64, b: i64) -> i64
    requires number { IsTrue (is_moment n) }
    requires first { IsTrue (is_moment a) }
    requires second { IsTrue (is_moment b) }
    ensures value { result ≡ int_max n (a +ℤ b) }
    ensures lower { neg_ℤ (pos (2 ^ 32)) ≤ℤ result }
    ensures upper { result ≤ℤ pos (2 ^ 32) }
{
    let sum = a + b;
    if n < sum {
        return sum;
    }
    n
}

/// The smaller of a number and a difference.
fn min_difference(n: i64, a: i64, b: i64) -> i64
    requires number { IsTrue (is_moment n) }
    requires first { IsTrue (is_moment a) }
    requires second { IsTrue (is_moment b) }
    ensures value { result ≡ int_min n (a -ℤ b) }
    ensures lower { neg_ℤ (pos (2 ^ 32)) ≤ℤ result }
    ensures upper { result ≤ℤ pos (2 ^ 32) }
{
    let difference = a - b;
    if difference < n {
        return difference;
    }
    n
}

/// The moment itself, which is that small.
fn moment(n: i64) -> i64
    requires { IsTrue (is_moment n) }
    ensures value { result ≡ n }
    ensures lower { neg_ℤ (pos (2 ^ 32)) ≤ℤ result }
    ensures upper { result ≤ℤ pos (2 ^ 32) }
{
    n
}

fn greater(a: i64, b: i64) -> i64
    requires first { IsTrue (is_moment a) }
    requires second { IsTrue (is_moment b) }
    ensures value { result ≡ int_max a b }
    ensures small { IsTrue (is_moment result) }
{
    if a < b { b } else { a }
}

fn smaller(a: i64, b: i64) -> i64
    requires first { IsTrue (is_moment a) }
    requires second { IsTrue (is_moment b) }
    ensures value { result ≡ int_min a b }
    ensures small { IsTrue (is_moment result) }
{
    if b < a { b } else { a }
}

fn greatest_end(c: Bounds) -> i64
    requires { HasMoments c }
    ensures value { result ≡ int_max (int_max c.emin c.emax) (int_max c.smin c.smax +ℤ c.pmin) }
    ensures lower { neg_ℤ (pos (2 ^ 32)) ≤ℤ result }
    ensures upper { result ≤ℤ pos (2 ^ 32) }
{
    let end = greater(c.emin, c.emax);
    let start = greater(c.smin, c.smax);
    max_sum(end, start, c.pmin)
}

fn least_start(c: Bounds) -> i64
    requires { HasMoments c }
    ensures value { result ≡ int_min (int_min c.smin c.smax) (int_min c.emin c.emax -ℤ c.pmin) }
    ensures lower { neg_ℤ (pos (2 ^ 32)) ≤ℤ result }
    ensures upper { result ≤ℤ pos (2 ^ 32) }
{
    let start = smaller(c.smin, c.smax);
    let end = smaller(c.emin, c.emax);
    min_difference(start, end, c.pmin)
}

fn earliest_in(end: End, c: Bounds) -> i64
    requires { HasMoments c }
    ensures value { result ≡ earliest_in end c }
    ensures lower { neg_ℤ (pos (2 ^ 32)) ≤ℤ result }
    ensures upper { result ≤ℤ pos (2 ^ 32) }
{
    match end {
        End::Start => moment(c.smin),
        End::Finish => max_sum(c.emin, c.smin, c.pmin),
    }
}

fn latest_in(end: End, c: Bounds) -> i64
    requires { HasMoments c }
    ensures value { result ≡ latest_in end c }
    ensures lower { neg_ℤ (pos (2 ^ 32)) ≤ℤ result }
    ensures upper { result ≤ℤ pos (2 ^ 32) }
{
    match end {
        End::Start => min_difference(c.smax, c.emax, c.pmin),
        End::Finish => moment(c.emax),
    }
}

fn highest_in(end: End, c: Bounds) -> i64
    requires { HasMoments c }
    ensures value { result ≡ highest_in end c }
    ensures lower { neg_ℤ (pos (2 ^ 32)) ≤ℤ result }
    ensures upper { result ≤ℤ pos (2 ^ 32) }
{
    match end {
        End::Start => moment(greater(c.smin, c.smax)),
        End::Finish => greatest_end(c),
    }
}

fn lowest_in(end: End, c: Bounds) -> i64
    requires { HasMoments c }
    ensures value { result ≡ lowest_in end c }
    ensures lower { neg_ℤ (pos (2 ^ 32)) ≤ℤ result }
    ensures upper { result ≤ℤ pos (2 ^ 32) }
{
    match end {
        End::Start => least_start(c),
        End::Finish => moment(smaller(c.emin, c.emax)),
    }
}

fn is_at_most(first: i64, z: i64, second: i64) -> bool
    requires lower { neg_ℤ (pos (2 ^ 32)) ≤ℤ first }
    requires upper { first ≤ℤ pos (2 ^ 32) }
    requires small { IsTrue (is_small z) }
    ensures { result ≡ int_le (first +ℤ z) second }
{
    first + z <= second
}

/// Whether the first point is in time under each guess on the second interval.
fn is_in_time_of_second(c: Bounds, from: End, d: Bounds, to: End, z: i64) -> bool
    requires first { HasMoments c }
    requires second { HasMoments d }
    requires small { IsTrue (is_small z) }
    ensures { result ≡ (not (says_present c.presence) || int_le (earliest_in from c +ℤ z) (lowest_in to d)) }
{
    match c.presence {
        Presence::Present => is_at_most(earliest_in(from, c), z, lowest_in(to, d)),
        _ => true,
    }
}

/// Whether the first point is in time under each guess on the first interval.
fn is_in_time_of_first(c: Bounds, from: End, d: Bounds, to: End, z: i64) -> bool
    requires first { HasMoments c }
    requires second { HasMoments d }
    requires small { IsTrue (is_small z) }
    ensures { result ≡ (not (says_present d.presence) || int_le (highest_in from c +ℤ z) (latest_in to d)) }
{
    match d.presence {
        Presence::Present => is_at_most(highest_in(from, c), z, latest_in(to, d)),
        _ => true,
    }
}

/// Whether the first point, moved on by `z`, is not too late for the second, under no guess on either
/// interval.
fn is_in_time(c: Bounds, from: End, d: Bounds, to: End, z: i64) -> bool
    requires first { HasMoments c }
    requires second { HasMoments d }
    requires small { IsTrue (is_small z) }
    ensures { result ≡ is_in_time c from d to z }
{
    is_in_time_of_second(c, from, d, to, z) && is_in_time_of_first(c, from, d, to, z)
}

/// The distance backwards.
fn minus(z: i64) -> i64
    requires { IsTrue (is_small z) }
    ensures value { result ≡ pos 0 -ℤ z }
    ensures small { IsTrue (is_small result) }
{
    0 - z
}

/// Whether one way of a precedence is silent by the bounds of its two intervals. Of an interval after
/// itself this says nothing.
fn is_silent_pair(
    region: &Region,
    d: u32,
    from: End,
    to: End,
    equal: bool,
    a: Itv,
    b: Itv,
    z: i64,
) -> bool
    ensures { result ≡ true → is_silent_way region.now.region d (Temporal from to equal a b z) ≡ true }
{
    let look = region.look(None, None);
    if a.0 as usize >= look.len() {
        return false;
    }
    if b.0 as usize >= look.len() {
        return false;
    }
    if a.0 == b.0 {
        return false;
    }
    if !is_small(z) {
        return false;
    }
    let first = look.bounds(a);
    let second = look.bounds(b);
    if d == 0 {
        return is_in_time(first, from, second, to, z);
    }
    if d != 1 {
        return false;
    }
    if !equal {
        return true;
    }
    is_in_time(second, to, first, from, minus(z))
}

fn is_silent_way(region: &Region, d: u32, constraint: &Constraint) -> bool
    ensures { result ≡ true → is_silent_way region.now.region d constraint.now ≡ true }
{
    match constraint {
        Constraint::Temporal {
            from,
            to,
            equal,
            a,
            b,
            z,
        } => is_silent_pair(region, d, *from, *to, *equal, *a, *b, *z),
        _ => false,
    }
}

/// Whether ARC of a constraint is silent by the bounds of its two intervals.
pub fn is_surely_silent(model: &Model, region: &Region, c: u32, d: u32) -> bool
    ensures { result ≡ true → passes (is_silent_way region.now.region d) (slice_get model.now.constraints c) ≡ true }
{
    match at(model.constraints(), c as usize) {
        None => false,
        Some(constraint) => is_silent_way(region, d, constraint),
    }
}
