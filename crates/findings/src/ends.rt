//! The numbers of an interval by which propagators tell whether it can be too late for another.
ghost use Rattle.std.specs.Prelude.{◌≡◌, ◌+ℤ◌, ◌-ℤ◌, IsTrue};
ghost use Rattle.std.specs.Int.{int_max, int_min};
ghost use Rattle.sched_model.specs.Valid.{is_moment};
ghost use Rattle.region.specs.Looks.{HasMoments, is_shifted, ect_in, lst_in};
ghost use Rattle.region.specs.Cells.{bounds_of};
ghost use Rattle.findings.specs.code.Numbers.{ends_of, ends_in, highest_end, lowest_start, HasShifts};

use region::{Bounds, Look, Presence, Region};
use sched_base::Itv;

/// What is compared of an interval, in moments.
#[derive(Clone, Copy, Debug, PartialEq, Eq)]
pub struct Ends {
    pub presence: Presence,
    /// The earliest completion.
    pub ect: i64,
    /// The latest start.
    pub lst: i64,
    /// The greatest earliest completion that a guess at the end of a cell makes.
    pub highest_end: i64,
    /// The least latest start that one makes.
    pub lowest_start: i64,
}

impl Ends {
    /// Those of an interval of which nothing is known.
    pub const UNKNOWN: Ends = Ends {
        presence: Presence::Maybe,
        ect: 0,
        lst: 0,
        highest_end: 0,
        lowest_start: 0,
    };
}

/// The greater of a moment and a sum of two.
fn max_sum(n: i64, a: i64, b: i64) -> i64
    requires one { IsTrue (is_moment n) }
    requires first { IsTrue (is_moment a) }
    requires second { IsTrue (is_moment b) }
    ensures value { result ≡ int_max n (a +ℤ b) }
    ensures small { IsTrue (is_shifted result) }
{
    let sum = a + b;
    if n < sum { sum } else { n }
}

/// The smaller of a moment and a difference of two.
fn min_difference(n: i64, a: i64, b: i64) -> i64
    requires one { IsTrue (is_moment n) }
    requires first { IsTrue (is_moment a) }
    requires second { IsTrue (is_moment b) }
    ensures value { result ≡ int_min n (a -ℤ b) }
    ensures small { IsTrue (is_shifted result) }
{
    let difference = a - b;
    if difference < n { difference } else { n }
}

/// The greater of two moments.
fn later(a: i64, b: i64) -> i64
    requires first { IsTrue (is_moment a) }
    requires second { IsTrue (is_moment b) }
    ensures value { result ≡ int_max a b }
    ensures moment { IsTrue (is_moment result) }
{
    a.max(b)
}

/// The smaller of two moments.
fn sooner(a: i64, b: i64) -> i64
    requires first { IsTrue (is_moment a) }
    requires second { IsTrue (is_moment b) }
    ensures value { result ≡ int_min a b }
    ensures moment { IsTrue (is_moment result) }
{
    a.min(b)
}

fn highest_end(c: Bounds) -> i64
    requires { HasMoments c }
    ensures value { result ≡ highest_end c }
    ensures small { IsTrue (is_shifted result) }
{
    let end = later(c.emin, c.emax);
    let start = later(c.smin, c.smax);
    max_sum(end, start, c.pmin)
}

fn lowest_start(c: Bounds) -> i64
    requires { HasMoments c }
    ensures value { result ≡ lowest_start c }
    ensures small { IsTrue (is_shifted result) }
{
    let start = sooner(c.smin, c.smax);
    let end = sooner(c.emin, c.emax);
    min_difference(start, end, c.pmin)
}

/// The numbers of an interval with these bounds.
fn ends_of(c: Bounds) -> Ends
    requires { HasMoments c }
    ensures value { result ≡ ends_of c }
    ensures small { HasShifts result }
{
    let ect = max_sum(c.emin, c.smin, c.pmin);
    let lst = min_difference(c.smax, c.emax, c.pmin);
    let highest_end = highest_end(c);
    let lowest_start = lowest_start(c);
    Ends {
        presence: c.presence,
        ect,
        lst,
        highest_end,
        lowest_start,
    }
}

/// The numbers of an interval in a look.
pub fn ends_at(look: &Look<'_>, x: Itv) -> Ends
    ensures value { result ≡ ends_of (bounds_of look.now.region x) }
    ensures small { HasShifts result }
{
    if x.0 as usize >= look.len() {
        return Ends::UNKNOWN;
    }
    ends_of(look.bounds(x))
}

/// The numbers of an interval in a region.
pub fn ends_in(region: &Region, x: Itv) -> Ends
    ensures value { result ≡ ends_in region.now.region x }
    ensures small { HasShifts result }
{
    let look = region.look(None, None);
    ends_at(&look, x)
}
