//! What a look tells of the times of intervals.
ghost use Rattle.std.specs.Prelude.{◌≡◌, ◌<◌, ◌+ℤ◌, int_lt, length};
ghost use Rattle.region.specs.Cells.{bounds_of};
ghost use Rattle.region.specs.Looks.{ect_of, lst_of};
ghost use Rattle.refute_state.specs.Times.{is_late, is_long, is_long_in};

use region::{Bounds, Look, Presence};
use sched_base::Itv;

fn is_long_in(c: Bounds) -> bool
    ensures { result ≡ is_long_in c }
{
    c.presence == Presence::Present && (1 <= c.pmin || c.smax < c.emin)
}

/// Whether an interval is present and can't be empty.
#[tactic(auto, using(crate::proofs::Timing::none_long))]
pub fn is_long(look: &Look<'_>, x: Itv) -> bool
    ensures { result ≡ is_long look.now.region x }
{
    if x.0 as usize >= look.len() {
        return false;
    }
    is_long_in(look.bounds(x))
}

/// The latest start of an interval.
#[tactic(auto, using(crate::proofs::Timing::none_starts))]
pub fn latest_start(look: &Look<'_>, x: Itv) -> i64
    ensures { result ≡ lst_of look.now.region x }
{
    if x.0 as usize >= look.len() {
        return 0;
    }
    look.lst(x)
}

/// Whether a moment with a distance is later than another moment.
fn is_past(first: i64, d: i64, second: i64) -> bool
    ensures { result ≡ int_lt second (first +ℤ d) }
{
    i128::from(second) < i128::from(first) + i128::from(d)
}

/// Whether an interval can't end, with a distance, before another starts.
pub fn is_late(look: &Look<'_>, x: Itv, d: i64, y: Itv) -> bool
    requires first { x.0 < length look.now.region.bounds }
    requires second { y.0 < length look.now.region.bounds }
    ensures { result ≡ is_late look.now.region x d y }
{
    is_past(look.ect(x), d, look.lst(y))
}
