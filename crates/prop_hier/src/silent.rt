//! Where no guess on a part is refuted, by a few comparisons.
ghost use Rattle.std.specs.Prelude.{◌≡◌, ◌&&◌, ◌+ℤ◌, pos, int_le, int_lt};
ghost use Rattle.findings.specs.code.Numbers.{ends_of};
ghost use Rattle.region.specs.Cells.{bounds_of};
ghost use Rattle.region.specs.Looks.{HasMoments, lst_in, ect_in};
ghost use Rattle.prop_hier.specs.code.Silent.{is_within, has_others, starts_match, ends_match, lasts, always_matches, leaves_room, has_another, is_silent};

use crate::counts::Counts;
use findings::{Ends, ends_at};
use refute_hier::{Kind, known};
use region::{Bounds, Look, Presence, earliest_end, latest_start};
use sched_base::Itv;

/// Whether no guess on a part lets it start before its interval, or end after it.
fn is_within(a: Bounds, e: Ends) -> bool
    ensures { result ≡ is_within a e }
{
    a.smin <= e.lowest_start && e.highest_end <= a.emax
}

/// Whether others may start and end with their interval, whatever is guessed of one part.
fn has_others(presence: Presence, n: Counts) -> bool
    ensures { result ≡ has_others presence n }
{
    match presence {
        Presence::Absent => false,
        Presence::Present => 1 < n.may_start && 1 < n.may_end,
        Presence::Maybe => true,
    }
}

/// Whether a moment is no later than another.
fn is_until(t: i64, end: i64) -> bool
    ensures { result ≡ int_le t end }
{
    t <= end
}

/// Whether a moment is one of those from another until a third.
fn is_between(t: i64, from: i64, end: i64) -> bool
    ensures { result ≡ (int_le from t && int_le t end) }
{
    is_until(from, t) & is_until(t, end)
}

/// Whether what starts at a moment has room before another.
fn has_room(start: i64, size: i64, end: i64) -> bool
    ensures { result ≡ int_le (start +ℤ size) end }
{
    i128::from(start) + i128::from(size) <= i128::from(end)
}

/// The latest start.
fn last_start(c: Bounds) -> i64
    requires { HasMoments c }
    ensures { result ≡ lst_in c }
{
    latest_start(c.smax, c.emax, c.pmin)
}

/// The earliest completion.
fn first_end(c: Bounds) -> i64
    requires { HasMoments c }
    ensures { result ≡ ect_in c }
{
    earliest_end(c.emin, c.smin, c.pmin)
}

/// Whether the starts of a part lie among those of its interval.
fn starts_match(a: Bounds, b: Bounds) -> bool
    requires { HasMoments a }
    ensures { result ≡ starts_match a b }
{
    is_between(b.smin, a.smin, b.smax) & is_until(b.smax, last_start(a))
}

/// Whether its ends lie among those of its interval.
fn ends_match(a: Bounds, b: Bounds) -> bool
    requires { HasMoments a }
    ensures { result ≡ ends_match a b }
{
    is_between(b.emin, first_end(a), b.emax) & is_until(b.emax, a.emax)
}

/// Whether a part has room between its first bounds, and between its last ones.
fn lasts(b: Bounds) -> bool
    ensures { result ≡ lasts b }
{
    has_room(b.smin, b.pmin, b.emin) & has_room(b.smax, b.pmin, b.emax)
}

/// Whether no guess on a part makes its starts or its ends others than those of its interval.
fn always_matches(a: Bounds, b: Bounds) -> bool
    requires { HasMoments a }
    ensures { result ≡ always_matches a b }
{
    starts_match(a, b) & ends_match(a, b) & lasts(b)
}

/// Whether so many are fewer than the count of an alternative.
fn is_fewer(n: usize, count: i64) -> bool
    ensures { result ≡ int_lt (pos n) count }
{
    (n as i128) < i128::from(count)
}

/// Whether so many are more than the count of an alternative.
fn is_more(n: usize, count: i64) -> bool
    ensures { result ≡ int_lt count (pos n) }
{
    i128::from(count) < n as i128
}

/// Whether no more parts are present than the count, whatever is guessed of one.
fn leaves_room(count: i64, part: Presence, n: Counts) -> bool
    ensures { result ≡ leaves_room count part n }
{
    (part == Presence::Present && 0 < n.there) || is_fewer(n.there, count)
}

/// The same, and no fewer may match their interval.
fn has_another(count: i64, presence: Presence, part: Presence, n: Counts) -> bool
    ensures { result ≡ has_another count presence part n }
{
    match presence {
        Presence::Absent => false,
        Presence::Present => leaves_room(count, part, n) && is_more(n.may_match, count),
        Presence::Maybe => leaves_room(count, part, n),
    }
}

/// Whether no guess on a part is refuted, where the region isn't as it stands.
pub fn is_silent(look: &Look<'_>, kind: Kind, a: Bounds, x: Itv, n: Counts) -> bool
    requires { HasMoments a }
    ensures { result ≡ is_silent kind a (bounds_of look.now.region x) n }
{
    match kind {
        Kind::Span => has_others(a.presence, n) && is_within(a, ends_at(look, x)),
        Kind::Alternative { count } => {
            let b = known(look, x);
            has_another(count, a.presence, b.presence, n) && always_matches(a, b)
        }
        Kind::Synchronize => always_matches(a, known(look, x)),
    }
}
