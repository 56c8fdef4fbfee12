ghost use Rattle.std.specs.Prelude.{◌≡◌, ◌-ℤ◌, int_lt, IsTrue};
ghost use Rattle.sched_model.specs.Valid.{is_moment};
ghost use Rattle.region.specs.Looks.{HasMoments};
ghost use Rattle.refute_basic.specs.Size.{leaves_no_size, has_no_size, size_row};

use region::{Bounds, Look, Presence};
use sched_base::Itv;

/// Whether even the longest distance is too short.
fn is_short(start: i64, end: i64, size: i64) -> bool
    requires start { IsTrue (is_moment start) }
    requires end { IsTrue (is_moment end) }
    ensures { result ≡ int_lt (end -ℤ start) size }
{
    end - start < size
}

/// Whether even the shortest distance is too long.
fn is_long(start: i64, end: i64, size: i64) -> bool
    requires start { IsTrue (is_moment start) }
    requires end { IsTrue (is_moment end) }
    ensures { result ≡ int_lt size (end -ℤ start) }
{
    size < end - start
}

/// Whether the bounds leave no start and end whose distance is one of the sizes.
fn leaves_no_size(c: Bounds) -> bool
    requires { HasMoments c }
    ensures { result ≡ leaves_no_size c }
{
    if c.smax < c.smin {
        return true;
    }
    if c.emax < c.emin {
        return true;
    }
    if is_short(c.smin, c.emax, c.pmin) {
        return true;
    }
    is_long(c.smax, c.emin, c.pmax)
}

fn has_no_size(c: Bounds) -> bool
    requires { HasMoments c }
    ensures { result ≡ has_no_size c }
{
    match c.presence {
        Presence::Present => leaves_no_size(c),
        Presence::Absent => false,
        Presence::Maybe => false,
    }
}

/// Whether SIZE refutes the look.
#[tactic(auto, using(crate::specs::laws::Size::none_past))]
pub fn size(look: &Look<'_>, x: u32) -> bool
    ensures { result ≡ size_row look.now x }
{
    if x as usize >= look.len() {
        return false;
    }
    has_no_size(look.bounds(Itv(x)))
}

/// By how much the bounds miss a size, where they do.
fn missed(c: Bounds) -> i64 {
    let starts = c.smin.saturating_sub(c.smax);
    let ends = c.emin.saturating_sub(c.emax);
    let short = c.pmin.saturating_sub(c.emax.saturating_sub(c.smin));
    let long = c.emin.saturating_sub(c.smax).saturating_sub(c.pmax);
    starts.max(ends).max(short).max(long)
}

/// By how many moments SIZE refutes the look.
pub fn size_excess(look: &Look<'_>, x: u32) -> Option<u64> {
    if x as usize >= look.len() {
        return None;
    }
    u64::try_from(missed(look.bounds(Itv(x)))).ok()
}
