ghost use Rattle.std.specs.Prelude.{◌≡◌, ◌<◌, length};
ghost use Rattle.refute_state.specs.State.{cant_share, goes_past, state_pair, state_row};

use crate::demand::{Demand, demand_at, demand_gap, of_one, same_state, some_state};
use crate::times::{is_late, is_long};
use region::Look;
use sched_model::Model;

/// Whether the first of two is aligned where the second goes past it.
fn goes_past(look: &Look<'_>, a: Demand, b: Demand) -> bool
    requires first { a.x.0 < length look.now.region.bounds }
    requires second { b.x.0 < length look.now.region.bounds }
    ensures { result ≡ goes_past look.now.region a b }
{
    (a.ends && look.lct(a.x) < look.ect(b.x)) || (a.starts && look.lst(b.x) < look.est(a.x))
}

/// Whether two can't lie in one segment, nor both want no state.
fn cant_share(look: &Look<'_>, a: Demand, b: Demand) -> bool
    requires first { a.x.0 < length look.now.region.bounds }
    requires second { b.x.0 < length look.now.region.bounds }
    ensures { result ≡ cant_share look.now.region a b }
{
    some_state(a.state, b.state)
        && (!same_state(a.state, b.state) || goes_past(look, a, b) || goes_past(look, b, a))
}

/// Whether neither of two demands can stand before the other, and they can't share a segment.
#[tactic(auto, using(crate::specs::laws::Long::long_within))]
pub fn state_pair(model: &Model, look: &Look<'_>, a: Demand, b: Demand) -> bool
    ensures { result ≡ state_pair model.now look.now.region a b }
{
    if !of_one(a, b) || !is_long(look, a.x) || !is_long(look, b.x) {
        return false;
    }
    if !is_late(look, a.x, demand_gap(model, a, b), b.x) {
        return false;
    }
    if !is_late(look, b.x, demand_gap(model, b, a), a.x) {
        return false;
    }
    cant_share(look, a, b)
}

/// Whether STATE refutes the look, in constant time.
pub fn state(model: &Model, look: &Look<'_>, c1: u32, c2: u32) -> bool
    ensures { result ≡ state_row model.now look.now c1 c2 }
{
    if c1 >= c2 {
        return false;
    }
    match (demand_at(model, c1), demand_at(model, c2)) {
        (Some(a), Some(b)) => state_pair(model, look, a, b),
        _ => false,
    }
}
