ghost use Rattle.std.specs.Prelude.{◌≡◌};
ghost use Rattle.refute_state.specs.State3.{other_between, state_triple, state3_row};

use crate::demand::{Demand, demand_at, demand_gap, of_one, same_state};
use crate::times::{is_late, is_long};
use region::Look;
use sched_model::Model;

/// Whether the second of three demands is of another state than the first and the third, or of none.
fn other_between(a: Demand, x: Demand, b: Demand) -> bool
    ensures { result ≡ other_between a x b }
{
    of_one(a, x) && of_one(a, b) && same_state(a.state, b.state) && !same_state(a.state, x.state)
}

/// Whether a demand stands between two of one state that are too near for it.
#[tactic(auto, using(crate::specs::laws::Long::long_within))]
pub fn state_triple(model: &Model, look: &Look<'_>, a: Demand, x: Demand, b: Demand) -> bool
    ensures { result ≡ state_triple model.now look.now.region a x b }
{
    if !other_between(a, x, b) {
        return false;
    }
    if !is_long(look, a.x) || !is_long(look, x.x) || !is_long(look, b.x) {
        return false;
    }
    is_late(look, x.x, 0, a.x)
        && is_late(look, b.x, 0, x.x)
        && is_late(look, a.x, demand_gap(model, a, b), b.x)
}

/// Whether STATE3 refutes the look, in constant time.
pub fn state3(model: &Model, look: &Look<'_>, c1: u32, c2: u32, c3: u32) -> bool
    ensures { result ≡ state3_row model.now look.now c1 c2 c3 }
{
    if c1 == c3 {
        return false;
    }
    match (
        demand_at(model, c1),
        demand_at(model, c2),
        demand_at(model, c3),
    ) {
        (Some(a), Some(x), Some(b)) => state_triple(model, look, a, x, b),
        _ => false,
    }
}
