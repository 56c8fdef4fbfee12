ghost use Rattle.std.specs.Prelude.{◌≡◌, ◌≤◌, true, false, length, IfSome, IfNone};
ghost use Rattle.refute_state.specs.code.Gathered.{demands_at};
ghost use Rattle.prop_state.specs.code.Walks.{EachOf, IsNamed, AreNamed};

use findings::{Ends, ends_in};
use refute_state::{Demand, demand_at};
use region::Region;
use sched_base::{Itv, Stf};
use sched_model::Model;

/// A constraint, by its id, with its demand and the numbers of the demand's interval.
#[derive(Clone, Copy, Debug, PartialEq, Eq)]
pub struct Named {
    pub c: u32,
    pub demand: Demand,
    pub ends: Ends,
}

/// What stands where no constraint is noted.
pub const NONE: Named = Named {
    c: 0,
    demand: Demand {
        g: Stf(0),
        x: Itv(0),
        state: None,
        starts: false,
        ends: false,
    },
    ends: Ends::UNKNOWN,
};

/// Some constraints, and their demands at the same places.
#[derive(Clone, Copy)]
pub struct Noted<'a> {
    pub cs: &'a [u32],
    pub notes: &'a [Named],
}

/// The constraint with its demand, if it is one of the state function.
#[tactic(auto, using(crate::proofs::Asked::not_demand, crate::proofs::Asked::other_function, crate::proofs::Asked::named_here))]
fn own_demand(model: &Model, region: &Region, k: u32, c: u32) -> Option<Named>
    ensures some { IfSome result (λ n. IsNamed model.now region.now.region k c n) }
    ensures none { IfNone result (demands_at model.now k c ≡ false) }
{
    let demand = demand_at(model, c)?;
    if demand.g.0 != k {
        return None;
    }
    let ends = ends_in(region, demand.x);
    Some(Named { c, demand, ends })
}

/// Puts the demands of a state function at their places.
pub fn note_demands(model: &Model, region: &Region, k: u32, cs: &[u32], notes: &mut [Named])
    requires demands { EachOf (λ c. demands_at model.now k c ≡ true) cs.now }
    requires room { length cs.now ≤ length notes.old }
    ensures same { length notes.new ≡ length notes.old }
    ensures noted { AreNamed model.now region.now.region k cs.now notes.new }
{
    for i in 0..cs.len() {
        let Some(named) = own_demand(model, region, k, cs[i]) else {
            continue;
        };
        notes[i] = named;
    }
}
