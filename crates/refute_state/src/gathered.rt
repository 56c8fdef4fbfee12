//! The demands of a state function.
ghost use Rattle.std.specs.Prelude.{◌≡◌, IfOk};
ghost use Rattle.refute_state.specs.code.Gathered.{demands_at, demands_of};

use crate::demand::demand_at;
use sched_base::NoMemory;
use sched_model::Model;
use std::alloc::Global;

/// Whether the constraint is a demand of the state function.
fn demands_at(model: &Model, g: u32, c: u32) -> bool
    ensures { result ≡ demands_at model.now g c }
{
    match demand_at(model, c) {
        None => false,
        Some(d) => d.g.0 == g,
    }
}

/// The constraints that are demands of a state function, by their ids, which rise.
#[tactic(auto, using(crate::proofs::Gathering::demand_more, crate::proofs::Gathering::demand_none))]
pub fn demands_of(alloc: Global, model: &Model, g: u32) -> Result<Vec<u32>, NoMemory>
    ensures { IfOk result (λ cs. cs.items ≡ demands_of model.now g) }
{
    let mut found = Vec::new(alloc);
    for c in 0..model.constraints().len() as u32 {
        if !demands_at(model, g, c) {
            continue;
        }
        found.push(c)?;
    }
    Ok(found)
}
