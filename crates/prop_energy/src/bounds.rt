ghost use Rattle.std.specs.Prelude.{◌≡◌, ◌≤◌, length, IfOk};
ghost use Rattle.sched_model.specs.Valid.{IsValid};
ghost use Rattle.prop_energy.specs.code.Bounds.{bound_of, bounds_from};

use refute_cumul::parts_of;
use refute_energy::is_capacity;
use sched_base::{Cum, NoMemory};
use sched_model::{Constraint, Model, Window};
use std::alloc::Global;

/// A capacity of a cumulative function: constraint `c` bounds `f` from above by `hi`, which isn't negative,
/// over all moments, and no part of `f` is subtracted.
#[derive(Clone, Copy, Debug)]
pub struct Bound {
    pub c: u32,
    pub f: Cum,
    pub hi: i64,
}

fn bound_of(model: &Model, c: u32, constraint: &Constraint) -> Option<Bound>
    ensures { result ≡ bound_of model.now c constraint.now }
{
    match constraint {
        Constraint::CumulIn {
            f,
            window: Window::Always,
            lo: _,
            hi,
        } => {
            if !is_capacity(*hi, parts_of(model, *f)) {
                return None;
            }
            Some(Bound { c, f: *f, hi: *hi })
        }
        _ => None,
    }
}

/// The constraints of a model, which are few.
#[tactic(auto, using(crate::proofs::Bounding::few_constraints))]
fn constraints_of(model: &Model) -> &[Constraint]
    ensures list { result.now ≡ model.now.constraints }
    ensures few { length result.now ≤ 20000 }
{
    model.constraints()
}

/// The capacities of a model, in the order of its constraints.
#[tactic(auto, using(crate::proofs::Bounding::one_pushed, crate::proofs::Bounding::one_passed, crate::proofs::Bounding::all_gathered))]
pub fn bounds_of(alloc: Global, model: &Model) -> Result<Vec<Bound>, NoMemory>
    ensures { IfOk result (λ v. v.items ≡ bounds_from model.now 0 model.now.constraints) }
{
    let constraints = constraints_of(model);
    let mut bounds = Vec::new(alloc);
    for k in 0..constraints.len() {
        if let Some(bound) = bound_of(model, k as u32, &constraints[k]) {
            bounds.push(bound)?;
        }
    }
    Ok(bounds)
}
