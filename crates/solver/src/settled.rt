//! The assignment that a settled region leaves.
ghost use Rattle.std.specs.Prelude.{◌≡◌, ◌<◌, ◌^◌, true, length, ◌++◌, IfOk, OnOk};
ghost use Rattle.sched_model.specs.Domain.{is_in_domain};
ghost use Rattle.region.specs.Cells.{settled_slots};
ghost use Rattle.region.specs.Looks.{IsRegionOf};
ghost use Rattle.refute_seq.specs.code.Order.{settled_orders};
ghost use Rattle.solver.specs.code.Leaves.{settled_assignment};

use refute_basic::settled_slot;
use refute_seq::settled_order;
use refute_state::canonical;
use region::Look;
use sched_base::{Con, Itv, List, NoMemory, Seq};
use sched_model::{Assignment, Model, Slot, holds};
use std::alloc::Global;

fn settled_slots(look: &Look<'_>, slots: &mut Vec<Slot>) -> Result<(), NoMemory>
    requires { length look.now.region.bounds < 2 ^ 32 }
    ensures { OnOk result (slots.new.items ≡ slots.old.items ++ settled_slots look.now.region) }
{
    for n in 0..look.len() as u32 {
        slots.push(settled_slot(look.bounds(Itv(n))))?;
    }
    Ok(())
}

/// The orders that a settled look leaves, one for each sequence.
#[tactic(auto, using(region::specs::laws::Narrowing::as_many))]
fn settled_orders(
    alloc: Global,
    model: &Model,
    look: &Look<'_>,
) -> Result<List<List<Itv>>, NoMemory>
    requires { IsRegionOf model.now look.now.region }
    ensures { IfOk result (λ xss. xss ≡ settled_orders look.now.region) }
{
    let n = model.sequences().len();
    let mut orders = Vec::with_capacity(alloc, n)?;
    for p in 0..n {
        orders.push(settled_order(alloc, model, look, Seq(p as u32))?)?;
    }
    Ok(List::from_vec(orders))
}

/// The assignment at the settled values and in the settled orders, with the canonical segments of the
/// state functions.
pub fn settled_assignment(
    alloc: Global,
    model: &Model,
    look: &Look<'_>,
) -> Result<Assignment, NoMemory>
    requires { IsRegionOf model.now look.now.region }
    ensures { IfOk result (λ a. a ≡ settled_assignment model.now look.now.region) }
{
    // Called for its clause alone.
    let _ = model.intervals();
    let mut slots = Vec::with_capacity(alloc, look.len())?;
    settled_slots(look, &mut slots)?;
    let segs = canonical(alloc, model, &slots)?;
    Ok(Assignment {
        slots: List::from_vec(slots),
        orders: settled_orders(alloc, model, look)?,
        segs,
    })
}

/// Whether every constraint holds. What failed last is tested first.
pub fn all_hold(model: &Model, a: &Assignment, failed: &mut u32) -> bool
    requires { is_in_domain model.now a.now ≡ true }
{
    let n = model.constraints().len();
    if (*failed as usize) < n && !holds(model, Con(*failed), a) {
        return false;
    }
    for c in 0..n {
        if !holds(model, Con(c as u32), a) {
            *failed = c as u32;
            return false;
        }
    }
    true
}
