//! The segments that settled slots leave.
ghost use Rattle.std.specs.Prelude.{◌≡◌, IfOk, OnOk, IsTrue, length, map, Option, Some, None, if◌then◌else◌};
ghost use Rattle.std.specs.List.{filter_map, range_with_len};
ghost use Rattle.sched_model.specs.declared.types.Assignment.{Assignment};
ghost use Rattle.sched_model.specs.Value.{slot_of, start_of, end_of};
ghost use Rattle.sched_model.specs.States.{demands};
ghost use Rattle.sched_model.specs.Domain.{is_in_domain};
ghost use Rattle.sched_model.specs.Valid.{IsValid};
ghost use Rattle.refute_state.specs.laws.Canonical.{KeepsStates};
ghost use Rattle.refute_state.specs.code.Canonical.{at_slots, stretch_of, empty_of, canonical_for, canonical};

use crate::runs::segments_of;
use crate::stretch::Stretch;
use sched_base::{Itv, List, NoMemory, Stf};
use sched_model::{Constraint, Model, Segment, Slot};
use std::alloc::Global;

fn slot_at(slots: &[Slot], x: Itv) -> Slot
    ensures { result ≡ slot_of (at_slots slots.now) x }
{
    slots.get(x.0 as usize).copied().unwrap_or(Slot::Absent)
}

/// The ends of an interval that demands something.
fn demanded(slots: &[Slot], x: Itv) -> Option<(i64, i64)>
    ensures { result ≡ (if demands (at_slots slots.now) x then Some (start_of (at_slots slots.now) x, end_of (at_slots slots.now) x) else None) }
{
    match slot_at(slots, x) {
        Slot::Absent => None,
        Slot::Present { s, e } => {
            if s < e {
                return Some((s, e));
            }
            None
        }
    }
}

fn stretch_of(slots: &[Slot], g: Stf, c: &Constraint) -> Option<Stretch>
    ensures { result ≡ stretch_of slots.now g c.now }
{
    match c {
        Constraint::AlwaysEqual {
            g: h,
            a,
            v,
            start_aligned,
            end_aligned,
        } => {
            if h.0 != g.0 {
                return None;
            }
            let (start, end) = demanded(slots, *a)?;
            Some(Stretch {
                start,
                end,
                state: *v,
                starts: *start_aligned,
                ends: *end_aligned,
            })
        }
        _ => None,
    }
}

fn empty_of(slots: &[Slot], g: Stf, c: &Constraint) -> Option<(i64, i64)>
    ensures { result ≡ empty_of slots.now g c.now }
{
    match c {
        Constraint::AlwaysNoState { g: h, a } => {
            if h.0 != g.0 {
                return None;
            }
            demanded(slots, *a)
        }
        _ => None,
    }
}

#[tactic(auto, using(crate::proofs::Collecting::demand_step, crate::proofs::Collecting::demand_none))]
fn demands_in(
    alloc: Global,
    slots: &[Slot],
    g: Stf,
    constraints: &[Constraint],
) -> Result<Vec<Stretch>, NoMemory>
    ensures { IfOk result (λ ds. ds.items ≡ filter_map (stretch_of slots.now g) constraints.now) }
{
    let mut demands = Vec::new(alloc);
    for k in 0..constraints.len() {
        let Some(d) = stretch_of(slots, g, &constraints[k]) else {
            continue;
        };
        demands.push(d)?;
    }
    Ok(demands)
}

#[tactic(auto, using(crate::proofs::Collecting::gap_step, crate::proofs::Collecting::gap_none))]
fn gaps_in(
    alloc: Global,
    slots: &[Slot],
    g: Stf,
    constraints: &[Constraint],
) -> Result<Vec<(i64, i64)>, NoMemory>
    ensures { IfOk result (λ ns. ns.items ≡ filter_map (empty_of slots.now g) constraints.now) }
{
    let mut gaps = Vec::new(alloc);
    for k in 0..constraints.len() {
        let Some(n) = empty_of(slots, g, &constraints[k]) else {
            continue;
        };
        gaps.push(n)?;
    }
    Ok(gaps)
}

fn canonical_for(
    alloc: Global,
    model: &Model,
    slots: &[Slot],
    g: Stf,
) -> Result<List<Segment>, NoMemory>
    ensures { IfOk result (λ ss. ss ≡ canonical_for model.now slots.now g.0) }
{
    let demands = demands_in(alloc, slots, g, model.constraints())?;
    let gaps = gaps_in(alloc, slots, g, model.constraints())?;
    let segments = segments_of(alloc, &demands, &gaps)?;
    Ok(List::from_vec(segments))
}

/// The canonical segments of each state function, one after another.
#[tactic(auto, using(crate::proofs::Collecting::few_states, crate::proofs::Collecting::function_step))]
fn canonical_each(
    alloc: Global,
    model: &Model,
    slots: &[Slot],
) -> Result<List<List<Segment>>, NoMemory>
    ensures { IfOk result (λ ss. ss ≡ canonical model.now slots.now) }
{
    let mut found = Vec::new(alloc);
    let functions = model.states();
    for n in 0..functions.len() {
        let segments = canonical_for(alloc, model, slots, Stf(n as u32))?;
        found.push(segments)?;
    }
    Ok(List::from_vec(found))
}

/// The canonical segments of each state function for slots of the intervals: its demands of one state
/// that overlap are in one segment, and so are two neighbours of one state where neither is aligned at
/// the gap between them nor another demand that wants no state meets it. Where any segments make the
/// state constraints hold with these slots, these do. It looks at each two demands of a state function
/// a few times at most.
pub fn canonical(
    alloc: Global,
    model: &Model,
    slots: &[Slot],
) -> Result<List<List<Segment>>, NoMemory>
    ensures segments { IfOk result (λ ss. ss ≡ canonical model.now slots.now) }
    ensures keeps { IfOk result (KeepsStates model.now slots.now) }
{
    // Called for its clause alone.
    let _ = model.intervals();
    canonical_each(alloc, model, slots)
}
