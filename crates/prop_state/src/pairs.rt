//! What STATE finds of a state function.
ghost use Rattle.std.specs.Prelude.{◌≡◌, ◌≤◌, ◌∷◌, [], length, IfNone, IfSome};
ghost use Rattle.region.specs.Looks.{IsRegionOf};
ghost use Rattle.findings.specs.Found.{IsFinding};
ghost use Rattle.refute_state.specs.declared.witness.StateWitness.TheVariants as witness;
ghost use Rattle.refute_state.specs.OnState.{refutes};
ghost use Rattle.prop_state.specs.code.Tasks.{IsSilent, quiet};
ghost use Rattle.prop_state.specs.code.Walks.{AreAll, AreNamed, EachOf, EachTwo, IsOf, SilentTwo};

use crate::demands::{Named, Noted};
use crate::silence::may_refute_pair;
use findings::{Finding, ask};
use refute_state::{OnState, StateWitness};
use region::Region;
use sched_model::Model;

/// What STATE finds of two demands.
fn ask_state(
    model: &Model,
    region: &Region,
    best: Option<i64>,
    k: u32,
    a: Named,
    b: Named,
) -> Option<Finding<StateWitness>>
    requires of { IsRegionOf model.now region.now.region }
    requires first { IsOf model.now region.now.region k a }
    requires second { IsOf model.now region.now.region k b }
    ensures none { IfNone result (IsSilent model.now region.now.region best (witness.State a.c b.c)) }
    ensures some { IfSome result (IsFinding refutes model.now region.now.region best) }
    ensures busy { IfSome result (λ f. quiet model.now k region.now.region best → ⊥) }
{
    let witness = StateWitness::State { c1: a.c, c2: b.c };
    match ask::<OnState>(
        model,
        region,
        best,
        &witness,
        &[a.demand.x, b.demand.x],
        &[],
    ) {
        None => None,
        Some(guess) => Some(Finding { guess, witness }),
    }
}

/// The same where the second is of a later constraint. Mostly their numbers show at once that nothing
/// is found.
fn ask_two(
    model: &Model,
    region: &Region,
    best: Option<i64>,
    k: u32,
    a: Named,
    b: Named,
) -> Option<Finding<StateWitness>>
    requires of { IsRegionOf model.now region.now.region }
    requires first { IsOf model.now region.now.region k a }
    requires second { IsOf model.now region.now.region k b }
    ensures none { IfNone result (SilentTwo model.now region.now.region best k a.c b.c) }
    ensures some { IfSome result (IsFinding refutes model.now region.now.region best) }
    ensures busy { IfSome result (λ f. quiet model.now k region.now.region best → ⊥) }
{
    if a.c >= b.c {
        return None;
    }
    if !may_refute_pair(model, a, b) {
        return None;
    }
    ask_state(model, region, best, k, a, b)
}

/// What is found of a demand and others.
fn ask_row(
    model: &Model,
    region: &Region,
    best: Option<i64>,
    k: u32,
    a: Named,
    cs: &[u32],
    notes: &[Named],
) -> Option<Finding<StateWitness>>
    requires of { IsRegionOf model.now region.now.region }
    requires first { IsOf model.now region.now.region k a }
    requires room { length cs.now ≤ length notes.now }
    requires noted { AreNamed model.now region.now.region k cs.now notes.now }
    ensures none { IfNone result (EachOf (SilentTwo model.now region.now.region best k a.c) cs.now) }
    ensures some { IfSome result (IsFinding refutes model.now region.now.region best) }
    ensures busy { IfSome result (λ f. quiet model.now k region.now.region best → ⊥) }
{
    for i in 0..cs.len() {
        if let Some(found) = ask_two(model, region, best, k, a, notes[i]) {
            return Some(found);
        }
    }
    None
}

/// What STATE finds of some demands of a state function, each with some others.
pub fn ask_pairs(
    model: &Model,
    region: &Region,
    best: Option<i64>,
    k: u32,
    first: &Noted<'_>,
    second: &Noted<'_>,
) -> Option<Finding<StateWitness>>
    requires of { IsRegionOf model.now region.now.region }
    requires first { AreAll model.now region.now.region k first.now.cs.now first.now.notes.now }
    requires second { AreAll model.now region.now.region k second.now.cs.now second.now.notes.now }
    ensures none { IfNone result (EachTwo model.now region.now.region best k first.now.cs.now second.now.cs.now) }
    ensures some { IfSome result (IsFinding refutes model.now region.now.region best) }
    ensures busy { IfSome result (λ f. quiet model.now k region.now.region best → ⊥) }
{
    for i in 0..first.cs.len() {
        let a = first.notes[i];
        if let Some(found) = ask_row(model, region, best, k, a, second.cs, second.notes) {
            return Some(found);
        }
    }
    None
}
