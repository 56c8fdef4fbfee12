//! What STATE3 finds of a state function.
ghost use Rattle.std.specs.Prelude.{◌≡◌, ◌≤◌, ◌∷◌, [], true, length, IfNone, IfSome};
ghost use Rattle.region.specs.Looks.{IsRegionOf};
ghost use Rattle.findings.specs.Found.{IsFinding};
ghost use Rattle.refute_state.specs.declared.witness.StateWitness.TheVariants as witness;
ghost use Rattle.refute_state.specs.OnState.{refutes};
ghost use Rattle.prop_state.specs.code.Tasks.{IsSilent, quiet};
ghost use Rattle.prop_state.specs.code.Silence.{IsCovered};
ghost use Rattle.prop_state.specs.code.Walks.{AreAll, AreNamed, EachOf, EachThree, IsOf, SilentAround, SilentThree};

use crate::demands::{Named, Noted};
use crate::parts::longest_of;
use crate::silence::{may_refute_around, may_refute_triple};
use findings::{Finding, View, ask};
use refute_state::{OnState, StateWitness, same_state};
use region::Region;
use sched_model::Model;

/// What STATE3 finds of three demands.
fn ask_state3(
    model: &Model,
    region: &Region,
    best: Option<i64>,
    k: u32,
    a: Named,
    x: Named,
    b: Named,
) -> Option<Finding<StateWitness>>
    requires of { IsRegionOf model.now region.now.region }
    requires first { IsOf model.now region.now.region k a }
    requires second { IsOf model.now region.now.region k x }
    requires third { IsOf model.now region.now.region k b }
    ensures none { IfNone result (IsSilent model.now region.now.region best (witness.State3 a.c x.c b.c)) }
    ensures some { IfSome result (IsFinding refutes model.now region.now.region best) }
    ensures busy { IfSome result (λ f. quiet model.now k region.now.region best → ⊥) }
{
    let witness = StateWitness::State3 {
        c1: a.c,
        c2: x.c,
        c3: b.c,
    };
    match ask::<OnState>(
        model,
        region,
        best,
        &witness,
        &[a.demand.x, x.demand.x, b.demand.x],
        &[],
    ) {
        None => None,
        Some(guess) => Some(Finding { guess, witness }),
    }
}

/// The same where the second may be of any state. Mostly their numbers show at once that nothing is
/// found.
fn ask_three(
    model: &Model,
    region: &Region,
    best: Option<i64>,
    k: u32,
    a: Named,
    x: Named,
    b: Named,
) -> Option<Finding<StateWitness>>
    requires of { IsRegionOf model.now region.now.region }
    requires first { IsOf model.now region.now.region k a }
    requires second { IsOf model.now region.now.region k x }
    requires third { IsOf model.now region.now.region k b }
    ensures none { IfNone result (SilentThree model.now region.now.region best k a.c x.c b.c) }
    ensures some { IfSome result (IsFinding refutes model.now region.now.region best) }
    ensures busy { IfSome result (λ f. quiet model.now k region.now.region best → ⊥) }
{
    if same_state(a.demand.state, x.demand.state) {
        return None;
    }
    if !may_refute_triple(model, a, x, b) {
        return None;
    }
    ask_state3(model, region, best, k, a, x, b)
}

/// What is found of two demands and others between them.
fn ask_between(
    model: &Model,
    region: &Region,
    best: Option<i64>,
    k: u32,
    a: Named,
    b: Named,
    cs: &[u32],
    notes: &[Named],
) -> Option<Finding<StateWitness>>
    requires of { IsRegionOf model.now region.now.region }
    requires first { IsOf model.now region.now.region k a }
    requires third { IsOf model.now region.now.region k b }
    requires room { length cs.now ≤ length notes.now }
    requires noted { AreNamed model.now region.now.region k cs.now notes.now }
    ensures none { IfNone result (SilentAround model.now region.now.region best k a.c cs.now b.c) }
    ensures some { IfSome result (IsFinding refutes model.now region.now.region best) }
    ensures busy { IfSome result (λ f. quiet model.now k region.now.region best → ⊥) }
{
    for i in 0..cs.len() {
        if let Some(found) = ask_three(model, region, best, k, a, notes[i], b) {
            return Some(found);
        }
    }
    None
}

/// The same where the third may be of any state. Mostly
/// the two stand so far apart that no compulsory part of this length reaches from one to the other.
fn ask_around(
    view: &View<'_>,
    k: u32,
    longest: i64,
    a: Named,
    b: Named,
    cs: &[u32],
    notes: &[Named],
) -> Option<Finding<StateWitness>>
    requires of { IsRegionOf view.now.model.now view.now.region.now.region }
    requires first { IsOf view.now.model.now view.now.region.now.region k a }
    requires third { IsOf view.now.model.now view.now.region.now.region k b }
    requires covered { EachOf (IsCovered view.now.model.now view.now.region.now.region longest) cs.now }
    requires room { length cs.now ≤ length notes.now }
    requires noted { AreNamed view.now.model.now view.now.region.now.region k cs.now notes.now }
    ensures none { IfNone result (SilentAround view.now.model.now view.now.region.now.region view.now.best k a.c cs.now b.c) }
    ensures some { IfSome result (IsFinding refutes view.now.model.now view.now.region.now.region view.now.best) }
    ensures busy { IfSome result (λ f. quiet view.now.model.now k view.now.region.now.region view.now.best → ⊥) }
{
    if a.c == b.c {
        return None;
    }
    if !same_state(a.demand.state, b.demand.state) {
        return None;
    }
    if !may_refute_around(view.model, longest, a, b) {
        return None;
    }
    ask_between(view.model, view.region, view.best, k, a, b, cs, notes)
}

/// What is found of a demand and two others.
fn ask_row(
    model: &Model,
    region: &Region,
    best: Option<i64>,
    k: u32,
    longest: i64,
    a: Named,
    between: &Noted<'_>,
    last: &Noted<'_>,
) -> Option<Finding<StateWitness>>
    requires of { IsRegionOf model.now region.now.region }
    requires first { IsOf model.now region.now.region k a }
    requires covered { EachOf (IsCovered model.now region.now.region longest) between.now.cs.now }
    requires between { AreAll model.now region.now.region k between.now.cs.now between.now.notes.now }
    requires last { AreAll model.now region.now.region k last.now.cs.now last.now.notes.now }
    ensures none { IfNone result (EachOf (SilentAround model.now region.now.region best k a.c between.now.cs.now) last.now.cs.now) }
    ensures some { IfSome result (IsFinding refutes model.now region.now.region best) }
    ensures busy { IfSome result (λ f. quiet model.now k region.now.region best → ⊥) }
{
    let view = View {
        model,
        region,
        best,
    };
    for i in 0..last.cs.len() {
        let b = last.notes[i];
        if let Some(found) = ask_around(&view, k, longest, a, b, between.cs, between.notes) {
            return Some(found);
        }
    }
    None
}

/// What STATE3 finds of some demands of a state function, some others, and some between them. It looks
/// at the third only where the two are of one state and stand near each other.
pub fn ask_triples<'a>(
    model: &Model,
    region: &Region,
    best: Option<i64>,
    k: u32,
    first: &Noted<'a>,
    between: &Noted<'a>,
    last: &Noted<'a>,
) -> Option<Finding<StateWitness>>
    requires of { IsRegionOf model.now region.now.region }
    requires first { AreAll model.now region.now.region k first.now.cs.now first.now.notes.now }
    requires between { AreAll model.now region.now.region k between.now.cs.now between.now.notes.now }
    requires last { AreAll model.now region.now.region k last.now.cs.now last.now.notes.now }
    ensures none { IfNone result (EachThree model.now region.now.region best k first.now.cs.now between.now.cs.now last.now.cs.now) }
    ensures some { IfSome result (IsFinding refutes model.now region.now.region best) }
    ensures busy { IfSome result (λ f. quiet model.now k region.now.region best → ⊥) }
{
    let longest = longest_of(model, region, between.cs);
    for i in 0..first.cs.len() {
        let a = first.notes[i];
        if let Some(found) = ask_row(model, region, best, k, longest, a, between, last) {
            return Some(found);
        }
    }
    None
}
