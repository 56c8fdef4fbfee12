//! What is found of a relation of the members of a sequence.
ghost use Rattle.std.specs.Prelude.{◌≡◌, [], Some, IfNone, IfSome, slice_get};
ghost use Rattle.region.specs.declared.types.Guess.TheVariants as guess;
ghost use Rattle.region.specs.Guesses.{admits};
ghost use Rattle.region.specs.Looks.{IsRegionOf, seen_at};
ghost use Rattle.findings.specs.Found.{IsFinding};
ghost use Rattle.refute_hier.specs.declared.witness.HierWitness.TheVariants.{SeqRel};
ghost use Rattle.refute_hier.specs.Hier.{refutes};
ghost use Rattle.prop_hier.specs.code.Related.{pairs_of, IsSilent, AreSilent};
ghost use Rattle.prop_hier.specs.code.Presences.{refuted_present, IsRefutedPresence, NoPresenceRefuted};

use crate::possible::may_break;
use findings::{Finding, Pair, ask};
use refute_hier::{Hier, HierWitness};
use region::{Guess, Refuter, Region};
use sched_base::{Itv, Seq};
use sched_model::{Constraint, Model};

/// Whether it is open that an interval is present, and the witness refutes the region where it is.
fn refuted_present(
    model: &Model,
    region: &Region,
    best: Option<i64>,
    w: &HierWitness,
    x: Itv,
) -> bool
    requires { IsRegionOf model.now region.now.region }
    ensures { result ≡ refuted_present model.now region.now.region best w.now x }
{
    let g = Guess::Present(x);
    region.admits(g) && Hier::refutes(model, &region.look(Some(g), best), w)
}

/// The first guess that one of a pair is present, under which the witness refutes the region.
#[tactic(auto, using(crate::proofs::Presences::none_first, crate::proofs::Presences::none_more, crate::proofs::Presences::none_at_all, crate::proofs::Presences::first_refuted, crate::proofs::Presences::second_refuted))]
fn refuted_presence(
    model: &Model,
    region: &Region,
    best: Option<i64>,
    w: &HierWitness,
    pairs: &[Pair],
) -> Option<Guess>
    requires { IsRegionOf model.now region.now.region }
    ensures some { IfSome result (IsRefutedPresence model.now region.now.region best w.now pairs.now) }
    ensures none { IfNone result (NoPresenceRefuted model.now region.now.region best w.now pairs.now) }
{
    for i in 0..pairs.len() {
        if refuted_present(model, region, best, w, pairs[i].first) {
            return Some(Guess::Present(pairs[i].first));
        }
        if refuted_present(model, region, best, w, pairs[i].second) {
            return Some(Guess::Present(pairs[i].second));
        }
    }
    None
}

/// What a witness gives that compares these pairs: nothing, or that it refutes the region as it stands,
/// or a guess on the order of a pair or on the presence of one of it, under which it does. Such a guess
/// is tight: none of its form is weaker.
#[tactic(auto, using(crate::proofs::Presences::both_silent, crate::proofs::Presences::order_busy, crate::proofs::Presences::presence_busy, crate::proofs::Presences::presence_found))]
fn ask_pairs(
    model: &Model,
    region: &Region,
    best: Option<i64>,
    w: &HierWitness,
    pairs: &[Pair],
) -> Option<Option<Guess>>
    requires { IsRegionOf model.now region.now.region }
    ensures none { IfNone result (IsSilent model.now region.now.region best w.now pairs.now) }
    ensures some { IfSome result (λ guess. IsFinding refutes model.now region.now.region best (record { guess = guess; witness = w.now })) }
    ensures busy { IfSome result (λ guess. IsSilent model.now region.now.region best w.now pairs.now → ⊥) }
{
    if let Some(found) = ask::<Hier>(model, region, best, w, &[], pairs) {
        return Some(found);
    }
    let guess = refuted_presence(model, region, best, w, pairs)?;
    Some(Some(guess))
}

fn pair(p: Seq, x: Itv, y: Itv) -> Pair
    ensures { result ≡ record { sequence = p; first = x; second = y } }
{
    Pair {
        sequence: p,
        first: x,
        second: y,
    }
}

/// What a witness gives that compares the pairs of a relation, with one more member.
fn ask_related(
    model: &Model,
    region: &Region,
    best: Option<i64>,
    relation: &Constraint,
    w: &HierWitness,
    x: Itv,
) -> Option<Option<Guess>>
    requires { IsRegionOf model.now region.now.region }
    ensures none { IfNone result (IsSilent model.now region.now.region best w.now (pairs_of relation.now x)) }
    ensures some { IfSome result (λ guess. IsFinding refutes model.now region.now.region best (record { guess = guess; witness = w.now })) }
    ensures busy { IfSome result (λ guess. IsSilent model.now region.now.region best w.now (pairs_of relation.now x) → ⊥) }
{
    match relation {
        Constraint::First { p, a } => ask_pairs(model, region, best, w, &[pair(*p, *a, x)]),
        Constraint::Last { p, a } => ask_pairs(model, region, best, w, &[pair(*p, *a, x)]),
        Constraint::Before { p, a, b } => ask_pairs(model, region, best, w, &[pair(*p, *a, *b)]),
        Constraint::Prev { p, a, b } => {
            let pairs = [pair(*p, *a, *b), pair(*p, *a, x), pair(*p, x, *b)];
            ask_pairs(model, region, best, w, &pairs)
        }
        _ => ask_pairs(model, region, best, w, &[]),
    }
}

/// What is found of one member: the witness that names it, and constraint `c`, which is this relation.
/// Where an order is known or a member absent, so that it can't break the relation, nothing is asked.
fn ask_member(
    model: &Model,
    region: &Region,
    best: Option<i64>,
    relation: &Constraint,
    c: u32,
    x: Itv,
) -> Option<Finding<HierWitness>>
    requires of { IsRegionOf model.now region.now.region }
    requires is { slice_get model.now.constraints c ≡ Some relation.now }
    ensures none { IfNone result (IsSilent model.now region.now.region best (SeqRel c x.0) (pairs_of relation.now x)) }
    ensures some { IfSome result (IsFinding refutes model.now region.now.region best) }
    ensures busy { IfSome result (λ f. IsSilent model.now region.now.region best (SeqRel c x.0) (pairs_of relation.now x) → ⊥) }
{
    if !may_break(&region.look(None, None), x, relation) {
        return None;
    }
    let witness = HierWitness::SeqRel { c, x: x.0 };
    let guess = ask_related(model, region, best, relation, &witness, x)?;
    Some(Finding { guess, witness })
}

/// What is found of a relation: constraint `c`, which is about these members. Where nothing is found,
/// each member cost a fixed number of tests.
#[tactic(auto, using(crate::proofs::Silence::none_silent, crate::proofs::Silence::all_silent))]
pub fn ask_relation(
    model: &Model,
    region: &Region,
    best: Option<i64>,
    relation: &Constraint,
    c: u32,
    members: &[Itv],
) -> Option<Finding<HierWitness>>
    requires of { IsRegionOf model.now region.now.region }
    requires is { slice_get model.now.constraints c ≡ Some relation.now }
    ensures none { IfNone result (AreSilent model.now region.now.region best relation.now c members.now) }
    ensures some { IfSome result (IsFinding refutes model.now region.now.region best) }
    ensures busy { IfSome result (λ f. AreSilent model.now region.now.region best relation.now c members.now → ⊥) }
{
    for i in 0..members.len() {
        if let Some(finding) = ask_member(model, region, best, relation, c, members[i]) {
            return Some(finding);
        }
    }
    None
}
