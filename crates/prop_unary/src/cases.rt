//! What the cases of PAIR find of two members, the likely guess first. Without distances there is but one
//! case; with them those that bind more than neighbours come before the others.
ghost use Rattle.std.specs.Prelude.{IfNone, IfSome};
ghost use Rattle.region.specs.Looks.{IsRegionOf};
ghost use Rattle.findings.specs.Found.{IsFinding};
ghost use Rattle.refute_seq.specs.declared.witness.SeqWitness.TheVariants as witness;
ghost use Rattle.refute_seq.specs.OnSequence.{refutes};
ghost use Rattle.prop_unary.specs.code.Tasks.{IsSilent, quiet};
ghost use Rattle.prop_unary.specs.code.Silence.{IsDisjunctive, AreSilent, AreSilentWhere};

use crate::disjunctive::Disjunctive;
use crate::likely::likely_told;
use crate::silence::distance;
use findings::{Finding, Likely, Pair, View, ask_likely};
use refute_seq::{OnSequence, SeqWitness};
use region::{OrderCell, Region};
use sched_base::Itv;
use sched_model::Model;

/// What one case of PAIR finds of two members. The likely guess is asked about first.
fn ask_case(
    model: &Model,
    region: &Region,
    best: Option<i64>,
    d: &Disjunctive,
    a: Itv,
    b: Itv,
    k: u32,
    likely: Likely,
) -> Option<Finding<SeqWitness>>
    requires of { IsRegionOf model.now region.now.region }
    requires is { IsDisjunctive model.now d.now }
    ensures none { IfNone result (IsSilent model.now region.now.region best (witness.Pair d.now.c a.0 b.0 k)) }
    ensures some { IfSome result (IsFinding refutes model.now region.now.region best) }
    ensures busy { IfSome result (λ f. IsSilent model.now region.now.region best (witness.Pair d.now.c a.0 b.0 k) → ⊥) }
{
    let witness = SeqWitness::Pair {
        c: d.c,
        a: a.0,
        b: b.0,
        k,
    };
    let pair = Pair {
        sequence: d.p,
        first: a,
        second: b,
    };
    match ask_likely::<OnSequence>(model, region, best, &witness, &[a, b], &[pair], likely) {
        None => None,
        Some(guess) => Some(Finding { guess, witness }),
    }
}

/// What two cases find, one after the other.
fn ask_cases(
    view: &View<'_>,
    d: &Disjunctive,
    a: Itv,
    b: Itv,
    first: u32,
    second: u32,
    likely: Likely,
) -> Option<Finding<SeqWitness>>
    requires of { IsRegionOf view.now.model.now view.now.region.now.region }
    requires is { IsDisjunctive view.now.model.now d.now }
    ensures none { IfNone result (IsSilent view.now.model.now view.now.region.now.region view.now.best (witness.Pair d.now.c a.0 b.0 first) × IsSilent view.now.model.now view.now.region.now.region view.now.best (witness.Pair d.now.c a.0 b.0 second)) }
    ensures some { IfSome result (IsFinding refutes view.now.model.now view.now.region.now.region view.now.best) }
    ensures busy { IfSome result (λ f. quiet view.now.model.now d.now.c view.now.region.now.region view.now.best → ⊥) }
{
    if let Some(found) = ask_case(view.model, view.region, view.best, d, a, b, first, likely) {
        return Some(found);
    }
    ask_case(view.model, view.region, view.best, d, a, b, second, likely)
}

/// What both cases find. Without distances there is but the first. Distances that bind more than
/// neighbours come first, since mostly all that is found without them then follows.
pub fn ask_both(
    model: &Model,
    region: &Region,
    best: Option<i64>,
    d: &Disjunctive,
    a: Itv,
    b: Itv,
    likely: Likely,
) -> Option<Finding<SeqWitness>>
    requires of { IsRegionOf model.now region.now.region }
    requires is { IsDisjunctive model.now d.now }
    ensures none { IfNone result (AreSilent model.now region.now.region best d.now a b) }
    ensures some { IfSome result (IsFinding refutes model.now region.now.region best) }
    ensures busy { IfSome result (λ f. quiet model.now d.now.c region.now.region best → ⊥) }
{
    if d.matrix.is_none() {
        return ask_case(model, region, best, d, a, b, 0, likely);
    }
    let view = &View {
        model,
        region,
        best,
    };
    if d.direct {
        return ask_cases(view, d, a, b, 0, 1, likely);
    }
    ask_cases(view, d, a, b, 1, 0, likely)
}

/// The guess that is likely to be refuted where the first of two is told to stand before the second.
pub fn likely_pushed(model: &Model, region: &Region, d: &Disjunctive, pair: Pair) -> Likely
    requires { IsRegionOf model.now region.now.region }
{
    if d.direct {
        return likely_told(region, pair, 0);
    }
    likely_told(
        region,
        pair,
        distance(model, region, d, pair.first, pair.second),
    )
}

/// What PAIR finds of two members where the order of the two is this one.
pub fn ask_two(
    model: &Model,
    region: &Region,
    best: Option<i64>,
    d: &Disjunctive,
    order: OrderCell,
    a: Itv,
    b: Itv,
) -> Option<Finding<SeqWitness>>
    requires of { IsRegionOf model.now region.now.region }
    requires is { IsDisjunctive model.now d.now }
    ensures none { IfNone result (AreSilentWhere model.now region.now.region best d.now order a b) }
    ensures some { IfSome result (IsFinding refutes model.now region.now.region best) }
    ensures busy { IfSome result (λ f. quiet model.now d.now.c region.now.region best → ⊥) }
{
    if a.0 == b.0 {
        return None;
    }
    if region.look(None, None).order(d.p, a, b) != order {
        return None;
    }
    let pair = Pair {
        sequence: d.p,
        first: a,
        second: b,
    };
    let likely = match order {
        OrderCell::Forward => likely_pushed(model, region, d, pair),
        _ => Likely::StandsBehind(pair),
    };
    ask_both(model, region, best, d, a, b, likely)
}
