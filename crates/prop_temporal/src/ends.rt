//! What ARC of a precedence finds.
ghost use Rattle.std.specs.Prelude.{◌≡◌, ◌<◌, ◌∷◌, [], suc, length, IsTrue, IfNone, IfSome};
ghost use Rattle.region.specs.Looks.{IsRegionOf};
ghost use Rattle.findings.specs.Found.{IsFinding};
ghost use Rattle.findings.specs.code.Reads.{IsUnrefuted};
ghost use Rattle.refute_basic.specs.declared.witness.BasicWitness.TheVariants as basic;
ghost use Rattle.refute_basic.specs.Basic.{refutes};
ghost use Rattle.prop_temporal.specs.code.Tasks.{IsSilent, quiet, reads_of};

use crate::likely::{LikelyMove, likely_of};
use crate::silence::is_surely_silent;
use crate::ways::way_of;
use findings::{Finding, ask, ask_reaching};
use refute_basic::{Basic, BasicWitness};
use region::{Guess, Region};
use sched_base::Itv;
use sched_model::Model;

/// What a witness refutes of these intervals, asked about the likely guess before others, if there is
/// one.
fn ask_ends(
    model: &Model,
    region: &Region,
    best: Option<i64>,
    witness: &BasicWitness,
    ends: &[Itv],
    likely: Option<LikelyMove>,
) -> Option<Option<Guess>>
    requires of { IsRegionOf model.now region.now.region }
    ensures none { IfNone result (IsUnrefuted refutes model.now region.now.region best witness.now ends.now []) }
    ensures some { IfSome result (λ guess. IsFinding refutes model.now region.now.region best (record { guess = guess; witness = witness.now })) }
    ensures busy { IfSome result (λ guess. IsUnrefuted refutes model.now region.now.region best witness.now ends.now [] → ⊥) }
{
    match likely {
        None => ask::<Basic>(model, region, best, witness, ends, &[]),
        Some(LikelyMove { likely, far }) => {
            ask_reaching::<Basic>(model, region, best, witness, ends, &[], likely, far)
        }
    }
}

/// The guess that the way of this number refutes likely.
fn likely_at(model: &Model, region: &Region, c: u32, d: u32) -> Option<LikelyMove> {
    likely_of(region, way_of(model, c, d)?)
}

/// What ARC finds of a precedence read one way. Mostly the bounds of its intervals show at once that
/// it finds nothing.
fn ask_way(
    model: &Model,
    region: &Region,
    best: Option<i64>,
    c: u32,
    d: u32,
    ends: &[Itv],
) -> Option<Finding<BasicWitness>>
    requires of { IsRegionOf model.now region.now.region }
    requires ends { ends.now ≡ (reads_of model.now c).intervals }
    ensures none { IfNone result (IsSilent model.now region.now.region best (basic.Arc c d)) }
    ensures some { IfSome result (IsFinding refutes model.now region.now.region best) }
    ensures busy { IfSome result (λ f. IsSilent model.now region.now.region best (basic.Arc c d) → ⊥) }
{
    if is_surely_silent(model, region, c, d) {
        return None;
    }
    let witness = BasicWitness::Arc { c, d };
    let likely = likely_at(model, region, c, d);
    match ask_ends(model, region, best, &witness, ends, likely) {
        None => None,
        Some(guess) => Some(Finding { guess, witness }),
    }
}

/// What ARC finds of a constraint, whose intervals these are: of a precedence, and of one with
/// `equal` read backwards.
pub fn ask_constraint(
    model: &Model,
    region: &Region,
    best: Option<i64>,
    c: u32,
    ends: &[Itv],
) -> Option<Finding<BasicWitness>>
    requires of { IsRegionOf model.now region.now.region }
    requires below { c < length model.now.constraints }
    requires ends { ends.now ≡ (reads_of model.now c).intervals }
    ensures none { IfNone result (quiet model.now (suc c) region.now.region best) }
    ensures some { IfSome result (IsFinding refutes model.now region.now.region best) }
    ensures busy { IfSome result (λ f. quiet model.now (suc c) region.now.region best → ⊥) }
{
    if let Some(found) = ask_way(model, region, best, c, 0, ends) {
        return Some(found);
    }
    ask_way(model, region, best, c, 1, ends)
}
