//! Intervals with parts, and relations of the members of a sequence.
ghost use Rattle.std.specs.Prelude.{◌≡◌, IsTrue, false, true, ◌<◌, ◌^◌, length, IfOk, IfSome, IfNone};
ghost use Rattle.sched_model.specs.Data.{Data};
ghost use Rattle.sched_model.specs.Valid.{IsValid};
ghost use Rattle.region.specs.Looks.{Seen, IsRegionOf, HasNoneOf, HasMoments};
ghost use Rattle.refute_hier.specs.Hier.{refutes};
ghost use Rattle.refute_hier.specs.Named.{named};
ghost use Rattle.refute_hier.specs.declared.witness.HierWitness.{HierWitness};
ghost use Rattle.refute_hier.specs.Witness.{is_valid, numbers_of};
ghost use Rattle.std.specs.List.{list_all};
ghost use Rattle.sched_model.specs.declared.types.Assignment.{Assignment};
ghost use Rattle.region.specs.laws.Pinned.{IsSettledTo};
ghost use Rattle.refute_hier.specs.laws.Settled.{keeps_family};
ghost use Rattle.refute_hier.specs.code.Rows.{as_constraint, is_family, some_refutes, IsWitness};
ghost use Rattle.refute_hier.specs.Parts.{some_part, plays};
ghost use Rattle.region.specs.Cells.{bounds_of};
ghost use Rattle.refute_hier.specs.SeqRel.{seqrel_of, related_in};

use refute_hier::{Family, Hier, HierWitness, Role};
use region::{Bounds, Look, Numbers, Refuter};
use sched_base::{Itv, NoMemory, Seq};
use sched_model::{Constraint, Model};
use std::alloc::Global;

pub fn refutes(model: &Model, look: &Look<'_>, w: &HierWitness) -> bool
    requires { IsRegionOf model.now look.now.region }
    ensures { result ≡ refutes model.now look.now w.now }
{
    Hier::refutes(model, look, w)
}

/// Where a witness refutes, the constraints that it names leave nothing better.
#[tactic(auto, using(refute_hier::specs::laws::Sound::sound_law))]
pub fn refutes_soundly(model: &Model, look: &Look<'_>, witness: &HierWitness) -> bool
    requires of { IsRegionOf model.now look.now.region }
    requires valid { IsValid model.now }
    ensures { IsTrue result → HasNoneOf model.now (named witness.now) look.now }
{
    Hier::refutes(model, look, witness)
}

pub fn from_numbers(alloc: Global, list: &[i64]) -> Result<Option<HierWitness>, NoMemory>
    ensures some { IfOk result (λ o. IfSome o (λ w. (numbers_of w ≡ list.now) × IsTrue (is_valid w))) }
    ensures none { IfOk result (λ o. IfNone o ((w : HierWitness) → IsTrue (is_valid w) → numbers_of w ≡ list.now → ⊥)) }
{
    HierWitness::from_numbers(alloc, list)
}

/// Stands for a law: in a settled look that nothing refutes, the constraints on intervals with parts hold.
#[tactic(auto, using(refute_hier::specs::laws::Settled::all_unrefuted_hold))]
pub fn settled_unrefuted_hold()
    ensures { (m : Data) (l : Seen) (a : Assignment) → IsValid m → IsSettledTo m l.region a
        → ((w : HierWitness) → refutes m l w ≡ false) → list_all (keeps_family m a) m.constraints ≡ true }
{}

pub fn as_family(constraint: &Constraint) -> Option<Family<'_>>
    ensures some { IfSome result (λ f. constraint.now ≡ as_constraint f.kind f.a f.parts.now) }
    ensures none { IfNone result (is_family constraint.now ≡ false) }
{
    refute_hier::as_family(constraint)
}

pub fn find_witness(look: &Look<'_>, family: &Family<'_>, c: u32) -> Option<HierWitness>
    requires { length family.now.parts.now < 2 ^ 32 }
    ensures some { IfSome result (IsWitness family.now.kind look.now.region family.now.a family.now.parts.now c) }
    ensures none { IfNone result (some_refutes family.now.kind look.now.region family.now.a family.now.parts.now ≡ false) }
{
    refute_hier::find_witness(look, family, c)
}

pub fn some_refutes(look: &Look<'_>, family: &Family<'_>) -> bool
    ensures { result ≡ some_refutes family.now.kind look.now.region family.now.a family.now.parts.now }
{
    refute_hier::some_refutes(look, family)
}

pub fn known(look: &Look<'_>, x: Itv) -> Bounds
    ensures value { result ≡ bounds_of look.now.region x }
    ensures moments { HasMoments result }
{
    refute_hier::known(look, x)
}

pub fn plays(role: Role, a: Bounds, b: Bounds) -> bool
    requires first { HasMoments a }
    requires second { HasMoments b }
    ensures { result ≡ plays role a b }
{
    refute_hier::plays(role, a, b)
}

pub fn some_part(look: &Look<'_>, role: Role, a: Itv, parts: &[Itv]) -> bool
    ensures { result ≡ some_part look.now.region role a parts.now }
{
    refute_hier::some_part(look, role, a, parts)
}

pub fn seqrel_of(look: &Look<'_>, x: Itv, relation: &Constraint) -> bool
    ensures { result ≡ seqrel_of look.now.region x relation.now }
{
    refute_hier::seqrel_of(look, x, relation)
}

pub fn related_in(constraint: &Constraint) -> Option<Seq>
    ensures { result ≡ related_in constraint.now }
{
    refute_hier::related_in(constraint)
}
