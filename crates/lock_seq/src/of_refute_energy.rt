//! The refuter of energies.
ghost use Rattle.std.specs.Prelude.{◌≡◌, IsTrue, length, ◌<◌, Some, slice_get, IfOk, IfSome, IfNone};
ghost use Rattle.sched_model.specs.Data.{Data};
ghost use Rattle.sched_model.specs.Valid.{IsValid};
ghost use Rattle.region.specs.Looks.{IsRegionOf, HasNoneOf, Seen};
ghost use Rattle.refute_energy.specs.OnEnergy.{refutes};
ghost use Rattle.refute_energy.specs.Named.{named};
ghost use Rattle.refute_energy.specs.declared.witness.EnergyWitness.{EnergyWitness as Witnesses};
ghost use Rattle.refute_energy.specs.Witness.{is_valid, numbers_of};

use refute_energy::{EnergyRefuter, EnergyWitness};
use region::{Look, Numbers, Refuter};
use sched_base::NoMemory;
use sched_model::Model;
use std::alloc::Global;

pub fn refutes(model: &Model, look: &Look<'_>, w: &EnergyWitness) -> bool
    requires { IsRegionOf model.now look.now.region }
    ensures { result ≡ refutes model.now look.now w.now }
{
    EnergyRefuter::refutes(model, look, w)
}

/// By the law of the refuter: where it answers yes, the constraint that the witness names leaves nothing
/// better.
#[tactic(auto, using(refute_energy::specs::laws::Sound::sound_law))]
pub fn refutes_soundly(model: &Model, look: &Look<'_>, by: &EnergyWitness) -> bool
    requires of { IsRegionOf model.now look.now.region }
    requires valid { IsValid model.now }
    ensures { IsTrue result → HasNoneOf model.now (named by.now) look.now }
{
    EnergyRefuter::refutes(model, look, by)
}

pub fn valid(w: &EnergyWitness) -> bool
    ensures { result ≡ is_valid w.now }
{
    w.valid()
}

pub fn count(w: &EnergyWitness) -> usize
    ensures { result ≡ length (numbers_of w.now) }
{
    w.count()
}

pub fn number(w: &EnergyWitness, i: usize) -> i64
    requires { i < length (numbers_of w.now) }
    ensures { slice_get (numbers_of w.now) i ≡ Some result }
{
    w.number(i)
}

pub fn from_numbers(alloc: Global, list: &[i64]) -> Result<Option<EnergyWitness>, NoMemory>
    ensures some { IfOk result (λ o. IfSome o (λ w. (numbers_of w ≡ list.now) × IsTrue (is_valid w))) }
    ensures none { IfOk result (λ o. IfNone o ((w : Witnesses) → IsTrue (is_valid w) → numbers_of w ≡ list.now → ⊥)) }
{
    EnergyWitness::from_numbers(alloc, list)
}
