//! All propagators.
ghost use Rattle.std.specs.Prelude.{◌↔◌, IfOk, ℤ, Option};
ghost use Rattle.sched_model.specs.Data.{Data};
ghost use Rattle.sched_model.specs.Valid.{IsValid};
ghost use Rattle.region.specs.Cells.{Region};
ghost use Rattle.region.specs.Looks.{IsRegionOf};
ghost use Rattle.findings.specs.Found.{IsQuiet};
ghost use Rattle.engine.specs.Plain.{refutes_plain};
ghost use Rattle.engine.specs.code.Engines.{IsFor, AreAwake, AreQuiet};
ghost use Rattle.propagators.specs.laws.Owned.{EachIsOwned};
ghost use Rattle.propagators.specs.Every.{lists_every};
ghost use Rattle.propagators.specs.Quiet.{is_derived, IsQuietRegion};

use engine::{Engine, Propagator};
use propagators::All;
use sched_base::NoMemory;
use sched_model::Model;
use std::alloc::Global;

pub fn start(alloc: Global, model: &Model) -> Result<Engine<All>, NoMemory>
    ensures made { IfOk result (IsFor ⟦<All as Propagator>⟧ model.now) }
    ensures awake { IfOk result (AreAwake ⟦<All as Propagator>⟧ model.now) }
{
    propagators::start(alloc, model)
}

pub fn covers()
    ensures { (m : Data) (r : Region) (best : Option ℤ) → IsValid m → IsRegionOf m r → AreQuiet ⟦<All as Propagator>⟧ m r best → IsQuietRegion m r best }
{
    propagators::covers();
}

pub fn each_witness_has_an_owner()
    ensures { EachIsOwned }
{
    propagators::each_witness_has_an_owner();
}

pub fn listed_guesses_suffice()
    ensures { (m : Data) (r : Region) (best : Option ℤ) → IsRegionOf m r → IsQuietRegion m r best ↔ IsQuiet refutes_plain lists_every is_derived m r best }
{
    propagators::listed_guesses_suffice();
}
