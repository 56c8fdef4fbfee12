use crate::row::energy_row;
use crate::witness::EnergyWitness;
use region::{Look, Numbers, Refuter};
use sched_model::Model;

/// The refuter of this crate's kind.
pub struct EnergyRefuter;

impl Refuter for EnergyRefuter {
    ghost use Rattle.refute_energy.specs.OnEnergy.{refutes};
    ghost use Rattle.refute_energy.specs.Named.{named};
    ghost use Rattle.refute_energy.specs.laws.Spelling.{refuting_valid};
    ghost use Rattle.refute_energy.specs.laws.Sound.{sound_law};

    type Witness = EnergyWitness;

    ghost refuting = { refutes };

    ghost named = { named };

    fn refutes(model: &Model, look: &Look<'_>, w: &EnergyWitness) -> bool {
        w.valid() && energy_row(model, look, w.c.0, w.parts.as_slice())
    }

    ghost valid = { refuting_valid };

    ghost sound = { sound_law };
}
