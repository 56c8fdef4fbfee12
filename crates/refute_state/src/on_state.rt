use crate::state::state;
use crate::state3::state3;
use crate::witness::StateWitness;
use region::{Look, Refuter};
use sched_model::Model;

/// The refuter of this crate's kinds.
pub struct OnState;

impl Refuter for OnState {
    ghost use Rattle.refute_state.specs.OnState.{refutes};
    ghost use Rattle.refute_state.specs.laws.Spelling.{refuting_valid};
    ghost use Rattle.refute_state.specs.Named.{named};
    ghost use Rattle.refute_state.specs.laws.Sound.{sound_law};

    type Witness = StateWitness;

    ghost refuting = { refutes };

    ghost named = { named };

    fn refutes(model: &Model, look: &Look<'_>, w: &StateWitness) -> bool {
        match *w {
            StateWitness::State { c1, c2 } => state(model, look, c1, c2),
            StateWitness::State3 { c1, c2, c3 } => state3(model, look, c1, c2, c3),
        }
    }

    ghost valid = { refuting_valid };

    ghost sound = { sound_law };
}
