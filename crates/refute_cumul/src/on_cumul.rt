use crate::point::point;
use crate::witness::CumulWitness;
use region::{Look, Refuter};
use sched_model::{Model, is_small};

/// The refuter of this crate's kind.
pub struct OnCumul;

impl Refuter for OnCumul {
    ghost use Rattle.refute_cumul.specs.OnCumul.{refutes};
    ghost use Rattle.refute_cumul.specs.laws.Spelling.{refuting_valid};
    ghost use Rattle.refute_cumul.specs.Named.{named};
    ghost use Rattle.refute_cumul.specs.laws.Sound.{sound_law};

    type Witness = CumulWitness;

    ghost refuting = { refutes };

    ghost named = { named };

    fn refutes(model: &Model, look: &Look<'_>, w: &CumulWitness) -> bool {
        match *w {
            CumulWitness::Point { c, t, u } => is_small(t) && point(model, look, c, t, u),
        }
    }

    ghost valid = { refuting_valid };

    ghost sound = { sound_law };
}
