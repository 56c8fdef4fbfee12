use crate::alt::alt;
use crate::seqrel::seqrel;
use crate::span::span;
use crate::sync::sync;
use crate::witness::HierWitness;
use region::{Look, Refuter};
use sched_model::Model;

/// The refuter of this crate's kinds.
pub struct Hier;

impl Refuter for Hier {
    ghost use Rattle.refute_hier.specs.Hier.{refutes};
    ghost use Rattle.refute_hier.specs.laws.Spelling.{refuting_valid};
    ghost use Rattle.refute_hier.specs.Named.{named};
    ghost use Rattle.refute_hier.specs.laws.Sound.{sound_law};

    type Witness = HierWitness;

    ghost refuting = { refutes };

    ghost named = { named };

    fn refutes(model: &Model, look: &Look<'_>, w: &HierWitness) -> bool {
        match *w {
            HierWitness::Span { c, r, i } => span(model, look, c, r, i),
            HierWitness::Alt { c, r, i, j } => alt(model, look, c, r, i, j),
            HierWitness::Sync { c, i } => sync(model, look, c, i),
            HierWitness::SeqRel { c, x } => seqrel(model, look, c, x),
        }
    }

    ghost valid = { refuting_valid };

    ghost sound = { sound_law };
}
