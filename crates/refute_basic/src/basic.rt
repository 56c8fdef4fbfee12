use crate::arc::{arc, arc_excess};
use crate::cycle::cycle;
use crate::expr::expr;
use crate::leaf::leaf;
use crate::names::{are_few, are_names};
use crate::obj::obj;
use crate::size::{size, size_excess};
use crate::witness::BasicWitness;
use region::{Look, Refuter};
use sched_model::Model;

/// The refuter of this crate's kinds.
pub struct Basic;

impl Refuter for Basic {
    ghost use Rattle.refute_basic.specs.Basic.{refutes};
    ghost use Rattle.refute_basic.specs.laws.Spelling.{refuting_valid};
    ghost use Rattle.refute_basic.specs.Named.{named};
    ghost use Rattle.refute_basic.specs.laws.Sound.{sound_law};

    type Witness = BasicWitness;

    ghost refuting = { refutes };

    ghost named = { named };

    fn refutes(model: &Model, look: &Look<'_>, w: &BasicWitness) -> bool {
        match w {
            BasicWitness::Size { x } => size(look, *x),
            BasicWitness::Arc { c, d } => arc(model, look, *c, *d),
            BasicWitness::Cycle { arcs } => {
                are_few(arcs.as_slice())
                    && are_names(arcs.as_slice())
                    && cycle(model, look, arcs.as_slice())
            }
            BasicWitness::Expr { c } => expr(model, look, *c),
            BasicWitness::Obj => obj(model, look),
            BasicWitness::Leaf { k, u } => leaf(model, look, *k, *u),
        }
    }

    fn excess(model: &Model, look: &Look<'_>, w: &BasicWitness) -> Option<u64> {
        match w {
            BasicWitness::Size { x } => size_excess(look, *x),
            BasicWitness::Arc { c, d } => arc_excess(model, look, *c, *d),
            _ => None,
        }
    }

    ghost valid = { refuting_valid };

    ghost sound = { sound_law };
}
