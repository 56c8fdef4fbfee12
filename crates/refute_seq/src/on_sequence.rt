ghost use Rattle.std.specs.Prelude.{◌≡◌};
ghost use Rattle.region.specs.Looks.{IsRegionOf};
ghost use Rattle.refute_seq.specs.OnSequence.{row_of};

use crate::detect::detect;
use crate::edge::edge;
use crate::not_end::not_end;
use crate::overload::overload;
use crate::pair::{pair, pair_excess};
use crate::triple::triple;
use crate::witness::SeqWitness;
use region::{Look, Numbers, Refuter};
use sched_model::Model;

/// The refuter of this crate's kinds.
pub struct OnSequence;

impl Refuter for OnSequence {
    ghost use Rattle.refute_seq.specs.OnSequence.{refutes};
    ghost use Rattle.refute_seq.specs.laws.Spelling.{refuting_valid};
    ghost use Rattle.refute_seq.specs.Named.{named};
    ghost use Rattle.refute_seq.specs.laws.Sound.{sound_law};

    type Witness = SeqWitness;

    ghost refuting = { refutes };

    ghost named = { named };

    fn refutes(model: &Model, look: &Look<'_>, w: &SeqWitness) -> bool {
        w.valid() && row(model, look, w)
    }

    fn excess(_: &Model, look: &Look<'_>, w: &SeqWitness) -> Option<u64> {
        match w {
            SeqWitness::Pair { a, b, k, .. } => pair_excess(look, *a, *b, *k),
            _ => None,
        }
    }

    ghost valid = { refuting_valid };

    ghost sound = { sound_law };
}

fn row(model: &Model, look: &Look<'_>, w: &SeqWitness) -> bool
    requires { IsRegionOf model.now look.now.region }
    ensures { result ≡ row_of model.now look.now w.now }
{
    match w {
        SeqWitness::Pair { c, a, b, k } => pair(model, look, *c, *a, *b, *k),
        SeqWitness::Triple { p, x, y, z } => triple(look, *p, *x, *y, *z),
        SeqWitness::Overload { c, s } => overload(model, look, *c, s.as_slice()),
        SeqWitness::Edge {
            c,
            side,
            i,
            s,
            u,
            v,
        } => edge(
            model,
            look,
            *c,
            *side,
            *i,
            s.as_slice(),
            u.get().as_slice(),
            v.get().as_slice(),
        ),
        SeqWitness::NotEnd { c, side, i, s } => {
            not_end(model, look, *c, *side, *i, s.as_slice())
        }
        SeqWitness::Detect { c, side, i, s } => detect(model, look, *c, *side, *i, s.as_slice()),
    }
}
