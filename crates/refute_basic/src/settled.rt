ghost use Rattle.std.specs.Prelude.{◌≡◌, ◌&&◌, not, true};
ghost use Rattle.sched_model.specs.Domain.{fits_def};
ghost use Rattle.sched_model.specs.Sentences.{holds};
ghost use Rattle.sched_model.specs.Valid.{is_constraint, is_expr};
ghost use Rattle.sched_model.specs.Value.{value_of};
ghost use Rattle.sched_model.specs.Words.{placewise};
ghost use Rattle.region.specs.Cells.{settled_slot, settled_slots};
ghost use Rattle.refute_basic.specs.Leaf.{is_leaf_constraint, settled_alone};

use region::{Bounds, Look, Presence};
use sched_base::Itv;
use sched_model::{Constraint, Expr, Model, Slot, Slots, is_precedence, value_in};

/// The slot that settled bounds leave.
pub fn settled_slot(c: Bounds) -> Slot
    ensures { result ≡ settled_slot c }
{
    match c.presence {
        Presence::Present => Slot::Present {
            s: c.smin,
            e: c.emin,
        },
        Presence::Absent => Slot::Absent,
        Presence::Maybe => Slot::Absent,
    }
}

/// A settled look at a region of a model, as the slots that it leaves.
#[derive(Drop)]
pub struct Settled<'a> {
    pub model: &'a Model,
    pub look: &'a Look<'a>,
}

impl<'a> Slots for Settled<'a> {
    ghost use Rattle.refute_basic.specs.Leaf.{settled_alone};

    ghost meaning = { λ s. settled_alone s.look.now.region };

    fn slot(&self, x: Itv) -> Slot {
        if x.0 as usize >= self.look.len() {
            return Slot::Absent;
        }
        settled_slot(self.look.bounds(x))
    }
}

/// Whether the constraint is a precedence or an expression, and fails at the settled values.
pub fn fails(settled: &Settled<'_>, c: &Constraint) -> bool
    requires valid { is_constraint settled.now.model.now c.now ≡ true }
    requires fit { placewise fits_def settled.now.model.now.intervals (settled_slots settled.now.look.now.region) ≡ true }
    ensures { result ≡ (is_leaf_constraint c.now && not (holds settled.now.model.now (settled_alone settled.now.look.now.region) c.now)) }
{
    match c {
        Constraint::Temporal {
            from,
            to,
            equal,
            a,
            b,
            z,
        } => !is_precedence(settled, *from, *to, *equal, *a, *b, *z),
        Constraint::Logic(e) => value_settled(settled, e) == 0,
        _ => false,
    }
}

/// The value of an expression at the settled values.
#[tactic(auto, using(sched_model::specs::laws::Listed::has_hull))]
pub fn value_settled(settled: &Settled<'_>, e: &Expr) -> i64
    requires valid { is_expr settled.now.model.now e.now ≡ true }
    requires fit { placewise fits_def settled.now.model.now.intervals (settled_slots settled.now.look.now.region) ≡ true }
    ensures { result ≡ value_of (settled_alone settled.now.look.now.region) e.now }
{
    value_in(settled.model, settled, e)
}
