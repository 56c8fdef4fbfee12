//! The sequence of each propagator.
ghost use Rattle.std.specs.Prelude.{◌≡◌, ◌<◌, ◌^◌, Some, length, slice_get};
ghost use Rattle.prop_unary.specs.code.Tasks.{size_of, sequence_in, sequence_at};

use sched_base::Seq;
use sched_model::{Constraint, Model};

fn sequence_in(constraint: &Constraint) -> Option<Seq>
    ensures { result ≡ sequence_in (Some constraint.now) }
{
    match constraint {
        Constraint::NoOverlap { p, .. } => Some(*p),
        _ => None,
    }
}

/// The sequence of a propagator: that of its constraint, where this is one without overlap, or its
/// own.
pub fn sequence_at(model: &Model, k: u32) -> Option<Seq>
    ensures { result ≡ sequence_at model.now k }
{
    let constraints = model.constraints();
    if (k as usize) < constraints.len() {
        return sequence_in(&constraints[k as usize]);
    }
    Some(Seq((k as usize - constraints.len()) as u32))
}
