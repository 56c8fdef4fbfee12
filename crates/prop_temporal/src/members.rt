//! The members of the sequences of constraints.
ghost use Rattle.std.specs.Prelude.{◌≡◌, slice_get};
ghost use Rattle.prop_temporal.specs.code.Members.{members_at, told_in, light_in};
ghost use Rattle.refute_basic.specs.Cycle.{itv};

use refute_basic::{ArcName, members_of, precedes};
use region::Look;
use sched_base::{Itv, Seq, at};
use sched_model::{Constraint, Model};

/// The members of a sequence that a constraint keeps from overlapping, and none of another
/// constraint.
pub fn members_at(model: &Model, u: u32) -> &[Itv]
    ensures { result.now ≡ members_at model.now (slice_get model.now.constraints u) }
{
    match at(model.constraints(), u as usize) {
        Some(Constraint::NoOverlap { p, .. }) => members_of(model, *p),
        _ => &[],
    }
}

/// Whether a look tells the order of the two members that an arc of such a sequence is named by.
pub fn is_told(model: &Model, look: &Look<'_>, i: ArcName) -> bool
    ensures { result ≡ told_in look.now.region (slice_get model.now.constraints i.x) (itv i.y) (itv i.z) }
{
    match at(model.constraints(), i.x as usize) {
        Some(Constraint::NoOverlap { p, .. }) => precedes(look, *p, Itv(i.y), Itv(i.z)),
        _ => false,
    }
}

/// The sequence of a constraint whose members' arcs weigh nothing: no two of them keep a distance, or
/// distances bind neighbours alone.
pub fn light_at(model: &Model, u: u32) -> Option<Seq>
    ensures { result ≡ light_in (slice_get model.now.constraints u) }
{
    match at(model.constraints(), u as usize) {
        Some(Constraint::NoOverlap { p, matrix, direct }) => {
            if *direct || matrix.is_none() {
                return Some(*p);
            }
            None
        }
        _ => None,
    }
}
