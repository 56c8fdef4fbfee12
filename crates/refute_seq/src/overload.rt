ghost use Rattle.std.specs.Prelude.{◌≡◌};
ghost use Rattle.region.specs.Looks.{IsRegionOf};
ghost use Rattle.task_sets.specs.Times.{overload_row};
ghost use Rattle.refute_seq.specs.Sets.{times_of, is_task, overload_at};

use crate::sets::{is_beyond, is_task_set, set_lct};
use region::Look;
use sched_base::{Seq, at};
use sched_model::{Constraint, Model};

fn overload_row(model: &Model, look: &Look<'_>, p: Seq, set: &[u32]) -> bool
    requires { IsRegionOf model.now look.now.region }
    ensures { result ≡ overload_row (times_of look.now.region) (is_task model.now look.now.region p) set.now }
{
    is_task_set(model, look, p, set) && is_beyond(look, 0, set, set_lct(look, 0, set))
}

/// Whether OVERLOAD refutes the look. It reads each member of the set once.
pub fn overload(model: &Model, look: &Look<'_>, c: u32, set: &[u32]) -> bool
    requires { IsRegionOf model.now look.now.region }
    ensures { result ≡ overload_at model.now look.now c set.now }
{
    match at(model.constraints(), c as usize) {
        Some(
            Constraint::NoOverlap {
                p,
                matrix: _,
                direct: _,
            },
        ) => overload_row(model, look, *p, set),
        _ => false,
    }
}
