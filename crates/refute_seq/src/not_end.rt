ghost use Rattle.std.specs.Prelude.{◌≡◌, map};
ghost use Rattle.region.specs.Looks.{IsRegionOf};
ghost use Rattle.task_sets.specs.Times.{not_end_row, is_not_end, turned};
ghost use Rattle.refute_seq.specs.Sets.{times_of, is_task, not_end_at};

use crate::sets::{is_beyond, is_outside, is_task_set, set_lst};
use crate::tasks::{ect, lst};
use region::Look;
use sched_base::{Seq, at};
use sched_model::{Constraint, Model};

fn is_not_end(look: &Look<'_>, side: u32, i: u32, set: &[u32]) -> bool
    ensures { result ≡ is_not_end (turned side (times_of look.now.region) i) (map (turned side (times_of look.now.region)) set.now) }
{
    is_beyond(look, side, set, lst(look, side, i)) && set_lst(look, side, set) < ect(look, side, i)
}

fn not_end_row(model: &Model, look: &Look<'_>, p: Seq, side: u32, i: u32, set: &[u32]) -> bool
    requires { IsRegionOf model.now look.now.region }
    ensures { result ≡ not_end_row (turned side (times_of look.now.region)) (is_task model.now look.now.region p) i set.now }
{
    is_outside(model, look, p, i, set)
        && is_task_set(model, look, p, set)
        && is_not_end(look, side, i, set)
}

/// Whether NOTEND refutes the look. It reads each member of the set once.
pub fn not_end(model: &Model, look: &Look<'_>, c: u32, side: u32, i: u32, set: &[u32]) -> bool
    requires { IsRegionOf model.now look.now.region }
    ensures { result ≡ not_end_at model.now look.now c side i set.now }
{
    match at(model.constraints(), c as usize) {
        Some(
            Constraint::NoOverlap {
                p,
                matrix: _,
                direct: _,
            },
        ) => side < 2 && not_end_row(model, look, *p, side, i, set),
        _ => false,
    }
}
