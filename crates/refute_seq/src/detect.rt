ghost use Rattle.std.specs.Prelude.{◌≡◌, map, int_lt};
ghost use Rattle.std.specs.List.{list_all};
ghost use Rattle.region.specs.Looks.{IsRegionOf};
ghost use Rattle.task_sets.specs.Times.{detect_row, is_detected, turned};
ghost use Rattle.refute_seq.specs.Sets.{times_of, is_task, detect_at};

use crate::sets::{is_beyond, is_outside, is_task_set};
use crate::tasks::{ect, lst};
use region::Look;
use sched_base::{Seq, at};
use sched_model::{Constraint, Model};

/// Whether each of a set starts before a moment at the latest.
fn start_before(look: &Look<'_>, side: u32, moment: i64, set: &[u32]) -> bool
    ensures { result ≡ list_all (λ j. int_lt j.lst moment) (map (turned side (times_of look.now.region)) set.now) }
{
    for n in set {
        if lst(look, side, *n) >= moment {
            return false;
        }
    }
    true
}

fn is_detected(look: &Look<'_>, side: u32, i: u32, set: &[u32]) -> bool
    ensures { result ≡ is_detected (turned side (times_of look.now.region) i) (map (turned side (times_of look.now.region)) set.now) }
{
    start_before(look, side, ect(look, side, i), set)
        && is_beyond(look, side, set, lst(look, side, i))
}

fn detect_row(model: &Model, look: &Look<'_>, p: Seq, side: u32, i: u32, set: &[u32]) -> bool
    requires { IsRegionOf model.now look.now.region }
    ensures { result ≡ detect_row (turned side (times_of look.now.region)) (is_task model.now look.now.region p) i set.now }
{
    is_outside(model, look, p, i, set)
        && is_task_set(model, look, p, set)
        && is_detected(look, side, i, set)
}

/// Whether DETECT refutes the look. It reads each member of the set once.
pub fn detect(model: &Model, look: &Look<'_>, c: u32, side: u32, i: u32, set: &[u32]) -> bool
    requires { IsRegionOf model.now look.now.region }
    ensures { result ≡ detect_at model.now look.now c side i set.now }
{
    match at(model.constraints(), c as usize) {
        Some(
            Constraint::NoOverlap {
                p,
                matrix: _,
                direct: _,
            },
        ) => side < 2 && detect_row(model, look, *p, side, i, set),
        _ => false,
    }
}
