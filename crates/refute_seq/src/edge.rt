ghost use Rattle.std.specs.Prelude.{◌≡◌, map, nat_lt, true};
ghost use Rattle.region.specs.Looks.{IsRegionOf};
ghost use Rattle.task_sets.specs.Times.{adjacent, edge_row, has, is_edge, is_task_set, turned};
ghost use Rattle.refute_seq.specs.Sets.{times_of, is_task, edge_at};

use crate::sets::{
    is_beyond, is_beyond_with, is_empty, is_outside, is_set_of, is_task_set, set_lct,
};
use crate::tasks::lst;
use region::Look;
use sched_base::{Seq, at};
use sched_model::{Constraint, Model};

fn is_edge(look: &Look<'_>, side: u32, i: u32, s: &[u32], u: &[u32], v: &[u32]) -> bool
    ensures { result ≡ is_edge (turned side (times_of look.now.region) i) (map (turned side (times_of look.now.region)) s.now) (map (turned side (times_of look.now.region)) u.now) (map (turned side (times_of look.now.region)) v.now) }
{
    is_beyond_with(look, side, i, u, set_lct(look, side, s))
        && is_beyond(look, side, v, lst(look, side, i))
}

/// Whether a list is a part of a set and isn't empty.
fn is_task_part(set: &[u32], part: &[u32]) -> bool
    requires { adjacent nat_lt set.now ≡ true }
    ensures { result ≡ is_task_set (has set.now) part.now }
{
    is_set_of(set, part) && !is_empty(part)
}

fn edge_row(
    model: &Model,
    look: &Look<'_>,
    p: Seq,
    side: u32,
    i: u32,
    s: &[u32],
    u: &[u32],
    v: &[u32],
) -> bool
    requires { IsRegionOf model.now look.now.region }
    ensures { result ≡ edge_row (turned side (times_of look.now.region)) (is_task model.now look.now.region p) i s.now u.now v.now }
{
    if !is_outside(model, look, p, i, s) {
        return false;
    }
    if !is_task_set(model, look, p, s) {
        return false;
    }
    is_set_of(s, u) && is_task_part(s, v) && is_edge(look, side, i, s, u, v)
}

/// Whether EDGE refutes the look. It reads each member of a set once.
pub fn edge(
    model: &Model,
    look: &Look<'_>,
    c: u32,
    side: u32,
    i: u32,
    s: &[u32],
    u: &[u32],
    v: &[u32],
) -> bool
    requires { IsRegionOf model.now look.now.region }
    ensures { result ≡ edge_at model.now look.now c side i s.now u.now v.now }
{
    match at(model.constraints(), c as usize) {
        Some(
            Constraint::NoOverlap {
                p,
                matrix: _,
                direct: _,
            },
        ) => side < 2 && edge_row(model, look, *p, side, i, s, u, v),
        _ => false,
    }
}
