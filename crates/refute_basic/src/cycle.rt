ghost use Rattle.std.specs.Prelude.{◌≡◌, ◌≤◌, ◌≤ℤ◌, ◌+ℤ◌, ◌-ℤ◌, ◌^◌, pos, neg_ℤ, length};
ghost use Rattle.region.specs.Looks.{IsRegionOf};
ghost use Rattle.refute_basic.specs.Cycle.{closes, cycle_row, goes_on};

use crate::arc_name::ArcName;
use crate::edge::Arc;
use crate::edges::edge_of;
use region::Look;
use sched_model::Model;

fn add(sum: i128, e: Arc) -> i128
    requires lower { neg_ℤ (pos (2 ^ 126)) ≤ℤ sum }
    requires upper { sum ≤ℤ pos (2 ^ 126) }
    ensures value { result ≡ sum +ℤ e.weight }
    ensures lower { (sum -ℤ pos (2 ^ 63)) ≤ℤ result }
    ensures upper { result ≤ℤ (sum +ℤ pos (2 ^ 63)) }
{
    sum + i128::from(e.weight)
}

/// Whether the rest of the walk leads to where it began, with a positive sum.
fn goes_on(
    model: &Model,
    look: &Look<'_>,
    begin: usize,
    from: usize,
    first: i64,
    rest: &[ArcName],
) -> bool
    requires of { IsRegionOf model.now look.now.region }
    requires few { length rest.now ≤ 4000 }
    ensures { result ≡ goes_on model.now look.now.region begin from first rest.now }
{
    let mut at = from;
    let mut sum = i128::from(first);
    for k in 0..rest.len() {
        let Some(e) = edge_of(model, look, rest[k]) else {
            return false;
        };
        if at != e.tail {
            return false;
        }
        at = e.head;
        sum = add(sum, e);
    }
    at == begin && sum > 0
}

/// Whether CYCLE refutes the look. It reads each arc once.
pub fn cycle(model: &Model, look: &Look<'_>, arcs: &[ArcName]) -> bool
    requires { IsRegionOf model.now look.now.region }
    ensures { result ≡ cycle_row model.now look.now arcs.now }
{
    if arcs.len() > 4000 {
        return false;
    }
    if arcs.len() == 0 {
        return false;
    }
    let Some(e) = edge_of(model, look, arcs[0]) else {
        return false;
    };
    goes_on(model, look, e.tail, e.head, e.weight, &arcs[1..])
}
