//! The orders that a settled region leaves.
ghost use Rattle.std.specs.Prelude.{◌≡◌, ◌≤◌, length, IfOk, OnOk};
ghost use Rattle.std.specs.List.{insert};
ghost use Rattle.region.specs.Cells.{cells_of};
ghost use Rattle.region.specs.Looks.{IsRegionOf};
ghost use Rattle.refute_seq.specs.Standing.{precedes};
ghost use Rattle.refute_seq.specs.code.Order.{placed, settled_order};

use refute_basic::{is_there, members_of, precedes};
use region::Look;
use sched_base::{Itv, List, NoMemory, Seq};
use sched_model::Model;
use std::alloc::Global;

/// The place of a member among some in a row: in front of the first that it stands before.
#[tactic(auto, using(crate::proofs::Rowing::place_end))]
fn place_in(look: &Look<'_>, p: Seq, x: Itv, row: &[Itv]) -> usize
    ensures within { result ≤ length row.now }
    ensures place { insert row.now result x ≡ placed (precedes look.now.region p) x row.now }
{
    for n in 0..row.len() {
        if precedes(look, p, x, row[n]) {
            return n;
        }
    }
    row.len()
}

fn place(look: &Look<'_>, p: Seq, x: Itv, row: &mut Vec<Itv>) -> Result<(), NoMemory>
    ensures { OnOk result (row.new.items ≡ placed (precedes look.now.region p) x row.old.items) }
{
    let at = place_in(look, p, x, row);
    row.insert(at, x)?;
    Ok(())
}

/// The order that a settled region leaves of a sequence: its present members, as they are told to
/// stand. It looks at the order of each two of them at most once.
#[tactic(auto, using(crate::proofs::Rowing::skip_step, crate::proofs::Rowing::add_step, crate::proofs::Rowing::row_begins, crate::proofs::Rowing::row_ends))]
pub fn settled_order(
    alloc: Global,
    model: &Model,
    look: &Look<'_>,
    p: Seq,
) -> Result<List<Itv>, NoMemory>
    requires { IsRegionOf model.now look.now.region }
    ensures { IfOk result (λ xs. xs ≡ settled_order look.now.region (cells_of look.now.region p)) }
{
    let members = members_of(model, p);
    let mut row = Vec::new(alloc);
    for i in 0..members.len() {
        if !is_there(look, members[i]) {
            continue;
        }
        place(look, p, members[i], &mut row)?;
    }
    Ok(List::from_vec(row))
}
