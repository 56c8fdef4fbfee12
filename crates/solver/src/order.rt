ghost use Rattle.std.specs.Prelude.{◌≡◌, ◌<◌, ◌≤◌, length, not, IsTrue, IfSome, IfNone};
ghost use Rattle.std.specs.List.{list_all};
ghost use Rattle.region.specs.Cells.{cells_of, is_known_order, is_ordered};
ghost use Rattle.region.specs.Looks.{IsRegionOf};
ghost use Rattle.solver.specs.code.Searching.{CutsRegion, IsLater, AreMembers};

use branching::is_open_order;
use region::{Guess, Look};
use sched_base::{Itv, Seq};
use sched_model::Model;

/// A guess on the order of a member and one of the later ones.
fn cut_with(look: &Look<'_>, p: Seq, x: Itv, later: &[Itv]) -> Option<Guess>
    requires { IsLater look.now.region p x later.now }
    ensures some { IfSome result (CutsRegion look.now.region) }
    ensures none { IfNone result (IsTrue (list_all (is_known_order look.now.region (cells_of look.now.region p) x) later.now)) }
{
    for y in later {
        if is_open_order(look, p, x, *y) {
            return Some(Guess::Before(p, x, *y));
        }
    }
    None
}

/// A guess on the order of the first two members that are there of which it is open.
fn cut_members(look: &Look<'_>, p: Seq, members: &[Itv]) -> Option<Guess>
    requires { AreMembers look.now.region p members.now }
    ensures some { IfSome result (CutsRegion look.now.region) }
    ensures none { IfNone result (IsTrue (is_ordered look.now.region (cells_of look.now.region p))) }
{
    for i in 0..members.len() {
        if let Some(g) = cut_with(look, p, members[i], &members[i + 1..]) {
            return Some(g);
        }
    }
    None
}

/// A guess that cuts the first order which is open; none where all are known.
pub fn cut_orders(model: &Model, look: &Look<'_>) -> Option<Guess>
    requires { IsRegionOf model.now look.now.region }
    ensures some { IfSome result (CutsRegion look.now.region) }
    ensures none { IfNone result (IsTrue (list_all (is_ordered look.now.region) look.now.region.orders)) }
{
    let sequences = model.sequences();
    for p in 0..sequences.len() {
        if let Some(g) = cut_members(look, Seq(p as u32), sequences[p].members.as_slice()) {
            return Some(g);
        }
    }
    None
}
