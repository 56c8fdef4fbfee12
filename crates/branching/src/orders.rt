//! Orders of the members of sequences.
ghost use Rattle.std.specs.Prelude.{◌≡◌, not};
ghost use Rattle.region.specs.Orders.{says_unknown};
ghost use Rattle.region.specs.Cells.{cells_of, is_there, is_known_order};

use crate::view::View;
use region::{Guess, Look, OrderCell, Presence};
use sched_base::{Itv, Seq};

fn is_unknown(order: OrderCell) -> bool
    ensures { result ≡ says_unknown order }
{
    match order {
        OrderCell::Unknown => true,
        OrderCell::Forward => false,
        OrderCell::Backward => false,
    }
}

/// Whether an interval is told to be there.
pub fn is_there(look: &Look<'_>, x: Itv) -> bool
    ensures { result ≡ is_there look.now.region x }
{
    (x.0 as usize) < look.len() && look.presence(x) == Presence::Present
}

/// Whether the two are both told to be there, and their order isn't known.
pub fn is_open_order(look: &Look<'_>, p: Seq, x: Itv, y: Itv) -> bool
    ensures { not result ≡ is_known_order look.now.region (cells_of look.now.region p) x y }
{
    is_there(look, x) && is_there(look, y) && is_unknown(look.order(p, x, y))
}

/// When an interval may start and end at the earliest.
fn earliest(view: &View<'_>, x: Itv) -> (i64, i64) {
    match view.bounds(x) {
        None => (0, 0),
        Some(c) => (c.smin, c.emin),
    }
}

/// A guess on the order of a member and one of the later ones, the sooner one first.
fn open_with(view: &View<'_>, p: Seq, x: Itv, later: &[Itv]) -> Option<Guess> {
    for y in later {
        if is_open_order(view.look, p, x, *y) {
            if earliest(view, x) <= earliest(view, *y) {
                return Some(Guess::Before(p, x, *y));
            }
            return Some(Guess::Before(p, *y, x));
        }
    }
    None
}

fn open_in(view: &View<'_>, p: Seq, members: &[Itv]) -> Option<Guess> {
    for i in 0..members.len() {
        if let Some(guess) = open_with(view, p, members[i], &members[i + 1..]) {
            return Some(guess);
        }
    }
    None
}

/// A guess on the first order of any sequence that is open.
pub fn any_order(view: &View<'_>) -> Option<Guess> {
    let sequences = view.model.sequences();
    for p in 0..sequences.len() {
        if let Some(guess) = open_in(view, Seq(p as u32), sequences[p].members.as_slice()) {
            return Some(guess);
        }
    }
    None
}
