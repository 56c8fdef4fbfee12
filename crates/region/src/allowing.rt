//! Whether a look allows an assignment.
ghost use Rattle.std.specs.Prelude.{◌≡◌, ◌<◌, ◌^◌, not, length, slice_index_or, IsTrue};
ghost use Rattle.std.specs.List.{list_all};
ghost use Rattle.sched_model.specs.Words.{pairwise, placewise};
ghost use Rattle.sched_model.specs.declared.types.Slot.TheVariants.{Present};
ghost use Rattle.region.specs.Cells.{allows, cells_of, fits_bounds, says_absent};
ghost use Rattle.region.specs.Orders.{allows_order, may_precede};

use crate::look::Look;
use crate::types::{Bounds, Presence};
use sched_base::{Itv, List, Seq};
use sched_model::{Assignment, Slot, is_between};

fn may_be_present(presence: Presence) -> bool
    ensures { result ≡ not (says_absent presence) }
{
    presence != Presence::Absent
}

#[tactic(auto, using(crate::proofs::Truth::first_fails, base_laws::specs::laws::Truth::second_fails, base_laws::specs::laws::Truth::third_decides))]
fn fits_moments(c: Bounds, s: i64, e: i64) -> bool
    ensures { result ≡ fits_bounds c (Present s e) }
{
    if !may_be_present(c.presence) {
        return false;
    }
    if !is_between(c.smin, c.smax, s) {
        return false;
    }
    is_between(c.emin, c.emax, e)
}

/// Whether the slot agrees with the cells of its interval.
fn fits(c: Bounds, slot: Slot) -> bool
    ensures { result ≡ fits_bounds c slot }
{
    match slot {
        Slot::Absent => c.presence != Presence::Present,
        Slot::Present { s, e } => fits_moments(c, s, e),
    }
}

impl Look<'_> {
    fn allows_slots(&self, slots: &[Slot]) -> bool
        ensures { result ≡ placewise fits_bounds self.now.region.bounds slots.now }
    {
        if self.len() != slots.len() {
            return false;
        }
        for n in 0..slots.len() {
            if !fits(self.bounds_at(n), slots[n]) {
                return false;
            }
        }
        true
    }

    /// Whether it isn't told that `y` stands before `x`.
    fn may_precede(&self, p: Seq, x: Itv, y: Itv) -> bool
        ensures { result ≡ may_precede (cells_of self.now.region p) x y }
    {
        !self.is_before(p, y, x)
    }

    /// Whether nobody who stands later is told to stand before the interval.
    fn stands_first(&self, p: Seq, x: Itv, later: &[Itv]) -> bool
        ensures { result ≡ list_all (may_precede (cells_of self.now.region p) x) later.now }
    {
        for y in later {
            if !self.may_precede(p, x, *y) {
                return false;
            }
        }
        true
    }

    fn allows_order(&self, p: Seq, xs: &[Itv]) -> bool
        ensures { result ≡ allows_order (cells_of self.now.region p) xs.now }
    {
        for i in 0..xs.len() {
            if !self.stands_first(p, xs[i], &xs[i + 1..]) {
                return false;
            }
        }
        true
    }

    fn allows_orders(&self, orders: &[List<Itv>]) -> bool
        ensures { result ≡ placewise allows_order self.now.region.orders orders.now }
    {
        if self.sequences() != orders.len() {
            return false;
        }
        for p in 0..orders.len() {
            if !self.allows_order(Seq(p as u32), orders[p].as_slice()) {
                return false;
            }
        }
        true
    }

    /// Whether each slot agrees with the cells of its interval, and each order with those of its
    /// sequence. For an assignment of the model's domain this is whether the look allows it.
    pub fn allows(&self, a: &Assignment) -> bool
        ensures { result ≡ allows self.now.region a.now }
    {
        self.allows_slots(a.slots.as_slice()) && self.allows_orders(a.orders.as_slice())
    }
}
