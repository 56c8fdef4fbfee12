//! Where PAIR of two members finds nothing, by a few comparisons.
ghost use Rattle.std.specs.Prelude.{◌≡◌, ◌+ℤ◌, int_le, true, ◌&&◌, is_none};
ghost use Rattle.std.specs.Int.{int_max};
ghost use Rattle.region.specs.declared.types.OrderCell.TheVariants as order;
ghost use Rattle.region.specs.Cells.{bounds_of};
ghost use Rattle.region.specs.Looks.{IsRegionOf};
ghost use Rattle.findings.specs.code.Numbers.{ends_of};
ghost use Rattle.prop_unary.specs.code.Silence.{IsKeyed, are_keys_in_time, are_silent_keys, is_silent_two, AreSilentOrders, reach};

use crate::disjunctive::Disjunctive;
use crate::keys::{Back, Front, Keys};
use refute_seq::gap;
use region::{OrderCell, Region};
use sched_base::Itv;
use sched_model::Model;

fn greater(a: i64, b: i64) -> i64
    ensures { result ≡ int_max a b }
{
    a.max(b)
}

/// Whether a moment with a distance is no later than another moment.
fn fits(end: i64, n: i64, start: i64) -> bool
    ensures { result ≡ int_le (end +ℤ n) start }
{
    if n == 0 {
        return end <= start;
    }
    i128::from(end) + i128::from(n) <= i128::from(start)
}

fn are_keys_in_time(c: Front, d: Back, n: i64) -> bool
    ensures { result ≡ are_keys_in_time c d n }
{
    fits(c.present_ect, n, d.lowest_start) & fits(c.highest_end, n, d.present_lst)
}

fn are_silent_keys(order: OrderCell, c: Front, d: Back, n: i64) -> bool
    ensures { result ≡ are_silent_keys order c d n }
{
    match order {
        OrderCell::Unknown => fits(c.ect, n, d.lst),
        OrderCell::Forward => are_keys_in_time(c, d, n),
        OrderCell::Backward => true,
    }
}

/// The same where their order is open, and where the first is told to stand before the second.
fn are_silent_orders(c: Front, d: Back, n: i64) -> bool
    ensures { result ≡ (int_le (c.ect +ℤ n) d.lst && are_keys_in_time c d n) }
{
    fits(c.ect, n, d.lst) & are_keys_in_time(c, d, n)
}

/// The greatest distance that may bind two members. Most sequences keep none, so it stays out of the
/// loops through pairs.
#[inline(never)]
fn reach(model: &Model, region: &Region, d: &Disjunctive, a: Itv, b: Itv) -> i64
    requires { IsRegionOf model.now region.now.region }
    ensures { result ≡ reach model.now d.now.p d.now.matrix a b }
{
    let look = region.look(None, None);
    greater(0, gap(model, &look, d.p, d.matrix, a, b))
}

/// The same where the sequence keeps none.
#[tactic(auto, using(crate::proofs::Noted::no_reach))]
pub fn no_reach(model: &Model, d: &Disjunctive, a: Itv, b: Itv) -> i64
    requires { is_none d.now.matrix ≡ true }
    ensures { result ≡ reach model.now d.now.p d.now.matrix a b }
{
    let _ = model;
    let _ = d;
    let _ = (a, b);
    0
}

/// The greatest distance that may bind two members.
pub fn distance(model: &Model, region: &Region, d: &Disjunctive, a: Itv, b: Itv) -> i64
    requires { IsRegionOf model.now region.now.region }
    ensures { result ≡ reach model.now d.now.p d.now.matrix a b }
{
    if d.matrix.is_none() {
        return no_reach(model, d, a, b);
    }
    reach(model, region, d, a, b)
}

/// A member, and the numbers of it.
#[derive(Clone, Copy, Debug)]
pub struct Task {
    pub member: Itv,
    pub keys: Keys,
}

/// Whether PAIR of two members surely finds nothing where their order is this one, and this is the
/// greatest distance that may bind them.
pub fn is_surely_silent(
    model: &Model,
    region: &Region,
    d: &Disjunctive,
    order: OrderCell,
    first: Task,
    second: Task,
    n: i64,
) -> bool
    requires first { IsKeyed (ends_of (bounds_of region.now.region first.member)) first.keys }
    requires second { IsKeyed (ends_of (bounds_of region.now.region second.member)) second.keys }
    requires distance { n ≡ reach model.now d.now.p d.now.matrix first.member second.member }
    ensures { result ≡ true → is_silent_two order (bounds_of region.now.region first.member) (bounds_of region.now.region second.member) (reach model.now d.now.p d.now.matrix first.member second.member) ≡ true }
{
    let _ = model;
    let _ = region;
    let _ = d;
    are_silent_keys(order, first.keys.front, second.keys.back, n)
}

/// The same of both orders: that the first is told to stand before the second, and that none is.
pub fn are_surely_silent(
    model: &Model,
    region: &Region,
    d: &Disjunctive,
    first: Task,
    second: Task,
    n: i64,
) -> bool
    requires first { IsKeyed (ends_of (bounds_of region.now.region first.member)) first.keys }
    requires second { IsKeyed (ends_of (bounds_of region.now.region second.member)) second.keys }
    requires distance { n ≡ reach model.now d.now.p d.now.matrix first.member second.member }
    ensures { result ≡ true → AreSilentOrders (bounds_of region.now.region first.member) (bounds_of region.now.region second.member) (reach model.now d.now.p d.now.matrix first.member second.member) }
{
    let _ = model;
    let _ = region;
    let _ = d;
    are_silent_orders(first.keys.front, second.keys.back, n)
}
