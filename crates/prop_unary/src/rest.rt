//! Whether PAIR of a sequence finds nothing: each two members are looked at once, for both of their orders,
//! and it is read once which is told. Where nothing is found, as mostly, nothing else is asked.
ghost use Rattle.std.specs.Prelude.{◌≡◌, ◌<◌, ◌≤◌, Option, ℤ, true, length};
ghost use Rattle.region.specs.declared.types.OrderCell.TheVariants as order;
ghost use Rattle.region.specs.Cells.{bounds_of, cells_of};
ghost use Rattle.region.specs.Orders.{order_in};
ghost use Rattle.region.specs.Looks.{IsRegionOf};
ghost use Rattle.findings.specs.code.Numbers.{ends_of};
ghost use Rattle.prop_unary.specs.code.Silence.{IsDisjunctive, AreSilent, AreSilentWhere, AreSilentBoth, IsKeyed, AreKeyed};
ghost use Rattle.prop_unary.specs.code.Circles.{EachOf, EachBetween};
ghost use Rattle.prop_unary.specs.code.Rows.{member_at};

use crate::disjunctive::Disjunctive;
use crate::keys::Keys;
use crate::silence::{Task, are_surely_silent, distance, is_surely_silent};
use region::{OrderCell, Region};
use sched_base::Itv;
use sched_model::Model;

/// Whether nothing is found of the first before the second, whatever is told of the two.
fn is_silent_before(
    model: &Model,
    region: &Region,
    d: &Disjunctive,
    first: Task,
    second: Task,
) -> bool
    requires of { IsRegionOf model.now region.now.region }
    requires is { IsDisjunctive model.now d.now }
    requires first { IsKeyed (ends_of (bounds_of region.now.region first.member)) first.keys }
    requires second { IsKeyed (ends_of (bounds_of region.now.region second.member)) second.keys }
    ensures { (best : Option ℤ) → result ≡ true → AreSilent model.now region.now.region best d.now first.member second.member }
{
    let n = distance(model, region, d, first.member, second.member);
    are_surely_silent(model, region, d, first, second, n)
}

/// What the numbers of two tell of the first before the second where their order is open: whether nothing
/// is found.
fn is_silent_open(
    model: &Model,
    region: &Region,
    d: &Disjunctive,
    first: Task,
    second: Task,
) -> bool
    requires of { IsRegionOf model.now region.now.region }
    requires is { IsDisjunctive model.now d.now }
    requires first { IsKeyed (ends_of (bounds_of region.now.region first.member)) first.keys }
    requires second { IsKeyed (ends_of (bounds_of region.now.region second.member)) second.keys }
    ensures { (best : Option ℤ) → result ≡ true → AreSilentWhere model.now region.now.region best d.now order.Unknown first.member second.member }
{
    let n = distance(model, region, d, first.member, second.member);
    is_surely_silent(model, region, d, OrderCell::Unknown, first, second, n)
}

/// Whether nothing is found of two of which the first is told to stand before the second.
fn is_silent_forward(
    model: &Model,
    region: &Region,
    d: &Disjunctive,
    first: Task,
    second: Task,
) -> bool
    requires of { IsRegionOf model.now region.now.region }
    requires is { IsDisjunctive model.now d.now }
    requires first { IsKeyed (ends_of (bounds_of region.now.region first.member)) first.keys }
    requires second { IsKeyed (ends_of (bounds_of region.now.region second.member)) second.keys }
    requires told { order_in (cells_of region.now.region d.now.p) first.member second.member ≡ order.Forward }
    ensures { (best : Option ℤ) → result ≡ true → AreSilentBoth model.now region.now.region best d.now first.member second.member }
{
    is_silent_before(model, region, d, first, second)
}

/// The same of two of which the second is told to stand before the first.
fn is_silent_backward(
    model: &Model,
    region: &Region,
    d: &Disjunctive,
    first: Task,
    second: Task,
) -> bool
    requires of { IsRegionOf model.now region.now.region }
    requires is { IsDisjunctive model.now d.now }
    requires first { IsKeyed (ends_of (bounds_of region.now.region first.member)) first.keys }
    requires second { IsKeyed (ends_of (bounds_of region.now.region second.member)) second.keys }
    requires told { order_in (cells_of region.now.region d.now.p) first.member second.member ≡ order.Backward }
    ensures { (best : Option ℤ) → result ≡ true → AreSilentBoth model.now region.now.region best d.now first.member second.member }
{
    is_silent_before(model, region, d, second, first)
}

/// Whether nothing is found of the first before the second, where their order is open.
fn is_silent_unordered(
    model: &Model,
    region: &Region,
    d: &Disjunctive,
    first: Task,
    second: Task,
) -> bool
    requires of { IsRegionOf model.now region.now.region }
    requires is { IsDisjunctive model.now d.now }
    requires first { IsKeyed (ends_of (bounds_of region.now.region first.member)) first.keys }
    requires second { IsKeyed (ends_of (bounds_of region.now.region second.member)) second.keys }
    requires told { order_in (cells_of region.now.region d.now.p) first.member second.member ≡ order.Unknown }
    ensures { (best : Option ℤ) → result ≡ true → AreSilent model.now region.now.region best d.now first.member second.member }
{
    is_silent_open(model, region, d, first, second)
}

/// The same of the second before the first.
fn is_silent_behind(
    model: &Model,
    region: &Region,
    d: &Disjunctive,
    first: Task,
    second: Task,
) -> bool
    requires of { IsRegionOf model.now region.now.region }
    requires is { IsDisjunctive model.now d.now }
    requires first { IsKeyed (ends_of (bounds_of region.now.region first.member)) first.keys }
    requires second { IsKeyed (ends_of (bounds_of region.now.region second.member)) second.keys }
    requires told { order_in (cells_of region.now.region d.now.p) first.member second.member ≡ order.Unknown }
    ensures { (best : Option ℤ) → result ≡ true → AreSilent model.now region.now.region best d.now second.member first.member }
{
    is_silent_open(model, region, d, second, first)
}

/// Whether nothing is found of two, whichever stands first.
fn are_two_silent(
    model: &Model,
    region: &Region,
    d: &Disjunctive,
    first: Task,
    second: Task,
) -> bool
    requires of { IsRegionOf model.now region.now.region }
    requires is { IsDisjunctive model.now d.now }
    requires first { IsKeyed (ends_of (bounds_of region.now.region first.member)) first.keys }
    requires second { IsKeyed (ends_of (bounds_of region.now.region second.member)) second.keys }
    ensures { (best : Option ℤ) → result ≡ true → AreSilentBoth model.now region.now.region best d.now first.member second.member }
{
    match region
        .look(None, None)
        .order(d.p, first.member, second.member)
    {
        OrderCell::Forward => is_silent_forward(model, region, d, first, second),
        OrderCell::Backward => is_silent_backward(model, region, d, first, second),
        OrderCell::Unknown => {
            is_silent_unordered(model, region, d, first, second)
                && is_silent_behind(model, region, d, first, second)
        }
    }
}

/// Whether nothing is found of a member and those at the places before it.
fn is_row_silent(
    model: &Model,
    region: &Region,
    d: &Disjunctive,
    at: usize,
    members: &[Itv],
    keys: &[Keys],
) -> bool
    requires of { IsRegionOf model.now region.now.region }
    requires is { IsDisjunctive model.now d.now }
    requires within { at < length members.now }
    requires room { length members.now ≤ length keys.now }
    requires keys { AreKeyed region.now.region members.now keys.now }
    ensures { (best : Option ℤ) → result ≡ true → EachBetween (AreSilentBoth model.now region.now.region best d.now (member_at members.now at)) members.now 0 at }
{
    let first = Task {
        member: members[at],
        keys: keys[at],
    };
    for k in 0..at {
        let second = Task {
            member: members[k],
            keys: keys[k],
        };
        if !are_two_silent(model, region, d, first, second) {
            return false;
        }
    }
    true
}

/// Whether nothing is found of any two.
pub fn are_all_silent(
    model: &Model,
    region: &Region,
    d: &Disjunctive,
    members: &[Itv],
    keys: &[Keys],
) -> bool
    requires of { IsRegionOf model.now region.now.region }
    requires is { IsDisjunctive model.now d.now }
    requires room { length members.now ≤ length keys.now }
    requires keys { AreKeyed region.now.region members.now keys.now }
    ensures { (best : Option ℤ) → result ≡ true → EachOf (λ a. EachOf (AreSilent model.now region.now.region best d.now a) members.now) members.now }
{
    for at in 0..members.len() {
        if !is_row_silent(model, region, d, at, members, keys) {
            return false;
        }
    }
    true
}
