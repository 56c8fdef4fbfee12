//! What PAIR of a sequence without overlap finds.
ghost use Rattle.std.specs.Prelude.{◌≡◌, ◌<◌, ◌≤◌, ℤ, Option, true, false, length, is_none, IfNone, IfSome};
ghost use Rattle.region.specs.declared.types.OrderCell.TheVariants as order;
ghost use Rattle.region.specs.Cells.{bounds_of, cells_of};
ghost use Rattle.region.specs.Orders.{order_in};
ghost use Rattle.sched_model.specs.Data.{members_of};
ghost use Rattle.region.specs.Looks.{IsRegionOf};
ghost use Rattle.findings.specs.Found.{IsFinding};
ghost use Rattle.findings.specs.code.Numbers.{ends_of};
ghost use Rattle.refute_seq.specs.OnSequence.{refutes};
ghost use Rattle.prop_unary.specs.code.Tasks.{quiet};
ghost use Rattle.prop_unary.specs.code.Silence.{IsDisjunctive, AreSilent, AreSilentWhere, SilentRow, IsKeyed, AreKeyed, reach};
ghost use Rattle.prop_unary.specs.code.Circles.{EachOf, EachBetween};
ghost use Rattle.prop_unary.specs.code.Rows.{member_at};

use crate::cases::{ask_both, ask_two, likely_pushed};
use crate::disjunctive::Disjunctive;
use crate::heard::{ask_heard_row, heard_of};
use crate::keys::{Keys, note_keys};
use crate::places::BITS;
use crate::rest::are_all_silent;
use crate::silence::{Task, are_surely_silent, distance, is_surely_silent, no_reach};
use crate::waiting::Told;
use findings::{Finding, Pair, View};
use refute_seq::SeqWitness;
use region::{OrderCell, Region};
use sched_base::Itv;
use sched_model::Model;

/// Whether the first of two is told to stand before the second, where this is the greatest distance that
/// may bind them. Where none is told to, it is noted that their order is open, if their numbers leave
/// something to find of it.
pub fn is_told(
    model: &Model,
    region: &Region,
    d: &Disjunctive,
    first: Task,
    second: Task,
    n: i64,
    is_open: &mut bool,
) -> bool
    requires of { IsRegionOf model.now region.now.region }
    requires is { IsDisjunctive model.now d.now }
    requires first { IsKeyed (ends_of (bounds_of region.now.region first.member)) first.keys }
    requires second { IsKeyed (ends_of (bounds_of region.now.region second.member)) second.keys }
    requires distance { n ≡ reach model.now d.now.p d.now.matrix first.member second.member }
    ensures told { result ≡ true → order_in (cells_of region.now.region d.now.p) first.member second.member ≡ order.Forward }
    ensures other { (best : Option ℤ) → result ≡ false → AreSilentWhere model.now region.now.region best d.now order.Forward first.member second.member }
    ensures free { (best : Option ℤ) → is_open.new ≡ false → (is_open.old ≡ false) × AreSilentWhere model.now region.now.region best d.now order.Unknown first.member second.member }
{
    let (a, b) = (first.member, second.member);
    if a.0 == b.0 {
        return false;
    }
    match region.look(None, None).order(d.p, a, b) {
        OrderCell::Backward => false,
        OrderCell::Unknown => {
            if is_surely_silent(model, region, d, OrderCell::Unknown, first, second, n) {
                return false;
            }
            *is_open = true;
            false
        }
        OrderCell::Forward => true,
    }
}

/// The same of the first member from a place on of which it is so, if the numbers of the two leave
/// something to find: its place, and where there is none, how many members there are. Mostly the numbers
/// of two show at once that nothing is found, also where their order is open.
fn next_told(
    model: &Model,
    region: &Region,
    d: &Disjunctive,
    first: Task,
    members: &[Itv],
    keys: &[Keys],
    from: usize,
    is_open: &mut bool,
) -> usize
    requires of { IsRegionOf model.now region.now.region }
    requires is { IsDisjunctive model.now d.now }
    requires first { IsKeyed (ends_of (bounds_of region.now.region first.member)) first.keys }
    requires room { length members.now ≤ length keys.now }
    requires keys { AreKeyed region.now.region members.now keys.now }
    requires within { from ≤ length members.now }
    ensures past { from ≤ result }
    ensures within { result ≤ length members.now }
    ensures at { result < length members.now → order_in (cells_of region.now.region d.now.p) first.member (member_at members.now result) ≡ order.Forward }
    ensures told { (best : Option ℤ) → EachBetween (AreSilentWhere model.now region.now.region best d.now order.Forward first.member) members.now from result }
    ensures free { (best : Option ℤ) → is_open.new ≡ false → (is_open.old ≡ false) × EachBetween (AreSilentWhere model.now region.now.region best d.now order.Unknown first.member) members.now from result }
{
    if d.matrix.is_none() {
        return next_near(model, region, d, first, members, keys, from, is_open);
    }
    for k in from..members.len() {
        let second = Task {
            member: members[k],
            keys: keys[k],
        };
        let n = distance(model, region, d, first.member, second.member);
        if are_surely_silent(model, region, d, first, second, n) {
            continue;
        }
        if is_told(model, region, d, first, second, n, is_open) {
            return k;
        }
    }
    members.len()
}

/// The same where the sequence keeps no distances.
fn next_near(
    model: &Model,
    region: &Region,
    d: &Disjunctive,
    first: Task,
    members: &[Itv],
    keys: &[Keys],
    from: usize,
    is_open: &mut bool,
) -> usize
    requires of { IsRegionOf model.now region.now.region }
    requires is { IsDisjunctive model.now d.now }
    requires first { IsKeyed (ends_of (bounds_of region.now.region first.member)) first.keys }
    requires near { is_none d.now.matrix ≡ true }
    requires room { length members.now ≤ length keys.now }
    requires keys { AreKeyed region.now.region members.now keys.now }
    requires within { from ≤ length members.now }
    ensures past { from ≤ result }
    ensures within { result ≤ length members.now }
    ensures at { result < length members.now → order_in (cells_of region.now.region d.now.p) first.member (member_at members.now result) ≡ order.Forward }
    ensures told { (best : Option ℤ) → EachBetween (AreSilentWhere model.now region.now.region best d.now order.Forward first.member) members.now from result }
    ensures free { (best : Option ℤ) → is_open.new ≡ false → (is_open.old ≡ false) × EachBetween (AreSilentWhere model.now region.now.region best d.now order.Unknown first.member) members.now from result }
{
    for k in from..members.len() {
        let second = Task {
            member: members[k],
            keys: keys[k],
        };
        let n = no_reach(model, d, first.member, second.member);
        if are_surely_silent(model, region, d, first, second, n) {
            continue;
        }
        if is_told(model, region, d, first, second, n, is_open) {
            return k;
        }
    }
    members.len()
}

/// What is found of two of which the first is told to stand before the second.
pub fn ask_forward(
    model: &Model,
    region: &Region,
    best: Option<i64>,
    d: &Disjunctive,
    a: Itv,
    b: Itv,
) -> Option<Finding<SeqWitness>>
    requires of { IsRegionOf model.now region.now.region }
    requires is { IsDisjunctive model.now d.now }
    ensures none { IfNone result (AreSilent model.now region.now.region best d.now a b) }
    ensures some { IfSome result (IsFinding refutes model.now region.now.region best) }
    ensures busy { IfSome result (λ f. quiet model.now d.now.c region.now.region best → ⊥) }
{
    let pair = Pair {
        sequence: d.p,
        first: a,
        second: b,
    };
    let likely = likely_pushed(model, region, d, pair);
    ask_both(model, region, best, d, a, b, likely)
}

/// What is found of two members of whom it is told that something is, where their order is as it is told to
/// be. The place of the first is noted.
pub fn ask_told(
    model: &Model,
    region: &Region,
    best: Option<i64>,
    d: &Disjunctive,
    members: &[Itv],
    told: Option<Told>,
    at: &mut usize,
) -> Option<Finding<SeqWitness>>
    requires of { IsRegionOf model.now region.now.region }
    requires is { IsDisjunctive model.now d.now }
    ensures some { IfSome result (IsFinding refutes model.now region.now.region best) }
    ensures busy { IfSome result (λ f. quiet model.now d.now.c region.now.region best → ⊥) }
{
    let Told {
        first,
        second,
        order,
    } = told?;
    if first >= members.len() || second >= members.len() {
        return None;
    }
    let (a, b) = (members[first], members[second]);
    let found = ask_two(model, region, best, d, order, a, b)?;
    *at = first;
    Some(found)
}

/// What is found of a member and others that it is told to stand before. Mostly the numbers of two show
/// at once that nothing is.
fn ask_told_row(
    model: &Model,
    region: &Region,
    best: Option<i64>,
    d: &Disjunctive,
    first: Task,
    members: &[Itv],
    keys: &[Keys],
    is_open: &mut bool,
) -> Option<Finding<SeqWitness>>
    requires of { IsRegionOf model.now region.now.region }
    requires is { IsDisjunctive model.now d.now }
    requires first { IsKeyed (ends_of (bounds_of region.now.region first.member)) first.keys }
    requires room { length members.now ≤ length keys.now }
    requires keys { AreKeyed region.now.region members.now keys.now }
    ensures none { IfNone result (EachOf (AreSilentWhere model.now region.now.region best d.now order.Forward first.member) members.now) }
    ensures free { IfNone result (is_open.new ≡ false → (is_open.old ≡ false) × EachOf (AreSilentWhere model.now region.now.region best d.now order.Unknown first.member) members.now) }
    ensures some { IfSome result (IsFinding refutes model.now region.now.region best) }
    ensures busy { IfSome result (λ f. quiet model.now d.now.c region.now.region best → ⊥) }
{
    if d.matrix.is_none() && members.len() <= BITS {
        let heard = heard_of(model, region, d, first, members, keys);
        let view = View {
            model,
            region,
            best,
        };
        return ask_heard_row(&view, d, first, members, keys, heard, is_open);
    }
    let mut k = next_told(model, region, d, first, members, keys, 0, is_open);
    while k < members.len() {
        if let Some(found) = ask_forward(model, region, best, d, first.member, members[k]) {
            return Some(found);
        }
        k = next_told(model, region, d, first, members, keys, k + 1, is_open);
    }
    None
}

/// What is found of a member and others. Mostly the numbers of two show at once that nothing is.
fn ask_row(
    model: &Model,
    region: &Region,
    best: Option<i64>,
    d: &Disjunctive,
    order: OrderCell,
    first: Task,
    members: &[Itv],
    keys: &[Keys],
) -> Option<Finding<SeqWitness>>
    requires of { IsRegionOf model.now region.now.region }
    requires is { IsDisjunctive model.now d.now }
    requires first { IsKeyed (ends_of (bounds_of region.now.region first.member)) first.keys }
    requires room { length members.now ≤ length keys.now }
    requires keys { AreKeyed region.now.region members.now keys.now }
    ensures none { IfNone result (EachOf (AreSilentWhere model.now region.now.region best d.now order first.member) members.now) }
    ensures some { IfSome result (IsFinding refutes model.now region.now.region best) }
    ensures busy { IfSome result (λ f. quiet model.now d.now.c region.now.region best → ⊥) }
{
    for k in 0..members.len() {
        let second = Task {
            member: members[k],
            keys: keys[k],
        };
        let n = distance(model, region, d, first.member, second.member);
        if is_surely_silent(model, region, d, order, first, second, n) {
            continue;
        }
        if let Some(found) = ask_two(model, region, best, d, order, first.member, second.member) {
            return Some(found);
        }
    }
    None
}

/// What is found of the members at the places from one on up to another, each with all. The place of the
/// one of which something is found is noted.
fn ask_places(
    view: &View<'_>,
    d: &Disjunctive,
    order: OrderCell,
    members: &[Itv],
    keys: &[Keys],
    from: usize,
    to: usize,
    at: &mut usize,
) -> Option<Finding<SeqWitness>>
    requires of { IsRegionOf view.now.model.now view.now.region.now.region }
    requires is { IsDisjunctive view.now.model.now d.now }
    requires room { length members.now ≤ length keys.now }
    requires keys { AreKeyed view.now.region.now.region members.now keys.now }
    requires within { to ≤ length members.now }
    ensures none { IfNone result (EachBetween (SilentRow view.now.model.now view.now.region.now.region view.now.best d.now order members.now) members.now from to) }
    ensures some { IfSome result (IsFinding refutes view.now.model.now view.now.region.now.region view.now.best) }
    ensures busy { IfSome result (λ f. quiet view.now.model.now d.now.c view.now.region.now.region view.now.best → ⊥) }
{
    for k in from..to {
        let first = Task {
            member: members[k],
            keys: keys[k],
        };
        if let Some(found) = ask_row(
            view.model,
            view.region,
            view.best,
            d,
            order,
            first,
            members,
            keys,
        ) {
            *at = k;
            return Some(found);
        }
    }
    None
}

/// The same of those that they are told to stand before.
fn ask_told_places(
    view: &View<'_>,
    d: &Disjunctive,
    members: &[Itv],
    keys: &[Keys],
    from: usize,
    to: usize,
    at: &mut usize,
    is_open: &mut bool,
) -> Option<Finding<SeqWitness>>
    requires of { IsRegionOf view.now.model.now view.now.region.now.region }
    requires is { IsDisjunctive view.now.model.now d.now }
    requires room { length members.now ≤ length keys.now }
    requires keys { AreKeyed view.now.region.now.region members.now keys.now }
    requires within { to ≤ length members.now }
    ensures none { IfNone result (EachBetween (SilentRow view.now.model.now view.now.region.now.region view.now.best d.now order.Forward members.now) members.now from to) }
    ensures free { IfNone result (is_open.new ≡ false → (is_open.old ≡ false) × EachBetween (SilentRow view.now.model.now view.now.region.now.region view.now.best d.now order.Unknown members.now) members.now from to) }
    ensures some { IfSome result (IsFinding refutes view.now.model.now view.now.region.now.region view.now.best) }
    ensures busy { IfSome result (λ f. quiet view.now.model.now d.now.c view.now.region.now.region view.now.best → ⊥) }
{
    for k in from..to {
        let first = Task {
            member: members[k],
            keys: keys[k],
        };
        if let Some(found) = ask_told_row(
            view.model,
            view.region,
            view.best,
            d,
            first,
            members,
            keys,
            is_open,
        ) {
            *at = k;
            return Some(found);
        }
    }
    None
}

/// What is found of each two of which the first is told to stand before the second, and whether the
/// order of some two is open that their numbers don't show to be silent.
fn ask_told_order(
    model: &Model,
    region: &Region,
    best: Option<i64>,
    d: &Disjunctive,
    members: &[Itv],
    keys: &[Keys],
    at: &mut usize,
    is_open: &mut bool,
) -> Option<Finding<SeqWitness>>
    requires of { IsRegionOf model.now region.now.region }
    requires is { IsDisjunctive model.now d.now }
    requires room { length members.now ≤ length keys.now }
    requires keys { AreKeyed region.now.region members.now keys.now }
    ensures none { IfNone result (EachOf (SilentRow model.now region.now.region best d.now order.Forward members.now) members.now) }
    ensures free { IfNone result (is_open.new ≡ false → (is_open.old ≡ false) × EachOf (SilentRow model.now region.now.region best d.now order.Unknown members.now) members.now) }
    ensures some { IfSome result (IsFinding refutes model.now region.now.region best) }
    ensures busy { IfSome result (λ f. quiet model.now d.now.c region.now.region best → ⊥) }
{
    let n = members.len();
    let start = (*at).min(n);
    let view = View {
        model,
        region,
        best,
    };
    if let Some(f) = ask_told_places(&view, d, members, keys, start, n, at, is_open) {
        return Some(f);
    }
    ask_told_places(&view, d, members, keys, 0, start, at, is_open)
}

/// What is found of each two whose order is this one. It begins with the member at a place, and goes
/// round once.
fn ask_order(
    model: &Model,
    region: &Region,
    best: Option<i64>,
    d: &Disjunctive,
    order: OrderCell,
    members: &[Itv],
    keys: &[Keys],
    at: &mut usize,
) -> Option<Finding<SeqWitness>>
    requires of { IsRegionOf model.now region.now.region }
    requires is { IsDisjunctive model.now d.now }
    requires room { length members.now ≤ length keys.now }
    requires keys { AreKeyed region.now.region members.now keys.now }
    ensures none { IfNone result (EachOf (λ a. EachOf (AreSilentWhere model.now region.now.region best d.now order a) members.now) members.now) }
    ensures some { IfSome result (IsFinding refutes model.now region.now.region best) }
    ensures busy { IfSome result (λ f. quiet model.now d.now.c region.now.region best → ⊥) }
{
    let n = members.len();
    let start = (*at).min(n);
    let view = View {
        model,
        region,
        best,
    };
    if let Some(f) = ask_places(&view, d, order, members, keys, start, n, at) {
        return Some(f);
    }
    ask_places(&view, d, order, members, keys, 0, start, at)
}

/// What PAIR finds of a sequence without overlap, whose members these are: first of two that are told
/// to stand one before the other, then of two whose order is open. It notes the numbers of each member
/// once, and compares each two a fixed number of times: where nothing is found of any, their order is read
/// once, and else again where their numbers leave something to find. It begins with the member at a place,
/// where it found something last.
pub fn ask_pairs(
    model: &Model,
    region: &Region,
    best: Option<i64>,
    d: &Disjunctive,
    members: &[Itv],
    keys: &mut [Keys],
    at: &mut usize,
) -> Option<Finding<SeqWitness>>
    requires of { IsRegionOf model.now region.now.region }
    requires is { IsDisjunctive model.now d.now }
    requires members { members.now ≡ members_of model.now d.now.p }
    requires room { length members.now ≤ length keys.old }
    ensures same { length keys.new ≡ length keys.old }
    ensures none { IfNone result (quiet model.now d.now.c region.now.region best) }
    ensures some { IfSome result (IsFinding refutes model.now region.now.region best) }
    ensures busy { IfSome result (λ f. quiet model.now d.now.c region.now.region best → ⊥) }
{
    note_keys(&region.look(None, None), members, keys);
    if are_all_silent(model, region, d, members, keys) {
        return None;
    }
    let mut is_open = false;
    if let Some(f) = ask_told_order(model, region, best, d, members, keys, at, &mut is_open) {
        return Some(f);
    }
    if !is_open {
        return None;
    }
    ask_order(
        model,
        region,
        best,
        d,
        OrderCell::Unknown,
        members,
        keys,
        at,
    )
}
