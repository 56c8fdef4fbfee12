//! Members and places in the orders that the passes ask for.
ghost use Rattle.std.specs.Prelude.{◌≡◌, ℕ, ◌<◌, ◌≤◌, neg_ℤ, length, OnOk};
ghost use Rattle.std.specs.List.Sorted.{IsPermutation};
ghost use Rattle.region.specs.Cells.{bounds_of};
ghost use Rattle.theta_passes.specs.code.Rows.{row_at};
ghost use Rattle.prop_sets.specs.code.Rows.{seen, side_of, member_at, times_from, AreMoments};
ghost use Rattle.prop_sets.specs.code.Known.{AreNumbers};
ghost use Rattle.prop_sets.specs.code.Reordered.{IsReordered};
ghost use Rattle.prop_sets.specs.code.Orders.{AreRising, AreKeyed, ArePlaces, AreStarts, AreNamed, ArePlacedNumbers, AreSpanned, IsByStart, IsOrderBy, on_by, key_by, keyed_at};
ghost use Rattle.prop_sets.specs.laws.Under.{IsMoment};

use crate::known::Numbers;
use crate::numbers::{numbers_at, turned_moment};
use region::Region;
use sched_base::{Itv, NoMemory};
use std::alloc::Global;
use theta_passes::{Presence, Row};

/// A place, and the number by which it is sorted.
#[derive(Clone, Copy, Debug)]
pub struct Keyed {
    pub key: i64,
    pub place: u32,
}

/// Which places an order has, and by what they come.
#[derive(Clone, Copy, Debug, PartialEq, Eq)]
pub enum By {
    /// Who isn't absent, the latest completion first.
    Falling,
    /// Who is present, the latest completion first.
    FallingPresent,
    /// Who isn't absent, the earliest completion that is asked about first.
    Rising,
}

fn sort(keyed: &mut [Keyed])
    ensures moved { IsPermutation keyed.old keyed.new }
    ensures rises { AreRising keyed.new }
{
    keyed.sort_unstable_by_key(|k| k.key);
}

fn sort_all(keyed: &mut Vec<Keyed>)
    ensures moved { IsPermutation keyed.old.items keyed.new.items }
    ensures rises { AreRising keyed.new.items }
{
    sort(keyed.as_mut_slice());
}

/// The row at a place.
fn row_at(rows: &[Row], k: usize) -> Row
    requires { k < length rows.now }
    ensures { result ≡ row_at rows.now k }
{
    rows[k]
}

fn is_on(by: By, rows: &[Row], k: usize) -> bool
    requires { k < length rows.now }
    ensures { result ≡ on_by by rows.now k }
{
    match by {
        By::Falling => row_at(rows, k).presence != Presence::Absent,
        By::FallingPresent => row_at(rows, k).presence == Presence::Present,
        By::Rising => row_at(rows, k).presence != Presence::Absent,
    }
}

/// A moment with time turned round.
fn turned(t: i64) -> i64
    requires { IsMoment t }
    ensures { result ≡ neg_ℤ t }
{
    -t
}

fn key_of(by: By, rows: &[Row], k: usize) -> i64
    requires within { k < length rows.now }
    requires spanned { AreSpanned rows.now }
    ensures { result ≡ key_by by rows.now k }
{
    match by {
        By::Falling => turned(row_at(rows, k).lct),
        By::FallingPresent => turned(row_at(rows, k).lct),
        By::Rising => row_at(rows, k).reach,
    }
}

fn entry(key: i64, k: usize) -> Keyed
    requires { k < 500 }
    ensures key { result.key ≡ key }
    ensures place { result.place ≡ k }
{
    Keyed {
        key,
        place: k as u32,
    }
}

/// The places of an order with their keys, not sorted yet.
#[tactic(auto, using(crate::proofs::Ordering::none_keyed, crate::proofs::Ordering::one_keyed, crate::proofs::Ordering::one_off))]
fn keyed_by(keyed: &mut Vec<Keyed>, rows: &[Row], by: By) -> Result<(), NoMemory>
    requires few { length rows.now ≤ 500 }
    requires spanned { AreSpanned rows.now }
    ensures { OnOk result (AreKeyed (on_by by rows.now) (key_by by rows.now) (length rows.now) keyed.new.items) }
{
    keyed.clear();
    for k in 0..rows.len() {
        if !is_on(by, rows, k) {
            continue;
        }
        keyed.push(entry(key_of(by, rows, k), k))?;
    }
    Ok(())
}

/// The places alone.
#[tactic(auto, using(crate::proofs::Ordering::no_places, crate::proofs::Ordering::more_places, crate::proofs::Ordering::all_places))]
fn places(order: &mut Vec<u32>, keyed: &[Keyed]) -> Result<(), NoMemory>
    ensures { OnOk result (ArePlaces keyed.now (length keyed.now) order.new.items) }
{
    order.clear();
    for k in 0..keyed.len() {
        order.push(keyed[k].place)?;
    }
    Ok(())
}

/// Puts the places of rows in an order.
#[tactic(auto, using(crate::proofs::Ordering::in_order))]
pub fn order_by(
    keyed: &mut Vec<Keyed>,
    order: &mut Vec<u32>,
    rows: &[Row],
    by: By,
) -> Result<(), NoMemory>
    requires few { length rows.now ≤ 500 }
    requires spanned { AreSpanned rows.now }
    ensures { OnOk result (IsOrderBy by rows.now order.new.items) }
{
    keyed_by(keyed, rows, by)?;
    sort_all(keyed);
    places(order, keyed)
}

/// The earliest start on a side, of the numbers of an interval.
fn start_of(back: bool, n: Numbers) -> i64
    requires { AreMoments n }
    ensures { result ≡ (times_from (side_of back) n).est }
{
    if back {
        return turned_moment(n.lct);
    }
    n.est
}

/// That of the member at a place, whose numbers are given.
#[tactic(auto, using(crate::proofs::Ordering::start_is))]
fn start_at(region: &Region, members: &[Itv], numbers: &[Numbers], back: bool, k: usize) -> i64
    requires are { AreNumbers region.now.region members.now (length members.now) numbers.now }
    requires within { k < length members.now }
    ensures { result ≡ (seen (side_of back) (bounds_of region.now.region (member_at members.now k))).est }
{
    let _ = region;
    let _ = members;
    start_of(back, numbers_at(numbers, k))
}

/// The members with their earliest starts on a side, not sorted yet.
#[tactic(auto, using(crate::proofs::Ordering::no_starts, crate::proofs::Ordering::more_starts, crate::proofs::Ordering::all_starts))]
fn starts(
    keyed: &mut Vec<Keyed>,
    region: &Region,
    members: &[Itv],
    numbers: &[Numbers],
    back: bool,
) -> Result<(), NoMemory>
    requires few { length members.now ≤ 500 }
    requires are { AreNumbers region.now.region members.now (length members.now) numbers.now }
    ensures { OnOk result (AreStarts (side_of back) region.now.region members.now (length members.now) keyed.new.items) }
{
    keyed.clear();
    for k in 0..members.len() {
        keyed.push(entry(start_at(region, members, numbers, back, k), k))?;
    }
    Ok(())
}

/// The member at a place.
fn member_at(members: &[Itv], k: u32) -> Itv
    requires { k < length members.now }
    ensures { result ≡ member_at members.now k }
{
    members[k as usize]
}

/// The members at the places.
#[tactic(auto, using(crate::proofs::Ordering::no_named, crate::proofs::Ordering::more_named, crate::proofs::Ordering::all_named))]
fn named(list: &mut Vec<Itv>, members: &[Itv], keyed: &[Keyed]) -> Result<(), NoMemory>
    requires { (k : ℕ) → k < length keyed.now → (keyed_at keyed.now k).place < length members.now }
    ensures { OnOk result (AreNamed members.now keyed.now (length keyed.now) list.new.items) }
{
    list.clear();
    for k in 0..keyed.len() {
        list.push(member_at(members, keyed[k].place))?;
    }
    Ok(())
}

/// Members in an order, and the places at which their numbers stand.
#[derive(Debug, Drop)]
pub struct Ordered {
    pub members: Vec<Itv>,
    pub places: Vec<Keyed>,
}

impl Ordered {
    /// None of them.
    pub fn new(alloc: Global) -> Ordered {
        Ordered {
            members: Vec::new(alloc),
            places: Vec::new(alloc),
        }
    }
}

/// Both orders of members: by one side and by the other.
#[derive(Debug, Drop)]
pub struct Orders {
    pub first: Ordered,
    pub second: Ordered,
}

impl Orders {
    /// None of them.
    pub fn new(alloc: Global) -> Orders {
        Orders {
            first: Ordered::new(alloc),
            second: Ordered::new(alloc),
        }
    }
}

/// Puts the members in the order of their earliest starts on a side.
#[tactic(auto, using(crate::proofs::Ordering::starts_low, crate::proofs::Ordering::in_start_order, crate::proofs::Ordering::by_start))]
pub fn by_start(
    ordered: &mut Ordered,
    region: &Region,
    members: &[Itv],
    numbers: &[Numbers],
    back: bool,
) -> Result<(), NoMemory>
    requires few { length members.now ≤ 500 }
    requires are { AreNumbers region.now.region members.now (length members.now) numbers.now }
    ensures moved { OnOk result (IsReordered members.now ordered.new.members.items) }
    ensures sorted { OnOk result (IsByStart (side_of back) region.now.region ordered.new.members.items) }
    ensures numbers { OnOk result (ArePlacedNumbers region.now.region ordered.new.members.items ordered.new.places.items numbers.now) }
{
    starts(&mut ordered.places, region, members, numbers, back)?;
    sort_all(&mut ordered.places);
    named(&mut ordered.members, members, &ordered.places)?;
    Ok(())
}
