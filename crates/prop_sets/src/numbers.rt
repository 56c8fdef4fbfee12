//! The numbers of members by which sets are looked for.
ghost use Rattle.std.specs.Prelude.{◌≡◌, ◌<◌, ◌≤◌, ◌+ℤ◌, ◌-ℤ◌, neg_ℤ, IsTrue, OnOk, length};
ghost use Rattle.std.specs.Int.{int_max, int_min};
ghost use Rattle.sched_model.specs.Valid.{is_moment};
ghost use Rattle.region.specs.Cells.{bounds_of, unknown};
ghost use Rattle.region.specs.Looks.{HasMoments, is_shifted, ect_in, lst_in};
ghost use Rattle.prop_sets.specs.code.Rows.{asked_numbers, row_presence, row_by, row_from, chosen_row, side_of, member_at, AreMoments, AreRows};
ghost use Rattle.prop_sets.specs.code.Known.{numbers_at};
ghost use Rattle.prop_sets.specs.code.Orders.{ArePlacedNumbers};

use crate::known::Numbers;
use crate::orders::Keyed;
use region::{Bounds, Look, Presence, Region};
use sched_base::{Itv, NoMemory};
use theta_passes::{Presence as RowPresence, Row};

/// The greater of a moment and a sum of two.
fn max_sum(n: i64, a: i64, b: i64) -> i64
    requires moment { IsTrue (is_moment n) }
    requires first { IsTrue (is_moment a) }
    requires second { IsTrue (is_moment b) }
    ensures value { result ≡ int_max n (a +ℤ b) }
    ensures shifted { IsTrue (is_shifted result) }
{
    let sum = a + b;
    if n < sum { sum } else { n }
}

/// The smaller of a moment and a difference of two.
fn min_difference(n: i64, a: i64, b: i64) -> i64
    requires moment { IsTrue (is_moment n) }
    requires first { IsTrue (is_moment a) }
    requires second { IsTrue (is_moment b) }
    ensures value { result ≡ int_min n (a -ℤ b) }
    ensures shifted { IsTrue (is_shifted result) }
{
    let difference = a - b;
    if difference < n { difference } else { n }
}

pub fn ect_in(c: Bounds) -> i64
    requires { HasMoments c }
    ensures value { result ≡ ect_in c }
    ensures shifted { IsTrue (is_shifted result) }
{
    max_sum(c.emin, c.smin, c.pmin)
}

pub fn lst_in(c: Bounds) -> i64
    requires { HasMoments c }
    ensures value { result ≡ lst_in c }
    ensures shifted { IsTrue (is_shifted result) }
{
    min_difference(c.smax, c.emax, c.pmin)
}

/// A moment with time turned round.
pub fn turned_moment(t: i64) -> i64
    requires { IsTrue (is_moment t) }
    ensures { result ≡ neg_ℤ t }
{
    -t
}

fn turned(t: i64) -> i64
    requires { IsTrue (is_shifted t) }
    ensures { result ≡ neg_ℤ t }
{
    -t
}

pub fn row_presence(presence: Presence) -> RowPresence
    ensures { result ≡ row_presence presence }
{
    match presence {
        Presence::Absent => RowPresence::Absent,
        Presence::Present => RowPresence::Present,
        Presence::Maybe => RowPresence::Maybe,
    }
}

/// The numbers under the guess that it starts as early as it can, or ends as late.
fn asked_numbers(early: bool, n: Numbers) -> Numbers
    requires { AreMoments n }
    ensures value { result ≡ asked_numbers early n }
    ensures moments { AreMoments result }
{
    if early {
        return Numbers {
            lst: min_difference(n.est, n.lct, n.p),
            ..n
        };
    }
    Numbers {
        ect: max_sum(n.lct, n.est, n.p),
        ..n
    }
}

fn forward_row(n: Numbers, asked: Numbers) -> Row
    ensures { result ≡ row_by 0 n asked }
{
    Row {
        est: n.est,
        p: n.p,
        lst: n.lst,
        ect: n.ect,
        lct: n.lct,
        presence: n.presence,
        bar: asked.lst,
        reach: asked.ect,
    }
}

/// The same with time turned round.
fn backward_row(n: Numbers, asked: Numbers) -> Row
    requires moments { AreMoments n }
    requires also { AreMoments asked }
    ensures { result ≡ row_by 1 n asked }
{
    Row {
        est: turned_moment(n.lct),
        p: n.p,
        lst: turned(n.ect),
        ect: turned(n.lst),
        lct: turned_moment(n.est),
        presence: n.presence,
        bar: turned(asked.ect),
        reach: turned(asked.lst),
    }
}

fn row_on(back: bool, n: Numbers, asked: Numbers) -> Row
    requires moments { AreMoments n }
    requires also { AreMoments asked }
    ensures { result ≡ row_by (side_of back) n asked }
{
    if back {
        return backward_row(n, asked);
    }
    forward_row(n, asked)
}

/// The row of an interval: its numbers, or where they are chosen those under the guess, and beside
/// them those under the guess.
fn row_from(chosen: bool, back: bool, early: bool, n: Numbers) -> Row
    requires { AreMoments n }
    ensures { result ≡ row_from chosen (side_of back) early n }
{
    let asked = asked_numbers(early, n);
    if chosen {
        return row_on(back, asked, asked);
    }
    row_on(back, n, asked)
}

/// The numbers at a place.
pub fn numbers_at(numbers: &[Numbers], k: usize) -> Numbers
    requires { k < length numbers.now }
    ensures { result ≡ numbers_at numbers.now k }
{
    numbers[k]
}

/// The bounds of an interval; of one that isn't there nothing is known.
pub fn bounds_at(look: &Look<'_>, x: Itv) -> Bounds
    ensures value { result ≡ bounds_of look.now.region x }
    ensures moments { HasMoments result }
{
    if x.0 as usize >= look.len() {
        return Bounds {
            presence: Presence::Maybe,
            smin: 0,
            smax: 0,
            emin: 0,
            emax: 0,
            pmin: 0,
            pmax: 0,
        };
    }
    look.bounds(x)
}

/// The row of a member, whose numbers stand at its place.
fn row_of(
    region: &Region,
    members: &[Itv],
    places: &[Keyed],
    numbers: &[Numbers],
    chosen: bool,
    back: bool,
    early: bool,
    k: usize,
) -> Row
    requires are { ArePlacedNumbers region.now.region members.now places.now numbers.now }
    requires within { k < length places.now }
    ensures { result ≡ chosen_row chosen (side_of back) early (bounds_of region.now.region (member_at members.now k)) }
{
    let _ = region;
    let _ = members;
    row_from(
        chosen,
        back,
        early,
        numbers_at(numbers, places[k].place as usize),
    )
}

/// Puts one row for each member, from their numbers.
#[tactic(auto, using(crate::proofs::Noted::no_rows, crate::proofs::Noted::more_rows, crate::proofs::Noted::all_rows))]
pub fn rows_of(
    rows: &mut Vec<Row>,
    region: &Region,
    members: &[Itv],
    places: &[Keyed],
    numbers: &[Numbers],
    chosen: bool,
    back: bool,
    early: bool,
) -> Result<(), NoMemory>
    requires { ArePlacedNumbers region.now.region members.now places.now numbers.now }
    ensures { OnOk result (AreRows (chosen_row chosen (side_of back) early) region.now.region members.now rows.new.items) }
{
    rows.clear();
    for k in 0..places.len() {
        rows.push(row_of(region, members, places, numbers, chosen, back, early, k))?;
    }
    Ok(())
}
