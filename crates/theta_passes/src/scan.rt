ghost use Rattle.std.specs.Prelude.{◌≡◌, ℕ, ◌<◌, ◌≤◌, ◌+ℤ◌, int_le, true, None, Some, length};
ghost use Rattle.std.specs.Int.{int_max};
ghost use Rattle.theta_passes.specs.code.Rows.{row_at, is_candidate, is_present, IsNearRow, IsByEst};
ghost use Rattle.theta_passes.specs.code.Parts.{part_has, GivesTop};
ghost use Rattle.theta_passes.specs.code.Late.{LateAt, LateCandidate, LatePass, late_by, with_row, is_free, is_idle, AreLows, AreLeft};
ghost use Rattle.theta_passes.specs.declared.parts.Part.TheVariants.{Before, Cut, Whole};
ghost use Rattle.theta_passes.specs.code.Places.{has_place};
ghost use Rattle.theta_passes.specs.code.Edge.{end_with, AreOver, is_pushed, is_pushed_at, is_over_with, FoundBy, FoundOrNone, ByMember, IsMember, PassOrNone};

use crate::parts::{Part, Top, top_of};
use crate::places::{ROOM, first_of, with, without};
use crate::{Presence, Row};

/// Of the others that must start before a member can end, where those begin that complete latest.
fn top_before(rows: &[Row], i: u32) -> Option<Top>
    requires few { length rows.now ≤ 500 }
    requires near { (k : ℕ) → IsNearRow (row_at rows.now k) }
    requires within { i < length rows.now }
    ensures { GivesTop rows.now (part_has rows.now (Before i (row_at rows.now i).reach)) 0 result }
{
    top_of(rows, Part::Before(i, rows[i as usize].reach))
}

fn is_late_by(bar: i64, top: Option<Top>) -> bool
    ensures { result ≡ late_by bar top }
{
    match top {
        None => false,
        Some(top) => bar < top.value,
    }
}

#[tactic(auto, using(crate::proofs::scans::Scanned::late_scanned))]
fn is_late(rows: &[Row], i: u32) -> bool
    requires few { length rows.now ≤ 500 }
    requires near { (k : ℕ) → IsNearRow (row_at rows.now k) }
    requires sorted { IsByEst rows.now }
    requires within { i < length rows.now }
    ensures { LateAt rows.now i result }
{
    is_late_by(rows[i as usize].bar, top_before(rows, i))
}

fn is_candidate(rows: &[Row], i: u32) -> bool
    requires { i < length rows.now }
    ensures { result ≡ is_candidate rows.now i }
{
    rows[i as usize].presence != Presence::Absent
}

#[tactic(auto, using(crate::proofs::scans::Scanned::no_candidate, crate::proofs::scans::Scanned::candidate_late))]
fn is_found(rows: &[Row], i: u32) -> bool
    requires few { length rows.now ≤ 500 }
    requires near { (k : ℕ) → IsNearRow (row_at rows.now k) }
    requires sorted { IsByEst rows.now }
    requires within { i < length rows.now }
    ensures { LateCandidate rows.now i result }
{
    if !is_candidate(rows, i) {
        return false;
    }
    is_late(rows, i)
}

/// The two least of the latest starts of those present that were seen, and where the least stands.
#[derive(Clone, Copy, Debug)]
pub struct Lows {
    pub place: usize,
    pub first: i64,
    pub second: i64,
}

fn with_row(lows: Lows, row: Row, k: usize) -> Lows
    ensures { result ≡ with_row lows row k }
{
    if row.presence != Presence::Present {
        return lows;
    }
    if row.lst < lows.first {
        return Lows {
            place: k,
            first: row.lst,
            second: lows.first,
        };
    }
    if row.lst < lows.second {
        return Lows {
            second: row.lst,
            ..lows
        };
    }
    lows
}

#[tactic(auto, using(crate::proofs::scans::Lowest::none_low, crate::proofs::scans::Lowest::more_low))]
fn lows_of(rows: &[Row]) -> Lows
    ensures { AreLows rows.now (length rows.now) result }
{
    let mut lows = Lows {
        place: 0,
        first: i64::MAX,
        second: i64::MAX,
    };
    for k in 0..rows.len() {
        lows = with_row(lows, rows[k], k);
    }
    lows
}

/// Whether nobody else must start before a member can end.
fn is_free(lows: Lows, row: Row, k: usize) -> bool
    ensures { result ≡ is_free lows row k }
{
    if k == lows.place {
        return row.reach <= lows.second;
    }
    row.reach <= lows.first
}

/// Whether a member surely isn't late: nobody else must start before it can end, or all that are present
/// complete by its bar.
fn is_idle(lows: Lows, whole: Option<Top>, row: Row, k: usize) -> bool
    ensures { result ≡ is_idle lows whole row k }
{
    is_free(lows, row, k) | !is_late_by(row.bar, whole)
}

/// The places of those who may be late.
fn bound_of(rows: &[Row], lows: Lows, whole: Option<Top>) -> u64
    requires few { length rows.now ≤ 64 }
    requires near { (k : ℕ) → IsNearRow (row_at rows.now k) }
    requires sorted { IsByEst rows.now }
    requires lows { AreLows rows.now (length rows.now) lows }
    requires whole { GivesTop rows.now (part_has rows.now Whole) 0 whole }
    ensures { AreLeft rows.now result }
{
    let mut bound = 0;
    for k in 0..rows.len() {
        bound = with(bound, k, !is_idle(lows, whole, rows[k], k));
    }
    bound
}

/// Of those at some places the first that is late; nobody else is.
fn late_of(rows: &[Row], places: u64) -> Option<u32>
    requires few { length rows.now ≤ 500 }
    requires near { (k : ℕ) → IsNearRow (row_at rows.now k) }
    requires sorted { IsByEst rows.now }
    requires left { AreLeft rows.now places }
    ensures { LatePass rows.now result }
{
    let mut left = places;
    while left != 0 {
        let i = first_of(left);
        if is_found(rows, i) {
            return Some(i);
        }
        left = without(left, i);
    }
    None
}

/// The first that is late, where there are too many for a set of places.
#[tactic(auto, using(crate::proofs::scans::Scanned::none_scanned, crate::proofs::scans::Scanned::more_scanned, crate::proofs::scans::Scanned::all_scanned, crate::proofs::scans::Scanned::scan_found))]
fn late_of_many(rows: &[Row], lows: Lows, whole: Option<Top>) -> Option<u32>
    requires few { length rows.now ≤ 500 }
    requires near { (k : ℕ) → IsNearRow (row_at rows.now k) }
    requires sorted { IsByEst rows.now }
    requires lows { AreLows rows.now (length rows.now) lows }
    requires whole { GivesTop rows.now (part_has rows.now Whole) 0 whole }
    ensures { LatePass rows.now result }
{
    for k in 0..rows.len() {
        if is_idle(lows, whole, rows[k], k) {
            continue;
        }
        let i = k as u32;
        if is_found(rows, i) {
            return Some(i);
        }
    }
    None
}

/// What `late_pass` finds, without a tree: of few members it is the sooner one. Who may be late is told for
/// all first, without a branch.
pub fn late_scan(rows: &[Row]) -> Option<u32>
    requires few { length rows.now ≤ 500 }
    requires near { (k : ℕ) → IsNearRow (row_at rows.now k) }
    requires sorted { IsByEst rows.now }
    ensures { LatePass rows.now result }
{
    let lows = lows_of(rows);
    let whole = top_of(rows, Part::Whole);
    if rows.len() > ROOM {
        return late_of_many(rows, lows, whole);
    }
    late_of(rows, bound_of(rows, lows, whole))
}

/// Whether a cut starts a member too late that may end after its moment.
fn is_pushed(row: Row, level: i64, pushing: Option<Top>) -> bool
    ensures { result ≡ is_pushed row level pushing }
{
    let Some(top) = pushing else {
        return false;
    };
    (level < row.lct) & (row.lst < top.value)
}

fn later(a: i64, b: i64) -> i64
    ensures { result ≡ int_max a b }
{
    if a < b { b } else { a }
}

fn ends_by(start: i64, p: i64, level: i64) -> bool
    ensures { result ≡ int_le (start +ℤ p) level }
{
    i128::from(start) + i128::from(p) <= i128::from(level)
}

/// Whether the cut is over by its moment even with the member in it, as the numbers tell by
/// themselves: the member adds its size at the most, and starts no earlier than it can.
fn is_over_with(row: Row, level: i64, pushing: Option<Top>) -> bool
    ensures { result ≡ is_over_with row level pushing }
{
    let Some(top) = pushing else {
        return false;
    };
    ends_by(later(row.est, top.value), row.p, level)
}

#[tactic(auto, using(crate::proofs::scans::CutScans::no_candidate_found))]
fn finds(rows: &[Row], i: u32, level: i64, pushing: Option<Top>) -> bool
    requires few { length rows.now ≤ 500 }
    requires near { (k : ℕ) → IsNearRow (row_at rows.now k) }
    requires sorted { IsByEst rows.now }
    requires within { i < length rows.now }
    requires member { IsMember rows.now level }
    requires pushing { GivesTop rows.now (part_has rows.now (Cut None level)) 0 pushing }
    ensures { FoundBy rows.now level i result }
{
    if !is_candidate(rows, i) {
        return false;
    }
    if !is_pushed(rows[i as usize], level, pushing) {
        return false;
    }
    if is_over_with(rows[i as usize], level, pushing) {
        return false;
    }
    is_late_by(level, top_of(rows, Part::CutAnd(level, i)))
}

/// The places of those that the cut pushes.
#[tactic(auto, using(crate::proofs::scans::Pushed::none_pushed))]
fn pushed_of(rows: &[Row], level: i64, top: Top) -> u64
    requires { length rows.now ≤ 64 }
    ensures { (k : ℕ) → has_place result k ≡ is_pushed_at rows.now level (Some top) k }
{
    let mut pushed = 0;
    for k in 0..rows.len() {
        pushed = with(pushed, k, is_pushed(rows[k], level, Some(top)));
    }
    pushed
}

/// Of those at some places one that the cut finds; it finds nobody else.
#[tactic(auto, using(crate::proofs::scans::CutScans::one_tried))]
fn found_of(rows: &[Row], level: i64, top: Top, places: u64) -> Option<u32>
    requires few { length rows.now ≤ 500 }
    requires near { (k : ℕ) → IsNearRow (row_at rows.now k) }
    requires sorted { IsByEst rows.now }
    requires member { IsMember rows.now level }
    requires pushing { GivesTop rows.now (part_has rows.now (Cut None level)) 0 (Some top) }
    requires pushed { (k : ℕ) → has_place places k ≡ is_pushed_at rows.now level (Some top) k }
    ensures { FoundOrNone rows.now level result }
{
    let mut left = places;
    while left != 0 {
        let i = first_of(left);
        if finds(rows, i, level, Some(top)) {
            return Some(i);
        }
        left = without(left, i);
    }
    None
}

/// A member that the cut at a moment finds, where there are too many for a set of places.
#[tactic(auto, using(crate::proofs::scans::CutScans::none_tried, crate::proofs::scans::CutScans::one_tried))]
fn found_of_many(rows: &[Row], level: i64, pushing: Option<Top>) -> Option<u32>
    requires few { length rows.now ≤ 500 }
    requires near { (k : ℕ) → IsNearRow (row_at rows.now k) }
    requires sorted { IsByEst rows.now }
    requires member { IsMember rows.now level }
    requires pushing { GivesTop rows.now (part_has rows.now (Cut None level)) 0 pushing }
    ensures { FoundOrNone rows.now level result }
{
    for k in 0..rows.len() {
        let i = k as u32;
        if finds(rows, i, level, pushing) {
            return Some(i);
        }
    }
    None
}

/// A member that the cut at a moment finds. Whom the cut pushes is told for all first, without a branch:
/// they are few, and who they are follows no pattern.
fn found_at(rows: &[Row], level: i64) -> Option<u32>
    requires few { length rows.now ≤ 500 }
    requires near { (k : ℕ) → IsNearRow (row_at rows.now k) }
    requires sorted { IsByEst rows.now }
    requires member { IsMember rows.now level }
    ensures { FoundOrNone rows.now level result }
{
    let pushing = top_of(rows, Part::Cut(None, level));
    if rows.len() > ROOM {
        return found_of_many(rows, level, pushing);
    }
    match pushing {
        None => None,
        Some(top) => found_of(rows, level, top, pushed_of(rows, level, top)),
    }
}

/// Whether a member is present, so that a cut ends with it.
fn ends_cut(rows: &[Row], k: usize) -> bool
    requires { k < length rows.now }
    ensures { result ≡ is_present rows.now k }
{
    rows[k].presence == Presence::Present
}

/// What the cut finds that ends with a member, if it is present.
#[tactic(auto, using(crate::proofs::scans::CutScans::member_at, crate::proofs::scans::CutScans::no_member))]
fn found_by(rows: &[Row], k: usize) -> Option<u32>
    requires few { length rows.now ≤ 500 }
    requires near { (k : ℕ) → IsNearRow (row_at rows.now k) }
    requires sorted { IsByEst rows.now }
    requires within { k < length rows.now }
    ensures { ByMember rows.now k result }
{
    if !ends_cut(rows, k) {
        return None;
    }
    found_at(rows, rows[k].lct)
}

/// A moment by which each cut is over with a member in it, where this is when all that are present
/// complete: an optional one adds its size at the most.
fn end_with(row: Row, whole: i64) -> i128
    ensures { result ≡ end_with row.presence row whole }
{
    match row.presence {
        Presence::Maybe => i128::from(later(row.est, whole)) + i128::from(row.p),
        _ => i128::from(whole),
    }
}

fn latest(a: i128, b: i128) -> i128
    ensures { result ≡ int_max a b }
{
    if a < b { b } else { a }
}

/// The same for any member.
#[tactic(auto, using(crate::proofs::scans::Overs::none_over, crate::proofs::scans::Overs::all_over))]
fn last_end(rows: &[Row], whole: Top) -> i128
    requires near { (k : ℕ) → IsNearRow (row_at rows.now k) }
    requires sorted { IsByEst rows.now }
    requires whole { GivesTop rows.now (part_has rows.now Whole) 0 (Some whole) }
    ensures { AreOver rows.now (length rows.now) result }
{
    let mut last = i128::from(whole.value);
    for k in 0..rows.len() {
        last = latest(last, end_with(rows[k], whole.value));
    }
    last
}

fn is_over_by(last: i128, lct: i64) -> bool
    ensures { result ≡ int_le last lct }
{
    last <= i128::from(lct)
}

/// What the cuts find that aren't over by their moments whoever is put into them.
#[tactic(auto, using(crate::proofs::scans::CutScans::no_cut, crate::proofs::scans::CutScans::cut_passed))]
fn edge_before(rows: &[Row], last: i128) -> Option<u32>
    requires few { length rows.now ≤ 500 }
    requires near { (k : ℕ) → IsNearRow (row_at rows.now k) }
    requires sorted { IsByEst rows.now }
    requires over { AreOver rows.now (length rows.now) last }
    ensures { PassOrNone rows.now result }
{
    for k in 0..rows.len() {
        if is_over_by(last, rows[k].lct) {
            continue;
        }
        let found = found_by(rows, k);
        if found.is_some() {
            return found;
        }
    }
    None
}

/// What `edge_pass` finds, without a tree: of few members it is the sooner one. When all that are present
/// complete tells of most cuts that they find nothing, while the latest completions are far.
#[tactic(auto, using(crate::proofs::scans::Overs::nobody))]
pub fn edge_scan(rows: &[Row]) -> Option<u32>
    requires few { length rows.now ≤ 500 }
    requires near { (k : ℕ) → IsNearRow (row_at rows.now k) }
    requires sorted { IsByEst rows.now }
    ensures { PassOrNone rows.now result }
{
    match top_of(rows, Part::Whole) {
        None => None,
        Some(whole) => edge_before(rows, last_end(rows, whole)),
    }
}
