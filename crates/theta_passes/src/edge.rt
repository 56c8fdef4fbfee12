ghost use Rattle.std.specs.Prelude.{◌≡◌, ℕ, ℤ, ◌<◌, ◌+◌, ◌≤◌, ◌≤ℤ◌, ◌&&◌, int_lt, int_le, length};
ghost use Rattle.task_sets.specs.Times.{IsSized, IsEct};
ghost use Rattle.theta_passes.specs.code.Edge.{IsLevel, LateOrNone, IsStart, NoOverload, cut_of, PassOrNone, IsMember, IsFallen, IsOrder, FoundOrNone};
ghost use Rattle.theta_passes.specs.code.Rows.{says_absent, times_at, Fits, IsBounded, is_between};

use crate::leaves::paint;
use crate::{Presence, Row};
use sched_base::H;
use thetatree::{Colour, ThetaTree};

/// A gray leaf whose set of white leaves and itself completes after a moment.
fn late_gray(tree: &ThetaTree, level: i64) -> Option<u32>
    ensures { LateOrNone tree.now level result }
{
    match tree.ect_gray() {
        Some((value, Some(k))) if value > level => Some(k),
        _ => None,
    }
}

fn is_absent(presence: Presence) -> bool
    ensures { result ≡ says_absent presence }
{
    presence == Presence::Absent
}

fn is_within(lct: i64, above: i64, level: i64) -> bool
    ensures { result ≡ (int_lt level lct && int_le lct above) }
{
    if lct <= level {
        return false;
    }
    lct <= above
}

/// Whether a member that isn't absent must end after one moment and by another.
pub fn falls_between(row: Row, above: i64, level: i64) -> bool
    ensures { result ≡ is_between row above level }
{
    if is_absent(row.presence) {
        return false;
    }
    is_within(row.lct, above, level)
}

#[tactic(auto, using(crate::proofs::trees::Falling::fallen_painted, crate::proofs::trees::Falling::fallen_kept))]
fn lower_at(tree: &mut ThetaTree, rows: &[Row], k: u32, above: i64, level: i64)
    requires fits { Fits tree.old rows.now }
    requires within { k < length rows.now }
    requires fallen { IsFallen tree.old rows.now above level k }
    requires falls { level ≤ℤ above }
    ensures fits { Fits tree.new rows.now }
    ensures fallen { IsFallen tree.new rows.now above level (k + 1) }
{
    if falls_between(rows[k as usize], above, level) {
        paint(tree, rows, k, Colour::Gray);
    }
}

/// From the cut at one moment to that at an earlier one.
#[tactic(auto, using(crate::proofs::trees::Falling::fallen_start, crate::proofs::trees::Falling::fallen_end))]
fn lower(tree: &mut ThetaTree, rows: &[Row], above: i64, level: i64)
    requires few { length rows.now ≤ 500 }
    requires fits { Fits tree.old rows.now }
    requires at { IsLevel tree.old rows.now above }
    requires falls { level ≤ℤ above }
    ensures fits { Fits tree.new rows.now }
    ensures at { IsLevel tree.new rows.now level }
{
    for k in 0..rows.len() {
        lower_at(tree, rows, k as u32, above, level);
    }
}

/// A gray leaf that the cut at a moment finds. One that gives no finding is painted out.
fn try_level(tree: &mut ThetaTree, rows: &[Row], level: i64, ect: i64) -> Option<u32>
    requires few { length rows.now ≤ 500 }
    requires sized { IsSized (times_at rows.now) }
    requires none { NoOverload rows.now }
    requires fits { Fits tree.old rows.now }
    requires at { IsLevel tree.old rows.now level }
    requires ect { IsEct (times_at rows.now) (cut_of rows.now level) ect }
    requires member { IsMember rows.now level }
    ensures fits { Fits tree.new rows.now }
    ensures at { IsLevel tree.new rows.now level }
    ensures found { FoundOrNone rows.now level result }
{
    while let Some(k) = late_gray(tree, level) {
        if rows[k as usize].lst < ect {
            return Some(k);
        }
        paint(tree, rows, k, Colour::Out);
    }
    None
}

/// The earliest completion time of the cut at a moment that some member's latest completion is.
fn cut_ect(tree: &ThetaTree, rows: &[Row], level: i64) -> i64
    requires sized { IsSized (times_at rows.now) }
    requires fits { Fits tree.now rows.now }
    requires at { IsLevel tree.now rows.now level }
    requires member { IsMember rows.now level }
    ensures { IsEct (times_at rows.now) (cut_of rows.now level) result }
{
    match tree.ect() {
        Some(ect) => ect,
        None => level,
    }
}

/// A member that some cut finds. The cuts are taken with their moments falling, from the greatest latest
/// completion of a present member on.
pub fn edge_pass(tree: &mut ThetaTree, rows: &[Row], order: &[u32]) -> Option<u32>
    requires few { length rows.now ≤ 500 }
    requires sized { IsSized (times_at rows.now) }
    requires bounded { IsBounded rows.now }
    requires none { NoOverload rows.now }
    requires order { IsOrder rows.now order.now }
    requires fits { Fits tree.old rows.now }
    requires start { (k : ℕ) → IsStart tree.old rows.now k }
    ensures fits { Fits tree.new rows.now }
    ensures pass { PassOrNone rows.now result }
{
    let mut above = H;
    for m in order {
        let level = rows[*m as usize].lct;
        lower(tree, rows, above, level);
        let ect = cut_ect(tree, rows, level);
        let found = try_level(tree, rows, level, ect);
        if found.is_some() {
            return found;
        }
        above = level;
    }
    None
}
