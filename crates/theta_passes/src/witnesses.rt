ghost use Rattle.std.specs.Prelude.{◌≡◌, ℕ, ◌<◌, ◌≤◌, ℤ, length, true, IfOk};
ghost use Rattle.task_sets.specs.Times.{overload_row};
ghost use Rattle.task_sets.specs.laws.Cuts.{IsBelow};
ghost use Rattle.theta_passes.specs.code.Rows.{row_at, is_candidate, is_present, times_at, IsNearRow, IsByEst};
ghost use Rattle.theta_passes.specs.code.Parts.{part_has, GivesTop};
ghost use Rattle.theta_passes.specs.declared.parts.Part.TheVariants.{Cut};
ghost use Rattle.theta_passes.specs.code.Over.{Overfull, NoOverloads, OverPass};
ghost use Rattle.theta_passes.specs.code.Late.{IsLateRow};
ghost use Rattle.theta_passes.specs.code.Edge.{IsFound, IsOrder};
ghost use Rattle.theta_passes.specs.code.Witnesses.{members_of, full_by, told_by, is_told, FullCut, IsLateSet, IsEdgeSets, edge_by, EdgeAt, EdgeCut};

use crate::Row;
use crate::parts::{Part, Top, set_from, top_of};
use sched_base::NoMemory;
use std::alloc::Global;

fn full_by(end: i64, top: Option<Top>) -> Option<usize>
    ensures { result ≡ full_by end top }
{
    match top {
        Some(top) if end < top.value => Some(top.place),
        _ => None,
    }
}

/// The moment of a cut, and one by which each set of the cut may be over.
#[derive(Clone, Copy, Debug)]
pub struct Ended {
    pub end: i64,
    pub value: i64,
}

fn told_by(end: i64, top: Option<Top>) -> Option<Ended>
    ensures { result ≡ told_by end top }
{
    let top = top?;
    Some(Ended {
        end,
        value: top.value,
    })
}

/// Whether a cut tells that no set overloads of the one at a moment, since it has all of its members.
fn is_told(known: Option<Ended>, end: i64) -> bool
    ensures { result ≡ is_told known end }
{
    match known {
        None => false,
        Some(cut) => end <= cut.end && cut.value <= end,
    }
}

/// Where a set of the cut at a moment begins that completes latest.
#[inline(always)]
fn cut_top(rows: &[Row], with: Option<u32>, end: i64) -> Option<Top>
    requires few { length rows.now ≤ 500 }
    requires near { (k : ℕ) → IsNearRow (row_at rows.now k) }
    ensures { GivesTop rows.now (part_has rows.now (Cut with end)) 0 result }
{
    top_of(rows, Part::Cut(with, end))
}

/// A cut of which a set overloads, and where that begins. Those that start last come first, since
/// their cuts have more members and may tell of others.
fn full_cut(rows: &[Row], with: Option<u32>) -> Option<(i64, usize)>
    requires few { length rows.now ≤ 500 }
    requires near { (k : ℕ) → IsNearRow (row_at rows.now k) }
    requires sorted { IsByEst rows.now }
    requires low { IsBelow (members_of rows.now with) (length rows.now) }
    ensures { FullCut rows.now with result }
{
    let mut known = None;
    let mut m = rows.len();
    while m > 0 {
        m -= 1;
        let end = rows[m].lct;
        if is_told(known, end) {
            continue;
        }
        let top = cut_top(rows, with, end);
        if let Some(first) = full_by(end, top) {
            return Some((end, first));
        }
        known = told_by(end, top);
    }
    None
}

/// What `over_pass` finds where nobody is optional, without a tree: of few members it is the sooner
/// one.
#[tactic(auto, using(crate::proofs::scans::CutScans::over_none, crate::proofs::scans::CutScans::over_some))]
pub fn over_scan(rows: &[Row]) -> Option<Option<u32>>
    requires few { length rows.now ≤ 500 }
    requires near { (k : ℕ) → IsNearRow (row_at rows.now k) }
    requires sorted { IsByEst rows.now }
    requires sure { (k : ℕ) → is_candidate rows.now k ≡ is_present rows.now k }
    ensures { OverPass rows.now result }
{
    match full_cut(rows, None) {
        None => None,
        Some(_) => Some(None),
    }
}

/// A set that overloads, of the present members and the one that `over_pass` answers with, as places.
pub fn overload_set(alloc: Global, rows: &[Row], with: Option<u32>) -> Result<Vec<u32>, NoMemory>
    requires few { length rows.now ≤ 500 }
    requires near { (k : ℕ) → IsNearRow (row_at rows.now k) }
    requires sorted { IsByEst rows.now }
    requires found { Overfull rows.now with }
    ensures { IfOk result (λ v. overload_row (times_at rows.now) (members_of rows.now with) v.items ≡ true) }
{
    let Some((end, first)) = full_cut(rows, with) else {
        return Ok(Vec::new(alloc));
    };
    set_from(alloc, rows, Part::Cut(with, end), first)
}

/// The set by which a member that `late_pass` answers with starts latest, as places: of those that
/// must start before the member can end, the ones that complete latest.
pub fn late_set(alloc: Global, rows: &[Row], i: u32) -> Result<Vec<u32>, NoMemory>
    requires few { length rows.now ≤ 500 }
    requires near { (k : ℕ) → IsNearRow (row_at rows.now k) }
    requires sorted { IsByEst rows.now }
    requires within { i < length rows.now }
    requires found { (z : ℤ) × IsLateRow rows.now i z }
    ensures { IfOk result (λ v. IsLateSet rows.now i v.items) }
{
    let part = Part::Before(i, rows[i as usize].reach);
    let Some(top) = top_of(rows, part) else {
        return Ok(Vec::new(alloc));
    };
    set_from(alloc, rows, part, top.place)
}

/// The sets that show a finding of `edge_pass`, as places.
#[derive(Debug, Drop)]
pub struct EdgeSets {
    /// The cut that finds the member.
    pub set: Vec<u32>,
    /// Those of the set with which the member would complete after all of the set must have.
    pub filling: Vec<u32>,
    /// Those of the set behind which the member starts latest.
    pub pushing: Vec<u32>,
}

fn edge_by(row: Row, end: i64, filling: Option<Top>, pushing: Option<Top>) -> Option<(usize, usize)>
    ensures { result ≡ edge_by row end filling pushing }
{
    let filling = filling?;
    let pushing = pushing?;
    if end < row.lct && end < filling.value && row.lst < pushing.value {
        return Some((filling.place, pushing.place));
    }
    None
}

/// Where the two sets begin by which the cut at a moment finds a member.
fn edge_at(rows: &[Row], i: u32, end: i64) -> Option<(usize, usize)>
    requires few { length rows.now ≤ 500 }
    requires near { (k : ℕ) → IsNearRow (row_at rows.now k) }
    requires sorted { IsByEst rows.now }
    requires none { NoOverloads rows.now }
    requires within { i < length rows.now }
    requires one { is_candidate rows.now i ≡ true }
    ensures { EdgeAt rows.now i end result }
{
    let filling = top_of(rows, Part::CutAnd(end, i));
    let pushing = top_of(rows, Part::Cut(None, end));
    edge_by(rows[i as usize], end, filling, pushing)
}

/// The latest moment at which a cut finds a member, and where its two sets begin.
fn edge_cut(rows: &[Row], order: &[u32], i: u32) -> Option<(i64, usize, usize)>
    requires few { length rows.now ≤ 500 }
    requires near { (k : ℕ) → IsNearRow (row_at rows.now k) }
    requires sorted { IsByEst rows.now }
    requires none { NoOverloads rows.now }
    requires order { IsOrder rows.now order.now }
    requires within { i < length rows.now }
    requires one { is_candidate rows.now i ≡ true }
    ensures { EdgeCut rows.now order.now i result }
{
    for m in order {
        let end = rows[*m as usize].lct;
        if let Some((filling, pushing)) = edge_at(rows, i, end) {
            return Some((end, filling, pushing));
        }
    }
    None
}

/// The sets by which a member that `edge_pass` answers with starts latest, of the greatest cut that
/// finds it.
pub fn edge_sets(alloc: Global, rows: &[Row], order: &[u32], i: u32) -> Result<EdgeSets, NoMemory>
    requires few { length rows.now ≤ 500 }
    requires near { (k : ℕ) → IsNearRow (row_at rows.now k) }
    requires sorted { IsByEst rows.now }
    requires none { NoOverloads rows.now }
    requires order { IsOrder rows.now order.now }
    requires within { i < length rows.now }
    requires found { IsFound rows.now i }
    ensures { IfOk result (λ r. IsEdgeSets rows.now i r.set.items r.filling.items r.pushing.items) }
{
    let Some((end, filling, pushing)) = edge_cut(rows, order, i) else {
        return Ok(EdgeSets {
            set: Vec::new(alloc),
            filling: Vec::new(alloc),
            pushing: Vec::new(alloc),
        });
    };
    let part = Part::Cut(None, end);
    let set = set_from(alloc, rows, part, 0)?;
    let filling = set_from(alloc, rows, part, filling)?;
    let pushing = set_from(alloc, rows, part, pushing)?;
    Ok(EdgeSets {
        set,
        filling,
        pushing,
    })
}
