//! The passes over a tree, the scans, and the sets that show a finding.
ghost use Rattle.std.specs.Prelude.{ℕ, ◌≤◌, length, ◌≢◌, ◌≡◌, true, IfOk, ◌<◌, ℤ};
ghost use Rattle.sched_base.specs.declared.ids.TheConstants.{H};
ghost use Rattle.task_sets.specs.Times.{IsSized, overload_row};
ghost use Rattle.thetatree.specs.code.Leaves.{colour_at};
ghost use Rattle.thetatree.specs.declared.leaves.Colour.TheVariants as colour;
ghost use Rattle.theta_passes.specs.code.Rows.{times_at, Fits, IsBounded, row_at, is_candidate, is_present, IsNearRow, IsByEst};
ghost use Rattle.theta_passes.specs.code.Over.{IsFull, IsFalling, OverPass, Overfull, NoOverloads};
ghost use Rattle.theta_passes.specs.code.Late.{IsRising, IsLow, LatePass, IsLateRow};
ghost use Rattle.theta_passes.specs.code.Edge.{IsStart, NoOverload, PassOrNone, IsOrder, IsFound};
ghost use Rattle.theta_passes.specs.code.Witnesses.{members_of, IsLateSet, IsEdgeSets};
ghost use Rattle.theta_passes.specs.code.Quiet.{QuietEdges, FoundEdge, QuietDetects, FoundDetect};

use sched_base::{H, NoMemory};
use std::alloc::Global;
use theta_passes::Row;
use theta_passes::witnesses::EdgeSets;
use thetatree::ThetaTree;

pub fn over_pass(tree: &mut ThetaTree, rows: &[Row], order: &[u32]) -> Option<Option<u32>>
    requires few { length rows.now ≤ 500 }
    requires sized { IsSized (times_at rows.now) }
    requires bounded { IsBounded rows.now }
    requires order { IsFalling rows.now order.now }
    requires fits { Fits tree.old rows.now }
    requires start { (k : ℕ) → IsFull tree.old rows.now H k }
    ensures fits { Fits tree.new rows.now }
    ensures pass { OverPass rows.now result }
{
    theta_passes::over::over_pass(tree, rows, order)
}

pub fn late_pass(tree: &mut ThetaTree, rows: &[Row], order: &[u32]) -> Option<u32>
    requires few { length rows.now ≤ 500 }
    requires sized { IsSized (times_at rows.now) }
    requires low { IsLow rows.now }
    requires order { IsRising rows.now order.now }
    requires fits { Fits tree.old rows.now }
    requires start { (k : ℕ) → colour_at tree.old k ≢ colour.White }
    ensures fits { Fits tree.new rows.now }
    ensures pass { LatePass rows.now result }
{
    theta_passes::late::late_pass(tree, rows, order)
}

pub fn edge_pass(tree: &mut ThetaTree, rows: &[Row], order: &[u32]) -> Option<u32>
    requires few { length rows.now ≤ 500 }
    requires sized { IsSized (times_at rows.now) }
    requires bounded { IsBounded rows.now }
    requires none { NoOverload rows.now }
    requires order { IsOrder rows.now order.now }
    requires fits { Fits tree.old rows.now }
    requires start { (k : ℕ) → IsStart tree.old rows.now k }
    ensures fits { Fits tree.new rows.now }
    ensures pass { PassOrNone rows.now result }
{
    theta_passes::edge::edge_pass(tree, rows, order)
}

pub fn over_scan(rows: &[Row]) -> Option<Option<u32>>
    requires few { length rows.now ≤ 500 }
    requires near { (k : ℕ) → IsNearRow (row_at rows.now k) }
    requires sorted { IsByEst rows.now }
    requires sure { (k : ℕ) → is_candidate rows.now k ≡ is_present rows.now k }
    ensures { OverPass rows.now result }
{
    theta_passes::witnesses::over_scan(rows)
}

pub fn late_scan(rows: &[Row]) -> Option<u32>
    requires few { length rows.now ≤ 500 }
    requires near { (k : ℕ) → IsNearRow (row_at rows.now k) }
    requires sorted { IsByEst rows.now }
    ensures { LatePass rows.now result }
{
    theta_passes::scan::late_scan(rows)
}

pub fn edge_scan(rows: &[Row]) -> Option<u32>
    requires few { length rows.now ≤ 500 }
    requires near { (k : ℕ) → IsNearRow (row_at rows.now k) }
    requires sorted { IsByEst rows.now }
    ensures { PassOrNone rows.now result }
{
    theta_passes::scan::edge_scan(rows)
}

pub fn overload_set(alloc: Global, rows: &[Row], with: Option<u32>) -> Result<Vec<u32>, NoMemory>
    requires few { length rows.now ≤ 500 }
    requires near { (k : ℕ) → IsNearRow (row_at rows.now k) }
    requires sorted { IsByEst rows.now }
    requires found { Overfull rows.now with }
    ensures { IfOk result (λ v. overload_row (times_at rows.now) (members_of rows.now with) v.items ≡ true) }
{
    theta_passes::witnesses::overload_set(alloc, rows, with)
}

pub fn late_set(alloc: Global, rows: &[Row], i: u32) -> Result<Vec<u32>, NoMemory>
    requires few { length rows.now ≤ 500 }
    requires near { (k : ℕ) → IsNearRow (row_at rows.now k) }
    requires sorted { IsByEst rows.now }
    requires within { i < length rows.now }
    requires found { (z : ℤ) × IsLateRow rows.now i z }
    ensures { IfOk result (λ v. IsLateSet rows.now i v.items) }
{
    theta_passes::witnesses::late_set(alloc, rows, i)
}

pub fn edge_sets(alloc: Global, rows: &[Row], order: &[u32], i: u32) -> Result<EdgeSets, NoMemory>
    requires few { length rows.now ≤ 500 }
    requires near { (k : ℕ) → IsNearRow (row_at rows.now k) }
    requires sorted { IsByEst rows.now }
    requires none { NoOverloads rows.now }
    requires order { IsOrder rows.now order.now }
    requires within { i < length rows.now }
    requires found { IsFound rows.now i }
    ensures { IfOk result (λ r. IsEdgeSets rows.now i r.set.items r.filling.items r.pushing.items) }
{
    theta_passes::witnesses::edge_sets(alloc, rows, order, i)
}

pub fn passes_decide() -> bool
    ensures quiet_edge { QuietEdges }
    ensures found_edge { FoundEdge }
    ensures quiet_detect { QuietDetects }
    ensures found_detect { FoundDetect }
{
    theta_passes::laws::passes_decide()
}
