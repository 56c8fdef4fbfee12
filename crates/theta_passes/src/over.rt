ghost use Rattle.std.specs.Prelude.{◌≡◌, ℕ, ℤ, ◌<◌, ◌+◌, ◌≤◌, ◌≤ℤ◌, length};
ghost use Rattle.sched_base.specs.declared.ids.TheConstants.{H};
ghost use Rattle.task_sets.specs.Times.{IsSized};
ghost use Rattle.theta_passes.specs.code.Rows.{times_at, Fits, IsBounded};
ghost use Rattle.theta_passes.specs.code.Over.{IsFull, IsFullFalling, IsFalling, OverAt, OverPass, over_level};

use crate::Row;
use crate::edge::falls_between;
use crate::leaves::paint;
use sched_base::H;
use thetatree::{Colour, ThetaTree};

#[tactic(auto, using(crate::proofs::trees::Dropping::full_painted, crate::proofs::trees::Dropping::full_left))]
fn drop_at(tree: &mut ThetaTree, rows: &[Row], k: u32, above: i64, level: i64)
    requires fits { Fits tree.old rows.now }
    requires within { k < length rows.now }
    requires falling { IsFullFalling tree.old rows.now above level k }
    requires falls { level ≤ℤ above }
    ensures fits { Fits tree.new rows.now }
    ensures falling { IsFullFalling tree.new rows.now above level (k + 1) }
{
    if falls_between(rows[k as usize], above, level) {
        paint(tree, rows, k, Colour::Out);
    }
}

/// Paints out those who may end after a moment.
#[tactic(auto, using(crate::proofs::trees::Dropping::full_start, crate::proofs::trees::Dropping::full_end))]
fn drop_late(tree: &mut ThetaTree, rows: &[Row], above: i64, level: i64)
    requires few { length rows.now ≤ 500 }
    requires fits { Fits tree.old rows.now }
    requires at { (k : ℕ) → IsFull tree.old rows.now above k }
    requires falls { level ≤ℤ above }
    ensures fits { Fits tree.new rows.now }
    ensures at { (k : ℕ) → IsFull tree.new rows.now level k }
{
    for k in 0..rows.len() {
        drop_at(tree, rows, k as u32, above, level);
    }
}

fn over_level(level: i64, best: Option<(i64, Option<u32>)>) -> Option<Option<u32>>
    ensures { result ≡ over_level level best }
{
    let (value, gray) = best?;
    if level < value {
        return Some(gray);
    }
    None
}

fn over_at(tree: &ThetaTree, rows: &[Row], level: i64) -> Option<Option<u32>>
    requires sized { IsSized (times_at rows.now) }
    requires fits { Fits tree.now rows.now }
    requires at { (k : ℕ) → IsFull tree.now rows.now level k }
    ensures { OverAt rows.now level result }
{
    over_level(level, tree.ect_gray())
}

/// An overload of the present members, or of these and one optional member.
pub fn over_pass(tree: &mut ThetaTree, rows: &[Row], order: &[u32]) -> Option<Option<u32>>
    requires few { length rows.now ≤ 500 }
    requires sized { IsSized (times_at rows.now) }
    requires bounded { IsBounded rows.now }
    requires order { IsFalling rows.now order.now }
    requires fits { Fits tree.old rows.now }
    requires start { (k : ℕ) → IsFull tree.old rows.now H k }
    ensures fits { Fits tree.new rows.now }
    ensures pass { OverPass rows.now result }
{
    let mut above = H;
    for m in order {
        let level = rows[*m as usize].lct;
        drop_late(tree, rows, above, level);
        let found = over_at(tree, rows, level);
        if found.is_some() {
            return found;
        }
        above = level;
    }
    None
}
