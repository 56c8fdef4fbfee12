ghost use Rattle.std.specs.Prelude.{◌≡◌, ◌≢◌, ℕ, ℤ, ◌<◌, ◌+◌, ◌≤◌, ◌≤ℤ◌, length};
ghost use Rattle.task_sets.specs.Times.{IsSized};
ghost use Rattle.thetatree.specs.code.Leaves.{colour_at};
ghost use Rattle.theta_passes.specs.code.Rows.{row_at, times_at, Fits};
ghost use Rattle.theta_passes.specs.code.Late.{IsFilled, IsFilling, IsRising, IsLow, LatePass, LateAt, GivesLate, starts_before, is_above};
ghost use Rattle.thetatree.specs.declared.leaves.Colour.TheVariants as colour;

use crate::leaves::paint;
use crate::{Presence, Row};
use thetatree::{Colour, ThetaTree};

fn starts_before(row: Row, key: i64) -> bool
    ensures { result ≡ starts_before row key }
{
    if row.presence != Presence::Present {
        return false;
    }
    row.lst < key
}

fn is_above(bar: i64, ect: Option<i64>) -> bool
    ensures { result ≡ is_above bar ect }
{
    match ect {
        None => false,
        Some(value) => bar < value,
    }
}

/// Who must start before the earlier moment is white already, and isn't painted again.
#[tactic(auto, using(crate::proofs::trees::Filling::filling_painted, crate::proofs::trees::Filling::filling_kept, crate::proofs::trees::Filling::filling_there))]
fn fill_at(tree: &mut ThetaTree, rows: &[Row], k: u32, from: i64, key: i64)
    requires fits { Fits tree.old rows.now }
    requires within { k < length rows.now }
    requires filling { IsFilling tree.old rows.now from key k }
    requires rises { from ≤ℤ key }
    ensures fits { Fits tree.new rows.now }
    ensures filling { IsFilling tree.new rows.now from key (k + 1) }
{
    if starts_before(rows[k as usize], from) {
        return;
    }
    if starts_before(rows[k as usize], key) {
        paint(tree, rows, k, Colour::White);
    }
}

/// Paints white the members that must start before a moment.
#[tactic(auto, using(crate::proofs::trees::Filling::filling_start, crate::proofs::trees::Filling::filling_end))]
fn fill(tree: &mut ThetaTree, rows: &[Row], from: i64, key: i64)
    requires few { length rows.now ≤ 500 }
    requires fits { Fits tree.old rows.now }
    requires at { (k : ℕ) → IsFilled tree.old rows.now from k }
    requires rises { from ≤ℤ key }
    ensures fits { Fits tree.new rows.now }
    ensures at { (k : ℕ) → IsFilled tree.new rows.now key k }
{
    for k in 0..rows.len() {
        fill_at(tree, rows, k as u32, from, key);
    }
}

/// The earliest completion of the others that must start before a member can end.
fn ect_without(tree: &mut ThetaTree, rows: &[Row], i: u32) -> Option<i64>
    requires sized { IsSized (times_at rows.now) }
    requires within { i < length rows.now }
    requires fits { Fits tree.old rows.now }
    requires at { (k : ℕ) → IsFilled tree.old rows.now (row_at rows.now i).reach k }
    ensures fits { Fits tree.new rows.now }
    ensures at { (k : ℕ) → IsFilled tree.new rows.now (row_at rows.now i).reach k }
    ensures value { GivesLate rows.now i result }
{
    let row = rows[i as usize];
    paint(tree, rows, i, Colour::Out);
    let ect = tree.ect();
    if starts_before(row, row.reach) {
        paint(tree, rows, i, Colour::White);
    }
    ect
}

/// Whether the others that must start before a member can end complete after its latest start.
fn is_late(tree: &mut ThetaTree, rows: &[Row], from: i64, i: u32) -> bool
    requires few { length rows.now ≤ 500 }
    requires sized { IsSized (times_at rows.now) }
    requires within { i < length rows.now }
    requires fits { Fits tree.old rows.now }
    requires at { (k : ℕ) → IsFilled tree.old rows.now from k }
    requires rises { from ≤ℤ (row_at rows.now i).reach }
    ensures fits { Fits tree.new rows.now }
    ensures at { (k : ℕ) → IsFilled tree.new rows.now (row_at rows.now i).reach k }
    ensures late { LateAt rows.now i result }
{
    fill(tree, rows, from, rows[i as usize].reach);
    let ect = ect_without(tree, rows, i);
    is_above(rows[i as usize].bar, ect)
}

/// A moment before all that rows name.
const LOWEST: i64 = -4_000_000_000;

/// A member that the others before it find. Members are taken with their earliest completions rising.
pub fn late_pass(tree: &mut ThetaTree, rows: &[Row], order: &[u32]) -> Option<u32>
    requires few { length rows.now ≤ 500 }
    requires sized { IsSized (times_at rows.now) }
    requires low { IsLow rows.now }
    requires order { IsRising rows.now order.now }
    requires fits { Fits tree.old rows.now }
    requires start { (k : ℕ) → colour_at tree.old k ≢ colour.White }
    ensures fits { Fits tree.new rows.now }
    ensures pass { LatePass rows.now result }
{
    let mut key = LOWEST;
    for i in order {
        if is_late(tree, rows, key, *i) {
            return Some(*i);
        }
        key = rows[*i as usize].reach;
    }
    None
}
