ghost use Rattle.std.specs.Prelude.{◌≡◌, ◌≢◌, ℕ, ◌<◌, ◌≤◌, length, map, slice_set, IfOk};
ghost use Rattle.sched_base.specs.declared.ids.TheConstants.{H};
ghost use Rattle.thetatree.specs.code.Leaves.{colour_at};
ghost use Rattle.theta_passes.specs.code.Rows.{row_at, task_of, colour_by, IsNearRow, IsByEst, IsBounded, Fits};
ghost use Rattle.theta_passes.specs.code.Edge.{IsStart};
ghost use Rattle.theta_passes.specs.code.Over.{IsFull};
ghost use Rattle.thetatree.specs.declared.leaves.Colour.TheVariants as colour;

use crate::{Presence, Row};
use sched_base::NoMemory;
use std::alloc::Global;
use thetatree::{Colour, Task, ThetaTree};

fn tasks_of(alloc: Global, rows: &[Row]) -> Result<Vec<Task>, NoMemory>
    ensures { IfOk result (λ v. v.items ≡ map task_of rows.now) }
{
    let mut tasks = Vec::new(alloc);
    for row in rows {
        tasks.push(Task {
            est: row.est,
            p: row.p,
        })?;
    }
    Ok(tasks)
}

/// The tree over members in the order of their earliest starts. It serves for any number of passes:
/// `start_over`, `start_edge` and `start_late` paint it for the next one, whatever its colours are.
#[tactic(auto, using(crate::proofs::trees::Painting::are_tasks, crate::proofs::trees::Painting::tree_fits))]
pub fn tree_of(alloc: Global, rows: &[Row]) -> Result<ThetaTree, NoMemory>
    requires few { length rows.now ≤ 500 }
    requires near { (k : ℕ) → IsNearRow (row_at rows.now k) }
    requires sorted { IsByEst rows.now }
    ensures { IfOk result (λ t. Fits t rows.now) }
{
    let tasks = tasks_of(alloc, rows)?;
    ThetaTree::new(alloc, &tasks)
}

/// Gives one member's leaf a colour.
pub fn paint(tree: &mut ThetaTree, rows: &[Row], k: u32, colour: Colour)
    requires fits { Fits tree.old rows.now }
    requires within { k < length rows.now }
    ensures fits { Fits tree.new rows.now }
    ensures colours { tree.new.colours ≡ slice_set tree.old.colours k colour }
    ensures painted { colour_at tree.new k ≡ colour }
    ensures others { (j : ℕ) → j ≢ k → colour_at tree.new j ≡ colour_at tree.old j }
{
    tree.paint(k, colour);
}

fn colour_by(presence: Presence, present: Colour, maybe: Colour) -> Colour
    ensures { result ≡ colour_by present maybe presence }
{
    match presence {
        Presence::Present => present,
        Presence::Maybe => maybe,
        Presence::Absent => Colour::Out,
    }
}

/// Paints each leaf by the presence of its member.
#[tactic(auto, using(crate::proofs::trees::Painting::all_painted))]
fn paint_all(tree: &mut ThetaTree, rows: &[Row], present: Colour, maybe: Colour)
    requires few { length rows.now ≤ 500 }
    requires fits { Fits tree.old rows.now }
    ensures fits { Fits tree.new rows.now }
    ensures painted { (k : ℕ) → colour_at tree.new k ≡ colour_by present maybe (row_at rows.now k).presence }
{
    for k in 0..rows.len() {
        let colour = colour_by(rows[k].presence, present, maybe);
        paint(tree, rows, k as u32, colour);
    }
}

/// The colours that `over_pass` starts from: present members white, optional ones gray.
#[tactic(auto, using(crate::proofs::trees::Painting::over_started))]
pub fn start_over(tree: &mut ThetaTree, rows: &[Row])
    requires few { length rows.now ≤ 500 }
    requires bounded { IsBounded rows.now }
    requires fits { Fits tree.old rows.now }
    ensures fits { Fits tree.new rows.now }
    ensures start { (k : ℕ) → IsFull tree.new rows.now H k }
{
    paint_all(tree, rows, Colour::White, Colour::Gray);
}

/// The colours that `edge_pass` starts from: present members white, the others out.
#[tactic(auto, using(crate::proofs::trees::Painting::edge_started))]
pub fn start_edge(tree: &mut ThetaTree, rows: &[Row])
    requires few { length rows.now ≤ 500 }
    requires fits { Fits tree.old rows.now }
    ensures fits { Fits tree.new rows.now }
    ensures start { (k : ℕ) → IsStart tree.new rows.now k }
{
    paint_all(tree, rows, Colour::White, Colour::Out);
}

/// The colours that `late_pass` starts from: all out.
#[tactic(auto, using(crate::proofs::trees::Painting::late_started))]
pub fn start_late(tree: &mut ThetaTree, rows: &[Row])
    requires few { length rows.now ≤ 500 }
    requires fits { Fits tree.old rows.now }
    ensures fits { Fits tree.new rows.now }
    ensures start { (k : ℕ) → colour_at tree.new k ≢ colour.White }
{
    paint_all(tree, rows, Colour::Out, Colour::Out);
}
