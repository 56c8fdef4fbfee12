ghost use Rattle.std.specs.Prelude.{◌≡◌, ◌≢◌, ℕ, ◌+◌, ◌-◌, ◌*◌, ◌/◌, ◌<◌, ◌≤◌, ◌≤ℤ◌, length, slice_set, replicate, IsTrue, ◌↔◌, IfOk};
ghost use Rattle.thetatree.specs.code.Leaves.{Leaves, task_in, colour_at, IsSmallTask, AreTasks, GivesEct, GivesEctGray};
ghost use Rattle.thetatree.specs.code.Trees.{node_at, IsJoin, AreSmall};

use crate::leaves::{Colour, MAX_TASKS, Task};
use crate::node::{EMPTY, Node, join, leaf};
use sched_base::{H, NoMemory};
use std::alloc::Global;
use std::marker::Model;

/// Tasks in the order of their earliest starts, each with a colour, and the earliest completion times
/// of the sets that the colours allow. A change of a colour costs the logarithm of the number of
/// tasks, a question costs nothing more than its answer.
#[derive(Debug, Drop)]
pub struct ThetaTree {
    tasks: Vec<Task>,
    /// What the leaves were painted with last.
    colours: Vec<Colour>,
    /// The top at 1, the nodes below the node at j at 2j and 2j + 1, the leaves from `width` on.
    nodes: Vec<Node>,
    /// A power of two, and no less than the number of tasks.
    width: usize,
}

impl Model for ThetaTree {
    ghost use Rattle.thetatree.specs.code.Leaves.{Leaves};
    ghost use Rattle.thetatree.specs.code.Trees.{IsTree};

    ghost Value = { Leaves };

    ghost view = { λ t. record { tasks = t.tasks.items; colours = t.colours.items } };

    ghost invariant = { λ t.
        IsTree (record { tasks = t.tasks.items; colours = t.colours.items }) t.width t.nodes.items };
}

/// Joins anew each node above a leaf.
fn refresh(nodes: &mut [Node], leaf: usize)
    requires within { leaf < length nodes.old }
    requires even { length nodes.old ≡ 2 * (length nodes.old / 2) }
    requires few { length nodes.old ≤ 2000 }
    requires small { AreSmall nodes.old }
    requires joins { (j : ℕ) → 0 < j → j < length nodes.old / 2 → j ≢ leaf / 2
        → IsJoin nodes.old j }
    ensures leaves { (j : ℕ) → length nodes.old / 2 ≤ j
        → node_at nodes.new j ≡ node_at nodes.old j }
    ensures joins { (j : ℕ) → 0 < j → j < length nodes.old / 2 → IsJoin nodes.new j }
    ensures small { AreSmall nodes.new }
{
    let mut at = leaf / 2;
    while at > 0 {
        nodes[at] = join(nodes[2 * at], nodes[2 * at + 1]);
        at /= 2;
    }
}

fn is_small(task: Task) -> bool
    ensures { IsTrue result ↔ IsSmallTask task }
{
    -H <= task.est && task.est <= H && 0 <= task.p && task.p <= 2 * H
}

/// Whether the task at a place starts no earlier than the one before it.
fn is_in_order(tasks: &[Task], i: usize) -> bool
    requires { i < length tasks.now }
    ensures { IsTrue result
        ↔ (0 < i → (task_in tasks.now (i - 1)).est ≤ℤ (task_in tasks.now i).est) }
{
    if i == 0 {
        return true;
    }
    tasks[i - 1].est <= tasks[i].est
}

impl ThetaTree {
    /// The tree of these tasks, each `Out`; `takes` tests the condition. After it, no call takes
    /// memory.
    pub fn new(alloc: Global, tasks: &[Task]) -> Result<ThetaTree, NoMemory>
        requires { AreTasks tasks.now }
        ensures { IfOk result (λ t.
            t ≡ record { tasks = tasks.now; colours = replicate (length tasks.now) Colour.Out }) }
    {
        let width = tasks.len().next_power_of_two();
        Ok(ThetaTree {
            tasks: Vec::from_slice(alloc, tasks)?,
            colours: vec![in alloc; Colour::Out; tasks.len()]?,
            nodes: vec![in alloc; EMPTY; 2 * width]?,
            width,
        })
    }

    /// Whether these are tasks that a tree takes: at most [`MAX_TASKS`], in the order of their earliest
    /// starts, which lie from `-H` to `H`, and of sizes from 0 to `2 * H`.
    pub fn takes(tasks: &[Task]) -> bool
        ensures { IsTrue result ↔ AreTasks tasks.now }
    {
        if tasks.len() > MAX_TASKS {
            return false;
        }
        for (i, task) in tasks.iter().enumerate() {
            if !is_small(*task) {
                return false;
            }
            if !is_in_order(tasks, i) {
                return false;
            }
        }
        true
    }

    /// Gives the task at a place a colour, in time logarithmic in the number of tasks.
    pub fn paint(&mut self, k: u32, c: Colour)
        requires { k < length self.old.tasks }
        ensures painted { self.new ≡ record self.old { colours = slice_set self.old.colours k c } }
        ensures colour { colour_at self.new k ≡ c }
    {
        let place = k as usize;
        let at = self.width + place;
        self.colours[place] = c;
        self.nodes[at] = leaf(self.tasks[place], c, k);
        refresh(&mut self.nodes, at);
    }

    /// The greatest earliest completion time of a set of white tasks, or None where no task is white.
    pub fn ect(&self) -> Option<i64>
        ensures { GivesEct self.now result }
    {
        self.nodes[1].ect
    }

    /// The same over the sets of white tasks and at most one gray task, with the gray task of a set
    /// that attains it, where that set has one. None where each task is out.
    pub fn ect_gray(&self) -> Option<(i64, Option<u32>)>
        ensures { GivesEctGray self.now result }
    {
        self.nodes[1].gray_ect.map(|b| (b.value, b.leaf))
    }
}
