//! The trees of one-machine scheduling.
ghost use Rattle.std.specs.Prelude.{◌≡◌, length, replicate, IfOk, ◌<◌, slice_set};
ghost use Rattle.thetatree.specs.code.Leaves.{AreTasks, colour_at, GivesEct, GivesEctGray};

use sched_base::NoMemory;
use std::alloc::Global;
use thetatree::{Colour, Task, ThetaTree};

pub fn new_tree(alloc: Global, tasks: &[Task]) -> Result<ThetaTree, NoMemory>
    requires { AreTasks tasks.now }
    ensures { IfOk result (λ t.
        t ≡ record { tasks = tasks.now; colours = replicate (length tasks.now) Colour.Out }) }
{
    ThetaTree::new(alloc, tasks)
}

pub fn paint(tree: &mut ThetaTree, k: u32, c: Colour)
    requires { k < length tree.old.tasks }
    ensures painted { tree.new ≡ record tree.old { colours = slice_set tree.old.colours k c } }
    ensures colour { colour_at tree.new k ≡ c }
{
    tree.paint(k, c);
}

pub fn ect(tree: &ThetaTree) -> Option<i64>
    ensures { GivesEct tree.now result }
{
    tree.ect()
}

pub fn ect_gray(tree: &ThetaTree) -> Option<(i64, Option<u32>)>
    ensures { GivesEctGray tree.now result }
{
    tree.ect_gray()
}
