//! The search.
ghost use Rattle.std.specs.Prelude.{◌≡◌, ◌<◌, ◌≤◌, ◌^◌, true};
ghost use Rattle.restart_rules.specs.Restarts.{limits_of};
ghost use Rattle.solver.specs.code.Solving.{Gives};

use sched_base::Desk;
use sched_model::{Model, Solved};
use solver::SolveFault;
use std::alloc::Global;

pub fn solve<D: Desk>(
    alloc: Global,
    model: &Model,
    nodes: u64,
    restarts: u32,
    desk: &mut D,
) -> Result<Solved, SolveFault>
    requires some { 0 < nodes }
    requires few { nodes ≤ 2 ^ 62 }
    requires created { (D.state desk.old).created ≡ true }
    ensures { Gives model.now (limits_of nodes restarts) result (D.state desk.old) (D.state desk.new) }
{
    solver::solve(alloc, model, nodes, restarts, desk)
}
