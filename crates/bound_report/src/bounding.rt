ghost use Rattle.std.specs.Prelude.{◌≡◌, true, IfOk};
ghost use Rattle.sched_base.specs.State.{is_opened};
ghost use Rattle.kernel.specs.Promises.{Ready};
ghost use Rattle.checker.specs.Checking.{ChecksBy};
ghost use Rattle.bound_report.specs.Bound.{IsBound};
ghost use Rattle.bound_report.specs.Bounds.{ShowsBound, BoundMeans};

use crate::best::best_over;
use checker::CheckFault;
use kernel::Kernel;
use logtext::LogExtra;
use region::Refuter;
use replay::{Unwatched, replay};
use sched_base::{Desk, Inlet};
use sched_model::Model;
use std::alloc::Global;

/// What a log has shown of the best value: no solution is better than one of the value `bound` would
/// be, `best` is the value of the solution found last, and so many nodes were opened. `bound` is none
/// without an objective, and where there is no solution; `best` is none where nothing was found, and
/// without an objective.
#[derive(Clone, Copy, Debug, PartialEq, Eq)]
pub struct Bounded {
    pub bound: Option<i64>,
    pub best: Option<i64>,
    pub nodes: u64,
}

/// The bound of a log's state.
fn bound_of<X: Refuter>(model: &Model, kernel: Kernel<X>) -> Option<i64>
    requires { Ready model.now kernel }
    ensures { IsBound model.now kernel result }
{
    let Some(objective) = model.objective() else {
        return None;
    };
    let best = kernel.best();
    best_over(model, objective, best, kernel.into_open())
}

/// Reads the log that is opened as a check does, and tells what it shows of the best value: the
/// best of the value found and of what the objective may still reach in the regions that are open.
pub fn bound<D: Desk>(alloc: Global, model: &Model, desk: &mut D) -> Result<Bounded, CheckFault>
    requires opened { is_opened Inlet.Log (D.state desk.old) ≡ true }
    ensures bounds { ChecksBy ShowsBound model.now result (D.state desk.old) (D.state desk.new) }
    ensures means { IfOk result (λ b. BoundMeans model.now b) }
{
    let kernel = replay::<LogExtra, Unwatched, D>(alloc, model, desk, &mut Unwatched)?;
    let best = kernel.best();
    let nodes = kernel.nodes();
    Ok(Bounded {
        bound: bound_of(model, kernel),
        best,
        nodes,
    })
}
