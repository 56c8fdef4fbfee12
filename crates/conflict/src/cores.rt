ghost use Rattle.std.specs.Prelude.{◌≡◌, ◌↔◌, true, IsTrue, IfOk, IfSome};
ghost use Rattle.sched_base.specs.State.{is_opened};
ghost use Rattle.sched_model.specs.declared.types.Verdict.TheVariants.{Infeasible};
ghost use Rattle.checker.specs.Checking.{ChecksBy};
ghost use Rattle.conflict.specs.Core.{ShowsCore, CantAllHold};
ghost use Rattle.model_copy.specs.code.Reduced.{Rises};

use crate::used::Used;
use checker::CheckFault;
use kernel::{Verdict, uses_enough};
use logtext::LogExtra;
use replay::replay;
use sched_base::{Con, Desk, Inlet, List};
use sched_model::Model;
use std::alloc::Global;

/// Whether there is no solution.
fn shows_none(verdict: Verdict) -> bool
    ensures { IsTrue result ↔ (verdict ≡ Infeasible) }
{
    verdict == Verdict::Infeasible
}

/// Reads the log that is opened as a check does. Where it shows that the model has no solution, it
/// tells the constraints that the witnesses of its lines name, each once, in rising order: no
/// assignment of the domain makes all of them hold, so the model that `reduce` makes of them has no
/// solution. None exactly where the log is accepted with another verdict.
pub fn core<D: Desk>(
    alloc: Global,
    model: &Model,
    desk: &mut D,
) -> Result<Option<List<Con>>, CheckFault>
    requires opened { is_opened Inlet.Log (D.state desk.old) ≡ true }
    ensures cores { ChecksBy ShowsCore model.now result (D.state desk.old) (D.state desk.new) }
    ensures rises { IfOk result (λ o. IfSome o Rises) }
    ensures means { IfOk result (λ o. IfSome o (CantAllHold model.now)) }
{
    uses_enough::<LogExtra>();
    let mut used = Used::none(alloc, model.constraints().len())?;
    let kernel = replay::<LogExtra, Used, D>(alloc, model, desk, &mut used)?;
    if !shows_none(kernel.verdict()) {
        return Ok(None);
    }
    Ok(Some(used.listed(alloc)?))
}
