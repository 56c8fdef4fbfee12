//! The constraints that the log of a model without a solution uses.
ghost use Rattle.std.specs.Prelude.{◌≡◌, true, IfOk, IfSome};
ghost use Rattle.sched_base.specs.State.{is_opened};
ghost use Rattle.checker.specs.Checking.{ChecksBy};
ghost use Rattle.conflict.specs.Core.{ShowsCore, CantAllHold};
ghost use Rattle.model_copy.specs.code.Reduced.{Rises};

use conflict::CoreFault;
use sched_base::{Con, Desk, Inlet, List};
use sched_model::Model;
use std::alloc::Global;

pub fn core<D: Desk>(
    alloc: Global,
    model: &Model,
    desk: &mut D,
) -> Result<Option<List<Con>>, CoreFault>
    requires opened { is_opened Inlet.Log (D.state desk.old) ≡ true }
    ensures cores { ChecksBy ShowsCore model.now result (D.state desk.old) (D.state desk.new) }
    ensures rises { IfOk result (λ o. IfSome o Rises) }
    ensures means { IfOk result (λ o. IfSome o (CantAllHold model.now)) }
{
    conflict::core(alloc, model, desk)
}
