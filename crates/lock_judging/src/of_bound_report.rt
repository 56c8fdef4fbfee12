//! What a log shows of the best value.
ghost use Rattle.std.specs.Prelude.{◌≡◌, ℤ, true, Option, Some, None, IfOk};
ghost use Rattle.sched_base.specs.State.{is_opened};
ghost use Rattle.sched_model.specs.Data.{Data};
ghost use Rattle.sched_model.specs.declared.types.Verdict.TheVariants.{Optimal, Infeasible};
ghost use Rattle.kernel.specs.Steps.{LogState, verdict_of};
ghost use Rattle.kernel.specs.Promises.{Ready};
ghost use Rattle.checker.specs.Checking.{ChecksBy};
ghost use Rattle.bound_report.specs.Bound.{IsBound};
ghost use Rattle.bound_report.specs.Bounds.{ShowsBound, BoundMeans};

use bound_report::{BoundFault, Bounded};
use sched_base::{Desk, Inlet};
use sched_model::Model;
use std::alloc::Global;

pub fn bound<D: Desk>(alloc: Global, model: &Model, desk: &mut D) -> Result<Bounded, BoundFault>
    requires opened { is_opened Inlet.Log (D.state desk.old) ≡ true }
    ensures bounds { ChecksBy ShowsBound model.now result (D.state desk.old) (D.state desk.new) }
    ensures means { IfOk result (λ b. BoundMeans model.now b) }
{
    bound_report::bound(alloc, model, desk)
}

pub fn bound_by_verdict()
    ensures one { (m : Data) (s : LogState) (b c : Option ℤ) → IsBound m s b → IsBound m s c → b ≡ c }
    ensures optimal { (m : Data) (s : LogState) (v : ℤ) → Ready m s → verdict_of s ≡ Optimal v → IsBound m s (Some v) }
    ensures infeasible { (m : Data) (s : LogState) → Ready m s → verdict_of s ≡ Infeasible → IsBound m s None }
    ensures plain { (m : Data) (s : LogState) → m.objective ≡ None → IsBound m s None }
{
    bound_report::bound_by_verdict();
}
