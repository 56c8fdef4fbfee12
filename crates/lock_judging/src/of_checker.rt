//! The judgement of a log's bytes.
ghost use Rattle.std.specs.Prelude.{◌≡◌, true, IfOk};
ghost use Rattle.sched_base.specs.State.{is_opened};
ghost use Rattle.kernel.specs.Promises.{Means};
ghost use Rattle.checker.specs.Checking.{Checks};
ghost use Rattle.checker.specs.Laws.{OneVerdict, OneLine, NotBoth, NeverTooLong, WholeLogIsAccepted, AcceptedMeans};

use checker::{CheckFault, Checked};
use sched_base::{Desk, Inlet};
use sched_model::Model;
use std::alloc::Global;

pub fn check<D: Desk>(alloc: Global, model: &Model, desk: &mut D) -> Result<Checked, CheckFault>
    requires opened { is_opened Inlet.Log (D.state desk.old) ≡ true }
    ensures checks { Checks model.now result (D.state desk.old) (D.state desk.new) }
    ensures means { IfOk result (λ c. Means model.now c.verdict) }
{
    checker::check(alloc, model, desk)
}

pub fn judgement_is_determined()
    ensures one_verdict { OneVerdict }
    ensures one_line { OneLine }
    ensures not_both { NotBoth }
    ensures never_too_long { NeverTooLong }
    ensures whole { WholeLogIsAccepted }
    ensures means { AcceptedMeans }
{
    checker::judgement_is_determined();
}
