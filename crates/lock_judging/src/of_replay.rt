//! The lines of a log, read and stepped one after another.
ghost use Rattle.std.specs.Prelude.{◌≡◌, true, IfOk, OnOk};
ghost use Rattle.sched_base.specs.State.{is_opened};
ghost use Rattle.kernel.specs.Promises.{Ready};
ghost use Rattle.replay.specs.Replaying.{Replays, ReplaysFront};
ghost use Rattle.replay.specs.Laws.{OneVerdict, OneLine, NotBoth, NeverTooLong, WholeLogIsAccepted, AcceptedMeans};

use kernel::{Kernel, Line};
use region::Refuter;
use replay::{ReplayFault, Watcher};
use sched_base::{Desk, Inlet, NoMemory};
use sched_model::Model;
use std::alloc::Global;

pub fn note<X: Refuter, V: Watcher<X>>(
    watcher: &mut V,
    line: &Line<X::Witness>,
) -> Result<(), NoMemory>
    ensures { OnOk result (watcher.new ≡ V.noted watcher.old line.now) }
{
    watcher.note(line)
}

pub fn replay<X: Refuter, V: Watcher<X>, D: Desk>(
    alloc: Global,
    model: &Model,
    desk: &mut D,
    watcher: &mut V,
) -> Result<Kernel<X>, ReplayFault>
    requires opened { is_opened Inlet.Log (D.state desk.old) ≡ true }
    ensures replays { Replays X.refuting X.Witness.numbers X.Witness.is_valid V.noted model.now result watcher.old watcher.new (D.state desk.old) (D.state desk.new) }
    ensures ready { IfOk result (λ k. Ready model.now k) }
{
    replay::replay::<X, V, D>(alloc, model, desk, watcher)
}

pub fn replay_front<X: Refuter, V: Watcher<X>, D: Desk>(
    alloc: Global,
    model: &Model,
    desk: &mut D,
    watcher: &mut V,
) -> Result<Kernel<X>, ReplayFault>
    requires opened { is_opened Inlet.Log (D.state desk.old) ≡ true }
    ensures replays { ReplaysFront X.refuting X.Witness.numbers X.Witness.is_valid V.noted model.now result watcher.old watcher.new (D.state desk.old) (D.state desk.new) }
    ensures ready { IfOk result (λ k. Ready model.now k) }
{
    replay::replay_front::<X, V, D>(alloc, model, desk, watcher)
}

pub fn judgement_is_determined<X: Refuter>()
    ensures one_verdict { OneVerdict X.refuting X.Witness.numbers X.Witness.is_valid }
    ensures one_line { OneLine X.refuting X.Witness.numbers X.Witness.is_valid }
    ensures not_both { NotBoth X.refuting X.Witness.numbers X.Witness.is_valid }
    ensures never_too_long { NeverTooLong X.refuting X.Witness.numbers X.Witness.is_valid }
    ensures whole { WholeLogIsAccepted X.refuting X.Witness.numbers X.Witness.is_valid }
    ensures means { AcceptedMeans X.refuting X.Witness.numbers X.Witness.is_valid }
{
    replay::judgement_is_determined::<X>();
}
