ghost use Rattle.std.specs.Prelude.{◌≡◌, true, IfOk};
ghost use Rattle.sched_base.specs.State.{is_opened};
ghost use Rattle.kernel.specs.Promises.{Means};
ghost use Rattle.checker.specs.Checking.{Checks};

use kernel::Verdict;
use logtext::LogExtra;
use replay::{ReplayFault, Unwatched, replay};
use sched_base::{Desk, Inlet, NoMemory};
use sched_model::Model;
use std::alloc::Global;
use thiserror::Error;

/// What an accepted log has shown, and how many nodes it opened.
#[derive(Clone, Copy, Debug, PartialEq, Eq)]
pub struct Checked {
    pub verdict: Verdict,
    pub nodes: u64,
}

/// Why a log isn't accepted.
#[derive(Clone, Copy, Debug, PartialEq, Eq, Error)]
pub enum CheckFault {
    /// This line, counted from 1, is the first that is wrong or missing.
    #[error("line {line} of the log is wrong")]
    Refused { line: u64 },
    /// The log has no wrong line and no end within the limit.
    #[error("the log is too long")]
    TooLong,
    #[error("fault")]
    Fault,
    #[error("out of memory")]
    NoMemory,
}

impl From<ReplayFault> for CheckFault {
    ghost use Rattle.std.specs.Prelude.{◌≡◌};
    ghost use Rattle.checker.specs.code.Faults.{fault_of};

    ghost from_gives = { λ e f. f ≡ fault_of e };

    fn from(e: ReplayFault) -> CheckFault {
        match e {
            ReplayFault::Refused { line, at: _ } => CheckFault::Refused { line },
            ReplayFault::TooLong => CheckFault::TooLong,
            ReplayFault::Fault => CheckFault::Fault,
            ReplayFault::NoMemory => CheckFault::NoMemory,
        }
    }
}

impl From<NoMemory> for CheckFault {
    ghost use Rattle.std.specs.Prelude.{◌≡◌};
    ghost use Rattle.checker.specs.declared.judging.CheckFault.TheVariants as fault;

    ghost from_gives = { λ _ e. e ≡ fault.NoMemory };

    fn from(_: NoMemory) -> CheckFault {
        CheckFault::NoMemory
    }
}

/// Judges the bytes of the log that is opened, from the place that its slot has reached. It reads
/// them in pieces, each only where what it read holds no further whole line, so it answers as soon
/// as the answer is known, and a log takes no more memory than a line and a piece.
pub fn check<D: Desk>(alloc: Global, model: &Model, desk: &mut D) -> Result<Checked, CheckFault>
    requires opened { is_opened Inlet.Log (D.state desk.old) ≡ true }
    ensures checks { Checks model.now result (D.state desk.old) (D.state desk.new) }
    ensures means { IfOk result (λ c. Means model.now c.verdict) }
{
    let kernel = replay::<LogExtra, Unwatched, D>(alloc, model, desk, &mut Unwatched)?;
    Ok(Checked {
        verdict: kernel.verdict(),
        nodes: kernel.nodes(),
    })
}
