use sched_base::{NoMemory, ReadError};
use thiserror::Error;

/// Why a log isn't replayed to its end.
#[derive(Clone, Copy, Debug, PartialEq, Eq, Error)]
pub enum ReplayFault {
    /// The line of this number, counted from 1, is the first that is wrong or missing. It begins at
    /// this byte, counted from 0 at the place from which the log was read.
    #[error("line {line} of the log, at byte {at}, is wrong")]
    Refused { line: u64, at: u128 },
    /// The log has no wrong line and no end within the limit.
    #[error("the log is too long")]
    TooLong,
    #[error("fault")]
    Fault,
    #[error("out of memory")]
    NoMemory,
}

impl From<NoMemory> for ReplayFault {
    ghost use Rattle.std.specs.Prelude.{◌≡◌};
    ghost use Rattle.replay.specs.declared.fault.ReplayFault.TheVariants as fault;

    ghost from_gives = { λ _ e. e ≡ fault.NoMemory };

    fn from(_: NoMemory) -> ReplayFault {
        ReplayFault::NoMemory
    }
}

impl From<ReadError> for ReplayFault {
    ghost use Rattle.std.specs.Prelude.{◌≡◌};
    ghost use Rattle.replay.specs.code.Turns.{fault_of_read};

    ghost from_gives = { λ e f. f ≡ fault_of_read e };

    fn from(e: ReadError) -> ReplayFault {
        match e {
            ReadError::Failed => ReplayFault::Fault,
            ReadError::NoMemory => ReplayFault::NoMemory,
        }
    }
}
