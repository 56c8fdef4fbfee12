use engine::EngineFault;
use sched_base::{Failed, NoMemory};
use thiserror::Error;

/// Why a search came to no answer.
#[derive(Clone, Copy, Debug, PartialEq, Eq, Error)]
pub enum SolveFault {
    #[error("fault")]
    Fault,
    #[error("out of memory")]
    NoMemory,
}

impl From<Failed> for SolveFault {
    ghost use Rattle.std.specs.Prelude.{◌≡◌};
    ghost use Rattle.solver.specs.declared.fault.SolveFault.TheVariants as fault;

    ghost from_gives = { λ _ f. f ≡ fault.Fault };

    fn from(_: Failed) -> SolveFault {
        SolveFault::Fault
    }
}

impl From<NoMemory> for SolveFault {
    ghost use Rattle.std.specs.Prelude.{◌≡◌};
    ghost use Rattle.solver.specs.declared.fault.SolveFault.TheVariants as fault;

    ghost from_gives = { λ _ f. f ≡ fault.NoMemory };

    fn from(_: NoMemory) -> SolveFault {
        SolveFault::NoMemory
    }
}

impl From<EngineFault> for SolveFault {
    ghost use Rattle.std.specs.Prelude.{◌≡◌};
    ghost use Rattle.solver.specs.code.Faults.{passed_on};

    ghost from_gives = { λ e f. f ≡ passed_on e };

    fn from(fault: EngineFault) -> SolveFault {
        match fault {
            EngineFault::Lines => SolveFault::Fault,
            EngineFault::NoMemory => SolveFault::NoMemory,
        }
    }
}
