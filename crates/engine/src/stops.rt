use kernel::{NoWitness, Witness};
use sched_base::{Failed, NoMemory};
use thiserror::Error;

/// Why a run ended.
#[derive(Debug, Drop)]
pub enum Stop {
    /// Every propagator is quiet: nothing is left to derive.
    Quiet,
    /// The witness refutes the region.
    Failed(Witness<NoWitness>),
    /// 16 lines for each cell of the region were put, and it isn't settled.
    Capped,
}

/// Why a run came to no end.
#[derive(Clone, Copy, Debug, PartialEq, Eq, Error)]
pub enum EngineFault {
    #[error("a line could not be put")]
    Lines,
    #[error("out of memory")]
    NoMemory,
}

impl From<Failed> for EngineFault {
    ghost use Rattle.std.specs.Prelude.{◌≡◌};
    ghost use Rattle.engine.specs.declared.stops.EngineFault.TheVariants as fault;

    ghost from_gives = { λ _ f. f ≡ fault.Lines };

    fn from(_: Failed) -> EngineFault {
        EngineFault::Lines
    }
}

impl From<NoMemory> for EngineFault {
    ghost use Rattle.std.specs.Prelude.{◌≡◌};
    ghost use Rattle.engine.specs.declared.stops.EngineFault.TheVariants as fault;

    ghost from_gives = { λ _ f. f ≡ fault.NoMemory };

    fn from(_: NoMemory) -> EngineFault {
        EngineFault::NoMemory
    }
}
