ghost use Rattle.std.specs.Prelude.{◌≡◌};

use sched_base::NoMemory;
use std::alloc::AllocError;

/// Why a rule of the grammar takes nothing.
#[derive(Clone, Copy)]
pub enum Fault {
    Outside,
    NoMemory,
}

impl From<NoMemory> for Fault {
    ghost use Rattle.cpo_text.specs.declared.fault.Fault.TheVariants.{NoMemory as Memory};

    ghost from_gives = { λ _ e. e ≡ Memory };

    fn from(_: NoMemory) -> Fault {
        Fault::NoMemory
    }
}

impl From<AllocError> for Fault {
    ghost use Rattle.cpo_text.specs.declared.fault.Fault.TheVariants.{NoMemory as Memory};

    ghost from_gives = { λ _ e. e ≡ Memory };

    fn from(_: AllocError) -> Fault {
        Fault::NoMemory
    }
}
