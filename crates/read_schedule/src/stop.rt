ghost use Rattle.std.specs.Prelude.{◌≡◌};

use sched_base::NoMemory;

/// Why a part of a schedule text wasn't read.
#[derive(Clone, Copy, Debug)]
pub enum PartStop {
    /// So many lines of the part were read, and the next isn't there, or isn't one of the part.
    Line(usize),
    NoMemory,
}

impl From<NoMemory> for PartStop {
    ghost use Rattle.read_schedule.specs.declared.stop.PartStop.TheVariants.{NoMemory as Memory};

    ghost from_gives = { λ _ s. s ≡ Memory };

    fn from(_: NoMemory) -> PartStop {
        PartStop::NoMemory
    }
}
