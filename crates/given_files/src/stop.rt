use cpo_text::{ReadFault, Refusal};
use read_schedule::ScheduleFault;
use sched_base::{Failed, NoMemory, ReadError};

/// Why a schedule is refused.
#[derive(Clone, Copy, Debug)]
pub enum ScheduleRefusal {
    /// Its file is longer than its limit.
    TooLong,
    /// This line is the first that can't be continued to a schedule text of the model, or is missing.
    Line(u32),
    /// This constraint of the model is the first that doesn't hold.
    Constraint(u32),
}

/// Why a run comes to nothing that it was to print.
#[derive(Clone, Copy, Debug)]
pub enum GivenStop {
    /// The outside failed.
    Fault,
    NoMemory,
    /// The model's text deserves this.
    ModelRefused(Refusal),
    ScheduleRefused(ScheduleRefusal),
}

impl From<Failed> for GivenStop {
    ghost use Rattle.std.specs.Prelude.{◌≡◌};
    ghost use Rattle.given_files.specs.declared.stop.GivenStop.TheVariants as stop;

    ghost from_gives = { λ _ s. s ≡ stop.Fault };

    fn from(_: Failed) -> GivenStop {
        GivenStop::Fault
    }
}

impl From<NoMemory> for GivenStop {
    ghost use Rattle.std.specs.Prelude.{◌≡◌};
    ghost use Rattle.given_files.specs.declared.stop.GivenStop.TheVariants as stop;

    ghost from_gives = { λ _ s. s ≡ stop.NoMemory };

    fn from(_: NoMemory) -> GivenStop {
        GivenStop::NoMemory
    }
}

impl From<ReadError> for GivenStop {
    ghost use Rattle.std.specs.Prelude.{◌≡◌};
    ghost use Rattle.given_files.specs.code.Stops.{stop_of_read};

    ghost from_gives = { λ e s. s ≡ stop_of_read e };

    fn from(e: ReadError) -> GivenStop {
        match e {
            ReadError::Failed => GivenStop::Fault,
            ReadError::NoMemory => GivenStop::NoMemory,
        }
    }
}

impl From<ReadFault> for GivenStop {
    ghost use Rattle.std.specs.Prelude.{◌≡◌};
    ghost use Rattle.given_files.specs.code.Stops.{stop_of_text};

    ghost from_gives = { λ e s. s ≡ stop_of_text e };

    fn from(e: ReadFault) -> GivenStop {
        match e {
            ReadFault::Refused(r) => GivenStop::ModelRefused(r),
            ReadFault::NoMemory => GivenStop::NoMemory,
        }
    }
}

impl From<ScheduleFault> for GivenStop {
    ghost use Rattle.std.specs.Prelude.{◌≡◌};
    ghost use Rattle.given_files.specs.code.Stops.{stop_of_schedule};

    ghost from_gives = { λ e s. s ≡ stop_of_schedule e };

    fn from(e: ScheduleFault) -> GivenStop {
        match e {
            ScheduleFault::Refused { line } => GivenStop::ScheduleRefused(ScheduleRefusal::Line(
                line,
            )),
            ScheduleFault::NoMemory => GivenStop::NoMemory,
        }
    }
}
