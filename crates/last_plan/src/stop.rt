use given_files::GivenStop as Given;
use replay::ReplayFault;
use sched_base::{Failed, NoMemory};

/// Why nothing is told of a log.
#[derive(Clone, Copy, Debug)]
pub enum PlanStop {
    /// What may stop a run that reads a model.
    Given(Given),
    /// This line of the log is the first that is wrong, or the first line is missing. It begins at this
    /// byte, counted from 0.
    Refused { line: u64, at: u128 },
    TooLong,
}

impl From<Given> for PlanStop {
    ghost use Rattle.std.specs.Prelude.{◌≡◌};
    ghost use Rattle.last_plan.specs.declared.stop.PlanStop.TheVariants as stop;

    ghost from_gives = { λ e s. s ≡ stop.Given e };

    fn from(e: Given) -> PlanStop {
        PlanStop::Given(e)
    }
}

impl From<Failed> for PlanStop {
    ghost use Rattle.std.specs.Prelude.{◌≡◌};
    ghost use Rattle.given_files.specs.declared.stop.GivenStop.TheVariants as given;
    ghost use Rattle.last_plan.specs.declared.stop.PlanStop.TheVariants as stop;

    ghost from_gives = { λ _ s. s ≡ stop.Given given.Fault };

    fn from(_: Failed) -> PlanStop {
        PlanStop::Given(Given::Fault)
    }
}

impl From<NoMemory> for PlanStop {
    ghost use Rattle.std.specs.Prelude.{◌≡◌};
    ghost use Rattle.given_files.specs.declared.stop.GivenStop.TheVariants as given;
    ghost use Rattle.last_plan.specs.declared.stop.PlanStop.TheVariants as stop;

    ghost from_gives = { λ _ s. s ≡ stop.Given given.NoMemory };

    fn from(_: NoMemory) -> PlanStop {
        PlanStop::Given(Given::NoMemory)
    }
}

impl From<ReplayFault> for PlanStop {
    ghost use Rattle.std.specs.Prelude.{◌≡◌};
    ghost use Rattle.last_plan.specs.code.Stops.{stop_of_replay};

    ghost from_gives = { λ e s. s ≡ stop_of_replay e };

    fn from(e: ReplayFault) -> PlanStop {
        match e {
            ReplayFault::Refused { line, at } => PlanStop::Refused { line, at },
            ReplayFault::TooLong => PlanStop::TooLong,
            ReplayFault::Fault => PlanStop::Given(Given::Fault),
            ReplayFault::NoMemory => PlanStop::Given(Given::NoMemory),
        }
    }
}
