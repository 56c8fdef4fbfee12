use given_files::GivenStop as Given;
use log_reports::LogStop;
use sched_base::{Failed, NoMemory};
use solver::SolveFault;

/// Why a command comes to no answer.
#[derive(Clone, Copy)]
pub enum RunStop {
    /// What may stop a run that reads a model and a schedule.
    Given(Given),
    /// This line of the log is the first that is wrong or missing.
    LogRefused(u64),
    LogTooLong,
}

impl From<Given> for RunStop {
    ghost use Rattle.std.specs.Prelude.{◌≡◌};
    ghost use Rattle.commands.specs.declared.stop.RunStop.TheVariants as stop;

    ghost from_gives = { λ e s. s ≡ stop.Given e };

    fn from(e: Given) -> RunStop {
        RunStop::Given(e)
    }
}

impl From<Failed> for RunStop {
    ghost use Rattle.std.specs.Prelude.{◌≡◌};
    ghost use Rattle.given_files.specs.declared.stop.GivenStop.TheVariants as given;
    ghost use Rattle.commands.specs.declared.stop.RunStop.TheVariants as stop;

    ghost from_gives = { λ _ s. s ≡ stop.Given given.Fault };

    fn from(_: Failed) -> RunStop {
        RunStop::Given(Given::Fault)
    }
}

impl From<NoMemory> for RunStop {
    ghost use Rattle.std.specs.Prelude.{◌≡◌};
    ghost use Rattle.given_files.specs.declared.stop.GivenStop.TheVariants as given;
    ghost use Rattle.commands.specs.declared.stop.RunStop.TheVariants as stop;

    ghost from_gives = { λ _ s. s ≡ stop.Given given.NoMemory };

    fn from(_: NoMemory) -> RunStop {
        RunStop::Given(Given::NoMemory)
    }
}

impl From<SolveFault> for RunStop {
    ghost use Rattle.std.specs.Prelude.{◌≡◌};
    ghost use Rattle.commands.specs.code.Stops.{stop_of_search};

    ghost from_gives = { λ e s. s ≡ stop_of_search e };

    fn from(e: SolveFault) -> RunStop {
        match e {
            SolveFault::Fault => RunStop::Given(Given::Fault),
            SolveFault::NoMemory => RunStop::Given(Given::NoMemory),
        }
    }
}

impl From<LogStop> for RunStop {
    ghost use Rattle.std.specs.Prelude.{◌≡◌};
    ghost use Rattle.commands.specs.code.Stops.{stop_of_report};

    ghost from_gives = { λ e s. s ≡ stop_of_report e };

    fn from(e: LogStop) -> RunStop {
        match e {
            LogStop::Given(given) => RunStop::Given(given),
            LogStop::Refused(line) => RunStop::LogRefused(line),
            LogStop::TooLong => RunStop::LogTooLong,
        }
    }
}
