use checker::CheckFault;
use given_files::GivenStop as Given;
use sched_base::{Failed, NoMemory};

/// Why nothing is reported of a log.
#[derive(Clone, Copy, Debug)]
pub enum LogStop {
    /// What may stop a run that reads a model.
    Given(Given),
    /// This line of the log is the first that is wrong or missing.
    Refused(u64),
    TooLong,
}

impl From<Given> for LogStop {
    ghost use Rattle.std.specs.Prelude.{◌≡◌};
    ghost use Rattle.log_reports.specs.declared.stop.LogStop.TheVariants as stop;

    ghost from_gives = { λ e s. s ≡ stop.Given e };

    fn from(e: Given) -> LogStop {
        LogStop::Given(e)
    }
}

impl From<Failed> for LogStop {
    ghost use Rattle.std.specs.Prelude.{◌≡◌};
    ghost use Rattle.given_files.specs.declared.stop.GivenStop.TheVariants as given;
    ghost use Rattle.log_reports.specs.declared.stop.LogStop.TheVariants as stop;

    ghost from_gives = { λ _ s. s ≡ stop.Given given.Fault };

    fn from(_: Failed) -> LogStop {
        LogStop::Given(Given::Fault)
    }
}

impl From<NoMemory> for LogStop {
    ghost use Rattle.std.specs.Prelude.{◌≡◌};
    ghost use Rattle.given_files.specs.declared.stop.GivenStop.TheVariants as given;
    ghost use Rattle.log_reports.specs.declared.stop.LogStop.TheVariants as stop;

    ghost from_gives = { λ _ s. s ≡ stop.Given given.NoMemory };

    fn from(_: NoMemory) -> LogStop {
        LogStop::Given(Given::NoMemory)
    }
}

impl From<CheckFault> for LogStop {
    ghost use Rattle.std.specs.Prelude.{◌≡◌};
    ghost use Rattle.log_reports.specs.code.Stops.{stop_of_check};

    ghost from_gives = { λ e s. s ≡ stop_of_check e };

    fn from(e: CheckFault) -> LogStop {
        match e {
            CheckFault::Refused { line } => LogStop::Refused(line),
            CheckFault::TooLong => LogStop::TooLong,
            CheckFault::Fault => LogStop::Given(Given::Fault),
            CheckFault::NoMemory => LogStop::Given(Given::NoMemory),
        }
    }
}
