ghost use Rattle.std.specs.Prelude.{◌≡◌};
ghost use Rattle.commands.specs.Ended.{status_of};

/// How a run ended.
#[derive(Clone, Copy, PartialEq, Eq)]
pub enum Ended {
    /// A solution was found, a schedule is one, or a model was printed.
    Done,
    /// The log is accepted.
    Accepted,
    /// There is no solution.
    Infeasible,
    /// The node limit was met.
    Unfinished,
    /// The words are no command.
    Usage,
    /// The model's text deserves a refusal.
    ModelRefused,
    /// The outside failed.
    Fault,
    /// A line of the log is wrong or missing, or the log is too long.
    LogRefused,
    /// The schedule's file is too long, a line of it is wrong or missing, or a constraint doesn't hold.
    ScheduleRefused,
    /// Memory was refused.
    NoMemory,
}

impl Ended {
    /// The exit status of the program.
    pub fn status(self) -> u8
        ensures { result ≡ status_of self }
    {
        match self {
            Ended::Done => 0,
            Ended::Accepted => 0,
            Ended::Infeasible => 10,
            Ended::Unfinished => 20,
            Ended::Usage => 2,
            Ended::ModelRefused => 3,
            Ended::Fault => 4,
            Ended::LogRefused => 5,
            Ended::ScheduleRefused => 6,
            Ended::NoMemory => 70,
        }
    }
}
