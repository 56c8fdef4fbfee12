ghost use Rattle.std.specs.Prelude.{◌≡◌};
ghost use Rattle.last_plan.specs.code.Ended.{status_of};

/// How a run ended.
#[derive(Clone, Copy, Debug, PartialEq, Eq)]
pub enum Ended {
    /// The log has a solution, and it was told.
    Done,
    /// The log shows that there is no solution.
    Infeasible,
    /// The log has no solution yet.
    NoSchedule,
    /// The words aren't two files, with or without the option.
    Usage,
    /// The model's text deserves a refusal.
    ModelRefused,
    /// The outside failed.
    Fault,
    /// A line of the log is wrong, its first line is missing, or it is too long.
    LogRefused,
    /// Memory was refused.
    NoMemory,
}

impl Ended {
    /// The exit status of the program.
    pub fn status(self) -> u8
        ensures { result ≡ status_of self }
    {
        match self {
            Ended::Done => 0,
            Ended::Infeasible => 10,
            Ended::NoSchedule => 20,
            Ended::Usage => 2,
            Ended::ModelRefused => 3,
            Ended::Fault => 4,
            Ended::LogRefused => 5,
            Ended::NoMemory => 70,
        }
    }
}
