ghost use Rattle.std.specs.Prelude.{◌≡◌};
ghost use Rattle.gantt.specs.code.Ended.{status_of};

/// How a run ended.
#[derive(Clone, Copy, Debug, PartialEq, Eq)]
pub enum Ended {
    /// The page was printed.
    Done,
    /// The words aren't two.
    Usage,
    /// The model's text deserves a refusal.
    ModelRefused,
    /// The outside failed.
    Fault,
    /// The schedule's file is too long, a line of it is wrong or missing, or a constraint doesn't hold.
    ScheduleRefused,
    /// Memory was refused.
    NoMemory,
}

impl Ended {
    /// The exit status of the program.
    pub fn status(self) -> u8
        ensures { result ≡ status_of self }
    {
        match self {
            Ended::Done => 0,
            Ended::Usage => 2,
            Ended::ModelRefused => 3,
            Ended::Fault => 4,
            Ended::ScheduleRefused => 6,
            Ended::NoMemory => 70,
        }
    }
}
