ghost use Rattle.std.specs.Prelude.{◌≡◌};
ghost use Rattle.reasons.specs.code.Ended.{status_of};

/// How a run ended.
#[derive(Clone, Copy, Debug, PartialEq, Eq)]
pub enum Ended {
    /// Nothing is refused.
    Done,
    /// The words are neither one nor two.
    Usage,
    /// The model's text deserves a refusal, and why was told.
    ModelRefused,
    /// The outside failed.
    Fault,
    /// The schedule is refused, and why was told.
    ScheduleRefused,
    /// Memory was refused.
    NoMemory,
}

impl Ended {
    /// The exit status of the program.
    pub fn status(self) -> u8
        ensures { result ≡ status_of self }
    {
        match self {
            Ended::Done => 0,
            Ended::Usage => 2,
            Ended::ModelRefused => 3,
            Ended::Fault => 4,
            Ended::ScheduleRefused => 6,
            Ended::NoMemory => 70,
        }
    }
}
