ghost use Rattle.std.specs.Prelude.{◌≡◌};

use sched_base::NoMemory;
use thiserror::Error;

/// Why no schedule was read.
#[derive(Clone, Copy, Debug, PartialEq, Eq, Error)]
pub enum ScheduleFault {
    /// The first line that can't be continued to a schedule text of the model. Where each whole line
    /// can be, it is the line behind these, which is missing or has no line feed.
    #[error("no schedule of the model: line {line}")]
    Refused { line: u32 },
    #[error("no memory")]
    NoMemory,
}
