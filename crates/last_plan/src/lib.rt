//! What a log shows of a search, whole or stopped: the schedule of its last solution, and counts. Both
//! files are read, each line is tested as a check does, and what the log shows is printed.
#![tactic(auto)]

mod counts;
mod ended;
mod planning;
mod plans;
mod report;
mod running;
mod stop;
mod tally;
mod texts;

pub use counts::{Counts, FoundAt};
pub use ended::Ended;
pub use plans::Plan;
pub use running::run;
