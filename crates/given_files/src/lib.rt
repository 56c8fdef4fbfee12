//! The model and the schedule that the files of a run hold, and the lines that tell why one is refused.
#![tactic(auto)]

mod load;
mod stop;
mod telling;
mod testing;

pub use load::read_file;
pub use stop::{GivenStop, ScheduleRefusal};
pub use telling::{push_told, report, tell};
pub use testing::test_file;
