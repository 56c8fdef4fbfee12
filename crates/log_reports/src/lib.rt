//! What is reported of a log: both files are read, the log is judged, and what it shows is printed.
#![tactic(auto)]

mod reporting;
mod stop;
mod texts;

pub use reporting::{report_bound, report_check, report_core};
pub use stop::LogStop;
