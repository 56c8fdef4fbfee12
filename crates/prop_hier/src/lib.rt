//! Propagators of spans, alternatives and synchronizations: one for each constraint on an interval
//! and its parts; and one for each relation of the members of a sequence.
#![tactic(auto)]

mod asking;
mod counts;
mod member_test;
mod possible;
mod reaches;
mod relations;
mod silent;
mod table;
mod watch;

pub use table::PropHier;
pub use watch::Watch;
