//! Propagators of precedences: ARC of each constraint, and CYCLE.
#![tactic(auto)]

mod calm;
mod ends;
mod guard;
mod heights;
mod likely;
mod members;
mod moves;
mod shown;
mod silence;
mod sources;
mod table;
mod touching;
mod walks;
mod ways;

pub use table::PropTemporal;
