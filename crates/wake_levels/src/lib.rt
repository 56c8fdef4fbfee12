//! Numbers that are awake, on any number of levels: the first of the most urgent level that has one
//! has its turn.
#![tactic(auto)]

mod levels;

pub use levels::{Turn, WakeLevels};
