//! The lock of the floor. A lock states the public contracts of a layer once more, word for word, each
//! on a function whose body is that one call. Where a contract becomes weaker than its copy, the lock
//! is not proved any more; and each edit in `must-fail/` puts a wrong answer in the place of a call.
//! `pins` says what some runs of calls answer, by their contracts alone.
#![tactic(auto)]

pub mod of_gatherer;
pub mod of_iqueue;
pub mod of_sched_base;
pub mod of_textline;
pub mod of_trail;
pub mod of_wake_levels;
pub mod pins;
