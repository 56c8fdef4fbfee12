//! The lock of regions and looks. A lock states the public contracts of a layer once more, word for word,
//! each on a function whose body is that one call. Where a contract becomes weaker than its copy, the
//! lock is not proved any more; and each edit in `must-fail/` puts a wrong answer in the place of a call.
//! `pins` says what a run of calls answers, by their contracts alone.
#![tactic(auto)]

pub mod of_look_hull;
pub mod of_region;
pub mod pins;
