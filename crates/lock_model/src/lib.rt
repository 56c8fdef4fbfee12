//! The lock of what models mean. A lock states the public contracts of a layer once more, word for word,
//! each on a function whose body is that one call. Where a contract becomes weaker than its copy, the
//! lock is not proved any more; and each edit in `must-fail/` puts a wrong answer in the place of a call.
#![tactic(auto)]

pub mod of_calendar;
pub mod of_model_copy;
pub mod of_sched_model;
