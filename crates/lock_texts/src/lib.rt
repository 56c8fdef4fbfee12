//! The lock of texts. A lock states the public contracts of a layer once more, word for word, each on a
//! function whose body is that one call. Where a contract becomes weaker than its copy, the lock is not
//! proved any more; and each edit in `must-fail/` puts a wrong answer in the place of a call.
//! `pins` has the laws in full, so that none is emptied by its name.
#![tactic(auto)]

pub mod of_cpo_elab;
pub mod of_cpo_text;
pub mod of_read_schedule;
pub mod of_sched_text;
pub mod pins;
