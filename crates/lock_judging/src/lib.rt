//! The lock of the judging of logs: the kernel, the text of a log, its replay, the checker, and what else
//! is told of a log. A
//! lock states the public contracts of a layer once more, word for word, each on a function whose
//! body is that one call. Where a contract becomes weaker than its copy, the lock is not proved any more; and
//! each edit in `must-fail/` puts a wrong answer in the place of a call.
#![tactic(auto)]

pub mod of_bound_report;
pub mod of_checker;
pub mod of_conflict;
pub mod of_kernel;
pub mod of_log_lines;
pub mod of_logtext;
pub mod of_replay;
