//! The lock of what the programs do: given files, reports of
//! logs, the commands, what a log shows, and why something is refused. A lock states the public
//! contracts of a layer once more, word for word, each on a function whose body is that one call.
//! Where a contract becomes weaker than its copy, the lock is not proved any more; and each edit in
//! `must-fail/` puts a wrong answer in the place of a call.
#![tactic(auto)]

pub mod of_commands;
pub mod of_given_files;
pub mod of_last_plan;
pub mod of_log_reports;
pub mod of_reasons;
