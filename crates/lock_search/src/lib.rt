//! The lock of the search: the engine, all propagators as one, and the solver. A lock states the
//! public contracts of a layer once more, word for word, each on a function whose body is that one
//! call. Where a contract becomes weaker than its copy, the lock is not proved any more; and each
//! edit in `must-fail/` puts a wrong answer in the place of a call.
#![tactic(auto)]

pub mod of_engine;
pub mod of_propagators;
pub mod of_restart_rules;
pub mod of_solver;
