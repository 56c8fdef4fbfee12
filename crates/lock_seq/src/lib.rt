//! The lock of the refuters of sequences, of cumulative functions, of state functions and of energies, and of
//! the laws of sets of tasks. A lock states the public contracts of a layer once more, word for
//! word, each on a function whose body is that one call. Where a contract becomes weaker than its
//! copy, the lock is not proved any more; and each edit in `must-fail/` puts a wrong answer in the
//! place of a call.
#![tactic(auto)]

pub mod of_refute_cumul;
pub mod of_refute_energy;
pub mod of_refute_seq;
pub mod of_refute_state;
pub mod of_task_sets;
