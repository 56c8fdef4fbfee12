//! The lock of the propagators and of what they stand on. A lock states the public contracts of a
//! layer once more, word for word, each on a function whose body is that one call. Where a contract
//! becomes weaker than its copy, the lock is not proved any more; and each edit in `must-fail/`
//! puts a wrong answer in the place of a call.
#![tactic(auto)]

pub mod of_cycles;
pub mod of_energy;
pub mod of_findings;
pub mod of_hull_tree;
pub mod of_prop_basic;
pub mod of_prop_cumul;
pub mod of_prop_hier;
pub mod of_prop_sets;
pub mod of_prop_state;
pub mod of_prop_temporal;
pub mod of_prop_unary;
pub mod of_theta_passes;
pub mod of_thetatree;
