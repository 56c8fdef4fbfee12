//! The steps of a search log, none of which loses a better solution, and the verdict that they
//! lead to.
#![tactic(auto)]

mod agenda;
mod kernel;
mod laws;
mod no_extra;
mod open_regions;
mod pending;
mod refuting;
mod solution;
mod types;

pub use kernel::Kernel;
pub use laws::{loses_nothing, uses_enough};
pub use no_extra::{NoExtra, NoWitness};
pub use open_regions::Open;
pub use pending::Pending;
pub use sched_model::Verdict;
pub use types::{Found, Line, StepFault, Witness};
