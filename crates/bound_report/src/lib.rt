//! What a log, whole or unfinished, shows of the best value that any solution can have. It stands on
//! no search.
#![tactic(auto)]

mod best;
mod bounding;
mod laws;

pub use bounding::{Bounded, bound};
pub use checker::CheckFault as BoundFault;
pub use laws::bound_by_verdict;
