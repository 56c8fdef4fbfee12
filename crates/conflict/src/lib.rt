//! The constraints that the log of a model without a solution uses: a conflict, of which a planner
//! has to give up something. It stands on no search.
#![tactic(auto)]

mod cores;
mod used;

pub use checker::CheckFault as CoreFault;
pub use cores::core;
pub use model_copy::reduce;
