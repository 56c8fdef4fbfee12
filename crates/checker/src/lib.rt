//! The judgement of a log's bytes, whoever made them. It stands on no search.
#![tactic(auto)]

mod judging;
mod laws;

pub use judging::{CheckFault, Checked, check};
pub use laws::judgement_is_determined;
