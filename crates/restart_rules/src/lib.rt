//! When a search begins anew.
#![tactic(auto)]

mod stretches;

pub use stretches::Stretches;
