//! Gathers bytes for a port of the desk, so that a word isn't a call of the system each.
#![tactic(auto)]

mod gathering;

pub use gathering::Gatherer;
