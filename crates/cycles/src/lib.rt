//! Closed walks of positive weight in a list of arcs.
#![tactic(auto)]

mod gain;
mod node;
mod search;

pub use gain::GainSearch;
