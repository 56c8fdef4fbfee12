//! The propagators of state functions: two demands that can neither stand apart nor share a segment,
//! and two of one state between which another stands too near.
#![tactic(auto)]

mod demands;
mod known;
mod pairs;
mod parts;
mod silence;
mod table;
mod triples;

pub use table::PropState;
