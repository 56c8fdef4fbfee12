//! Energetic reasoning on a cumulative resource (Vilím 2009): whether some set of bars needs more energy
//! than the capacity offers between its earliest start and its latest completion.
#![tactic(auto)]

mod cut;
mod ends;
mod rows;
mod sums;

pub use cut::EnergyPass;
pub use rows::{Cut, Row};
