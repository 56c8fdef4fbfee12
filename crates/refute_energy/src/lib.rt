//! The refuter of energies: under a capacity, present intervals need more energy than their common
//! window offers.
#![tactic(auto)]

mod bars;
mod numbers;
mod on_energy;
mod row;
mod spelling;
mod sums;
mod witness;

pub use on_energy::EnergyRefuter;
pub use row::{is_capacity, offered};
pub use witness::EnergyWitness;
