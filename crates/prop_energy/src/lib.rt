//! The search for overloads of energy: whether present intervals under a capacity need more energy than
//! their common window offers (Vilím 2009).
#![tactic(auto)]

mod bounds;
mod cuts;
mod find;
mod known;
mod members;
mod rows;

pub use envelope::{Bar, EnvelopeTree};
pub use find::PropEnergy;
pub use refute_energy::{EnergyRefuter, EnergyWitness};
