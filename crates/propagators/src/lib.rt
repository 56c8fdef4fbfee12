//! All propagators, as the engine runs them.
#![tactic(auto)]

mod all;
mod basic;
mod cells;
mod cumul;
mod hier;
mod laws;
mod sets;
mod state;
mod temporal;
mod unary;

pub use all::{All, covers, start};
pub use basic::FromBasic;
pub use cumul::FromCumul;
pub use hier::FromHier;
pub use laws::{each_witness_has_an_owner, listed_guesses_suffice};
pub use sets::{FromLaterSets, FromSets};
pub use state::FromState;
pub use temporal::FromTemporal;
pub use unary::FromUnary;
