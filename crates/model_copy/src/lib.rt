//! Models copied: the whole things of one, and some of its constraints.
#![tactic(auto)]

mod constraints;
mod expressions;
mod reducing;
mod things;

pub use reducing::reduce;
