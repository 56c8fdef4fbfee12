//! The outside of a program: the desk over real files, the numbers of the standard streams, and the
//! words that the program is given.
#![tactic(auto)]

mod real;
pub mod streams;
pub mod words;

pub use real::RealDesk;
