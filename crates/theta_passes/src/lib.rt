//! The passes of overload checking, edge finding, "not last" and detectable precedences over the
//! theta-lambda tree (Vilím 2007, chapter 2), for the members of a sequence of which some may
//! yet be absent. Each pass names a member that some set of the others finds, or tells that none does;
//! the sets that show a finding are made apart. Members are named by their places in the order of
//! their earliest starts.
#![tactic(auto)]

pub mod edge;
pub mod late;
pub mod laws;
pub mod leaves;
pub mod over;
pub mod parts;
mod places;
mod rows;
pub mod scan;
pub mod witnesses;

pub use rows::{Presence, Row};
