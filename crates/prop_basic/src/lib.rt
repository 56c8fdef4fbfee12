//! Propagators that ask one witness each: the sizes of intervals, expressions that stand as
//! constraints, and the objective.
#![tactic(auto)]

mod expressions;
mod hulls;
mod sizes;
mod table;

pub use table::PropBasic;
