//! The theta-lambda tree of disjunctive scheduling (Vilím 2007, the chapters on theta trees and
//! theta-lambda trees): the earliest completion time of a set of tasks, while tasks enter and leave
//! the set, in logarithmic time a change. Contracts speak of sets of tasks alone.
#![tactic(auto)]

mod leaves;
mod node;
mod tree;

pub use leaves::{Colour, MAX_TASKS, Task};
pub use tree::ThetaTree;
