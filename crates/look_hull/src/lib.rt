//! The least and the greatest value that an expression can have in a look at a region: interval
//! arithmetic in which each number of an interval has the range that its cells leave it, and its
//! default value where the interval may be absent (Laborie et al. 2018).
#![tactic(auto)]

mod hull;
mod intervals;
mod truths;

pub use hull::look_hull;
pub use intervals::{end_of, presence_of, size_of, start_of};
pub use truths::{compare_range, implies_range, not_range, surely_false, surely_true, truth_range};
