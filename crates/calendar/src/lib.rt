//! Calendars: step functions of moments, and what they forbid where they are 0: that an interval
//! starts there, or that it lasts there. A model has no step functions. A calendar becomes
//! constraints of it, one for each closed range, which are all that a search and a log speak of.
//!
//! Moments are whole numbers from -H to H.
#![tactic(auto)]

mod counts;
mod ranges;
mod rules;
mod step;

pub use counts::made_nodes;
pub use ranges::closed;
pub use rules::{Demand, forbid_extent, forbid_start};
pub use step::{Pair, StepFn};
