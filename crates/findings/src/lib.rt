//! What propagators ask of their witnesses: whether one refutes a region, as it stands or under a
//! guess at the end of a cell, and what was found so; and the numbers of an interval that tell
//! beforehand where a witness is silent.
#![tactic(auto)]

mod asking;
mod ends;
mod finding;
mod likely;
mod moves;
mod reaching;
mod searching;
mod view;

pub use asking::{ask, ask_by, ask_end, ask_likely, ask_reaching};
pub use ends::{Ends, ends_at, ends_in};
pub use finding::{Finding, Pair};
pub use likely::Likely;
pub use moves::Moves;
pub use reaching::Reaching;
pub use view::View;
