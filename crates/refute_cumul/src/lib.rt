//! The refuter of cumulative functions: at a moment of its window a function is surely too high, or
//! too low.
#![tactic(auto)]

mod bound;
mod changes;
mod levels;
mod on_cumul;
mod point;
mod profile;
mod reach;
mod room;
mod sides;
mod spelling;
mod witness;

pub use bound::Bound;
pub use levels::{bounded, limit_of, load, load_of, window_of};
pub use on_cumul::OnCumul;
pub use point::parts_of;
pub use profile::{Level, Profile};
pub use room::most_parts;
pub use sides::side;
pub use witness::CumulWitness;
