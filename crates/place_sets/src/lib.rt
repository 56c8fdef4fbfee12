//! Sets of places in lists, as words of bits: of one word, or of as many as the longest list needs.
#![tactic(auto)]

mod moved;
mod place_set;

pub use moved::MovedPlaces;
pub use place_set::{BITS, PlaceSet};
