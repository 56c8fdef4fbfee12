//! The refuters of the orders of a sequence: of two members that overlap or stand too near, of three
//! that stand in a circle, and of sets of members that have no room.
#![tactic(auto)]

mod detect;
mod edge;
mod few;
mod not_end;
mod on_sequence;
mod order;
mod overload;
mod pair;
mod set_numbers;
mod sets;
mod spelling;
mod tasks;
mod told;
mod triple;
mod witness;

pub use few::Few;
pub use on_sequence::OnSequence;
pub use order::settled_order;
pub use refute_basic::{gap, is_there, members_of, precedes, stand};
pub use told::is_away;
pub use witness::SeqWitness;
