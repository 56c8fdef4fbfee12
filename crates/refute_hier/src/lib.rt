//! The refuters of an interval and its parts: of a span, an alternative and a synchronization; and of
//! relations of the members of a sequence: who stands first, last, before or next before another.
#![tactic(auto)]

mod alt;
mod family;
mod hier;
mod parts;
mod rows;
mod seqrel;
mod span;
mod spelling;
mod sync;
mod witness;
mod witnesses;

pub use family::{Family, Kind, as_family};
pub use hier::Hier;
pub use parts::{Role, at_part, known, plays, plays_in, some_part};
pub use rows::some_refutes;
pub use seqrel::{members_of, related_in, seqrel_of};
pub use witness::HierWitness;
pub use witnesses::find_witness;
