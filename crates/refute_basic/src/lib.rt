//! The refuters that need no more than cells, sizes and values: of bounds that leave no size, of
//! precedences and of walks through them, of expressions and objectives by their look hulls, and of
//! settled regions.
#![tactic(auto)]

mod arc;
mod arc_name;
mod basic;
mod cycle;
mod edge;
mod edges;
mod expr;
mod gaps;
mod leaf;
mod names;
mod obj;
mod settled;
mod size;
mod spelling;
mod standing;
mod witness;

pub use arc_name::ArcName;
pub use basic::Basic;
pub use edge::Arc;
pub use edges::edge_of;
pub use gaps::{gap, members_of};
pub use obj::never_beats;
pub use settled::settled_slot;
pub use standing::{is_there, precedes, stand};
pub use witness::BasicWitness;
