//! The refuters of state functions: of two demands that can neither stand apart nor share a segment,
//! and of two of one state between which another stands too near; and the segments that a settled
//! region leaves.
#![tactic(auto)]

mod demand;
mod gathered;
mod groups;
mod laws;
mod on_state;
mod runs;
mod settled;
mod spelling;
mod state;
mod state3;
mod stretch;
mod times;
mod witness;

pub use demand::{Demand, demand_at, demand_gap, demand_of, same_state, some_state};
pub use gathered::demands_of;
pub use laws::{demands_are_grouped, segments_are_longest};
pub use on_state::OnState;
pub use settled::canonical;
pub use state::state_pair;
pub use state3::state_triple;
pub use stretch::Stretch;
pub use times::{is_late, is_long};
pub use witness::StateWitness;
