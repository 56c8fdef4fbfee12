//! Regions of assignments: cells that say what is still open, guesses that narrow them, looks that
//! show them under a guess, the interface of whatever refutes a look, and how a refuted guess is
//! made as weak as its witness allows.
#![tactic(auto)]

mod allowing;
mod claims;
mod flat;
mod frame;
mod guess_test;
mod look;
mod refuter;
mod region;
mod tightening;
mod types;

pub use claims::{earliest_end, latest_start};
pub use guess_test::{GuessTest, RowTest};
pub use look::Look;
pub use refuter::{Numbers, Refuter};
pub use region::Region;
pub use tightening::{is_tight, refutes, tighten, tighten_by};
pub use types::{Bounds, CellName, Fact, Guess, OrderCell, Presence};
