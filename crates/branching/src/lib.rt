//! Rules that pick what a search splits by. Nothing hangs on them but how long a search takes: it
//! splits only by what splits, and finds a split itself where a rule has none.
#![tactic(auto)]

mod bounds;
mod goal;
mod guide;
mod halves;
mod links;
mod load;
mod orders;
mod pairs;
mod poles;
mod presences;
mod rule;
mod shortlist;
mod soonest;
mod tree;
mod view;
mod weights;

pub use goal::Goal;
pub use guide::Guide;
pub use halves::middle;
pub use links::{Links, alternative};
pub use orders::{is_open_order, is_there};
pub use pairs::Pairs;
pub use poles::Pole;
pub use rule::Rule;
pub use shortlist::Shortlist;
pub use soonest::Soonest;
pub use tree::Tree;
pub use view::View;
pub use weights::Weights;
