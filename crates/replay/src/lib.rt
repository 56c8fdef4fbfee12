//! The lines of a log, read and stepped one after another, for whoever wants what they lead to, or
//! something of each. It stands on no search.
#![tactic(auto)]

mod fault;
mod laws;
mod reading;
mod replaying;
mod watcher;

pub use fault::ReplayFault;
pub use laws::judgement_is_determined;
pub use replaying::{replay, replay_front};
pub use watcher::{Unwatched, Watcher};
