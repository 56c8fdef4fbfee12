//! Branch and bound that writes the log of its search.
#![tactic(auto)]

mod aims;
mod anew;
mod answer;
mod branch;
mod chooser;
mod fault;
mod hints;
mod keeping;
mod lifting;
mod log_lines;
mod log_to;
mod lookahead;
mod luby;
mod mark;
mod neighbourhood;
mod open_intervals;
mod order;
mod preparing;
mod random;
mod rehearsal;
mod search;
mod settled;
mod shifting;
mod silence;
mod silent;
mod solving;
mod starts;
mod state;
mod turns;

pub use fault::SolveFault;
pub use solving::solve;
