//! The commands of the program, over a desk: what each does, the texts that it prints, and how it ends.
#![tactic(auto)]

mod bounding;
mod checking;
mod ended;
mod generating;
mod laws;
mod report;
mod running;
mod showing;
mod solving;
mod stop;
mod trying;
mod using;
mod valid;
mod verifying;

pub use ended::Ended;
pub use laws::{answer_verifies, runs_are_complete};
pub use running::run;
