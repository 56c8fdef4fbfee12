//! Reads schedule texts: those that the answers of the search show, and plans that were made or
//! changed by hand. `specs/Schedules.antt` says what a schedule text of a model is.
#![tactic(auto)]

mod assignment;
mod fault;
mod header;
mod index;
mod laws;
mod lines;
mod orders;
mod reading;
mod slots;
mod states;
mod stop;
mod words;

pub use fault::ScheduleFault;
pub use laws::{answer_is_schedule, schedule_is_told};
pub use reading::read_schedule;
