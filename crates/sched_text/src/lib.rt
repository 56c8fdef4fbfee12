//! Texts of answers, of schedules and of models. The definitions stand in `specs/`; the functions
//! here write these texts to standard output.
#![tactic(auto)]

mod answers;
mod canonical;
mod constraints;
mod cumulative;
mod definitions;
mod expressions;
mod laws;
mod page;
mod pieces;
mod values;

pub use answers::{write_accepted, write_answer, write_summary};
pub use canonical::print_model;
pub use laws::answer_is_told;
pub use values::push_values;
