//! The lock of what is written, of what reads it back, and of the words of the program. A lock states the
//! public contracts of a layer once more, word for word, each on a function whose body is that one call.
//! Where a contract becomes weaker than its copy, the lock is not proved any more; and each edit in
//! `must-fail/` puts a wrong answer in the place of a call.
//! `pins` has the laws in full, so that none is emptied by its name.
#![tactic(auto)]

pub mod of_command_line;
pub mod of_generated_models;
pub mod of_modelgen;
pub mod of_read_back;
pub mod of_svg_page;
pub mod pins;
