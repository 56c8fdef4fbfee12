//! The lines of a log that comes in pieces, however it is cut.
#![tactic(auto)]

mod fault;
mod reader;

pub use fault::LineFault;
pub use reader::LineReader;
