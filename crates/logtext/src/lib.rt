//! The text of a search log: one spelling for each line, how lines are written, and how they are
//! read back.
#![tactic(auto)]

mod entry;
mod extra;
mod kinds;
mod laws;
mod line;
mod reader;
mod solution;
mod step;
mod value;
mod version;
mod words;
mod writer;

pub use entry::{Entry, EntryFault};
pub use extra::{LogExtra, LogWitness};
pub use laws::{plain_lines_stay, spelling_is_determined};
pub use reader::LogReader;
pub use version::Version;
pub use writer::LogWriter;
