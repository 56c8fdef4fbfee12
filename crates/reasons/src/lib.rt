//! Why a text is refused, and which statement a schedule breaks: the line and the column, the words of
//! the statement, and the word at which its front can't be finished.
#![tactic(auto)]

mod ended;
mod explaining;
mod finishing;
mod places;
mod report;
mod running;
mod sought;
mod stuck;
mod texts;
mod words;

pub use ended::Ended;
pub use running::run;
