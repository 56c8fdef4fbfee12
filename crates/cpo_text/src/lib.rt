//! The model language as it is written: tokens, statements and trees. Each statement of a text is
//! told as its words alone tell it; what its names mean is settled above.
#![tactic(auto)]

mod atoms;
mod built;
mod call_words;
mod calls;
mod contributions;
mod cumul;
mod expression;
mod fault;
mod grammar;
mod laws;
mod level_words;
mod levels;
mod lists;
mod parts;
mod piece;
mod place;
mod refusal;
mod scan;
mod statement;
mod survey;
mod text;
mod tree;
mod whole;
mod word;

pub use cumul::{Cpart, Cumul, Signed};
pub use expression::{Comparison, Gather, Link, Logic, Measure};
pub use laws::reading_is_determined;
pub use refusal::Cause;
pub use text::{Form, ReadFault, Reading, Refusal, TEXT_LIMIT, TOLD_LIMIT, Tree};
pub use tree::{
    Bound, Constrained, Definition, Extreme, Forbidden, Hierarchy, Int, Ivarg, Moments, Order,
    Over, Range, Sense, Spaced, Statement, StepPair, Temporal,
};
pub use whole::read_text;
