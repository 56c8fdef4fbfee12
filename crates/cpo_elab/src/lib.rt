//! What the statements of a text mean: names are numbered, ranges and limits are tested, and a
//! text becomes a model or deserves a refusal.
#![tactic(auto)]

mod build;
mod constraints;
mod copies;
mod counts;
mod draft;
mod elaborator;
mod exprs;
mod factors;
mod fits;
mod flaws;
mod holding;
mod interval;
mod item;
mod judge;
mod laws;
mod limits;
mod literals;
mod named_first;
mod named_first_laws;
mod names;
mod parts;
mod rising;
mod stage;
mod steps;
mod tree_nodes;
mod uses;
mod valid_laws;
mod whole;

pub use cpo_text::{ReadFault, Refusal, Tree};
pub use laws::answer_is_determined;
pub use named_first_laws::named_first_is_sound;
pub use sched_model::Model;
pub use valid_laws::statements_keep_models_valid;
pub use whole::{elaborate, read_model};
