//! What is done with raw pointers, and proved of it by hand, down to the memory that each pointer
//! owns; whoever stands on it is safe code.
//!
//! `kept` has boxes that are held by raw pointers: `Kept` owns the boxes whose pointers it gave out, as
//! a list that only proofs see. A box leaves by `release` alone, and only the one that came last: its
//! pointer is the list's first, so the box that is made of it is the one that was kept, and it is freed
//! once. `block` has pointers to the items of a `Vec`, which stays the one owner of its memory.
#![tactic(auto)]

mod block;
mod kept;

pub use block::{item_at, place_of};
pub use kept::Kept;
