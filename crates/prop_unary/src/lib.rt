//! Propagators of sequences: one for each constraint, which finds members that overlap or stand too
//! near, and one for each sequence, which finds members that stand in a circle.
//!
//! In what order a call asks. For a constraint:
//!
//! 1. two members of whom it was told, when it was asked whether it can wait, that something is found
//!    of them (`waiting`, told of what has moved since; `ways` has who stands how to whom);
//! 2. whether nothing is found of any two, each looked at once for both orders (`rest`). The numbers of
//!    each member are noted before (`keys`). Mostly it is so, and the call ends;
//! 3. each two of which the first is told to stand before the second, from the member on of which it
//!    found something last, and round once (`pairs`; `cases` has what is asked of two). Two whose numbers
//!    leave nothing to find are passed over (`silence`); where a sequence keeps no distances and isn't
//!    long, all those behind one member are told at once (`heard`), and their orders are read afterwards;
//! 4. in the same way each two whose order is open, if 3 has met any whose numbers don't show that
//!    nothing is found.
//!
//! Of two that are asked about, the guess comes first that their numbers tell to be refuted
//! (`likely`); what is answered was tested by the row of PAIR.
//!
//! For a sequence: the orders are read into a row of bits for each member, the places of those that
//! it may stand before (`places`); the rows of two of which one is told to stand before the other are
//! compared, and three are looked at only where they leave something to find (`circles`).
#![tactic(auto)]

mod cases;
mod circles;
mod disjunctive;
mod distances;
mod heard;
mod keys;
mod likely;
mod members;
mod pairs;
mod places;
mod rest;
mod silence;
mod table;
mod waiting;
mod waits;
mod ways;

pub use table::PropUnary;
