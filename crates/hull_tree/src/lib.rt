//! The look hull of one expression, kept so that a guess walks only the paths from its root to what
//! it tells of the guess's interval: the expression as nodes, sums and the like as balanced trees,
//! and the ranges of all nodes in a region (interval arithmetic with presence, Laborie et al. 2018).
#![tactic(auto)]

mod atoms;
mod beside;
mod building;
mod combine;
mod nodes;
mod put;
mod reach;
mod tree;
mod walk;

pub use tree::{HullTree, Sides};
