//! Propagators of cumulative functions by timetables (Lahrichi 1982; Beldiceanu and Carlsson 2002): one
//! for each constraint that bounds a function in a window.
#![tactic(auto)]

mod added;
mod asking;
mod calm;
mod extra;
mod side;
mod table;
mod task;

pub use table::PropCumul;
