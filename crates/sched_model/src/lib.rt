//! Scheduling models over interval variables, their assignments, and what makes an assignment a
//! solution. The definitions stand in `specs/`; the functions here compute them.
#![tactic(auto)]

mod bounds;
mod changes;
mod cumulative;
mod distances;
mod domain;
mod hierarchy;
mod hulls;
mod model;
pub mod ranges;
mod rank;
mod ranking;
mod sentences;
mod sequence;
mod slots;
mod states;
mod temporal;
mod types;
mod values;

pub use bounds::{is_between, is_moment, is_small};
pub use changes::{Change, sort_changes};
pub use distances::distance;
pub use domain::in_domain;
pub use hulls::hull;
pub use model::{Model, Parts};
pub use rank::{criteria_count, unrank};
pub use ranking::make_rank;
pub use sched_base::{Boxed, Con, Cum, H, Itv, List, Mat, NUMBER_LIMIT, NoMemory, Seq, Stf};
pub use sentences::{beats, holds, is_solution, value};
pub use slots::Slots;
pub use temporal::is_precedence;
pub use types::{
    Answer, Assignment, CompareOp, Constraint, CumulDef, End, Expr, IntervalDef, MatrixDef, Name,
    Objective, Part, Segment, Sense, SequenceDef, Shape, Slot, Solved, StateDef, Verdict, Window,
};
pub use values::value_in;
