use sched_base::{Mat, Seq};

/// A sequence without overlap, and the number of the constraint that says so.
#[derive(Clone, Copy, Debug, PartialEq, Eq)]
pub struct Disjunctive {
    pub c: u32,
    pub p: Seq,
    pub matrix: Option<Mat>,
    pub direct: bool,
}
