use sched_base::List;

/// A solution that a log has: how many nodes were opened by then, and the value of the objective, where
/// the model has one.
#[derive(Clone, Copy, Debug, PartialEq, Eq)]
pub struct FoundAt {
    pub nodes: u64,
    pub value: Option<i64>,
}

/// How many lines of each kind a log has, how many splits stood above a node at most, and its solutions
/// in their order.
#[derive(Debug, Drop)]
pub struct Counts {
    pub derived: u64,
    pub failed: u64,
    pub split: u64,
    pub solved: u64,
    pub restarted: u64,
    pub depth: u64,
    pub found: List<FoundAt>,
}
