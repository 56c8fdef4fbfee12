/// The most tasks that a tree takes.
pub const MAX_TASKS: usize = 500;

/// A task that runs without a break on the machine: it starts at `est` at the earliest and takes
/// time `p`.
#[derive(Clone, Copy, Debug, PartialEq, Eq)]
pub struct Task {
    pub est: i64,
    pub p: i64,
}

/// What part a task has in the sets that a tree looks at.
#[derive(Clone, Copy, Debug, PartialEq, Eq)]
pub enum Colour {
    /// It is in no set.
    Out,
    /// It is in theta: in any set.
    White,
    /// It is in lambda: in a set that has no other gray task.
    Gray,
}
