ghost use Rattle.std.specs.List.Sorted.{IsPermutation};
ghost use Rattle.energy_pass.specs.code.Rows.{IsByEst};

/// A bar: what is known of a present interval on a resource. It starts at `est` at the earliest,
/// completes by `lct`, and takes at least `energy`, units of the resource by time.
#[derive(Clone, Copy, Debug, PartialEq, Eq)]
pub struct Row {
    pub est: i64,
    pub lct: i64,
    pub energy: i128,
}

/// The bars that start at `start` or later and complete by `end`.
#[derive(Clone, Copy, Debug, PartialEq, Eq)]
pub struct Cut {
    pub start: i64,
    pub end: i64,
}

/// Puts rows in the order of their earliest starts.
pub fn sort_rows(rows: &mut [Row])
    ensures moved { IsPermutation rows.old rows.new }
    ensures by_est { IsByEst rows.new }
{
    rows.sort_unstable_by_key(|r| r.est);
}
