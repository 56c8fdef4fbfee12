/// Whether an interval is in the schedule.
#[derive(Clone, Copy, Debug, PartialEq, Eq)]
pub enum Presence {
    Absent,
    Maybe,
    Present,
}

/// What a pass reads of a member of a sequence. Moments run from `-H` to `H`; with time turned round
/// the numbers are those of the mirror.
#[derive(Clone, Copy, Debug)]
pub struct Row {
    /// The earliest start.
    pub est: i64,
    /// The least size.
    pub p: i64,
    /// The latest start; for a pass that asks about a guess on the start, under that guess.
    pub lst: i64,
    /// The earliest completion.
    pub ect: i64,
    /// The latest completion.
    pub lct: i64,
    pub presence: Presence,
    /// For `late_pass`, the latest start under the guess that is asked about.
    pub bar: i64,
    /// For `late_pass`, the earliest completion under that guess.
    pub reach: i64,
}
