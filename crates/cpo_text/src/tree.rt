use crate::cumul::Cumul;
use crate::expression::Logic;
use sched_base::List;

/// `[ "-" ] INT`: a number as it is written, so that `-0` and `0` are two trees.
#[derive(Clone, Copy, Debug, PartialEq, Eq)]
pub struct Int {
    pub minus: bool,
    /// The value of the digits, or nothing where it is above 2^62, the bound on literals.
    pub size: Option<u64>,
}

/// `int [ ".." int ]`: one number alone is both ends.
#[derive(Clone, Copy, Debug, PartialEq, Eq)]
pub struct Range {
    pub from: Int,
    pub to: Option<Int>,
}

/// An argument of `intervalVar`.
#[derive(Clone, Copy, Debug, PartialEq, Eq)]
pub enum Ivarg {
    Optional,
    Start(Range),
    End(Range),
    Size(Range),
}

/// `"[" int "," int "]"`: a moment of a step function, and the value from that moment on.
#[derive(Clone, Copy, Debug, PartialEq, Eq)]
pub struct StepPair {
    pub moment: Int,
    pub value: Int,
}

/// What stands behind `NAME =`. `SequenceVar` has the names of its members and, where they are
/// written, their types; `TransitionMatrix` its rows; `StateFunction` the name of a matrix, where
/// one is written; `StepFunction` its pairs, one at least. What is none of these calls is a
/// cumulative expression.
#[derive(Drop)]
pub enum Definition {
    IntervalVar(List<Ivarg>),
    SequenceVar(List<List<u8>>, Option<List<Int>>),
    TransitionMatrix(List<List<Int>>),
    StateFunction(Option<List<u8>>),
    StepFunction(List<StepPair>),
    Cumulative(Cumul),
}

/// The word of a precedence constraint.
#[derive(Clone, Copy)]
pub enum Temporal {
    StartBeforeStart,
    StartBeforeEnd,
    EndBeforeStart,
    EndBeforeEnd,
    StartAtStart,
    StartAtEnd,
    EndAtStart,
    EndAtEnd,
}

/// The word of a constraint on an interval and its parts.
#[derive(Clone, Copy)]
pub enum Hierarchy {
    Span,
    Synchronize,
}

/// What may not overlap: a sequence by its name, or the members of one without a name.
#[derive(Drop)]
pub enum Over {
    Named(List<u8>),
    Listed(List<List<u8>>),
}

/// The name of a matrix and, where it is written, the direct flag.
#[derive(Drop)]
pub struct Spaced {
    pub matrix: List<u8>,
    pub direct: Option<bool>,
}

/// The word of a constraint on one end of a sequence.
#[derive(Clone, Copy)]
pub enum Extreme {
    First,
    Last,
}

/// The word of a constraint on two members of a sequence.
#[derive(Clone, Copy)]
pub enum Order {
    Before,
    Prev,
}

/// The sign of a bound on a cumulative expression.
#[derive(Clone, Copy)]
pub enum Bound {
    AtMost,
    AtLeast,
}

/// When a cumulative expression is bounded: from a moment on and before another, or during an
/// interval.
#[derive(Drop)]
pub enum Moments {
    From(Int, Int),
    During(List<u8>),
}

/// A constraint. `Between` has the names of two intervals and the delay that is asked between
/// them, where one is written. `Parts` has an interval and its parts, `Alternative` also how many of
/// them are chosen, where it is written. `Extreme` has a sequence and a member, `Ordered` a sequence
/// and two members. `AlwaysIn` has the least and the greatest value, `AlwaysEqual` a state function,
/// an interval, a state and, where they are written, whether start and end are aligned;
/// `AlwaysNoState` a state function and an interval. `Holds` is an expression that has to hold.
#[derive(Drop)]
pub enum Constrained {
    Between(Temporal, List<u8>, List<u8>, Option<Int>),
    Parts(Hierarchy, List<u8>, List<List<u8>>),
    Alternative(List<u8>, List<List<u8>>, Option<Int>),
    NoOverlap(Over, Option<Spaced>),
    Extreme(Extreme, List<u8>, List<u8>),
    Ordered(Order, List<u8>, List<u8>, List<u8>),
    Bounded(Cumul, Bound, Int),
    AlwaysIn(Cumul, Moments, Int, Int),
    AlwaysEqual(List<u8>, List<u8>, Int, Option<(bool, bool)>),
    AlwaysNoState(List<u8>, List<u8>),
    Holds(Logic),
}

/// The word of an objective.
#[derive(Clone, Copy)]
pub enum Sense {
    Minimize,
    Maximize,
}

/// What a step function forbids an interval where it is 0: to start, or to last.
#[derive(Clone, Copy)]
pub enum Forbidden {
    Start,
    Extent,
}

/// A statement as it is written, without its semicolon. Names are the bytes of the text. `Forbid`
/// has an interval and a step function; `Rank` expressions of which an earlier one weighs more, one
/// at least.
#[derive(Drop)]
pub enum Statement {
    Empty,
    Define(List<u8>, Definition),
    Constrain(Constrained),
    Forbid(Forbidden, List<u8>, List<u8>),
    Aim(Sense, Logic),
    Rank(Sense, List<Logic>),
}
