use crate::tree::Int;
use sched_base::{Boxed, List};

/// What is asked of an interval.
#[derive(Clone, Copy)]
pub enum Measure {
    StartOf,
    EndOf,
    SizeOf,
    LengthOf,
}

/// What is made of a list of expressions.
#[derive(Clone, Copy)]
pub enum Gather {
    Max,
    Min,
    Sum,
}

/// A sign that joins two operands or more in one node: `*`, `&&`, `||`.
#[derive(Clone, Copy)]
pub enum Link {
    Times,
    And,
    Or,
}

/// The sign of a comparison.
#[derive(Clone, Copy)]
pub enum Comparison {
    Equal,
    NotEqual,
    AtMost,
    AtLeast,
    Below,
    Above,
}

/// An expression as it is written, with its round brackets. `Measured` may have a number that
/// stands in where the interval is absent.
#[derive(Drop)]
pub enum Logic {
    Lit(Option<u64>),
    Group(Boxed<Logic>),
    PresenceOf(List<u8>),
    Measured(Measure, List<u8>, Option<Int>),
    Gathered(Gather, List<Logic>),
    Linked(Link, List<Logic>),
    Neg(Boxed<Logic>),
    Sum(List<Logic>),
    Compare(Comparison, Boxed<Logic>, Boxed<Logic>),
    Not(Boxed<Logic>),
    Implies(Boxed<Logic>, Boxed<Logic>),
}
