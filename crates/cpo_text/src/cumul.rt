use crate::tree::Int;
use sched_base::List;

/// A part of a cumulative expression: a function by its name, or a contribution. `Pulse` has the
/// moments from which and before which it holds and its height, `PulseOf` an interval and a height;
/// `Step` has a moment and a height, `StepAtStart` and `StepAtEnd` an interval and a height.
#[derive(Drop)]
pub enum Cpart {
    Named(List<u8>),
    Pulse(Int, Int, Int),
    PulseOf(List<u8>, Int),
    Step(Int, Int),
    StepAtStart(List<u8>, Int),
    StepAtEnd(List<u8>, Int),
}

/// A part with its sign. Under a minus it is subtracted.
#[derive(Drop)]
pub struct Signed {
    pub minus: bool,
    pub part: Cpart,
}

/// A sum of parts: the first part and the others. `first.minus` is a minus that is written; a plus
/// isn't written before the first part.
#[derive(Drop)]
pub struct Cumul {
    pub first: Signed,
    pub more: List<Signed>,
}
