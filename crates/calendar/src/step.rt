ghost use Rattle.std.specs.Prelude.{◌≡◌};
ghost use Rattle.calendar.specs.Steps.{value_at};

use sched_base::List;

/// From the moment `t` on the value is `v`. Of a closed range, `t` is its first moment and `v` the
/// first behind it, so `v` is H + 1 at most.
#[derive(Clone, Copy, Debug, PartialEq, Eq)]
pub struct Pair {
    pub t: i64,
    pub v: i64,
}

/// A step function: 0 before its first pair, and from the moment of a pair on the value of that
/// pair, up to the next.
///
/// What is said of closed ranges and calendars is said of at most 1,000 pairs, whose moments rise
/// and lie from -H to H, and whose values lie from 0 to 1,000,000.
#[derive(Debug, Drop)]
pub struct StepFn {
    pub pairs: List<Pair>,
}

impl StepFn {
    /// The value at a moment, in time that grows with the number of pairs.
    pub fn at(&self, t: i64) -> i64
        ensures { result ≡ value_at self.now.pairs t }
    {
        let mut value = 0;
        for pair in self.pairs.as_slice() {
            if pair.t <= t {
                value = pair.v;
            }
        }
        value
    }
}
