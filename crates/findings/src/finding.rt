use region::Guess;
use sched_base::{Itv, Seq};

/// What a propagator found: the witness refutes the region under the guess, or as it stands.
#[derive(Debug, Drop)]
pub struct Finding<W> {
    pub guess: Option<Guess>,
    pub witness: W,
}

/// Two members of a sequence, whose order a witness reads. Which is named first doesn't matter.
#[derive(Clone, Copy, Debug, PartialEq, Eq)]
pub struct Pair {
    pub sequence: Seq,
    pub first: Itv,
    pub second: Itv,
}
