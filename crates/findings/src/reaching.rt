//! The row of a witness as a test, where it is told how far a guess can mostly be moved.
use region::{Guess, GuessTest, Refuter, Region, RowTest};
use sched_model::Model;

/// The test by the row of a witness, and how far a guess can mostly be moved and stay refuted: no promise
/// hangs on that, it only tells where to look first.
#[derive(Drop)]
pub struct Reaching<'a, X: Refuter> {
    pub model: &'a Model,
    pub region: &'a Region,
    pub best: Option<i64>,
    pub witness: &'a X::Witness,
    pub far: u64,
}

impl<'a, X: Refuter> GuessTest for Reaching<'a, X> {
    ghost use Rattle.region.specs.Looks.{IsRegionOf, seen_at};

    ghost region = { λ t. t.region.now.region };

    ghost is_ready = { λ t. IsRegionOf t.model.now t.region.now.region };

    ghost refuting = { λ t guess. X.refuting t.model.now (seen_at t.region.now.region t.best guess) t.witness.now };

    fn refutes(&self, guess: Option<Guess>) -> bool {
        let test = RowTest::<X> {
            model: self.model,
            region: self.region,
            best: self.best,
            witness: self.witness,
        };
        test.refutes(guess)
    }

    fn reach(&self, _: Guess) -> Option<u64> {
        Some(self.far)
    }
}
