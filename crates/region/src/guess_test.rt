//! Whether something refutes a region under a guess, however this is found.
ghost use Rattle.std.specs.Prelude.{◌≡◌, IsTrue};
ghost use Rattle.sched_model.specs.Words.{passes_if_any};
ghost use Rattle.region.specs.Guesses.{admits};
ghost use Rattle.region.specs.Looks.{IsRegionOf, seen_at};

use crate::refuter::Refuter;
use crate::region::Region;
use crate::tightening::refutes;
use crate::types::Guess;
use sched_model::Model;

/// Whether something refutes a region under a guess: by the row of a witness, or from what a
/// propagator keeps of it.
pub trait GuessTest {
    ghost use Rattle.std.specs.Prelude.{◌≡◌, Bool, Option, IsTrue};
    ghost use Rattle.sched_model.specs.Words.{passes_if_any};
    ghost use Rattle.region.specs.Cells.{Region as Cells};
    ghost use Rattle.region.specs.Guesses.{admits};
    ghost use Rattle.region.specs.declared.types.Guess.{Guess as Guessed};

    /// The region that it tests.
    ghost region: { Self → Cells };

    /// Whether it may be asked.
    ghost is_ready: { Self → Type 0 };

    ghost refuting: { Self → Option Guessed → Bool };

    /// Whether the region is refuted under the guess, or as it stands.
    fn refutes(&self, guess: Option<Guess>) -> bool
        requires ready { is_ready self.now }
        requires admitted { IsTrue (passes_if_any (admits (region self.now)) guess) }
        ensures { result ≡ refuting self.now guess };

    /// How far the guess can mostly be moved and stay refuted. Nothing rests on it: it only tells where
    /// to look first.
    fn reach(&self, guess: Guess) -> Option<u64>
        requires ready { is_ready self.now }
        requires admitted { IsTrue (admits (region self.now) guess) };
}

/// The test by the row of a witness.
#[derive(Drop)]
pub struct RowTest<'a, X: Refuter> {
    pub model: &'a Model,
    pub region: &'a Region,
    pub best: Option<i64>,
    pub witness: &'a X::Witness,
}

impl<'a, X: Refuter> GuessTest for RowTest<'a, X> {
    ghost region = { λ t. t.region.now.region };

    ghost is_ready = { λ t. IsRegionOf t.model.now t.region.now.region };

    ghost refuting = { λ t guess. X.refuting t.model.now (seen_at t.region.now.region t.best guess) t.witness.now };

    fn refutes(&self, guess: Option<Guess>) -> bool {
        refutes::<X>(self.model, self.region, self.best, guess, self.witness)
    }

    fn reach(&self, guess: Guess) -> Option<u64> {
        let look = self.region.look(Some(guess), self.best);
        X::excess(self.model, &look, self.witness)?.checked_sub(1)
    }
}
