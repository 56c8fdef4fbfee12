use engine::Lines;
use kernel::{Line, NoWitness};
use sched_base::Failed;

/// A place where lines are dropped, at most so many.
#[derive(Clone, Copy, Debug)]
pub struct Silence {
    left: u64,
    /// How many were refused.
    refused: u64,
}

impl Silence {
    /// There is room for so many.
    pub fn new(left: u64) -> Silence {
        Silence { left, refused: 0 }
    }

    /// For how many more there is room.
    pub fn left(&self) -> u64 {
        self.left
    }
}

impl Lines for Silence {
    ghost use Rattle.std.specs.Prelude.{◌≡◌, false};
    ghost use Rattle.std.proofs.Common.{refl, sym, ◌∙◌};

    ghost faults = { λ a. a.refused };

    ghost calm = { λ a. false };

    ghost ready = { λ a. Unit {0} };

    ghost puts = { λ a xs b. a.refused ≡ b.refused };

    ghost breaks = { λ a xs x b. Unit {0} };

    fn put(&mut self, _: &Line<NoWitness>) -> Result<(), Failed> {
        if self.left == 0 {
            self.refused = self.refused.saturating_add(1);
            return Err(Failed);
        }
        self.left -= 1;
        Ok(())
    }

    ghost none = { λ a. refl };

    ghost more = { λ a b c xs ys first rest. first ∙ rest };

    ghost then_breaks = { λ a b c xs ys x first rest. tt };

    ghost stays_ready = { λ a b xs is ready. tt };

    ghost stays_calm = { λ a b xs is. refl };

    ghost same_faults = { λ a b xs is. sym is };
}
