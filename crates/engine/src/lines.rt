use kernel::{Line, NoWitness};
use sched_base::Failed;

/// Where an engine puts the lines that derive.
pub trait Lines {
    ghost use Rattle.std.specs.Prelude.{◌≡◌, ◌∷◌, ◌++◌, [], ℕ, Bool, List, true, IsTrue, IsOk, OnOk, OnErr};
    ghost use Rattle.sched_base.specs.Calls.{Rose};
    ghost use Rattle.kernel.specs.Fit.{is_fit};
    ghost use Rattle.kernel.specs.NoExtra.{is_valid};
    ghost use Rattle.engine.specs.Plain.{Plain};

    /// How often it failed.
    ghost faults: { Self → ℕ };

    /// Whether it never fails.
    ghost calm: { Self → Bool };

    /// Whether lines can be put.
    ghost ready: { Self → Type 0 };

    /// From the first state these lines were put, one after another, and none failed, and the second
    /// is the state then.
    ghost puts: { Self → List Plain → Self → Type 0 };

    /// From the first state these lines were put, then the put of one more failed, and the second is
    /// the state then.
    ghost breaks: { Self → List Plain → Plain → Self → Type 0 };

    /// Puts a line that a log may hold.
    fn put(&mut self, line: &Line<NoWitness>) -> Result<(), Failed>
        requires ready { ready self.old }
        requires fit { IsTrue (is_fit is_valid line.now) }
        ensures ok { OnOk result (puts self.old (line.now ∷ []) self.new) }
        ensures broke { OnErr result (breaks self.old [] line.now self.new) }
        ensures rose { OnErr result (Rose (faults self.old) (faults self.new)) }
        ensures calm { calm self.old ≡ true → IsOk result };

    ghost none: { (a : Self) → puts a [] a };

    ghost more: { (a b c : Self) (xs ys : List Plain) → puts a xs b → puts b ys c → puts a (xs ++ ys) c };

    ghost then_breaks: { (a b c : Self) (xs ys : List Plain) (line : Plain) → puts a xs b → breaks b ys line c → breaks a (xs ++ ys) line c };

    ghost stays_ready: { (a b : Self) (xs : List Plain) → puts a xs b → ready a → ready b };

    ghost stays_calm: { (a b : Self) (xs : List Plain) → puts a xs b → calm b ≡ calm a };

    ghost same_faults: { (a b : Self) (xs : List Plain) → puts a xs b → faults b ≡ faults a };
}
