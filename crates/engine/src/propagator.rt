use findings::Finding;
use kernel::{NoWitness, Witness};
use region::{CellName, Region};
use sched_base::{Itv, NoMemory, Seq};
use sched_model::Model;

/// Propagators of one model, by number.
pub trait Propagator: Drop {
    ghost use Rattle.std.specs.Prelude.{◌≡◌, ◌<◌, ℕ, ℤ, Bool, IsTrue, Option, IfOk, IfSome, IfNone};
    ghost use Rattle.sched_model.specs.Data.{Data};
    ghost use Rattle.region.specs.Cells.{Region as Cells};
    ghost use Rattle.region.specs.declared.types.CellName.{CellName};
    ghost use Rattle.region.specs.Guesses.{SameCell};
    ghost use Rattle.region.specs.Looks.{IsRegionOf};
    ghost use Rattle.findings.specs.Found.{IsFinding};
    ghost use Rattle.engine.specs.Plain.{refutes_plain};
    ghost use Rattle.engine.specs.code.Watched.{names_presence, names_bound, names_order};

    /// What it is to be made for a model, and how many there are then.
    ghost is_of: { Self → Data → Type 0 };

    ghost size: { Data → ℕ };

    /// Whether one of them is quiet for a region and a best value.
    ghost quiet: { Data → ℕ → Cells → Option ℤ → Type 0 };

    /// What each watches.
    ghost watching: { Data → ℕ → CellName → Bool };

    ghost watching_best: { Data → ℕ → Bool };

    /// How many there are.
    fn count(&self) -> u32
        ensures { (m : Data) → is_of self.now m → result ≡ size m };

    /// What one of them finds; nothing exactly where it is quiet.
    fn next(
        &mut self,
        k: u32,
        model: &Model,
        region: &Region,
        best: Option<i64>,
    ) -> Result<Option<Finding<Witness<NoWitness>>>, NoMemory>
        requires of { is_of self.old model.now }
        requires below { k < size model.now }
        requires region { IsRegionOf model.now region.now.region }
        ensures kept { is_of self.new model.now }
        ensures none { IfOk result (λ o. IfNone o (quiet model.now k region.now.region best)) }
        ensures some { IfOk result (λ o. IfSome o (λ f. IsFinding refutes_plain model.now region.now.region best f)) }
        ensures busy { IfOk result (λ o. IfSome o (λ f. quiet model.now k region.now.region best → ⊥)) };

    /// Whether it finds nothing now, or what it finds can wait until others are quiet, as is told by a
    /// few comparisons. It may note what it compared. Nothing hangs on the answer.
    fn can_wait(&mut self, k: u32, model: &Model, region: &Region) -> bool
        requires of { is_of self.old model.now }
        ensures kept { is_of self.new model.now };

    /// Notes that a cell isn't as it was. Nothing hangs on it.
    fn note_change(&mut self, cell: CellName)
        ensures kept { (m : Data) → is_of self.old m → is_of self.new m };

    /// Cells may have changed that nothing was told of.
    fn forget_changes(&mut self)
        ensures kept { (m : Data) → is_of self.old m → is_of self.new m };

    /// The intervals whose presence it watches, and perhaps others.
    fn watched_presences(&self, k: u32) -> &[Itv]
        requires { (m : Data) × is_of self.now m × (k < size m) }
        ensures { (m : Data) → is_of self.now m → (c : CellName) → IsTrue (watching m k c) → names_presence result.now c };

    /// The intervals that have a bound which it watches, and perhaps others.
    fn watched_bounds(&self, k: u32) -> &[Itv]
        requires { (m : Data) × is_of self.now m × (k < size m) }
        ensures { (m : Data) → is_of self.now m → (c : CellName) → IsTrue (watching m k c) → names_bound result.now c };

    /// The sequences that have an order which it watches, and perhaps others.
    fn watched_orders(&self, k: u32) -> &[Seq]
        requires { (m : Data) × is_of self.now m × (k < size m) }
        ensures { (m : Data) → is_of self.now m → (c : CellName) → IsTrue (watching m k c) → names_order result.now c };

    /// Whether it watches the best value.
    fn watches_best(&self, k: u32) -> bool
        ensures { (m : Data) → is_of self.now m → result ≡ watching_best m k };

    /// The level on which it is woken; nothing hangs on it.
    fn level(&self, k: u32) -> u8;

    /// Whether it is asked behind all others once it can wait, since it costs most; nothing hangs on it.
    fn is_last(&self, k: u32) -> bool;

    /// Quiet stays quiet where what is watched is the same.
    ghost unwatched: { (m : Data) (k : ℕ) (r q : Cells) (b c : Option ℤ) → IsRegionOf m r → IsRegionOf m q → ((cell : CellName) → IsTrue (watching m k cell) → SameCell cell r q) → (IsTrue (watching_best m k) → b ≡ c) → quiet m k r b → quiet m k q c };
}
