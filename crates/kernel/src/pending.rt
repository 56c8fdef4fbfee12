ghost use Rattle.std.specs.Prelude.{◌≡◌, ◌≤◌, ◌∷◌, ◌++◌, [], length, IsTrue, IfOk, OnOk, OnErr, IfSome, IfNone};
ghost use Rattle.region.specs.Guesses.{splits, with_guess, with_fact, guess_cell, guess_holds};
ghost use Rattle.region.specs.Narrows.{Narrows};
ghost use Rattle.region.specs.code.Held.{Held};
ghost use Rattle.kernel.specs.code.Pending.{ArePending, after_saved, Takes};

use region::{CellName, Fact, Guess, Region};
use sched_base::NoMemory;
use std::alloc::Global;

/// The parts of splits that wait behind a region: for each of its saves the guess of that split. The
/// saved region with the fact of the guess is what waits, the newest save first. The region is lent
/// to each call, and between calls it may be narrowed: what is asked of it (`ArePending`) is only
/// about its saves.
#[derive(Drop)]
pub struct Pending {
    guesses: Vec<Guess>,
}

impl std::marker::Model for Pending {
    ghost use Rattle.std.specs.Prelude.{List};
    ghost use Rattle.region.specs.declared.types.Guess.{Guess};

    ghost Value = { List Guess };

    ghost view = { λ p. p.guesses.items };
}

impl Pending {
    /// Nothing waits.
    pub fn new(alloc: Global) -> Pending
        ensures none { result ≡ [] }
        ensures pending { (h : Held) → h.saved ≡ [] → h.promised ≡ [] → ArePending h result }
    {
        Pending {
            guesses: Vec::new(alloc),
        }
    }

    /// How many regions wait.
    pub fn len(&self) -> usize
        ensures count { result ≡ length self.now }
        ensures waiting { (h : Held) → ArePending h self.now → length (after_saved h.saved self.now) ≡ result }
        ensures saves { (h : Held) → ArePending h self.now → length h.saved ≡ result }
    {
        self.plain_len()
    }

    fn plain_len(&self) -> usize
        ensures { result ≡ length self.now }
    {
        self.guesses.len()
    }

    /// Narrows the region to the part with the guess, after a save. The part with the fact waits. The
    /// one cell that changes is answered. Where memory is refused, the region with its saves and what
    /// waits stay; there may be more room for changes.
    pub fn split(&mut self, region: &mut Region, g: Guess) -> Result<CellName, NoMemory>
        requires pending { ArePending region.old self.old }
        requires splits { IsTrue (splits region.old.region g) }
        ensures pending { ArePending region.new self.new }
        ensures cell { IfOk result (λ c. c ≡ guess_cell g) }
        ensures region { OnOk result (region.new.region ≡ with_guess g region.old.region) }
        ensures narrows { OnOk result (Narrows (guess_cell g) (guess_holds g) region.old.region region.new.region) }
        ensures saved { OnOk result (region.new.saved ≡ region.old.saved ++ region.old.region ∷ []) }
        ensures guesses { OnOk result (self.new ≡ self.old ++ g ∷ []) }
        ensures next { OnOk result (after_saved region.new.saved self.new ≡ with_fact g region.old.region ∷ after_saved region.old.saved self.old) }
        ensures err { OnErr result (region.new ≡ record region.old { spare = region.new.spare }) }
        ensures err_spare { OnErr result (region.old.spare ≤ region.new.spare) }
        ensures err_guesses { OnErr result (self.new ≡ self.old) }
    {
        self.guesses.reserve(1)?;
        region.reserve(2)?;
        region.save()?;
        let cell = region.assume(g)?;
        let _ = self.guesses.push(g);
        Ok(cell)
    }

    /// Takes the newest region that waits in place of the region. The one cell in which it differs
    /// from the region that was saved is answered. None where none waits, and then nothing changes.
    /// No memory is needed: each split made room for this.
    pub fn next(&mut self, region: &mut Region) -> Option<CellName>
        requires { ArePending region.old self.old }
        ensures pending { ArePending region.new self.new }
        ensures takes { IfSome result (λ cell. Takes cell region.old region.new self.old self.new) }
        ensures next { IfSome result (λ cell. region.new.region ∷ after_saved region.new.saved self.new ≡ after_saved region.old.saved self.old) }
        ensures none { IfNone result (after_saved region.old.saved self.old ≡ []) }
        ensures none_region { IfNone result (region.new ≡ region.old) }
        ensures none_guesses { IfNone result (self.new ≡ self.old) }
    {
        let g = self.guesses.pop()?;
        region.undo();
        region.learn(Fact(g)).ok()
    }
}
