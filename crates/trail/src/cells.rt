ghost use Rattle.std.specs.Prelude.{◌≡◌, ◌+◌, ◌≤◌, ◌<◌, ◌++◌, ◌∷◌, [], length, IfOk, IsOk, OnOk, OnErr, slice_set, slice_index_or, ℤ};
ghost use Rattle.trail.specs.code.Trail.{Regains};

use crate::entry::Entry;
use crate::log::Log;
use crate::saves::{put, rewind};
use sched_base::NoMemory;
use std::alloc::Global;
use std::marker::Model;

/// A list of numbers with a stack of saved lists. Behind it stands one log of the saves and of the
/// numbers that were written over since the first of them; its spare entries are what it can take
/// before it asks for memory. Reading, writing and saving cost a constant, going back costs what
/// was written since the save.
#[derive(Drop)]
pub struct Cells {
    list: Vec<i64>,
    log: Log,
    saves: usize,
}

impl Model for Cells {
    ghost use Rattle.std.specs.Prelude.{◌≡◌, ◌-◌, length};
    ghost use Rattle.trail.specs.code.Trail.{Trail};
    ghost use Rattle.trail.specs.code.Entries.{IsLog, promises, saved_lists};

    ghost Value = { Trail };

    ghost view = { λ c. record {
      list = c.list.items;
      saved = saved_lists c.log.items c.list.items;
      promised = promises c.log.items;
      spare = c.log.room - length c.log.items;
    } };

    ghost invariant = { λ c. IsLog (length c.list.items) c.log.room c.log.items
        × (c.saves ≡ length (promises c.log.items)) };
}

impl Cells {
    /// Cells that hold these numbers, with no save.
    pub fn new(alloc: Global, first: &[i64]) -> Result<Cells, NoMemory>
        ensures { IfOk result (λ c. c
            ≡ record { list = first.now; saved = []; promised = []; spare = c.spare }) }
    {
        Ok(Cells {
            list: Vec::from_slice(alloc, first)?,
            log: Log::new(alloc)?,
            saves: 0,
        })
    }

    pub fn len(&self) -> usize
        ensures { result ≡ length self.now.list }
    {
        self.list.len()
    }

    pub fn as_slice(&self) -> &[i64]
        ensures { result.now ≡ self.now.list }
    {
        self.list.as_slice()
    }

    /// One cell.
    pub fn get(&self, i: usize) -> i64
        requires { i < length self.now.list }
        ensures { (default : ℤ) → result ≡ slice_index_or self.now.list i default }
    {
        self.list[i]
    }

    /// Writes one cell. Without a save it takes no memory.
    #[tactic(auto, using(crate::proofs::Saved::log_written, crate::proofs::Saved::log_set, crate::proofs::Saved::log_grown, crate::proofs::Saved::lists_written, crate::proofs::Saved::lists_unsaved, crate::proofs::Saved::promises_write, crate::proofs::Saved::saved_count))]
    pub fn set(&mut self, i: usize, v: i64) -> Result<(), NoMemory>
        requires { i < length self.old.list }
        ensures ok { OnOk result (self.new
            ≡ record self.old { list = slice_set self.old.list i v; spare = self.new.spare }) }
        ensures err { OnErr result (self.new ≡ self.old) }
        ensures spends { self.old.spare ≤ self.new.spare + 1 }

        // Where it can't be refused.
        ensures given { 0 < self.old.spare → IsOk result }
        ensures unsaved { self.old.saved ≡ [] → IsOk result × (self.new.spare ≡ self.old.spare) }
    {
        if self.saves == 0 {
            self.list[i] = v;
            return Ok(());
        }
        let was = self.list[i];
        put(&mut self.log, Entry::Write { cell: i, was })?;
        self.list[i] = v;
        Ok(())
    }

    /// Puts the list on the stack of saved lists.
    #[tactic(auto, using(crate::proofs::Saved::log_saved, crate::proofs::Saved::log_grown, crate::proofs::Saved::saved_save, crate::proofs::Saved::promises_save, crate::proofs::Saved::promises_within))]
    pub fn save(&mut self) -> Result<(), NoMemory>
        ensures ok { OnOk result (self.new ≡ record self.old {
          saved = self.old.saved ++ self.old.list ∷ [];
          promised = self.old.promised ++ self.old.spare ∷ [];
          spare = self.new.spare;
        }) }
        ensures err { OnErr result (self.new ≡ self.old) }
        ensures spends { self.old.spare ≤ self.new.spare + 1 }
        ensures given { 0 < self.old.spare → IsOk result }
    {
        let spare = self.spare();
        put(&mut self.log, Entry::Save { spare })?;
        self.saves += 1;
        Ok(())
    }

    /// Takes the list that was saved last from the stack.
    #[tactic(auto, using(crate::proofs::Saved::saved_count))]
    pub fn undo(&mut self)
        requires { 0 < length self.old.saved }
        ensures list { self.old.saved ≡ self.new.saved ++ self.new.list ∷ [] }
        ensures spare { Regains self.old self.new }
    {
        rewind(&mut self.list, &mut self.log);
        self.saves -= 1;
    }

    /// Makes room for so many entries.
    #[tactic(auto, using(crate::proofs::Saved::log_grown))]
    pub fn reserve(&mut self, n: usize) -> Result<(), NoMemory>
        ensures ok { OnOk result (n ≤ self.new.spare) }
        ensures same { self.new ≡ record self.old { spare = self.new.spare } }
        ensures grows { self.old.spare ≤ self.new.spare }
        ensures given { n ≤ self.old.spare → IsOk result }
    {
        while self.log.room() - self.log.len() < n {
            self.log.grow()?;
        }
        Ok(())
    }

    /// How many entries the log takes before it asks for memory.
    pub fn spare(&self) -> usize
        ensures { result ≡ self.now.spare }
    {
        self.log.room() - self.log.len()
    }

    /// How many lists are saved.
    #[tactic(auto, using(crate::proofs::Saved::saved_count))]
    pub fn saves(&self) -> usize
        ensures { result ≡ length self.now.saved }
    {
        self.saves
    }
}
