ghost use Rattle.std.specs.Prelude.{◌≡◌, ◌∷◌, [], None, IsTrue, IfOk, OnOk, OnErr, IsSome, is_some, option_map, option_to_list, ◌++◌};
ghost use Rattle.sched_model.specs.Valid.{IsValid};
ghost use Rattle.sched_model.specs.Words.{passes};
ghost use Rattle.region.specs.Cells.{root};
ghost use Rattle.region.specs.Guesses.{admits, splits, with_fact};
ghost use Rattle.kernel.specs.Agenda.{first_of, behind, parts_of};

use crate::open_regions::{Going, Open};
use crate::pending::Pending;
use region::{Fact, Guess, Region};
use sched_base::NoMemory;
use sched_model::Model;
use std::alloc::Global;

/// What the cells hold.
#[derive(Clone, Copy, Debug, PartialEq, Eq)]
pub enum Stage {
    /// The current region.
    Current,
    /// The first region that waits, and none is current.
    Waiting,
    /// No region is left.
    Done,
}

/// The current region and those that wait: one region with saves, and what waits behind it.
#[derive(Drop)]
pub struct Agenda {
    region: Region,
    pending: Pending,
    stage: Stage,
}

impl std::marker::Model for Agenda {
    ghost use Rattle.kernel.specs.Agenda.{Open, shown};
    ghost use Rattle.kernel.specs.code.Pending.{ArePending, after_saved};

    ghost Value = { Open };

    ghost view = { λ a. shown a.stage a.region.region (after_saved a.region.saved a.pending) };

    ghost invariant = { λ a. ArePending a.region a.pending };
}

impl Agenda {
    /// The root of the model waits.
    pub fn new(alloc: Global, model: &Model) -> Result<Agenda, NoMemory>
        ensures value { IfOk result (λ a. a ≡ record { current = None; waiting = root model.now ∷ [] }) }
        ensures valid { IsValid model.now }
    {
        // The model is valid by its type.
        let _ = model.intervals();
        Ok(Agenda {
            region: Region::root(alloc, model)?,
            pending: Pending::new(alloc),
            stage: Stage::Waiting,
        })
    }

    /// Whether a region is current.
    pub fn is_current(&self) -> bool
        ensures { result ≡ is_some self.now.current }
    {
        self.stage == Stage::Current
    }

    /// The current region, or else the first that waits.
    pub fn first(&self) -> Option<&Region>
        ensures { option_map (λ r. r.now.region) result ≡ first_of self.now }
    {
        if self.stage == Stage::Done {
            return None;
        }
        Some(&self.region)
    }

    /// The first region learns the fact of the guess, and is current.
    pub fn learn(&mut self, g: Guess) -> Result<(), NoMemory>
        requires { IsTrue (passes (λ r. admits r g) (first_of self.old)) }
        ensures ok { OnOk result (self.new ≡ record { current = option_map (with_fact g) (first_of self.old); waiting = behind self.old }) }
        ensures err { OnErr result (self.new ≡ self.old) }
    {
        self.region.learn(Fact(g))?;
        self.stage = Stage::Current;
        Ok(())
    }

    /// In place of the first region its two parts wait, the one with the guess first.
    pub fn split(&mut self, g: Guess) -> Result<(), NoMemory>
        requires { IsTrue (passes (λ r. splits r g) (first_of self.old)) }
        ensures ok { OnOk result (self.new ≡ record { current = None; waiting = parts_of g (first_of self.old) ++ behind self.old }) }
        ensures err { OnErr result (self.new ≡ self.old) }
    {
        let _ = self.pending.split(&mut self.region, g)?;
        self.stage = Stage::Waiting;
        Ok(())
    }

    /// The first region goes.
    pub fn close(&mut self)
        requires { IsSome (first_of self.old) }
        ensures { self.new ≡ record { current = None; waiting = behind self.old } }
    {
        if self.pending.next(&mut self.region).is_none() {
            self.stage = Stage::Done;
            return;
        }
        self.stage = Stage::Waiting;
    }

    /// All regions go, and the root of the model waits.
    pub fn restart(&mut self, alloc: Global, model: &Model) -> Result<(), NoMemory>
        ensures ok { OnOk result (self.new ≡ record { current = None; waiting = root model.now ∷ [] }) }
        ensures err { OnErr result (self.new ≡ self.old) }
    {
        self.region = Region::root(alloc, model)?;
        self.pending = Pending::new(alloc);
        self.stage = Stage::Waiting;
        Ok(())
    }

    /// The regions, to be gone through once.
    pub fn into_open(self, best: Option<i64>) -> Open
        ensures { result ≡ record { front = None; behind = option_to_list self.current ++ self.waiting; best = best } }
    {
        let Agenda {
            region,
            pending,
            stage,
        } = self;
        match stage {
            Stage::Current => Open::new(region, pending, Going::Ahead, best),
            Stage::Waiting => Open::new(region, pending, Going::Ahead, best),
            Stage::Done => Open::new(region, pending, Going::Done, best),
        }
    }

    /// All regions go.
    pub fn clear(&mut self)
        ensures { self.new ≡ record { current = None; waiting = [] } }
    {
        self.stage = Stage::Done;
    }
}
