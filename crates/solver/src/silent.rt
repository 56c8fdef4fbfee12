ghost use Rattle.std.specs.Prelude.{◌≡◌, length, IsTrue, IfOk, OnOk, IfSome};
ghost use Rattle.sched_model.specs.Data.{Data};
ghost use Rattle.region.specs.Guesses.{splits};
ghost use Rattle.kernel.specs.Steps.{best_of};
ghost use Rattle.engine.specs.code.Engines.{AreQuiet};
ghost use Rattle.engine.specs.Runs.{Ends};
ghost use Rattle.solver.specs.code.Searching.{HasValue, IsHolding, IsReady};

use crate::order::cut_orders;
use crate::silence::Silence;
use crate::state::Search;
use branching::Guide;
use engine::{EngineFault, Propagator, Stop};
use kernel::{Found, Pending};
use region::Guess;
use sched_base::{List, NoMemory};
use sched_model::{Assignment, Model};
use std::alloc::Global;

/// An assignment of nothing, in the place of one that isn't looked at.
fn nothing(alloc: Global) -> Assignment {
    Assignment {
        slots: List::new(alloc),
        orders: List::new(alloc),
        segs: List::new(alloc),
    }
}

/// A value that is to be beaten, without its schedule; none where the model has no objective.
fn nothing_of(alloc: Global, model: &Model, value: Option<i64>) -> Option<Found>
    ensures { IfSome result (HasValue model.now) }
{
    if model.objective().is_none() || value.is_none() {
        return None;
    }
    Some(Found {
        assignment: nothing(alloc),
        value,
    })
}

impl<P: Propagator> Search<P> {
    /// Looks for what is better than a value, at the region as it is.
    pub fn aim(&mut self, alloc: Global, model: &Model, value: Option<i64>)
        ensures ready { IsReady P.Propagator model.now self.old → IsReady P.Propagator model.now self.new }
        ensures holding { IsHolding P.Propagator model.now self.old → IsHolding P.Propagator model.now self.new }
    {
        self.found = nothing_of(alloc, model, value);
        self.engine.wake_best();
    }

    /// Goes back to the one region that was saved. Nothing waits then.
    fn go_to_saved(&mut self, alloc: Global)
        requires holding { (m : Data) × IsHolding P.Propagator m self.old }
        requires one { length self.old.marks.items ≡ 1 }
        ensures { (m : Data) → IsHolding P.Propagator m self.old → IsReady P.Propagator m self.new }
    {
        let Some(mark) = self.marks.pop() else {
            return;
        };
        self.region.undo();
        self.pending = Pending::new(alloc);
        self.intervals.restore(mark.count);
        self.rouse(mark);
    }

    /// Goes back to the first region that was saved; whether there is one.
    pub fn unwind(&mut self, alloc: Global, model: &Model) -> bool
        requires { IsHolding P.Propagator model.now self.old }
        ensures ready { IsTrue result → IsReady P.Propagator model.now self.new }
        ensures holding { IsHolding P.Propagator model.now self.new }
    {
        // Called for its clause alone.
        let _ = model.intervals();
        for _k in 1..self.marks.len() {
            if !self.back() {
                return false;
            }
        }
        if self.marks.len() != 1 {
            return false;
        }
        self.go_to_saved(alloc);
        true
    }

    /// Narrows the region to what a guess allows.
    pub fn narrow(&mut self, model: &Model, guess: Guess) -> Result<(), NoMemory>
        requires ready { IsReady P.Propagator model.now self.old }
        requires splits { IsTrue (splits self.old.region.region guess) }
        ensures { OnOk result (IsReady P.Propagator model.now self.new) }
    {
        let cell = self.region.assume(guess)?;
        self.engine.wake(cell);
        Ok(())
    }

    /// Derives what follows at the region, without a log. None where there is so much that the region
    /// is given up.
    pub fn derive_silently(
        &mut self,
        model: &Model,
        silence: &mut Silence,
    ) -> Result<Option<Stop>, NoMemory>
        requires { IsReady P.Propagator model.now self.old }
        ensures ready { IfOk result (λ o. IfSome o (λ stop. IsReady P.Propagator model.now self.new)) }
        ensures holding { OnOk result (IsHolding P.Propagator model.now self.new) }
        ensures stop { IfOk result (λ o. IfSome o (Ends (AreQuiet P.Propagator model.now self.new.region.region (best_of self.new.found)) model.now (best_of self.new.found) self.new.region.region)) }
    {
        let best = self.best();
        match self.engine.run(model, &mut self.region, best, silence) {
            Ok(stop) => Ok(Some(stop)),
            Err(EngineFault::Lines) => Ok(None),
            Err(EngineFault::NoMemory) => Err(NoMemory),
        }
    }

    /// A guess that splits the region, by a rule that isn't bound to the middle and may follow a schedule;
    /// none where it is settled.
    pub fn choose_freely(&mut self, model: &Model, schedule: Option<&Assignment>) -> Option<Guess>
        requires { IsReady P.Propagator model.now self.old }
        ensures ready { IsReady P.Propagator model.now self.new }
        ensures same { self.new ≡ record self.old { intervals = self.new.intervals } }
        ensures some { IfSome result (λ g. IsTrue (splits self.old.region.region g)) }
    {
        let cut = self.intervals.sift(model, &self.region.look(None, None));
        let guide = Guide {
            schedule,
            straight: false,
        };
        self.intervals.offer(model, &self.region, &guide, true, 1);
        if let Some(guess) = self.intervals.pick(0) {
            if self.region.splits(guess) {
                return Some(guess);
            }
        }
        if cut.is_some() {
            return cut;
        }
        cut_orders(model, &self.region.look(None, None))
    }
}
