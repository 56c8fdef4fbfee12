//! How the preparation begins: with schedules that other rules find.
ghost use Rattle.std.specs.Prelude.{◌≡◌, OnOk};
ghost use Rattle.solver.specs.code.Searching.{IsHolding};

use crate::rehearsal::{Ending, Limits, Rehearsal};
use branching::{Pole, Soonest};
use engine::Propagator;
use sched_base::{Itv, NoMemory};
use sched_model::{Assignment, Model, beats};
use std::alloc::Global;

/// A start that goes straight for a schedule ends after so many refuted regions.
const REFUTED: u64 = 200;

/// How far the preparation has come.
#[derive(Clone, Copy, Debug)]
pub struct Budget {
    /// The nodes in all.
    pub whole: u64,
    /// Those that are left.
    pub left: u64,
    /// Whether they are for the first schedule alone.
    pub is_short: bool,
    /// Whether nothing is left to look for, or what was found is enough.
    pub is_over: bool,
}

impl Budget {
    pub fn spend(&mut self, nodes: u64) {
        self.left = self.left.saturating_sub(nodes.max(1));
    }

    /// Those that one start may have.
    fn for_one(&self) -> u64 {
        if self.is_short {
            return self.left;
        }
        self.left / 2
    }

    fn used(&self) -> u64 {
        self.whole.saturating_sub(self.left)
    }
}

/// The best schedule so far.
#[derive(Drop)]
struct Kept {
    schedule: Option<Assignment>,
    value: Option<i64>,
    is_found: bool,
}

impl<P: Propagator> Rehearsal<P> {
    /// Puts the best schedule aside, so that the next one is looked for as if there were none.
    fn put_aside(&mut self, alloc: Global, model: &Model) -> Kept
        requires { IsHolding P.Propagator model.now self.old.search }
        ensures { IsHolding P.Propagator model.now self.new.search }
    {
        let kept = Kept {
            schedule: self.guide.take(),
            value: self.best,
            is_found: self.is_found,
        };
        self.best = None;
        self.is_found = false;
        self.search.aim(alloc, model, None);
        kept
    }

    /// Takes the schedule that was put aside, unless the new one is better.
    fn keep_better(&mut self, model: &Model, kept: Kept)
        ensures { self.new.search ≡ self.old.search }
    {
        let Kept {
            schedule,
            value,
            is_found,
        } = kept;
        if self.is_better_than(model, value, is_found) {
            return;
        }
        self.guide = schedule;
        self.best = value;
        self.is_found = is_found;
    }

    /// Takes the better one of two schedules, the one that was put aside if they are alike.
    fn take_back(&mut self, alloc: Global, model: &Model, kept: Kept)
        requires { IsHolding P.Propagator model.now self.old.search }
        ensures { IsHolding P.Propagator model.now self.new.search }
    {
        self.keep_better(model, kept);
        self.search.aim(alloc, model, self.best);
    }

    /// Whether the schedule of a start is better than the one that was put aside.
    fn is_better_than(&self, model: &Model, value: Option<i64>, is_found: bool) -> bool {
        if !self.is_found || !is_found {
            return self.is_found;
        }
        match (model.objective(), self.best, value) {
            (Some(objective), Some(new), Some(old)) => beats(objective.sense, new, old),
            _ => false,
        }
    }

    /// One start, as if there were no schedule yet.
    fn start(
        &mut self,
        alloc: Global,
        model: &Model,
        rule: Option<Soonest>,
        limits: Limits,
        budget: &mut Budget,
    ) -> Result<Ending, NoMemory>
        requires { IsHolding P.Propagator model.now self.old.search }
        ensures { OnOk result (IsHolding P.Propagator model.now self.new.search) }
    {
        let kept = self.put_aside(alloc, model);
        self.begin(alloc, model, rule)?;
        let ending = self.run(alloc, model, limits)?;
        budget.spend(self.spent);
        self.take_back(alloc, model, kept);
        Ok(ending)
    }

    /// A start that goes straight for a schedule.
    fn go_straight(
        &mut self,
        alloc: Global,
        model: &Model,
        is_wished: bool,
        budget: &mut Budget,
    ) -> Result<(), NoMemory>
        requires { IsHolding P.Propagator model.now self.old.search }
        ensures { OnOk result (IsHolding P.Propagator model.now self.new.search) }
    {
        let most = (model.intervals().len() as u64)
            .saturating_mul(5)
            .saturating_add(200);
        let rule = Soonest {
            is_wished,
            is_absent: is_wished && !self.is_found,
        };
        let limits = Limits {
            nodes: most.min(budget.for_one()),
            refuted: REFUTED,
            first: true,
        };
        if limits.nodes == 0 {
            return Ok(());
        }
        let ending = self.start(alloc, model, Some(rule), limits, budget)?;
        // Such a start ends at its first schedule, so where none is left there is none.
        if ending == Ending::Exhausted && !self.is_found {
            budget.is_over = true;
        }
        Ok(())
    }

    /// A start by the rule that looks at everything, until a region is refuted.
    fn go_down(&mut self, alloc: Global, model: &Model, budget: &mut Budget) -> Result<(), NoMemory>
        requires { IsHolding P.Propagator model.now self.old.search }
        ensures { OnOk result (IsHolding P.Propagator model.now self.new.search) }
    {
        let limits = Limits {
            nodes: (budget.left / 2).saturating_add(1),
            refuted: 1,
            first: false,
        };
        let ending = self.start(alloc, model, None, limits, budget)?;
        if ending == Ending::Exhausted && self.is_found {
            budget.is_over = true;
        }
        Ok(())
    }

    /// Whether a schedule is enough.
    pub fn is_enough(&self, model: &Model) -> bool {
        self.is_found && model.objective().is_none()
    }

    /// Whether the objective wants each interval soon, so that two rules come to the same schedule.
    fn wishes_all_soon(&self, model: &Model) -> bool {
        for n in 0..model.intervals().len() {
            if self.search.intervals.goal().pole(Itv(n as u32)) != Pole::Sooner {
                return false;
            }
        }
        true
    }

    /// Schedules by three rules, of which the best one is kept: each interval as soon as it may be, each
    /// where the objective wishes it, and, where there are few pairs of members of sequences, the
    /// tightest pair first. The first is enough where the preparation is short.
    pub fn make_starts(
        &mut self,
        alloc: Global,
        model: &Model,
        pairs: u64,
        budget: &mut Budget,
    ) -> Result<(), NoMemory>
        requires { IsHolding P.Propagator model.now self.old.search }
        ensures { OnOk result (IsHolding P.Propagator model.now self.new.search) }
    {
        self.go_straight(alloc, model, false, budget)?;
        if budget.is_short && self.is_found {
            budget.is_over = true;
        }
        if budget.is_over || self.is_enough(model) {
            return Ok(());
        }
        if !self.is_found || !self.wishes_all_soon(model) {
            self.go_straight(alloc, model, true, budget)?;
        }
        if budget.is_over || self.is_enough(model) || budget.used() >= budget.whole {
            return Ok(());
        }
        if pairs > budget.whole {
            return Ok(());
        }
        self.go_down(alloc, model, budget)
    }
}
