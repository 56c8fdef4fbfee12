//! How the preparation goes on: runs that look at everything, and runs in which most of the best
//! schedule is kept, in turn.
ghost use Rattle.std.specs.Prelude.{IsTrue, IfOk, OnOk};
ghost use Rattle.solver.specs.code.Searching.{IsHolding, IsReady};

use crate::aims::Aims;
use crate::luby::Luby;
use crate::neighbourhood::Neighbourhood;
use crate::random::Random;
use crate::rehearsal::{Ending, Limits, Rehearsal};
use crate::starts::Budget;
use engine::Propagator;
use sched_base::NoMemory;
use sched_model::Model;
use std::alloc::Global;

/// So many refuted regions end the shortest run.
const REFUTED: u64 = 100;

/// A neighbourhood is left after so many.
const REFUTED_NEAR: u64 = 60;

/// The other kind takes its turn after so many nodes that brought nothing better.
const IDLE: u64 = 500;

const IDLE_NEAR: u64 = 2_000;

/// The preparation ends after so many, or more where there are few intervals.
const IDLE_IN_ALL: u64 = 10_000;

/// So many, shared among the intervals.
const IDLE_EACH: u64 = 100_000;

/// So many assumptions and lines at a root count as a node.
const ASSUMED: u64 = 300;

/// A run that looks at everything has at least so many nodes.
const LEAST_NODES: u64 = 500;

/// When the search of a neighbourhood ends.
fn limits_near(model: &Model, budget: &Budget) -> Limits {
    let most = (model.intervals().len() as u64)
        .saturating_mul(2)
        .saturating_add(REFUTED_NEAR * 4);
    Limits {
        nodes: most.min(budget.left),
        refuted: REFUTED_NEAR,
        first: false,
    }
}

/// Whether a schedule that is sought for its own sake was sought long enough. The search with a log tries
/// both parts of splits, and so finds sooner that there is none.
fn is_tried(model: &Model, budget: &Budget) -> bool {
    model.objective().is_none() && budget.left < budget.whole / 2
}

/// Whose turn it is, and what is known from one turn to the next.
#[derive(Drop)]
pub struct Turns {
    neighbourhood: Neighbourhood,
    random: Random,
    luby: Luby,
    aims: Option<Aims>,
    /// How many runs looked at everything.
    runs: u64,
    is_near: bool,
    /// By how much a schedule near the best one is to be better.
    step: i64,
    /// How many nodes brought nothing better in this turn, and since the best schedule was found.
    idle: u64,
    idle_in_all: u64,
}

impl Turns {
    /// It begins near the best schedule, or with a run that looks at everything.
    pub fn new(alloc: Global, model: &Model, is_near: bool) -> Result<Turns, NoMemory> {
        Ok(Turns {
            neighbourhood: Neighbourhood::new(alloc, model)?,
            random: Random::new(),
            luby: Luby::new(),
            aims: model.objective().map(|o| Aims::new(o.sense)),
            runs: 0,
            is_near,
            step: 1,
            idle: 0,
            idle_in_all: 0,
        })
    }

    /// Whether every so manieth run is due.
    fn is_due(&self, every: u64) -> bool {
        self.runs > 1 && self.runs % every.max(1) == 0
    }

    /// The other kind of run takes its turn where this one brings nothing; the first that looks at
    /// everything brings nothing.
    fn pass(&mut self) {
        let most = if self.is_near { IDLE_NEAR } else { IDLE };
        if self.idle > most || self.runs == 1 && !self.is_near {
            self.is_near = !self.is_near;
            self.idle = 0;
        }
    }

    /// Counts the nodes of a turn. Without a schedule none is idle.
    fn count(&mut self, spent: u64, is_better: bool) {
        if is_better {
            self.idle = 0;
            self.idle_in_all = 0;
        } else {
            self.idle = self.idle.saturating_add(spent);
            self.idle_in_all = self.idle_in_all.saturating_add(spent);
        }
        self.pass();
    }

    /// Looks at everything; whether anything is left to look for.
    fn look_around<P: Propagator>(
        &mut self,
        alloc: Global,
        model: &Model,
        rehearsal: &mut Rehearsal<P>,
        budget: &Budget,
    ) -> Result<bool, NoMemory>
        requires { IsHolding P.Propagator model.now rehearsal.old.search }
        ensures { OnOk result (IsHolding P.Propagator model.now rehearsal.new.search) }
    {
        self.runs = self.runs.saturating_add(1);
        let limits = Limits {
            nodes: budget.left.min((budget.whole / 8).max(LEAST_NODES)),
            refuted: self.luby.next().saturating_mul(REFUTED),
            first: false,
        };
        rehearsal.follows = !self.is_due(3);
        let more = self.look(alloc, model, rehearsal, limits)?;
        rehearsal.follows = true;
        Ok(more)
    }

    /// Looks at everything, or at what is better than an aim.
    fn look<P: Propagator>(
        &mut self,
        alloc: Global,
        model: &Model,
        rehearsal: &mut Rehearsal<P>,
        limits: Limits,
    ) -> Result<bool, NoMemory>
        requires { IsHolding P.Propagator model.now rehearsal.old.search }
        ensures { OnOk result (IsHolding P.Propagator model.now rehearsal.new.search) }
    {
        if self.is_due(2) {
            if let Some(best) = rehearsal.best {
                return self.run_below(alloc, model, rehearsal, limits, best);
            }
        }
        rehearsal.begin(alloc, model, None)?;
        Ok(rehearsal.run(alloc, model, limits)? != Ending::Exhausted)
    }

    /// The same for what costs less than half way from the least cost to the best.
    fn run_below<P: Propagator>(
        &mut self,
        alloc: Global,
        model: &Model,
        rehearsal: &mut Rehearsal<P>,
        limits: Limits,
        best: i64,
    ) -> Result<bool, NoMemory>
        requires { IsHolding P.Propagator model.now rehearsal.old.search }
        ensures { OnOk result (IsHolding P.Propagator model.now rehearsal.new.search) }
    {
        let Some(mut aims) = self.aims else {
            return Ok(true);
        };
        let Some(cost) = aims.middle(alloc, model, rehearsal, best)? else {
            return Ok(false);
        };
        rehearsal.begin(alloc, model, None)?;
        rehearsal.search.aim(alloc, model, Some(aims.above(cost)));
        let ending = rehearsal.run(alloc, model, limits)?;
        let is_better = rehearsal.best != Some(best);
        let is_exhausted = ending == Ending::Exhausted;
        if is_exhausted && !is_better {
            aims.raise(cost);
        }
        rehearsal.search.aim(alloc, model, rehearsal.best);
        self.aims = Some(aims);
        Ok(!(is_exhausted && is_better))
    }

    /// Draws which intervals may move, and keeps the rest of the best schedule; whether anything is left
    /// to look at.
    fn keep_most<P: Propagator>(
        &mut self,
        model: &Model,
        rehearsal: &mut Rehearsal<P>,
    ) -> Result<bool, NoMemory>
        requires { IsReady P.Propagator model.now rehearsal.old.search }
        ensures ready { IfOk result (λ b. IsTrue b → IsReady P.Propagator model.now rehearsal.new.search) }
        ensures holding { OnOk result (IsHolding P.Propagator model.now rehearsal.new.search) }
    {
        let Some(schedule) = rehearsal.guide.take() else {
            return Ok(true);
        };
        let links = rehearsal.search.intervals.links();
        self.neighbourhood
            .draw(model, links, &schedule, &mut self.random);
        let is_open = rehearsal.keep_rest(model, &schedule, &self.neighbourhood)?;
        rehearsal.guide = Some(schedule);
        Ok(is_open)
    }

    /// Searches a neighbourhood of the best schedule; whether anything is left to look for.
    fn look_near<P: Propagator>(
        &mut self,
        alloc: Global,
        model: &Model,
        rehearsal: &mut Rehearsal<P>,
        budget: &Budget,
    ) -> Result<bool, NoMemory>
        requires { IsHolding P.Propagator model.now rehearsal.old.search }
        ensures { OnOk result (IsHolding P.Propagator model.now rehearsal.new.search) }
    {
        let before = rehearsal.best;
        if !rehearsal.begin_at_root(alloc, model)? {
            return Ok(false);
        }
        if !self.keep_most(model, rehearsal)? {
            self.neighbourhood.adapt(true);
            return Ok(true);
        }
        let ending = self.run_near(alloc, model, rehearsal, budget)?;
        if rehearsal.best == before {
            self.neighbourhood.adapt(ending != Ending::Stopped);
        }
        self.lengthen(rehearsal.best != before);
        Ok(true)
    }

    /// Searches what is left for a schedule that is better by a step at least.
    fn run_near<P: Propagator>(
        &mut self,
        alloc: Global,
        model: &Model,
        rehearsal: &mut Rehearsal<P>,
        budget: &Budget,
    ) -> Result<Ending, NoMemory>
        requires { IsReady P.Propagator model.now rehearsal.old.search }
        ensures { OnOk result (IsHolding P.Propagator model.now rehearsal.new.search) }
    {
        rehearsal.step = self.step;
        rehearsal.aim_beyond(alloc, model);
        let ending = rehearsal.run(alloc, model, limits_near(model, budget))?;
        rehearsal.step = 1;
        rehearsal.search.aim(alloc, model, rehearsal.best);
        Ok(ending)
    }

    /// Steps twice as long, or half as long.
    fn lengthen(&mut self, is_better: bool) {
        self.step = if is_better {
            self.step.saturating_mul(2)
        } else {
            (self.step / 2).max(1)
        };
    }

    /// A run of the kind whose turn it is; whether anything is left to look for.
    fn go_on<P: Propagator>(
        &mut self,
        alloc: Global,
        model: &Model,
        rehearsal: &mut Rehearsal<P>,
        budget: &Budget,
    ) -> Result<bool, NoMemory>
        requires { IsHolding P.Propagator model.now rehearsal.old.search }
        ensures { OnOk result (IsHolding P.Propagator model.now rehearsal.new.search) }
    {
        if self.is_near && rehearsal.is_found && model.objective().is_some() {
            return self.look_near(alloc, model, rehearsal, budget);
        }
        rehearsal.assumed = 0;
        self.look_around(alloc, model, rehearsal, budget)
    }

    /// One run; whether anything is left to look for.
    fn take<P: Propagator>(
        &mut self,
        alloc: Global,
        model: &Model,
        rehearsal: &mut Rehearsal<P>,
        budget: &mut Budget,
    ) -> Result<bool, NoMemory>
        requires { IsHolding P.Propagator model.now rehearsal.old.search }
        ensures { OnOk result (IsHolding P.Propagator model.now rehearsal.new.search) }
    {
        let before = rehearsal.best;
        let more = self.go_on(alloc, model, rehearsal, budget)?;
        let spent = (rehearsal.assumed / ASSUMED).saturating_add(rehearsal.spent.max(1));
        budget.spend(spent);
        if rehearsal.is_found {
            self.count(spent, rehearsal.best != before);
        }
        let most = IDLE_EACH / (model.intervals().len() as u64).max(1);
        Ok(more && self.idle_in_all < most.max(IDLE_IN_ALL) && !is_tried(model, budget))
    }

    /// Runs one after another, until nothing is left to look for, or no nodes are.
    pub fn take_each<P: Propagator>(
        &mut self,
        alloc: Global,
        model: &Model,
        rehearsal: &mut Rehearsal<P>,
        budget: &mut Budget,
    ) -> Result<(), NoMemory>
        requires { IsHolding P.Propagator model.now rehearsal.old.search }
    {
        for _ in 0..budget.whole {
            if budget.is_over || budget.left == 0 || rehearsal.is_enough(model) {
                return Ok(());
            }
            if !self.take(alloc, model, rehearsal, budget)? {
                return Ok(());
            }
        }
        Ok(())
    }
}
