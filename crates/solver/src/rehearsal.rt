ghost use Rattle.std.specs.Prelude.{◌≡◌, true, IsTrue, IfOk, IfSome, OnOk};
ghost use Rattle.sched_model.specs.Domain.{is_in_domain};
ghost use Rattle.region.specs.Looks.{IsRegionOf};
ghost use Rattle.kernel.specs.Steps.{best_of};
ghost use Rattle.engine.specs.code.Engines.{AreQuiet, AreAwake, IsFor};
ghost use Rattle.engine.specs.Runs.{Ends};
ghost use Rattle.solver.specs.code.Searching.{IsHolding, IsReady};

use crate::hints::Hints;
use crate::settled::{all_hold, settled_assignment};
use crate::shifting::Shifting;
use crate::silence::Silence;
use crate::state::Search;
use branching::Soonest;
use engine::{Engine, Propagator, Stop};
use kernel::Found;
use region::Guess;
use sched_base::NoMemory;
use sched_model::{Assignment, Model, Sense, beats, in_domain, value};
use std::alloc::Global;

/// So many lines for each cell may derive at a root, as many as the engine puts; elsewhere one.
const LINES_AT_ROOT: u64 = 16;

/// Where there are few cells, so many lines may derive.
const FEW_LINES: u64 = 1_000;

/// A search without a log, in which each interval is also tried at its least start and end.
#[derive(Drop)]
pub struct Rehearsal<P: Propagator> {
    pub search: Search<P>,
    /// The constraint that failed last.
    failed: u32,
    /// The best schedule so far, which is followed.
    pub guide: Option<Assignment>,
    /// Its value.
    pub best: Option<i64>,
    pub is_found: bool,
    /// By how much a schedule is to be better than the best one, at least 1.
    pub step: i64,
    /// Whether the schedule is followed.
    pub follows: bool,
    /// Whether the rule is one that goes straight for a schedule to the wish of the objective, which
    /// least starts would hide.
    is_wished: bool,
    /// How many regions were looked at in this run.
    pub spent: u64,
    /// How many guesses were assumed and lines derived at its root.
    pub assumed: u64,
    /// The run ends before it goes back to one of so many saved regions.
    floor: usize,
    /// Whether the first region that was saved is the root, or the region is.
    is_rooted: bool,
    /// Whether a region was given up, so that runs show nothing.
    pub gave_up: bool,
    /// Whether one was left once its schedule had been moved to where the objective wishes it.
    pub left_early: bool,
    /// Whether this was done at the region.
    is_moved: bool,
    /// What moves schedules, where the objective wishes some intervals neither sooner nor later.
    pub shifting: Option<Shifting>,
}

/// When a run ends.
#[derive(Clone, Copy, Debug)]
pub struct Limits {
    /// After so many regions.
    pub nodes: u64,
    /// After so many that witnesses refuted.
    pub refuted: u64,
    /// At the first schedule.
    pub first: bool,
}

/// What a region left.
#[derive(Clone, Copy, Debug)]
struct Tried {
    /// Whether a region is left.
    more: bool,
    /// Whether a witness refuted it.
    refuted: bool,
    /// Whether there was a better schedule in it.
    found: bool,
}

/// How a run ended.
#[derive(Clone, Copy, Debug, PartialEq, Eq)]
pub enum Ending {
    /// No region is left.
    Exhausted,
    /// The same, but some were left once their schedules had been moved.
    Through,
    Stopped,
}

fn is_all(shifting: &Option<Shifting>) -> bool {
    match shifting {
        None => false,
        Some(shifting) => shifting.is_all,
    }
}

/// The value that is to be beaten so that another one is by a step.
fn beyond(model: &Model, value: Option<i64>, step: i64) -> Option<i64> {
    let value = value?;
    let more = step.saturating_sub(1);
    match model.objective()?.sense {
        Sense::Minimize => Some(value.saturating_sub(more)),
        Sense::Maximize => Some(value.saturating_add(more)),
    }
}

fn if_followed(guide: &Option<Assignment>, follows: bool) -> Option<&Assignment> {
    if !follows {
        return None;
    }
    guide.as_ref()
}

impl<P: Propagator> Rehearsal<P> {
    pub fn new(
        alloc: Global,
        model: &Model,
        engine: Engine<P>,
        hints: Hints,
    ) -> Result<Rehearsal<P>, NoMemory>
        requires made { IsFor P.Propagator model.now engine }
        requires awake { AreAwake P.Propagator model.now engine }
        ensures { IfOk result (λ r. IsHolding P.Propagator model.now r.search) }
    {
        let search = Search::new(alloc, model, engine, hints)?;
        Ok(Rehearsal {
            shifting: Shifting::new(alloc, model, &search.intervals)?,
            search,
            failed: 0,
            guide: None,
            best: None,
            is_found: false,
            step: 1,
            follows: true,
            is_wished: false,
            spent: 0,
            assumed: 0,
            floor: 0,
            is_rooted: false,
            gave_up: false,
            left_early: false,
            is_moved: false,
        })
    }

    /// From the root again, by a rule that goes straight for a schedule, or by that which looks at
    /// everything.
    pub fn begin(
        &mut self,
        alloc: Global,
        model: &Model,
        rule: Option<Soonest>,
    ) -> Result<(), NoMemory>
        requires { IsHolding P.Propagator model.now self.old.search }
        ensures { OnOk result (IsReady P.Propagator model.now self.new.search) }
    {
        self.is_wished = matches!(
            rule,
            Some(Soonest {
                is_wished: true,
                ..
            })
        );
        self.search.intervals.follow(rule);
        self.spent = 0;
        self.assumed = 0;
        self.floor = 0;
        self.is_rooted = false;
        self.gave_up = false;
        self.left_early = false;
        self.search.restart(alloc, model)
    }

    /// The value that is to be beaten: that of the best schedule, also where one is sought that is better
    /// by more.
    fn bar(&self) -> Option<i64> {
        if self.step > 1 {
            return self.best;
        }
        self.search.best()
    }

    /// Whether a value is better than what is to be beaten, if there is such.
    fn improves(&self, model: &Model, value: Option<i64>) -> bool {
        let (Some(objective), Some(value)) = (model.objective(), value) else {
            return true;
        };
        match self.bar() {
            None => true,
            Some(best) => beats(objective.sense, value, best),
        }
    }

    /// Looks for what is better than the best schedule, by a step at least.
    pub fn aim_beyond(&mut self, alloc: Global, model: &Model)
        requires { IsReady P.Propagator model.now self.old.search }
        ensures { IsReady P.Propagator model.now self.new.search }
    {
        let aim = beyond(model, self.best, self.step);
        self.search.aim(alloc, model, aim);
    }

    /// The schedule at the least starts and ends, where it is a solution, and better than the best.
    fn shifted(&mut self, alloc: Global, model: &Model) -> Result<Option<Found>, NoMemory>
        requires { IsRegionOf model.now self.old.search.region.region }
        ensures { self.new.search ≡ self.old.search }
    {
        let assignment = settled_assignment(alloc, model, &self.search.region.look(None, None))?;
        if !in_domain(model, &assignment) {
            return Ok(None);
        }
        let value = value(model, &assignment);
        if self.shifting.is_some() {
            return self.shifted_on(model, assignment, value);
        }
        if !self.improves(model, value) || !all_hold(model, &assignment, &mut self.failed) {
            return Ok(None);
        }
        Ok(Some(Found { assignment, value }))
    }

    /// The same once it was moved to where the objective wishes it. Where nothing but orders stands in the
    /// way, the region is done with then.
    fn shifted_on(
        &mut self,
        model: &Model,
        assignment: Assignment,
        value: Option<i64>,
    ) -> Result<Option<Found>, NoMemory>
        requires { is_in_domain model.now assignment ≡ true }
        ensures { self.new.search ≡ self.old.search }
    {
        if !all_hold(model, &assignment, &mut self.failed) {
            return Ok(None);
        }
        let found = self.moved(model, Found { assignment, value });
        self.is_moved = is_all(&self.shifting);
        if !self.improves(model, found.value) {
            return Ok(None);
        }
        Ok(Some(found))
    }

    /// A schedule once it was moved to where the objective wishes it.
    fn moved(&mut self, model: &Model, found: Found) -> Found
        ensures { self.new.search ≡ self.old.search }
    {
        let Some(mut shifting) = self.shifting.take() else {
            return found;
        };
        let found = shifting.move_all(model, self.search.intervals.links(), found);
        self.shifting = Some(shifting);
        found
    }

    /// Takes a better schedule, to look for what is better still.
    fn take(&mut self, alloc: Global, model: &Model, found: Found)
        requires { IsReady P.Propagator model.now self.old.search }
        ensures { IsReady P.Propagator model.now self.new.search }
    {
        let Found { assignment, value } = found;
        self.best = value;
        self.is_found = true;
        self.guide = Some(assignment);
        self.aim_beyond(alloc, model);
    }

    /// The schedule at the least starts and ends, where nothing is left to derive, and all presences and
    /// orders are known.
    fn better(
        &mut self,
        alloc: Global,
        model: &Model,
        stop: &Stop,
    ) -> Result<Option<Found>, NoMemory>
        requires { IsReady P.Propagator model.now self.old.search }
        ensures { self.new.search ≡ self.old.search }
    {
        if self.is_wished || !matches!(stop, Stop::Quiet) || !self.search.knows_orders(model) {
            return Ok(None);
        }
        self.shifted(alloc, model)
    }

    /// Takes the schedule of a region in which nothing is open, where it is a better one; whether it is.
    fn take_settled(&mut self, alloc: Global, model: &Model) -> Result<bool, NoMemory>
        requires { IsReady P.Propagator model.now self.old.search }
        ensures { OnOk result (IsReady P.Propagator model.now self.new.search) }
    {
        let Some(found) = self.shifted(alloc, model)? else {
            return Ok(false);
        };
        self.take(alloc, model, found);
        Ok(true)
    }

    /// Goes back from a region that is done with.
    fn back(&mut self, model: &Model, refuted: bool, found: bool) -> Tried
        requires { IsHolding P.Propagator model.now self.old.search }
        ensures ready { IsTrue result.more → IsReady P.Propagator model.now self.new.search }
        ensures kept { IsHolding P.Propagator model.now self.new.search }
    {
        // Called for its clause alone.
        let _ = model.intervals();
        if self.search.marks.len() <= self.floor {
            return Tried {
                more: false,
                refuted,
                found,
            };
        }
        Tried {
            more: self.search.back(),
            refuted,
            found,
        }
    }

    /// Splits a region of which nothing is left to derive, or takes its schedule.
    fn leave(&mut self, alloc: Global, model: &Model, found: bool) -> Result<Tried, NoMemory>
        requires ready { IsReady P.Propagator model.now self.old.search }
        requires quiet { AreQuiet P.Propagator model.now self.old.search.region.region (best_of self.old.search.found) }
        ensures ready { IfOk result (λ t. IsTrue t.more → IsReady P.Propagator model.now self.new.search) }
        ensures kept { OnOk result (IsHolding P.Propagator model.now self.new.search) }
    {
        let schedule = if_followed(&self.guide, self.follows);
        if let Some(guess) = self.search.choose_freely(model, schedule) {
            self.search.split(guess, false)?;
            return Ok(Tried {
                more: true,
                refuted: false,
                found,
            });
        }
        let is_better = self.take_settled(alloc, model)?;
        Ok(self.back(model, false, found || is_better))
    }

    /// Ends the node. A region where too much derives is given up.
    fn end(
        &mut self,
        alloc: Global,
        model: &Model,
        stop: Stop,
        found: bool,
    ) -> Result<Tried, NoMemory>
        requires ready { IsReady P.Propagator model.now self.old.search }
        requires stop { Ends (AreQuiet P.Propagator model.now self.old.search.region.region (best_of self.old.search.found)) model.now (best_of self.old.search.found) self.old.search.region.region stop }
        ensures ready { IfOk result (λ t. IsTrue t.more → IsReady P.Propagator model.now self.new.search) }
        ensures kept { OnOk result (IsHolding P.Propagator model.now self.new.search) }
    {
        match stop {
            Stop::Capped => Ok(self.give_up(model, found)),
            Stop::Failed(w) => {
                let look = self.search.region.look(None, None);
                self.search.intervals.blame(model, &look, &w);
                Ok(self.back(model, true, found))
            }
            Stop::Quiet => {
                if let Some(w) = self.search.overload(model)? {
                    self.search.intervals.blame_overload(model, &w);
                    return Ok(self.back(model, true, found));
                }
                self.leave(alloc, model, found)
            }
        }
    }

    /// Derives what follows. None where it is too much.
    fn derive(&mut self, model: &Model) -> Result<Option<Stop>, NoMemory>
        requires { IsReady P.Propagator model.now self.old.search }
        ensures ready { IfOk result (λ o. IfSome o (λ stop. IsReady P.Propagator model.now self.new.search)) }
        ensures holding { OnOk result (IsHolding P.Propagator model.now self.new.search) }
        ensures stop { IfOk result (λ o. IfSome o (Ends (AreQuiet P.Propagator model.now self.new.search.region.region (best_of self.new.search.found)) model.now (best_of self.new.search.found) self.new.search.region.region)) }
    {
        let cells = self.search.region.cells();
        let most = cells.saturating_mul(LINES_AT_ROOT);
        let few = if self.spent <= 1 {
            most
        } else {
            cells.max(FEW_LINES)
        };
        self.search
            .derive_silently(model, &mut Silence::new(few.min(most)))
    }

    /// Derives what follows, and ends the node.
    fn go_on(&mut self, alloc: Global, model: &Model, found: bool) -> Result<Tried, NoMemory>
        requires ready { IsReady P.Propagator model.now self.old.search }
        ensures ready { IfOk result (λ t. IsTrue t.more → IsReady P.Propagator model.now self.new.search) }
        ensures kept { OnOk result (IsHolding P.Propagator model.now self.new.search) }
    {
        match self.derive(model)? {
            None => Ok(self.give_up(model, found)),
            Some(stop) => self.end(alloc, model, stop, found),
        }
    }

    /// Opens a node and ends it.
    fn visit(&mut self, alloc: Global, model: &Model) -> Result<Tried, NoMemory>
        requires ready { IsReady P.Propagator model.now self.old.search }
        ensures ready { IfOk result (λ t. IsTrue t.more → IsReady P.Propagator model.now self.new.search) }
        ensures kept { OnOk result (IsHolding P.Propagator model.now self.new.search) }
    {
        let Some(stop) = self.derive(model)? else {
            return Ok(self.give_up(model, false));
        };
        self.is_moved = false;
        if let Some(found) = self.better(alloc, model, &stop)? {
            self.take(alloc, model, found);
            if self.is_moved {
                return Ok(self.leave_early(model, true));
            }
            return self.go_on(alloc, model, true);
        }
        if self.is_moved {
            return Ok(self.leave_early(model, false));
        }
        self.end(alloc, model, stop, false)
    }

    /// Leaves a region whose schedule was moved to where the objective wishes it.
    fn leave_early(&mut self, model: &Model, found: bool) -> Tried
        requires { IsHolding P.Propagator model.now self.old.search }
        ensures ready { IsTrue result.more → IsReady P.Propagator model.now self.new.search }
        ensures kept { IsHolding P.Propagator model.now self.new.search }
    {
        self.left_early = true;
        self.back(model, false, found)
    }

    /// What it is that no region is left. Where one was given up it says nothing.
    fn exhausted(&self) -> Ending {
        if self.gave_up {
            return Ending::Stopped;
        }
        if self.left_early {
            return Ending::Through;
        }
        Ending::Exhausted
    }

    /// Gives a region up.
    fn give_up(&mut self, model: &Model, found: bool) -> Tried
        requires { IsHolding P.Propagator model.now self.old.search }
        ensures ready { IsTrue result.more → IsReady P.Propagator model.now self.new.search }
        ensures kept { IsHolding P.Propagator model.now self.new.search }
    {
        self.gave_up = true;
        self.back(model, false, found)
    }

    /// Opens nodes until no region is left, or a limit is met.
    pub fn run(&mut self, alloc: Global, model: &Model, limits: Limits) -> Result<Ending, NoMemory>
        requires { IsReady P.Propagator model.now self.old.search }
        ensures { OnOk result (IsHolding P.Propagator model.now self.new.search) }
    {
        // Without a save the root itself is narrowed.
        self.is_rooted = self.is_rooted && self.floor > 0;
        let ends_at_first = limits.first || model.objective().is_none();
        let mut left = limits.refuted;
        for _n in 0..limits.nodes {
            self.spent = self.spent.saturating_add(1);
            let tried = self.visit(alloc, model)?;
            if tried.found && ends_at_first {
                return Ok(Ending::Stopped);
            }
            if !tried.more {
                return Ok(self.exhausted());
            }
            if tried.refuted {
                left = left.saturating_sub(1);
            }
            if left == 0 {
                return Ok(Ending::Stopped);
            }
        }
        Ok(Ending::Stopped)
    }

    /// Derives at the root; whether the region is worth a search.
    pub fn derive_root(&mut self, model: &Model) -> Result<bool, NoMemory>
        requires { IsReady P.Propagator model.now self.old.search }
        ensures ready { IfOk result (λ b. IsTrue b → IsReady P.Propagator model.now self.new.search) }
        ensures holding { OnOk result (IsHolding P.Propagator model.now self.new.search) }
    {
        let most = self.search.region.cells().saturating_mul(LINES_AT_ROOT);
        let mut silence = Silence::new(most);
        let stop = self.search.derive_silently(model, &mut silence)?;
        let lines = most.saturating_sub(silence.left());
        self.assumed = self.assumed.saturating_add(lines);
        match stop {
            Some(Stop::Quiet) => Ok(true),
            _ => Ok(false),
        }
    }

    /// Goes to the root, which may have been saved.
    fn go_to_root(&mut self, alloc: Global, model: &Model) -> Result<(), NoMemory>
        requires { IsHolding P.Propagator model.now self.old.search }
        ensures { OnOk result (IsReady P.Propagator model.now self.new.search) }
    {
        if !self.is_rooted {
            return self.begin(alloc, model, None);
        }
        // Called for its clause alone.
        let _ = model.intervals();
        if !self.search.unwind(alloc, model) {
            return self.begin(alloc, model, None);
        }
        self.spent = 0;
        self.assumed = 0;
        self.gave_up = false;
        self.left_early = false;
        Ok(())
    }

    /// Goes to the root, of which nothing is left to derive; false where it is refuted.
    pub fn begin_at_root(&mut self, alloc: Global, model: &Model) -> Result<bool, NoMemory>
        requires { IsHolding P.Propagator model.now self.old.search }
        ensures ready { IfOk result (λ b. IsTrue b → IsReady P.Propagator model.now self.new.search) }
        ensures holding { OnOk result (IsHolding P.Propagator model.now self.new.search) }
    {
        self.go_to_root(alloc, model)?;
        self.floor = 0;
        self.is_rooted = self.derive_root(model)?;
        Ok(self.is_rooted)
    }

    /// Assumes a guess, where it splits the region. The first one is a split of the root, so that it can
    /// be gone back to.
    pub fn assume(&mut self, model: &Model, guess: Guess) -> Result<(), NoMemory>
        requires { IsReady P.Propagator model.now self.old.search }
        ensures { OnOk result (IsReady P.Propagator model.now self.new.search) }
    {
        // Called for its clause alone.
        let _ = model.intervals();
        if !self.search.region.splits(guess) {
            return Ok(());
        }
        self.assumed = self.assumed.saturating_add(1);
        if self.search.marks.is_empty() {
            self.floor = 1;
            // What is left to derive at the root isn't told here.
            return self.search.split(guess, true);
        }
        self.search.narrow(model, guess)
    }

    /// What a schedule costs at least, by what derives at the root.
    pub fn root_cost(&mut self, model: &Model) -> Result<i64, NoMemory>
        requires { IsReady P.Propagator model.now self.old.search }
        ensures { OnOk result (IsHolding P.Propagator model.now self.new.search) }
    {
        let _ = self.derive_root(model)?;
        self.search.intervals.evaluate(model, &self.search.region);
        Ok(self.search.intervals.goal().cost())
    }

    /// What the next search begins with.
    pub fn into_hints(self) -> Hints {
        let Rehearsal { search, guide, .. } = self;
        search.into_hints(guide)
    }
}
