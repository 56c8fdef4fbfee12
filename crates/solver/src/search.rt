ghost use Rattle.std.specs.Prelude.{◌≡◌, ℕ, Bool, Some, ◌<◌, ◌≤◌, ◌+◌, ◌^◌, ◌∷◌, true, false, ℤ, Option, Ok, IsTrue, IfOk, OnOk, IfSome, IfNone};
ghost use Rattle.sched_model.specs.Data.{Data};
ghost use Rattle.sched_model.specs.Domain.{is_in_domain};
ghost use Rattle.sched_model.specs.Valid.{IsValid};
ghost use Rattle.region.specs.declared.types.Guess.{Guess as GuessData};
ghost use Rattle.std.specs.List.{list_all};
ghost use Rattle.region.specs.Cells.{Region as Cells, is_fixed, is_settled};
ghost use Rattle.region.specs.Guesses.{splits, with_guess, with_fact};
ghost use Rattle.region.specs.Looks.{IsRegionOf};
ghost use Rattle.kernel.specs.declared.types.Line.TheVariants as line_is;
ghost use Rattle.kernel.specs.Steps.{best_of, step_at, left_after, found_in, opening};
ghost use Rattle.engine.specs.code.Engines.{AreQuiet, AreAwake, IsCalm, IsFor};
ghost use Rattle.engine.specs.Runs.{Ends};
ghost use Rattle.propagators.specs.Quiet.{IsQuietRegion};
ghost use Rattle.logtext.specs.Lifted.{refutes_logged};
ghost use Rattle.prop_energy.specs.Full.{HasNoOverload};
ghost use Rattle.restart_rules.specs.Restarts.{first_stretch, limits_of};
ghost use Rattle.restart_rules.specs.code.Stretches.{Plan, MayOpen, plan_of, with_closed};
ghost use Rattle.solver.specs.code.Searching.{IsHolding, IsReady, IsResting, AskedUnlessSettled, Closes, Derived, GoesOn, Ran, IsLogged, QuietUnlessFailed, is_failed, is_capped, behind_in, left_in, state_in, node_in, CutsRegion};

use crate::branch::is_cut;
use crate::chooser::{Chooser, WIDTH};
use crate::fault::SolveFault;
use crate::hints::Hints;
use crate::lifting::lifted;
use crate::log_to::LogTo;
use crate::mark::Mark;
use crate::order::cut_orders;
use crate::settled::settled_assignment;
use crate::state::Search;
use branching::Guide;
use engine::{Engine, Propagator, Stop};
use kernel::{Found, Line, Pending, Witness};
use logtext::LogWitness;
use prop_energy::{EnergyWitness, PropEnergy};
use region::{Guess, Region};
use restart_rules::Stretches;
use sched_base::NoMemory;
use sched_model::{Assignment, Model, value};
use std::alloc::Global;

pub fn is_capped(stop: &Stop) -> bool
    ensures { result ≡ is_capped stop.now }
{
    matches!(stop, Stop::Capped)
}

/// The schedule found last is followed, and before the first the one that was there from the start.
fn guide_of<'a>(found: &'a Option<Found>, first: &'a Option<Assignment>) -> Guide<'a> {
    if let Some(f) = found {
        return Guide {
            schedule: Some(&f.assignment),
            straight: false,
        };
    }
    Guide {
        schedule: first.as_ref(),
        straight: true,
    }
}

impl<P: Propagator> Search<P> {
    /// The root of the model is the first region that waits.
    pub fn new(
        alloc: Global,
        model: &Model,
        engine: Engine<P>,
        hints: Hints,
    ) -> Result<Search<P>, NoMemory>
        requires made { IsFor P.Propagator model.now engine }
        requires awake { AreAwake P.Propagator model.now engine }
        ensures ready { IfOk result (IsReady P.Propagator model.now) }
        ensures state { IfOk result (λ s. state_in true s ≡ opening model.now) }
        ensures valid { IfOk result (λ s. IsValid model.now) }
        ensures none { IfOk result (λ s. s.nodes ≡ 0) }
    {
        // The model is valid by its type.
        let _ = model.intervals();
        let Hints {
            weights,
            guide,
            many_pairs,
            ..
        } = hints;
        Ok(Search {
            region: Region::root(alloc, model)?,
            pending: Pending::new(alloc),
            marks: Vec::new(alloc),
            engine,
            energy: PropEnergy::new(alloc, model)?,
            intervals: Chooser::new(alloc, model, weights, many_pairs)?,
            found: None,
            nodes: 0,
            guide,
        })
    }

    /// From the root of the model again, with what was found and counted.
    pub fn restart(&mut self, alloc: Global, model: &Model) -> Result<(), NoMemory>
        requires { IsHolding P.Propagator model.now self.old }
        ensures ready { OnOk result (IsReady P.Propagator model.now self.new) }
        ensures state { OnOk result (state_in true self.new ≡ record (opening model.now) { nodes = self.old.nodes; found = self.old.found }) }
    {
        // Called for its clause alone.
        let _ = model.intervals();
        self.region = Region::root(alloc, model)?;
        self.pending = Pending::new(alloc);
        self.marks = Vec::new(alloc);
        self.engine.forget_changes();
        self.engine.wake_all();
        self.intervals.reopen(alloc, model)?;
        Ok(())
    }

    /// Whether all presences are known, and all orders of present members of sequences without
    /// overlap.
    pub fn knows_orders(&mut self, model: &Model) -> bool
        ensures { self.new ≡ self.old }
    {
        let look = self.region.look(None, None);
        self.intervals.knows_orders(model, &look)
    }

    /// What a next search begins with, with a schedule to follow.
    pub fn into_hints(self, guide: Option<Assignment>) -> Hints {
        let Search { intervals, .. } = self;
        let (weights, many_pairs) = intervals.into_weights();
        Hints {
            weights,
            guide,
            pairs: 0,
            many_pairs,
        }
    }

    /// The value of the solution found last.
    pub fn best(&self) -> Option<i64>
        ensures { result ≡ best_of self.now.found }
    {
        match &self.found {
            None => None,
            Some(f) => f.value,
        }
    }

    /// Derives what follows at the region.
    pub fn derive<L: LogTo>(&mut self, model: &Model, lines: &mut L) -> Result<Stop, SolveFault>
        requires ready { IsReady P.Propagator model.now self.old }
        requires lines { L.ready lines.old }
        ensures ready { OnOk result (IsReady P.Propagator model.now self.new) }
        ensures lines { OnOk result (L.ready lines.new) }
        ensures nodes { self.new.nodes ≡ self.old.nodes }
        ensures stop { IfOk result (Ends (AreQuiet P.Propagator model.now self.new.region.region (best_of self.new.found)) model.now (best_of self.new.found) self.new.region.region) }
        ensures settled { IfOk result (λ stop. IsTrue (is_settled self.new.region.region) → QuietUnlessFailed (AreQuiet P.Propagator model.now self.new.region.region (best_of self.new.found)) stop) }
        ensures found { self.new.found ≡ self.old.found }
        ensures derived { (from : L) (plan : Plan) → MayOpen plan self.old.nodes → IsLogged L.LogTo.own model.now plan from lines.old 0 (state_in true self.old)
            → Derived P.Propagator L.LogTo.own L.Lines model.now plan from lines.new self.new result }
    {
        // The model is valid by its type.
        let _ = model.intervals();
        let best = self.best();
        Ok(self.engine.run(model, &mut self.region, best, lines)?)
    }

    /// Whether a guess splits the region, and cuts a bound at the middle.
    fn cuts(&self, guess: Guess) -> bool
        ensures { IsTrue result → CutsRegion self.now.region.region guess }
    {
        self.region.splits(guess) && is_cut(&self.region.look(None, None), guess)
    }

    /// The guess that was picked, where it cuts the region, or else another one, or an order that is open.
    fn pick(&self, model: &Model, cut: Option<Guess>, picked: Option<Guess>) -> Option<Guess>
        requires of { IsRegionOf model.now self.now.region.region }
        requires cut { IfSome cut (CutsRegion self.now.region.region) }
        requires fixed { IfNone cut (IsTrue (list_all is_fixed self.now.region.region.bounds)) }
        ensures some { IfSome result (CutsRegion self.now.region.region) }
        ensures none { IfNone result (IsTrue (is_settled self.now.region.region)) }
    {
        if let Some(guess) = picked {
            if self.cuts(guess) {
                return Some(guess);
            }
        }
        if cut.is_some() {
            return cut;
        }
        cut_orders(model, &self.region.look(None, None))
    }

    /// Lets the rule offer guesses, so many at most, near the schedule that is followed. A guess that cuts
    /// an interval of which something is open, if there is one.
    fn propose(&mut self, model: &Model, most: usize) -> Option<Guess>
        requires { IsReady P.Propagator model.now self.old }
        ensures ready { IsReady P.Propagator model.now self.new }
        ensures same { self.new ≡ record self.old { intervals = self.new.intervals } }
        ensures some { IfSome result (CutsRegion self.old.region.region) }
        ensures none { IfNone result (IsTrue (list_all is_fixed self.old.region.region.bounds)) }
    {
        let cut = self.intervals.sift(model, &self.region.look(None, None));
        let guide = guide_of(&self.found, &self.guide);
        self.intervals
            .offer(model, &self.region, &guide, false, most);
        cut
    }

    /// The guess that the rule picks, where it cuts the region, or else another one that does.
    fn choose_first(&mut self, model: &Model) -> Option<Guess>
        requires { IsReady P.Propagator model.now self.old }
        ensures ready { IsReady P.Propagator model.now self.new }
        ensures same { self.new ≡ record self.old { intervals = self.new.intervals } }
        ensures some { IfSome result (CutsRegion self.old.region.region) }
        ensures none { IfNone result (IsTrue (is_settled self.old.region.region)) }
    {
        let cut = self.propose(model, 1);
        let picked = self.intervals.pick(0);
        self.pick(model, cut, picked)
    }

    /// The same of several guesses, of which both parts are tried.
    fn choose_best(&mut self, model: &Model) -> Result<Option<Guess>, NoMemory>
        requires { IsResting P.Propagator model.now self.old }
        ensures ready { OnOk result (IsReady P.Propagator model.now self.new) }
        ensures same { OnOk result (self.new ≡ record self.old { engine = self.new.engine; intervals = self.new.intervals; region = record self.old.region { spare = self.new.region.spare } }) }
        ensures some { IfOk result (λ o. IfSome o (CutsRegion self.old.region.region)) }
        ensures none { IfOk result (λ o. IfNone o (IsTrue (is_settled self.old.region.region))) }
    {
        let cut = self.propose(model, WIDTH);
        let picked = self.best_pick(model)?;
        Ok(self.pick(model, cut, picked))
    }

    /// A guess that splits the region; none where it is settled. Where nothing is left to derive, both
    /// parts of several splits are tried.
    fn choose(&mut self, model: &Model, is_quiet: bool) -> Result<Option<Guess>, NoMemory>
        requires ready { IsReady P.Propagator model.now self.old }
        requires quiet { is_quiet ≡ true → AreQuiet P.Propagator model.now self.old.region.region (best_of self.old.found) }
        ensures ready { OnOk result (IsReady P.Propagator model.now self.new) }
        ensures same { OnOk result (self.new ≡ record self.old { engine = self.new.engine; intervals = self.new.intervals; region = record self.old.region { spare = self.new.region.spare } }) }
        ensures some { IfOk result (λ o. IfSome o (CutsRegion self.old.region.region)) }
        ensures none { IfOk result (λ o. IfNone o (IsTrue (is_settled self.old.region.region))) }
    {
        if is_quiet {
            return self.choose_best(model);
        }
        Ok(self.choose_first(model))
    }

    /// Room for the cells that the two parts of a split write.
    fn make_room(&mut self) -> Result<(), NoMemory>
        ensures ready { (m : Data) → IsReady P.Propagator m self.old → IsReady P.Propagator m self.new }
        ensures same { self.new ≡ record self.old { region = record self.old.region { spare = self.new.region.spare } } }
        ensures room { OnOk result (2 ≤ self.new.region.spare) }
    {
        self.region.reserve(2)
    }

    /// What is left of a region that isn't refuted: two parts, or the solution of a settled one, of
    /// which all is quiet.
    fn leave(
        &mut self,
        alloc: Global,
        model: &Model,
        is_quiet: bool,
    ) -> Result<Line<LogWitness>, NoMemory>
        requires ready { IsReady P.Propagator model.now self.old }
        requires rests { is_quiet ≡ true → AreQuiet P.Propagator model.now self.old.region.region (best_of self.old.found) }
        requires quiet { IsTrue (is_settled self.old.region.region) → IsQuietRegion model.now self.old.region.region (best_of self.old.found) }
        ensures ready { OnOk result (IsReady P.Propagator model.now self.new) }
        ensures same { OnOk result (self.new ≡ record self.old { engine = self.new.engine; intervals = self.new.intervals; region = record self.old.region { spare = self.new.region.spare } }) }
        ensures room { IfOk result (λ line. (g : GuessData) → line ≡ line_is.Split g → 2 ≤ self.new.region.spare) }
        ensures line { IfOk result (Closes model.now self.old.region.region (best_of self.old.found) false) }
    {
        // The model is valid by its type.
        let _ = model.intervals();
        let guess = self.choose(model, is_quiet)?;
        match guess {
            // Before the line is put there is room for the save and for the cell of the first part.
            // That of the second takes the save's place, so `back` is never refused it.
            Some(g) => {
                self.make_room()?;
                Ok(Line::Split(g))
            }
            None => {
                let look = self.region.look(None, None);
                Ok(Line::Sol(settled_assignment(alloc, model, &look)?))
            }
        }
    }

    /// What refutes the region by energy. A settled one isn't asked: where it is quiet it leaves a solution.
    pub fn overload(&mut self, model: &Model) -> Result<Option<EnergyWitness>, NoMemory>
        requires { IsReady P.Propagator model.now self.old }
        ensures same { self.new ≡ self.old }
        ensures found { IfOk result (AskedUnlessSettled model.now self.old.region.region) }
    {
        if self.region.settled() {
            return Ok(None);
        }
        self.energy.overload(model, &self.region)
    }

    /// The line that ends a node of which nothing is left to derive.
    fn close_quiet(&mut self, alloc: Global, model: &Model) -> Result<Line<LogWitness>, NoMemory>
        requires ready { IsReady P.Propagator model.now self.old }
        requires rests { AreQuiet P.Propagator model.now self.old.region.region (best_of self.old.found) }
        requires quiet { IsQuietRegion model.now self.old.region.region (best_of self.old.found) }
        ensures ready { OnOk result (IsReady P.Propagator model.now self.new) }
        ensures same { OnOk result (self.new ≡ record self.old { engine = self.new.engine; intervals = self.new.intervals; region = record self.old.region { spare = self.new.region.spare } }) }
        ensures room { IfOk result (λ line. (g : GuessData) → line ≡ line_is.Split g → 2 ≤ self.new.region.spare) }
        ensures line { IfOk result (Closes model.now self.old.region.region (best_of self.old.found) false) }
        ensures full { IfOk result (λ line. (g : GuessData) → line ≡ line_is.Split g → HasNoOverload model.now self.old.region.region) }
    {
        // The model is valid by its type.
        let _ = model.intervals();
        if let Some(w) = self.overload(model)? {
            self.intervals.blame_overload(model, &w);
            return Ok(Line::Fail(Witness::Extra(w)));
        }
        self.leave(alloc, model, true)
    }

    /// The line that ends the node.
    pub fn closing(
        &mut self,
        alloc: Global,
        model: &Model,
        stop: Stop,
    ) -> Result<Line<LogWitness>, NoMemory>
        requires ready { IsReady P.Propagator model.now self.old }
        requires covers { (r : Cells) (best : Option ℤ) → IsRegionOf model.now r → AreQuiet P.Propagator model.now r best → IsQuietRegion model.now r best }
        requires stop { Ends (AreQuiet P.Propagator model.now self.old.region.region (best_of self.old.found)) model.now (best_of self.old.found) self.old.region.region stop }
        requires settled { IsTrue (is_settled self.old.region.region) → QuietUnlessFailed (AreQuiet P.Propagator model.now self.old.region.region (best_of self.old.found)) stop }
        ensures ready { OnOk result (IsReady P.Propagator model.now self.new) }
        ensures same { OnOk result (self.new ≡ record self.old { engine = self.new.engine; intervals = self.new.intervals; region = record self.old.region { spare = self.new.region.spare } }) }
        ensures room { IfOk result (λ line. (g : GuessData) → line ≡ line_is.Split g → 2 ≤ self.new.region.spare) }
        ensures line { IfOk result (Closes model.now self.old.region.region (best_of self.old.found) (is_failed stop)) }
        ensures full { IfOk result (λ line. (g : GuessData) → line ≡ line_is.Split g → is_capped stop ≡ false → HasNoOverload model.now self.old.region.region) }
    {
        match stop {
            Stop::Failed(w) => {
                let look = self.region.look(None, None);
                self.intervals.blame(model, &look, &w);
                Ok(Line::Fail(lifted(alloc, w)))
            }
            Stop::Quiet => self.close_quiet(alloc, model),
            Stop::Capped => self.leave(alloc, model, false),
        }
    }

    /// Goes to the newest region that waits; false where none does.
    pub fn back(&mut self) -> bool
        requires { (m : Data) × IsHolding P.Propagator m self.old }
        ensures left { left_in result self.new ≡ behind_in self.old }
        ensures nodes { self.new.nodes ≡ self.old.nodes }
        ensures found { self.new.found ≡ self.old.found }
        ensures ready { (m : Data) → IsHolding P.Propagator m self.old → IsTrue result → IsReady P.Propagator m self.new }
        ensures holding { (m : Data) → IsHolding P.Propagator m self.old → IsHolding P.Propagator m self.new }
    {
        let Some(mark) = self.marks.pop() else {
            return false;
        };
        let Some(cell) = self.pending.next(&mut self.region) else {
            return false;
        };
        self.intervals.restore(mark.count);
        self.rouse(mark);
        self.engine.wake(cell);
        true
    }

    /// Wakes whoever may not be quiet for the region that was saved, at the best value of now.
    pub fn rouse(&mut self, mark: Mark)
        ensures same { self.new ≡ record self.old { engine = self.new.engine } }
        ensures made { (m : Data) → IsFor P.Propagator m self.old.engine → IsFor P.Propagator m self.new.engine }
        ensures calm { (m : Data) (r : Cells) → IsFor P.Propagator m self.old.engine → IsRegionOf m r → (mark.capped ≡ false → AreQuiet P.Propagator m r mark.best)
            → IsCalm P.Propagator m r (best_of self.new.found) self.new.engine }
    {
        self.engine.forget_changes();
        if mark.capped {
            self.engine.wake_all();
            return;
        }
        if mark.best != self.best() {
            self.engine.wake_best();
        }
    }

    /// Goes to the part with the guess; the part with its fact waits.
    pub fn split(&mut self, g: Guess, capped: bool) -> Result<(), NoMemory>
        requires ready { (m : Data) × IsReady P.Propagator m self.old }
        requires splits { IsTrue (splits self.old.region.region g) }
        ensures left { OnOk result (left_in true self.new ≡ with_guess g self.old.region.region ∷ with_fact g self.old.region.region ∷ behind_in self.old) }
        ensures nodes { OnOk result (self.new.nodes ≡ self.old.nodes) }
        ensures found { OnOk result (self.new.found ≡ self.old.found) }
        ensures ready { (m : Data) → IsReady P.Propagator m self.old → (capped ≡ false → AreQuiet P.Propagator m self.old.region.region (best_of self.old.found))
            → OnOk result (IsReady P.Propagator m self.new) }
    {
        let mark = Mark {
            best: self.best(),
            capped,
            count: self.intervals.count(),
        };
        self.marks.reserve(1)?;
        let cell = self.pending.split(&mut self.region, g)?;
        let _ = self.marks.push(mark);
        self.engine.wake(cell);
        Ok(())
    }

    /// Keeps the solution, and goes to the newest region that waits; false where none does, or no
    /// better one is wanted.
    fn keep(&mut self, model: &Model, assignment: Assignment) -> bool
        requires domain { is_in_domain model.now assignment ≡ true }
        requires ready { IsReady P.Propagator model.now self.old }
        ensures left { left_in result self.new ≡ left_after model.now (behind_in self.old) }
        ensures nodes { self.new.nodes ≡ self.old.nodes }
        ensures found { self.new.found ≡ Some (found_in model.now assignment) }
        ensures ready { IsTrue result → IsReady P.Propagator model.now self.new }
    {
        let value = value(model, &assignment);
        self.found = Some(Found { assignment, value });
        if value.is_none() {
            return false;
        }
        self.back()
    }

    /// What the line that ends the node leaves; false where no region is left.
    pub fn close(
        &mut self,
        model: &Model,
        line: Line<LogWitness>,
        capped: bool,
    ) -> Result<bool, NoMemory>
        requires nodes { self.old.nodes < 2 ^ 63 }
        requires ready { IsReady P.Propagator model.now self.old }
        requires closes { (failed : Bool) × Closes model.now self.old.region.region (best_of self.old.found) failed line }
        requires spent { (g : GuessData) → line ≡ line_is.Split g → capped ≡ false → AreQuiet P.Propagator model.now self.old.region.region (best_of self.old.found) }
        ensures step { IfOk result (λ more. step_at refutes_logged model.now (node_in self.old) line ≡ Ok (state_in more self.new)) }
        ensures ready { IfOk result (λ more. IsTrue more → IsReady P.Propagator model.now self.new) }
        ensures nodes { OnOk result (self.new.nodes ≡ self.old.nodes + 1) }
    {
        self.nodes += 1;
        match line {
            Line::Split(g) => {
                self.split(g, capped)?;
                Ok(true)
            }
            Line::Sol(a) => Ok(self.keep(model, a)),
            Line::Fail(_) | Line::Derive(..) | Line::Restart => Ok(self.back()),
        }
    }

    /// Opens a node and ends it; false where no region is left.
    fn visit<L: LogTo>(
        &mut self,
        alloc: Global,
        model: &Model,
        lines: &mut L,
    ) -> Result<bool, SolveFault>
        requires covers { (r : Cells) (best : Option ℤ) → IsRegionOf model.now r → AreQuiet P.Propagator model.now r best → IsQuietRegion model.now r best }
        requires nodes { self.old.nodes < 2 ^ 63 }
        requires ready { IsReady P.Propagator model.now self.old }
        requires lines { L.ready lines.old }
        ensures ready { IfOk result (λ more. IsTrue more → IsReady P.Propagator model.now self.new) }
        ensures lines { OnOk result (L.ready lines.new) }
        ensures nodes { OnOk result (self.new.nodes ≡ self.old.nodes + 1) }
        ensures logged { (from : L) (plan : Plan) → MayOpen plan self.old.nodes → IsLogged L.LogTo.own model.now plan from lines.old 0 (state_in true self.old)
            → GoesOn L.LogTo.own L.Lines model.now (with_closed plan) from lines.new self.new result }
    {
        // The model is valid by its type.
        let _ = model.intervals();
        let stop = self.derive(model, lines)?;
        let capped = is_capped(&stop);
        let line = self.closing(alloc, model, stop)?;
        lines.write(&line)?;
        Ok(self.close(model, line, capped)?)
    }

    /// Opens nodes until no region is left, but at most so many, and begins anew at most so often;
    /// whether one is left.
    pub fn run<L: LogTo>(
        &mut self,
        alloc: Global,
        model: &Model,
        nodes: u64,
        restarts: u32,
        lines: &mut L,
    ) -> Result<bool, SolveFault>
        requires covers { (r : Cells) (best : Option ℤ) → IsRegionOf model.now r → AreQuiet P.Propagator model.now r best → IsQuietRegion model.now r best }
        requires few { nodes ≤ 2 ^ 62 }
        requires none { self.old.nodes ≡ 0 }
        requires ready { IsReady P.Propagator model.now self.old }
        requires lines { L.ready lines.old }
        ensures ready { IfOk result (λ more. IsTrue more → IsReady P.Propagator model.now self.new) }
        ensures lines { OnOk result (L.ready lines.new) }
        ensures few { OnOk result (self.new.nodes ≤ nodes) }
        ensures limited { IfOk result (λ more. IsTrue more → self.new.nodes ≡ nodes) }
        ensures logged { (from : L) → IsLogged L.LogTo.own model.now (plan_of nodes restarts first_stretch) from lines.old 0 (state_in true self.old)
            → Ran L.LogTo.own L.Lines model.now (limits_of nodes restarts) from lines.new self.new result }
    {
        let mut stretches = Stretches::new();
        for _n in 0..nodes {
            self.begin_anew_if_over(alloc, model, restarts, &mut stretches, lines)?;
            if !self.visit(alloc, model, lines)? {
                return Ok(false);
            }
            stretches.close();
        }
        Ok(true)
    }
}
