ghost use Rattle.std.specs.Prelude.{◌≡◌, ◌<◌, ◌^◌, IsTrue, IfOk, IsOk, OnOk, OnErr, Ok, Err, true, false, None, IfSome, IsSome, option_copied, option_map};
ghost use Rattle.sched_model.specs.Data.{Data};
ghost use Rattle.sched_model.specs.Domain.{is_in_domain};
ghost use Rattle.sched_model.specs.Valid.{IsValid};
ghost use Rattle.sched_model.specs.Words.{passes};
ghost use Rattle.region.specs.Guesses.{admits, splits};
ghost use Rattle.region.specs.Looks.{IsRegionOf};
ghost use Rattle.kernel.specs.Refuting.{refutes_with};
ghost use Rattle.kernel.specs.Steps.{opening, step, takes_memory, Gives, best_of, best_verdict, open_regions, verdict_of};
ghost use Rattle.kernel.specs.code.Faults.{derive_fault, fault_at, fault_in, nodes_in, derived, failed, cut, solved, restarted, after};
ghost use Rattle.kernel.specs.Promises.{Ready, Means};
ghost use Rattle.kernel.specs.Agenda.{first_in};
ghost use Rattle.kernel.specs.code.Open.{AreOpenOf};
ghost use Rattle.kernel.specs.declared.types.StepFault.TheVariants.{NoMemory as Memory};

use crate::agenda::Agenda;
use crate::open_regions::Open;
use crate::refuting::{is_tight, refutes};
use crate::solution::is_wanted_solution;
use crate::types::{Found, Line, StepFault, Witness};
use region::{Guess, Refuter, Region};
use sched_base::NoMemory;
use sched_model::{Assignment, Model, Verdict, value};
use std::alloc::Global;
use std::marker::PhantomData;

/// The state of a log: the regions that are still open, how many were opened, and the solution
/// found last. A line steps only where what it says is so, and then no better solution is lost.
#[derive(Drop)]
pub struct Kernel<X: Refuter> {
    agenda: Agenda,
    nodes: u64,
    found: Option<Found>,
    extra: PhantomData<X>,
}

impl<X: Refuter> std::marker::Model for Kernel<X> {
    ghost use Rattle.kernel.specs.Steps.{LogState};

    ghost Value = { LogState };

    ghost view = { λ k. record { current = k.agenda.current; waiting = k.agenda.waiting; nodes = k.nodes; found = k.found } };
}

fn best_of(found: &Option<Found>) -> Option<i64>
    ensures { result ≡ best_of found.now }
{
    match found {
        None => None,
        Some(found) => found.value,
    }
}

fn closed_verdict(value: Option<i64>) -> Verdict
    ensures { result ≡ best_verdict value }
{
    match value {
        None => Verdict::Feasible,
        Some(value) => Verdict::Optimal(value),
    }
}

fn derive_fault<X: Refuter>(
    model: &Model,
    region: &Region,
    found: &Option<Found>,
    g: Guess,
    w: &Witness<X::Witness>,
) -> Option<StepFault>
    requires of { IsRegionOf model.now region.now.region }
    ensures { result ≡ derive_fault (refutes_with X.refuting) model.now region.now.region (best_of found.now) g w.now }
{
    let best = best_of(found);
    if !region.admits(g) {
        return Some(StepFault::NotRefuted);
    }
    if !refutes::<X>(model, region, best, Some(g), w) {
        return Some(StepFault::NotRefuted);
    }
    if !is_tight::<X>(model, region, best, g, w) {
        return Some(StepFault::NotTight);
    }
    None
}

/// Why the line doesn't step from this region, by the first test that it fails.
fn fault_at<X: Refuter>(
    model: &Model,
    region: &Region,
    found: &Option<Found>,
    line: &Line<X::Witness>,
) -> Option<StepFault>
    requires valid { IsValid model.now }
    requires of { IsRegionOf model.now region.now.region }
    ensures { result ≡ fault_at (refutes_with X.refuting) model.now region.now.region found.now line.now }
{
    match line {
        Line::Derive(g, w) => derive_fault::<X>(model, region, found, *g, w),
        Line::Fail(w) => {
            if refutes::<X>(model, region, best_of(found), None, w) {
                return None;
            }
            Some(StepFault::NotRefuted)
        }
        Line::Split(g) => {
            if region.splits(*g) {
                return None;
            }
            Some(StepFault::NotSplitting)
        }
        Line::Sol(a) => {
            if is_wanted_solution(model, region, found, a) {
                return None;
            }
            Some(StepFault::NotSolution)
        }
        Line::Restart => None,
    }
}

impl<X: Refuter> Kernel<X> {
    /// The state before the first line: the root of the model waits.
    pub fn new(alloc: Global, model: &Model) -> Result<Kernel<X>, NoMemory>
        ensures state { IfOk result (λ k. k ≡ opening model.now) }
        ensures ready { IfOk result (λ k. Ready model.now k) }
    {
        Kernel::plain_new(alloc, model)
    }

    fn plain_new(alloc: Global, model: &Model) -> Result<Kernel<X>, NoMemory>
        ensures state { IfOk result (λ k. k ≡ opening model.now) }
        ensures valid { IfOk result (λ k. IsValid model.now) }
    {
        Ok(Kernel {
            agenda: Agenda::new(alloc, model)?,
            nodes: 0,
            found: None,
            extra: PhantomData,
        })
    }

    /// Takes one line, by the current region or else the first that waits, which is a further node.
    /// The first test that the line fails is told: no region is left (`NothingLeft`); the witness
    /// refutes the region, under the guess of a `Derive`, which is open (`NotRefuted`); the guess is
    /// tight (`NotTight`); it splits the region (`NotSplitting`); the assignment is a solution that
    /// the settled region allows, and better than the one found before (`NotSolution`). A line that
    /// is refused, for want of memory too, changes nothing, and its node isn't counted. A `Restart`
    /// opens none. Only a `Derive`, a `Split` or a `Restart` that steps can want for memory. A step costs what it changes, beside
    /// the sentence of its witness and the test of its assignment.
    pub fn step(
        &mut self,
        alloc: Global,
        model: &Model,
        line: Line<X::Witness>,
    ) -> Result<(), StepFault>
        requires nodes { self.old.nodes < 2 ^ 63 }
        requires ready { Ready model.now self.old }
        ensures step { Gives result (step (refutes_with X.refuting) model.now line self.old) self.old self.new }
        ensures memory { takes_memory line ≡ false → result ≡ Err Memory → ⊥ }
        ensures ready { Ready model.now self.new }
    {
        self.plain_step(alloc, model, line)
    }

    /// What the log has shown so far: `Unclosed` exactly where a region is current or waits.
    pub fn verdict(&self) -> Verdict
        ensures value { result ≡ verdict_of self.now }
        ensures means { (m : Data) → Ready m self.now → Means m result }
    {
        self.plain_verdict()
    }

    fn plain_verdict(&self) -> Verdict
        ensures { result ≡ verdict_of self.now }
    {
        if self.agenda.first().is_some() {
            return Verdict::Unclosed { best: self.best() };
        }
        match &self.found {
            None => Verdict::Infeasible,
            Some(found) => closed_verdict(found.value),
        }
    }

    /// How many regions were current so far.
    pub fn nodes(&self) -> u64
        ensures { result ≡ self.now.nodes }
    {
        self.nodes
    }

    /// The value of the objective of the solution found last; none where none was found or the model
    /// has no objective.
    pub fn best(&self) -> Option<i64>
        ensures { result ≡ best_of self.now.found }
    {
        best_of(&self.found)
    }

    /// The current region, or else the first that waits: the region that the next line is about.
    pub fn first(&self) -> Option<&Region>
        ensures first { option_map (λ r. r.now.region) result ≡ first_in self.now.current self.now.waiting }
        ensures of { (m : Data) → Ready m self.now → IfSome result (λ r. IsRegionOf m r.now.region) }
    {
        self.agenda.first()
    }

    /// The solution found last.
    pub fn found(&self) -> Option<&Found>
        ensures { option_copied result ≡ self.now.found }
    {
        self.found.as_ref()
    }

    /// The solution found last, moved out.
    pub fn into_found(self) -> Option<Found>
        ensures { result ≡ self.found }
    {
        let Kernel {
            agenda: _,
            nodes: _,
            found,
            extra: _,
        } = self;
        found
    }

    /// The open regions, the current one before those that wait. None of them is in front yet.
    pub fn into_open(self) -> Open
        ensures value { result ≡ record { front = None; behind = open_regions self; best = best_of self.found } }
        ensures of { (m : Data) → Ready m self → AreOpenOf m result }
    {
        self.plain_into_open()
    }

    fn plain_into_open(self) -> Open
        ensures { result ≡ record { front = None; behind = open_regions self; best = best_of self.found } }
    {
        let Kernel {
            agenda,
            nodes: _,
            found,
            extra: _,
        } = self;
        agenda.into_open(best_of(&found))
    }

    /// The nodes with the first region taken.
    fn nodes_taken(&self) -> u64
        requires { self.now.nodes < 2 ^ 63 }
        ensures { result ≡ nodes_in self.now }
    {
        if self.agenda.is_current() {
            return self.nodes;
        }
        self.nodes + 1
    }

    fn derive(&mut self, g: Guess) -> Result<(), NoMemory>
        requires nodes { self.old.nodes < 2 ^ 63 }
        requires admits { IsTrue (passes (λ r. admits r g) (first_in self.old.current self.old.waiting)) }
        ensures ok { OnOk result (self.new ≡ derived g self.old) }
        ensures err { OnErr result (self.new ≡ self.old) }
    {
        let nodes = self.nodes_taken();
        self.agenda.learn(g)?;
        self.nodes = nodes;
        Ok(())
    }

    fn fail(&mut self)
        requires nodes { self.old.nodes < 2 ^ 63 }
        requires first { IsSome (first_in self.old.current self.old.waiting) }
        ensures { self.new ≡ failed self.old }
    {
        self.nodes = self.nodes_taken();
        self.agenda.close();
    }

    fn split(&mut self, g: Guess) -> Result<(), NoMemory>
        requires nodes { self.old.nodes < 2 ^ 63 }
        requires splits { IsTrue (passes (λ r. splits r g) (first_in self.old.current self.old.waiting)) }
        ensures ok { OnOk result (self.new ≡ cut g self.old) }
        ensures err { OnErr result (self.new ≡ self.old) }
    {
        let nodes = self.nodes_taken();
        self.agenda.split(g)?;
        self.nodes = nodes;
        Ok(())
    }

    fn solve(&mut self, model: &Model, a: Assignment)
        requires nodes { self.old.nodes < 2 ^ 63 }
        requires first { IsSome (first_in self.old.current self.old.waiting) }
        requires domain { is_in_domain model.now a ≡ true }
        ensures { self.new ≡ solved model.now a self.old }
    {
        self.nodes = self.nodes_taken();
        let value = value(model, &a);
        self.found = Some(Found {
            assignment: a,
            value,
        });
        if model.objective().is_none() {
            self.agenda.clear();
            return;
        }
        self.agenda.close();
    }

    fn restart(&mut self, alloc: Global, model: &Model) -> Result<(), NoMemory>
        ensures ok { OnOk result (self.new ≡ restarted model.now self.old) }
        ensures err { OnErr result (self.new ≡ self.old) }
    {
        self.agenda.restart(alloc, model)
    }

    /// Why the line doesn't step.
    fn fault(&self, model: &Model, line: &Line<X::Witness>) -> Option<StepFault>
        requires { Ready model.now self.now }
        ensures { result ≡ fault_in (refutes_with X.refuting) model.now (first_in self.now.current self.now.waiting) self.now.found line.now }
    {
        match self.agenda.first() {
            None => Some(StepFault::NothingLeft),
            Some(region) => fault_at::<X>(model, region, &self.found, line),
        }
    }

    /// What a line that passes its tests changes.
    fn take(&mut self, alloc: Global, model: &Model, line: Line<X::Witness>) -> Result<(), NoMemory>
        requires nodes { self.old.nodes < 2 ^ 63 }
        requires passed { fault_in (refutes_with X.refuting) model.now (first_in self.old.current self.old.waiting) self.old.found line ≡ None }
        ensures ok { OnOk result (self.new ≡ after model.now self.old line) }
        ensures err { OnErr result (self.new ≡ self.old) }
        ensures memory { takes_memory line ≡ false → IsOk result }
    {
        match line {
            Line::Derive(g, _) => self.derive(g),
            Line::Fail(_) => {
                self.fail();
                Ok(())
            }
            Line::Split(g) => self.split(g),
            Line::Sol(a) => {
                self.solve(model, a);
                Ok(())
            }
            Line::Restart => self.restart(alloc, model),
        }
    }

    /// Takes one line that steps, without a test. Where memory is refused nothing changes.
    pub fn advance(
        &mut self,
        alloc: Global,
        model: &Model,
        line: Line<X::Witness>,
    ) -> Result<(), NoMemory>
        requires nodes { self.old.nodes < 2 ^ 63 }
        requires ready { Ready model.now self.old }
        requires steps { IsOk (step (refutes_with X.refuting) model.now line self.old) }
        ensures ok { OnOk result (step (refutes_with X.refuting) model.now line self.old ≡ Ok self.new) }
        ensures err { OnErr result (self.new ≡ self.old) }
        ensures memory { takes_memory line ≡ false → IsOk result }
        ensures ready { Ready model.now self.new }
    {
        self.take(alloc, model, line)
    }

    fn plain_step(
        &mut self,
        alloc: Global,
        model: &Model,
        line: Line<X::Witness>,
    ) -> Result<(), StepFault>
        requires nodes { self.old.nodes < 2 ^ 63 }
        requires ready { Ready model.now self.old }
        ensures step { Gives result (step (refutes_with X.refuting) model.now line self.old) self.old self.new }
        ensures memory { takes_memory line ≡ false → result ≡ Err Memory → ⊥ }
    {
        if let Some(fault) = self.fault(model, &line) {
            return Err(fault);
        }
        if self.take(alloc, model, line).is_err() {
            return Err(StepFault::NoMemory);
        }
        Ok(())
    }
}
