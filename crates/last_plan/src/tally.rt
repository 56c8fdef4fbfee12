ghost use Rattle.std.specs.Prelude.{◌≡◌, ◌+◌, IfOk, OnOk, length, get_or, take, ◌-◌};
ghost use Rattle.last_plan.specs.Counted.{value_shown, opened, entered, after_derive, after_fail, after_split, after_sol, after_restart, start};

use crate::counts::{Counts, FoundAt};
use kernel::Line;
use logtext::{LogExtra, LogWitness};
use replay::Watcher;
use sched_base::{List, NoMemory};
use sched_model::{Assignment, Model, in_domain, value};
use std::alloc::Global;

/// Counts the lines of a log that it is shown. Beside the counts it keeps how many splits stand above
/// the current region, where there is one, and above each that waits, the first of them last.
#[derive(Drop)]
pub struct Tally<'a> {
    model: &'a Model,
    counts: Counts,
    nodes: u64,
    is_open: bool,
    level: u64,
    waiting: Vec<u64>,
}

impl<'a> std::marker::Model for Tally<'a> {
    ghost use Rattle.sched_model.specs.contracts.types.Expr as e;
    ghost use Rattle.std.specs.Coded.{codes};
    ghost use Rattle.last_plan.specs.Counted.{Tallied};

    ghost Value = { Tallied };

    ghost coded = { Prim.hlevel (codes, e.the_row.coded) };

    ghost view = { λ t. record { m = t.model.now; counts = t.counts; nodes = t.nodes; is_open = t.is_open; level = t.level; waiting = t.waiting.items } };
}

/// One more. A count that its type can't hold is taken for want of memory; no log has so many lines.
fn one_more(n: u64) -> Result<u64, NoMemory>
    ensures { IfOk result (λ k. k ≡ n + 1) }
{
    match n.checked_add(1) {
        Some(k) => Ok(k),
        None => Err(NoMemory),
    }
}

/// The value of the objective, where the assignment is one that has a value.
fn value_shown(model: &Model, a: &Assignment) -> Option<i64>
    ensures { result ≡ value_shown model.now a.now }
{
    if !in_domain(model, a) {
        return None;
    }
    value(model, a)
}

impl<'a> Tally<'a> {
    /// Before the first line.
    pub fn new(alloc: Global, model: &'a Model) -> Result<Tally<'a>, NoMemory>
        ensures { IfOk result (λ t. t ≡ start model.now) }
    {
        let mut waiting = Vec::new(alloc);
        waiting.push(0)?;
        Ok(Tally {
            model,
            counts: Counts {
                derived: 0,
                failed: 0,
                split: 0,
                solved: 0,
                restarted: 0,
                depth: 0,
                found: List::new(alloc),
            },
            nodes: 0,
            is_open: false,
            level: 0,
            waiting,
        })
    }

    pub fn into_counts(self) -> Counts
        ensures { result ≡ self.entry.counts }
    {
        let Tally {
            model: _,
            counts,
            nodes: _,
            is_open: _,
            level: _,
            waiting: _,
        } = self;
        counts
    }

    /// The first region that waits becomes current.
    fn open(&mut self) -> Result<(), NoMemory>
        ensures { OnOk result (self.new ≡ opened self.old) }
    {
        self.nodes = one_more(self.nodes)?;
        self.level = self.waiting.pop().unwrap_or(0);
        self.is_open = true;
        self.counts.depth = self.counts.depth.max(self.level);
        Ok(())
    }

    fn enter(&mut self) -> Result<(), NoMemory>
        ensures { OnOk result (self.new ≡ entered self.old) }
    {
        if self.is_open {
            return Ok(());
        }
        self.open()
    }

    fn derive(&mut self) -> Result<(), NoMemory>
        ensures { OnOk result (self.new ≡ after_derive self.old) }
    {
        self.enter()?;
        self.counts.derived = one_more(self.counts.derived)?;
        Ok(())
    }

    fn fail(&mut self) -> Result<(), NoMemory>
        ensures { OnOk result (self.new ≡ after_fail self.old) }
    {
        self.enter()?;
        self.counts.failed = one_more(self.counts.failed)?;
        self.is_open = false;
        Ok(())
    }

    fn split(&mut self) -> Result<(), NoMemory>
        ensures { OnOk result (self.new ≡ after_split self.old) }
    {
        self.enter()?;
        self.counts.split = one_more(self.counts.split)?;
        let below = one_more(self.level)?;
        self.waiting.push(below)?;
        self.waiting.push(below)?;
        self.is_open = false;
        Ok(())
    }

    fn solve(&mut self, a: &Assignment) -> Result<(), NoMemory>
        ensures { OnOk result (self.new ≡ after_sol a.now self.old) }
    {
        self.enter()?;
        self.counts.solved = one_more(self.counts.solved)?;
        self.counts.found.push(FoundAt {
            nodes: self.nodes,
            value: value_shown(self.model, a),
        })?;
        self.is_open = false;
        Ok(())
    }

    fn restart(&mut self) -> Result<(), NoMemory>
        ensures { OnOk result (self.new ≡ after_restart self.old) }
    {
        self.counts.restarted = one_more(self.counts.restarted)?;
        self.waiting.clear();
        self.waiting.push(0)?;
        self.is_open = false;
        Ok(())
    }
}

impl<'a> Watcher<LogExtra> for Tally<'a> {
    ghost use Rattle.last_plan.specs.Counted.{counted};

    ghost noted = { counted };

    fn note(&mut self, line: &Line<LogWitness>) -> Result<(), NoMemory> {
        match line {
            Line::Derive(_, _) => self.derive(),
            Line::Fail(_) => self.fail(),
            Line::Split(_) => self.split(),
            Line::Sol(a) => self.solve(a),
            Line::Restart => self.restart(),
        }
    }
}
