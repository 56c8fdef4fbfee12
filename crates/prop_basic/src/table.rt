//! The propagators of a model.
ghost use Rattle.std.specs.Prelude.{◌≡◌, ◌<◌, ◌∷◌, [], ℕ, length, Some, IsTrue, IfOk, IfNone, IfSome};
ghost use Rattle.sched_model.specs.Data.{Data, has};
ghost use Rattle.region.specs.declared.types.CellName.{CellName as CellNames};
ghost use Rattle.region.specs.Looks.{IsRegionOf};
ghost use Rattle.findings.specs.Found.{IsFinding};
ghost use Rattle.refute_basic.specs.Basic.{refutes};
ghost use Rattle.prop_basic.specs.code.Tasks.{size_of, quiet, watching, watching_best, is_cell_of, logic_of, objective_of};
ghost use Rattle.prop_basic.specs.code.Tables.{Fits, FitEach, AreNumbered, IsFor, names_in};

use crate::expressions::{ask_constraint, ask_objective};
use crate::hulls::Scan;
use crate::sizes::{ask_size, can_size_wait};
use findings::Finding;
use refute_basic::BasicWitness;
use region::{CellName, Region};
use sched_base::{Itv, NoMemory};
use sched_model::{Constraint, Model};
use std::alloc::Global;

/// One propagator for the objective (number 0), one for the sizes of each interval (from 1 on), and
/// one for each constraint after them, which is quiet where the constraint is no expression.
#[derive(Debug, Drop)]
pub struct PropBasic {
    objective: Option<Scan>,
    intervals: Vec<Itv>,
    trees: Vec<Option<Scan>>,
}

impl std::marker::Model for PropBasic {
    ghost use Rattle.std.specs.Prelude.{◌+◌, ◌<◌, ◌^◌, length};
    ghost use Rattle.prop_basic.specs.code.Tables.{Table};

    ghost Value = { Table };

    ghost view = { λ p. record { objective = p.objective; intervals = p.intervals.items; trees = p.trees.items } };

    ghost invariant = { λ p. length p.intervals.items + length p.trees.items < 2 ^ 31 };
}

fn is_calm(tree: &Option<Scan>) -> bool {
    match tree {
        None => false,
        Some(tree) => tree.is_calm(),
    }
}

/// The first intervals by their numbers.
#[tactic(auto, using(crate::proofs::Making::numbered_none, crate::proofs::Making::numbered_more))]
fn first_intervals(alloc: Global, n: u32) -> Result<Vec<Itv>, NoMemory>
    ensures { IfOk result (λ v. AreNumbered n v.items) }
{
    let mut list = Vec::new(alloc);
    for x in 0..n {
        list.push(Itv(x))?;
    }
    Ok(list)
}

/// The tree of a constraint that is an expression.
fn tree_of(alloc: Global, constraint: &Constraint) -> Result<Option<Scan>, NoMemory>
    ensures { IfOk result (Fits (logic_of (Some constraint.now))) }
{
    match constraint {
        Constraint::Logic(e) => Ok(Some(Scan::new(alloc, e)?)),
        _ => Ok(None),
    }
}

#[tactic(auto, using(crate::proofs::Making::fit_none, crate::proofs::Making::fit_more, crate::proofs::Making::fit_all))]
fn trees_of(alloc: Global, constraints: &[Constraint]) -> Result<Vec<Option<Scan>>, NoMemory>
    ensures { IfOk result (λ v. FitEach constraints.now v.items) }
{
    let mut trees = Vec::new(alloc);
    for constraint in constraints {
        trees.push(tree_of(alloc, constraint)?)?;
    }
    Ok(trees)
}

fn objective_tree(alloc: Global, model: &Model) -> Result<Option<Scan>, NoMemory>
    ensures { IfOk result (Fits (objective_of model.now.objective)) }
{
    match model.objective() {
        None => Ok(None),
        Some(o) => Ok(Some(Scan::new(alloc, &o.expr)?)),
    }
}

/// Whether the cell is one of these intervals.
fn is_cell_of(intervals: &[Itv], cell: CellName) -> bool
    ensures { result ≡ is_cell_of intervals.now cell }
{
    match cell {
        CellName::Presence(x) => has(intervals, x),
        CellName::StartMin(x) => has(intervals, x),
        CellName::StartMax(x) => has(intervals, x),
        CellName::EndMin(x) => has(intervals, x),
        CellName::EndMax(x) => has(intervals, x),
        CellName::Order(..) => false,
    }
}

fn has(intervals: &[Itv], x: Itv) -> bool
    ensures { result ≡ has intervals.now x }
{
    intervals.iter().any(|y| x.0 == y.0)
}

/// The intervals that a tree names.
fn named(tree: &Option<Scan>) -> &[Itv]
    ensures { result.now ≡ names_in tree.now }
{
    match tree {
        None => &[],
        Some(tree) => tree.intervals(),
    }
}

impl PropBasic {
    /// The propagators of a model. Only this call asks for memory, as much as the model's expressions
    /// have nodes.
    pub fn new(alloc: Global, model: &Model) -> Result<PropBasic, NoMemory>
        ensures { IfOk result (λ p. IsFor p model.now) }
    {
        let objective = objective_tree(alloc, model)?;
        let intervals = first_intervals(alloc, model.intervals().len() as u32)?;
        let trees = trees_of(alloc, model.constraints())?;
        Ok(PropBasic {
            objective,
            intervals,
            trees,
        })
    }

    /// How many there are.
    pub fn count(&self) -> u32
        ensures { (m : Data) → IsFor self.now m → result ≡ size_of m }
    {
        1 + self.intervals.len() as u32 + self.trees.len() as u32
    }

    /// What one of them finds; nothing exactly where it is quiet. It evaluates an expression once in
    /// the region, and for each guess walks from the root to what tells of the guess's interval.
    pub fn next(
        &mut self,
        k: u32,
        model: &Model,
        region: &Region,
        best: Option<i64>,
    ) -> Option<Finding<BasicWitness>>
        requires of { IsFor self.old model.now }
        requires below { k < size_of model.now }
        requires region { IsRegionOf model.now region.now.region }
        ensures kept { (m : Data) → IsFor self.old m → IsFor self.new m }
        ensures none { IfNone result (quiet model.now k region.now.region best) }
        ensures some { IfSome result (IsFinding refutes model.now region.now.region best) }
        ensures busy { IfSome result (λ f. quiet model.now k region.now.region best → ⊥) }
    {
        if k == 0 {
            return ask_objective(&mut self.objective, model, region, best);
        }
        let n = self.intervals.len() as u32;
        if k <= n {
            return ask_size(model, region, best, k - 1);
        }
        let c = k - 1 - n;
        ask_constraint(&mut self.trees[c as usize], model, region, best, c)
    }

    /// Whether it finds nothing now, or what it finds can wait: the earliest end and the latest start
    /// that the least size leaves. The objective and an expression of which nothing was found last
    /// mostly stay so, and to ask them costs a walk for each guess: they wait.
    pub fn can_wait(&self, k: u32, model: &Model, region: &Region) -> bool {
        let _ = model;
        let n = self.intervals.len();
        let i = k as usize;
        if i == 0 {
            return is_calm(&self.objective);
        }
        if i <= n {
            return can_size_wait(region, k - 1);
        }
        match self.trees.get(i - 1 - n) {
            None => false,
            Some(tree) => is_calm(tree),
        }
    }

    /// The intervals that have a cell which it watches.
    pub fn watched(&self, k: u32) -> &[Itv]
        requires { (m : Data) × IsFor self.now m × (k < size_of m) }
        ensures { (m : Data) → IsFor self.now m → (cell : CellNames) → IsTrue (watching m k cell) → IsTrue (is_cell_of result.now cell) }
    {
        if k == 0 {
            return named(&self.objective);
        }
        let n = self.intervals.len();
        let i = k as usize - 1;
        if i < n {
            return &self.intervals[i..=i];
        }
        named(&self.trees[i - n])
    }

    /// Whether it watches a cell.
    pub fn watches(&self, k: u32, cell: CellName) -> bool
        requires { (m : Data) × IsFor self.now m × (k < size_of m) }
        ensures { (m : Data) → IsFor self.now m → IsTrue (watching m k cell) → IsTrue result }
    {
        is_cell_of(self.watched(k), cell)
    }

    /// Whether it watches the best value.
    pub fn watches_best(&self, k: u32) -> bool
        ensures { (m : Data) → result ≡ watching_best m k }
    {
        k == 0
    }

    /// The level on which it is woken.
    pub fn level(&self, k: u32) -> u8 {
        let _ = k;
        0
    }
}
