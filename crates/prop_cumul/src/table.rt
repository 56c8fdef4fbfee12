//! The propagators of a model.
ghost use Rattle.std.specs.Prelude.{◌≡◌, ◌<◌, IsTrue, IfOk, IfNone, IfSome};
ghost use Rattle.sched_model.specs.Data.{Data};
ghost use Rattle.region.specs.declared.types.CellName.{CellName as CellNames};
ghost use Rattle.region.specs.Looks.{IsRegionOf};
ghost use Rattle.findings.specs.Found.{IsFinding};
ghost use Rattle.refute_cumul.specs.OnCumul.{refutes};
ghost use Rattle.prop_cumul.specs.code.Tables.{IsFor};
ghost use Rattle.prop_cumul.specs.code.Tasks.{size_of, quiet, watching, watching_best, is_cell_of};

use crate::asking::ask_constraint;
use crate::task::{Task, has, tasks_of};
use findings::Finding;
use refute_cumul::{CumulWitness, Profile, most_parts};
use region::{CellName, Region};
use sched_base::{Itv, NoMemory};
use sched_model::Model;
use std::alloc::Global;

/// One propagator for each constraint, which is quiet where the constraint bounds no cumulative
/// function.
#[derive(Debug, Drop)]
pub struct PropCumul {
    tasks: Vec<Task>,
    profile: Profile,
}

impl std::marker::Model for PropCumul {
    ghost use Rattle.std.specs.Prelude.{◌<◌, ◌^◌, length};
    ghost use Rattle.prop_cumul.specs.code.Tables.{Table};

    ghost Value = { Table };

    ghost view = { λ p. record { tasks = p.tasks.items; room = p.profile.room } };

    ghost invariant = { λ p. length p.tasks.items < 2 ^ 32 };
}

/// Whether the cell is one of these intervals.
fn is_cell_of(intervals: &[Itv], cell: CellName) -> bool
    ensures { result ≡ is_cell_of intervals.now cell }
{
    match cell {
        CellName::Presence(x) => has(intervals, x),
        CellName::StartMin(x) => has(intervals, x),
        CellName::StartMax(x) => has(intervals, x),
        CellName::EndMin(x) => has(intervals, x),
        CellName::EndMax(x) => has(intervals, x),
        CellName::Order(..) => false,
    }
}

impl PropCumul {
    /// The propagators of a model. Only this call asks for memory, as much as the functions of the
    /// model's constraints have parts.
    pub fn new(alloc: Global, model: &Model) -> Result<PropCumul, NoMemory>
        ensures { IfOk result (λ p. IsFor p model.now) }
    {
        let tasks = tasks_of(alloc, model, model.constraints())?;
        let profile = Profile::new(alloc, most_parts(model))?;
        Ok(PropCumul { tasks, profile })
    }

    /// How many there are.
    pub fn count(&self) -> u32
        ensures { (m : Data) → IsFor self.now m → result ≡ size_of m }
    {
        self.tasks.len() as u32
    }

    /// What one of them finds; nothing exactly where it is quiet, at whatever moment. It sorts the
    /// moments at which the parts change once a side, and for each guess steps through the profile
    /// between the changes of the parts of its interval.
    #[inline(never)]
    pub fn next(
        &mut self,
        k: u32,
        model: &Model,
        region: &Region,
        best: Option<i64>,
    ) -> Option<Finding<CumulWitness>>
        requires of { IsFor self.old model.now }
        requires below { k < size_of model.now }
        requires region { IsRegionOf model.now region.now.region }
        ensures kept { (m : Data) → IsFor self.old m → IsFor self.new m }
        ensures none { IfNone result (quiet model.now k region.now.region best) }
        ensures some { IfSome result (IsFinding refutes model.now region.now.region best) }
        ensures busy { IfSome result (λ f. quiet model.now k region.now.region best → ⊥) }
    {
        ask_constraint(
            &mut self.profile,
            &self.tasks[k as usize],
            model,
            region,
            best,
            k,
        )
    }

    /// The intervals that have a cell which it watches.
    pub fn watched(&self, k: u32) -> &[Itv]
        requires { (m : Data) × IsFor self.now m × (k < size_of m) }
        ensures { (m : Data) → IsFor self.now m → (cell : CellNames) → watching m k cell ≡ is_cell_of result.now cell }
    {
        self.tasks[k as usize].intervals.as_slice()
    }

    /// Whether it watches a cell.
    pub fn watches(&self, k: u32, cell: CellName) -> bool
        requires { (m : Data) × IsFor self.now m × (k < size_of m) }
        ensures { (m : Data) → IsFor self.now m → result ≡ watching m k cell }
    {
        is_cell_of(self.watched(k), cell)
    }

    /// Whether it watches the best value.
    pub fn watches_best(&self, k: u32) -> bool
        ensures { (m : Data) → result ≡ watching_best m k }
    {
        let _ = k;
        false
    }

    /// The level on which it is woken: behind those that look at one interval or two at a time, since
    /// it steps through a whole profile.
    pub fn level(&self, k: u32) -> u8 {
        let _ = k;
        1
    }
}
