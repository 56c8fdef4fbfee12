//! Step functions, their closed ranges, and the constraints of calendars.
ghost use Rattle.std.specs.Prelude.{◌≡◌, ◌≤◌, ℕ, length, take, true, IfOk, OnOk, OnErr};
ghost use Rattle.sched_model.specs.Valid.{IsValid};
ghost use Rattle.calendar.specs.Steps.{value_at, are_steps, closed_of, AreClosed};
ghost use Rattle.calendar.specs.Rules.{rules_of, with_constraints, RulesSayIt};
ghost use Rattle.calendar.specs.declared.rules.Demand.TheVariants as demand;
ghost use Rattle.calendar.specs.code.Counts.{made_nodes};

use calendar::{Demand, Pair, StepFn};
use sched_base::{Itv, List, NoMemory};
use sched_model::Model;
use std::alloc::Global;

pub fn at(f: &StepFn, t: i64) -> i64
    ensures { result ≡ value_at f.now.pairs t }
{
    f.at(t)
}

pub fn closed(alloc: Global, f: &StepFn) -> Result<List<Pair>, NoMemory>
    requires steps { are_steps f.now.pairs ≡ true }
    ensures ranges { IfOk result (λ rs. rs ≡ closed_of f.now.pairs) }
    ensures meaning { IfOk result (λ rs. AreClosed f.now.pairs rs) }
    ensures few { IfOk result (λ rs. length rs ≤ 1001) }
{
    calendar::closed(alloc, f)
}

pub fn made_nodes(demand: Demand, ranges: &[Pair]) -> u64
    requires few { length ranges.now ≤ 1001 }
    ensures { result ≡ made_nodes demand ranges.now }
{
    calendar::made_nodes(demand, ranges)
}

pub fn forbid_start(alloc: Global, model: &mut Model, a: Itv, f: &StepFn) -> Result<(), NoMemory>
    requires steps { are_steps f.now.pairs ≡ true }
    requires valid { IsValid (with_constraints (rules_of demand.Start a f.now.pairs) model.old) }
    ensures ok { OnOk result (model.new ≡ with_constraints (rules_of demand.Start a f.now.pairs) model.old) }
    ensures err { OnErr result ((n : ℕ) × (model.new ≡ with_constraints (take n (rules_of demand.Start a f.now.pairs)) model.old)) }
    ensures meaning { RulesSayIt model.old demand.Start a f.now.pairs }
{
    calendar::forbid_start(alloc, model, a, f)
}

pub fn forbid_extent(alloc: Global, model: &mut Model, a: Itv, f: &StepFn) -> Result<(), NoMemory>
    requires steps { are_steps f.now.pairs ≡ true }
    requires valid { IsValid (with_constraints (rules_of demand.Extent a f.now.pairs) model.old) }
    ensures ok { OnOk result (model.new ≡ with_constraints (rules_of demand.Extent a f.now.pairs) model.old) }
    ensures err { OnErr result ((n : ℕ) × (model.new ≡ with_constraints (take n (rules_of demand.Extent a f.now.pairs)) model.old)) }
    ensures meaning { RulesSayIt model.old demand.Extent a f.now.pairs }
{
    calendar::forbid_extent(alloc, model, a, f)
}
