//! Models, assignments, and the meaning of constraints and objectives.
ghost use Rattle.std.specs.Prelude.{◌≡◌, length, OnErr, IfOk, true, ◌<◌, Some, is_some, slice_get, slice_index_or, pos, IsTrue, ◌↔◌};
ghost use Rattle.std.specs.Option.{option_copied};
ghost use Rattle.sched_model.specs.Data.{with_interval, with_matrix, with_sequence, with_cumul, with_state, with_constraint, with_objective, same, distance};
ghost use Rattle.sched_model.specs.code.Model.{data_of};
ghost use Rattle.sched_model.specs.Valid.{IsValid};
ghost use Rattle.sched_model.specs.Domain.{fits_def, is_in_domain};
ghost use Rattle.sched_model.specs.Words.{placewise};
ghost use Rattle.sched_model.specs.Value.{value_of, slot_of};
ghost use Rattle.sched_model.specs.Hull.{hull_of};
ghost use Rattle.sched_model.specs.Rank.{unranked_in, rank_within};
ghost use Rattle.sched_model.specs.code.Ranks.{count_of};
ghost use Rattle.sched_model.specs.Sentences.{Holds, holds_at};
ghost use Rattle.sched_model.specs.declared.types.Constraint.{Constraint};
ghost use Rattle.sched_model.specs.Solution.{IsSolution, beats, is_solution, objective_of};
ghost use Rattle.std.specs.Int.{saturate_signed, w64};
ghost use Rattle.sched_model.specs.code.Saturated.{saturated_range};
ghost use Rattle.sched_model.specs.Temporal.{is_precedence};
ghost use Rattle.std.specs.List.Sorted.{IsPermutation};
ghost use Rattle.sched_model.specs.Changes.{IsInOrder};

use sched_base::{Con, Cum, Itv, List, Mat, NoMemory, Seq, Stf};
use sched_model::{
    Assignment, Change, Constraint, CumulDef, End, Expr, IntervalDef, MatrixDef, Model, Objective,
    Parts, Sense, SequenceDef, Slot, Slots, StateDef,
};
use std::alloc::Global;

pub fn of(parts: Parts) -> Model
    requires { IsValid (data_of parts) }
    ensures { result ≡ data_of parts }
{
    Model::of(parts)
}

pub fn into_parts(model: Model) -> Parts
    ensures parts { data_of result ≡ model }
    ensures valid { IsValid model }
{
    model.into_parts()
}

pub fn add_interval(model: &mut Model, def: IntervalDef) -> Result<Itv, NoMemory>
    requires { IsValid (with_interval def model.old) }
    ensures ok { IfOk result (λ x. (x.0 ≡ length model.old.intervals) × (model.new ≡ with_interval def model.old)) }
    ensures err { OnErr result (model.new ≡ model.old) }
{
    model.add_interval(def)
}

pub fn add_matrix(model: &mut Model, def: MatrixDef) -> Result<Mat, NoMemory>
    requires { IsValid (with_matrix def model.old) }
    ensures ok { IfOk result (λ x. (x.0 ≡ length model.old.matrices) × (model.new ≡ with_matrix def model.old)) }
    ensures err { OnErr result (model.new ≡ model.old) }
{
    model.add_matrix(def)
}

pub fn add_sequence(model: &mut Model, def: SequenceDef) -> Result<Seq, NoMemory>
    requires { IsValid (with_sequence def model.old) }
    ensures ok { IfOk result (λ x. (x.0 ≡ length model.old.sequences) × (model.new ≡ with_sequence def model.old)) }
    ensures err { OnErr result (model.new ≡ model.old) }
{
    model.add_sequence(def)
}

pub fn add_cumul(model: &mut Model, def: CumulDef) -> Result<Cum, NoMemory>
    requires { IsValid (with_cumul def model.old) }
    ensures ok { IfOk result (λ x. (x.0 ≡ length model.old.cumuls) × (model.new ≡ with_cumul def model.old)) }
    ensures err { OnErr result (model.new ≡ model.old) }
{
    model.add_cumul(def)
}

pub fn add_state(model: &mut Model, def: StateDef) -> Result<Stf, NoMemory>
    requires { IsValid (with_state def model.old) }
    ensures ok { IfOk result (λ x. (x.0 ≡ length model.old.states) × (model.new ≡ with_state def model.old)) }
    ensures err { OnErr result (model.new ≡ model.old) }
{
    model.add_state(def)
}

pub fn add_constraint(model: &mut Model, c: Constraint) -> Result<Con, NoMemory>
    requires { IsValid (with_constraint c model.old) }
    ensures ok { IfOk result (λ k. (k.0 ≡ length model.old.constraints) × (model.new ≡ with_constraint c model.old)) }
    ensures err { OnErr result (model.new ≡ model.old) }
{
    model.add_constraint(c)
}

pub fn set_objective(model: &mut Model, o: Objective)
    requires { IsValid (with_objective o model.old) }
    ensures { model.new ≡ with_objective o model.old }
{
    model.set_objective(o);
}

pub fn intervals(model: &Model) -> &[IntervalDef]
    ensures list { result.now ≡ model.now.intervals }
    ensures valid { IsValid model.now }
{
    model.intervals()
}

pub fn constraints(model: &Model) -> &[Constraint]
    ensures list { result.now ≡ model.now.constraints }
    ensures valid { IsValid model.now }
{
    model.constraints()
}

pub fn objective(model: &Model) -> Option<&Objective>
    ensures same { option_copied result ≡ model.now.objective }
    ensures valid { IsValid model.now }
{
    model.objective()
}

/// How many criteria the objective has.
pub fn criteria_count(model: &Model) -> u32
    ensures { result ≡ count_of model.now.objective }
{
    sched_model::criteria_count(model)
}

/// The value of one of them, where `v` is the value of the objective's expression.
pub fn unrank(model: &Model, v: i64, i: u32) -> i64
    requires { i < count_of model.now.objective }
    ensures { result ≡ slice_index_or (unranked_in model.now v) i (pos 0) }
{
    sched_model::unrank(model, v, i)
}

/// Several criteria as one expression, their rank.
pub fn make_rank(
    alloc: Global,
    model: &Model,
    criteria: List<Expr>,
) -> Result<Option<Expr>, NoMemory>
    ensures { IfOk result (λ o. o ≡ rank_within model.now criteria) }
{
    sched_model::make_rank(alloc, model, criteria)
}

pub fn in_domain(model: &Model, a: &Assignment) -> bool
    ensures { result ≡ is_in_domain model.now a.now }
{
    sched_model::in_domain(model, a)
}

pub fn holds(model: &Model, c: Con, a: &Assignment) -> bool
    requires there { c.0 < length model.now.constraints }
    requires domain { is_in_domain model.now a.now ≡ true }
    ensures test { result ≡ holds_at model.now c a.now }
    ensures sentence { (k : Constraint) → slice_get model.now.constraints c.0 ≡ Some k → IsTrue result ↔ Holds model.now a.now k }
{
    sched_model::holds(model, c, a)
}

pub fn value(model: &Model, a: &Assignment) -> Option<i64>
    requires { is_in_domain model.now a.now ≡ true }
    ensures { result ≡ objective_of model.now a.now }
{
    sched_model::value(model, a)
}

pub fn is_solution(model: &Model, a: &Assignment) -> bool
    ensures test { result ≡ is_solution model.now a.now }
    ensures fact { IsTrue result ↔ IsSolution model.now a.now }
{
    sched_model::is_solution(model, a)
}

pub fn beats(sense: Sense, value: i64, best: i64) -> bool
    ensures { result ≡ beats sense value best }
{
    sched_model::beats(sense, value, best)
}

pub fn hull(model: &Model, e: &Expr) -> Option<(i64, i64)>
    ensures { result ≡ hull_of model.now e.now }
{
    sched_model::hull(model, e)
}

pub fn value_in<S: Slots>(model: &Model, slots: &S, e: &Expr) -> i64
    requires hull { is_some (hull_of model.now e.now) ≡ true }
    requires fits { placewise fits_def model.now.intervals (S.meaning slots.now).slots ≡ true }
    ensures { result ≡ value_of (S.meaning slots.now) e.now }
{
    sched_model::value_in(model, slots, e)
}

pub fn slot<S: Slots>(slots: &S, x: Itv) -> Slot
    ensures { result ≡ slot_of (S.meaning slots.now) x }
{
    slots.slot(x)
}

pub fn is_precedence<S: Slots>(
    slots: &S,
    from: End,
    to: End,
    equal: bool,
    x: Itv,
    y: Itv,
    z: i64,
) -> bool
    ensures { result ≡ is_precedence (S.meaning slots.now) from to equal x y z }
{
    sched_model::is_precedence(slots, from, to, equal, x, y, z)
}

pub fn distance(model: &Model, matrix: Option<Mat>, i: u64, j: u64) -> i64
    ensures { result ≡ distance model.now matrix i j }
{
    sched_model::distance(model, matrix, i, j)
}

pub fn sort_changes(changes: &mut [Change])
    ensures moved { IsPermutation changes.old changes.new }
    ensures in_order { IsInOrder changes.new }
{
    sched_model::sort_changes(changes);
}

pub fn nearest(z: i128) -> i64
    ensures { result ≡ saturate_signed w64 z }
{
    sched_model::ranges::nearest(z)
}

pub fn times(so_far: (i128, i128), part: (i64, i64)) -> (i128, i128)
    ensures { result ≡ saturated_range so_far part }
{
    sched_model::ranges::times(so_far, part)
}
