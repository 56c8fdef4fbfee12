//! What the propagator of a constraint is about.
ghost use Rattle.std.specs.Prelude.{◌≡◌, ◌||◌, Some, IfOk, OnOk};
ghost use Rattle.std.specs.List.{filter};
ghost use Rattle.std.specs.Option.{option_to_list};
ghost use Rattle.sched_base.specs.declared.ids.Itv.{Itv as Itvs};
ghost use Rattle.sched_model.specs.Data.{same, has};
ghost use Rattle.refute_cumul.specs.Listed.{shape_names, window_names, names_in};
ghost use Rattle.prop_cumul.specs.code.Tables.{is_of, IsTaskIn, IsTaskOf, AreGroups, AreTasks};

use refute_cumul::parts_of;
use sched_base::{Itv, List, NoMemory};
use sched_model::{Constraint, Model, Part, Shape, Window};
use std::alloc::Global;

/// The intervals of a function and of its window, each once, and of each its parts.
#[derive(Debug, Drop)]
pub struct Task {
    pub intervals: List<Itv>,
    pub groups: List<List<Part>>,
}

pub fn has(intervals: &[Itv], x: Itv) -> bool
    ensures { result ≡ has intervals.now x }
{
    intervals.iter().any(|y| x.0 == y.0)
}

/// Lists an interval that isn't listed yet.
#[tactic(auto, using(crate::proofs::Making::there_already, crate::proofs::Making::put_there))]
fn put(names: &mut Vec<Itv>, x: Itv) -> Result<(), NoMemory>
    ensures { OnOk result ((y : Itvs) → has names.new.items y ≡ (has names.old.items y || same y x)) }
{
    if has(names.as_slice(), x) {
        return Ok(());
    }
    names.push(x)?;
    Ok(())
}

/// The interval of a shape.
fn interval_of(shape: Shape) -> Option<Itv>
    ensures { option_to_list result ≡ shape_names shape }
{
    match shape {
        Shape::PulseOf { a, h: _ } => Some(a),
        Shape::StepAtStart { a, h: _ } => Some(a),
        Shape::StepAtEnd { a, h: _ } => Some(a),
        _ => None,
    }
}

fn put_shape(names: &mut Vec<Itv>, shape: Shape) -> Result<(), NoMemory>
    ensures { OnOk result ((y : Itvs) → has names.new.items y ≡ (has names.old.items y || has (shape_names shape) y)) }
{
    match interval_of(shape) {
        None => Ok(()),
        Some(x) => put(names, x),
    }
}

fn window_name(alloc: Global, window: Window) -> Result<Vec<Itv>, NoMemory>
    ensures { IfOk result (λ v. v.items ≡ window_names window) }
{
    let mut names = Vec::new(alloc);
    if let Window::During(x) = window {
        names.push(x)?;
    }
    Ok(names)
}

/// The intervals of some parts and of a window, each once.
#[tactic(auto, using(crate::proofs::Making::names_first, crate::proofs::Making::names_more, crate::proofs::Making::names_last))]
fn names_in(alloc: Global, parts: &[Part], window: Window) -> Result<List<Itv>, NoMemory>
    ensures { IfOk result (λ v. (y : Itvs) → has v y ≡ has (names_in parts.now window) y) }
{
    let mut names = window_name(alloc, window)?;
    for part in parts {
        put_shape(&mut names, part.shape)?;
    }
    Ok(List::from_vec(names))
}

/// Whether a part is of an interval.
fn is_of(x: Itv, part: Part) -> bool
    ensures { result ≡ is_of x part }
{
    match interval_of(part.shape) {
        None => false,
        Some(y) => x.0 == y.0,
    }
}

/// The parts of an interval.
fn group(alloc: Global, x: Itv, parts: &[Part]) -> Result<List<Part>, NoMemory>
    ensures { IfOk result (λ v. v ≡ filter (is_of x) parts.now) }
{
    let mut list = Vec::new(alloc);
    for part in parts {
        if is_of(x, *part) {
            list.push(*part)?;
        }
    }
    Ok(List::from_vec(list))
}

/// The parts of each interval.
#[tactic(auto, using(crate::proofs::Making::no_groups, crate::proofs::Making::one_group, crate::proofs::Making::all_groups))]
fn groups(alloc: Global, intervals: &[Itv], parts: &[Part]) -> Result<List<List<Part>>, NoMemory>
    ensures { IfOk result (AreGroups intervals.now parts.now) }
{
    let mut list = Vec::new(alloc);
    for x in intervals {
        list.push(group(alloc, *x, parts)?)?;
    }
    Ok(List::from_vec(list))
}

fn task_in(alloc: Global, parts: &[Part], window: Window) -> Result<Task, NoMemory>
    ensures { IfOk result (IsTaskIn parts.now (names_in parts.now window)) }
{
    let intervals = names_in(alloc, parts, window)?;
    let groups = groups(alloc, intervals.as_slice(), parts)?;
    Ok(Task { intervals, groups })
}

/// The task of a constraint; it is empty where that bounds no cumulative function.
fn task_of(alloc: Global, model: &Model, constraint: &Constraint) -> Result<Task, NoMemory>
    ensures { IfOk result (IsTaskOf model.now (Some constraint.now)) }
{
    match constraint {
        Constraint::CumulIn { f, window, .. } => task_in(alloc, parts_of(model, *f), *window),
        _ => Ok(Task {
            intervals: List::new(alloc),
            groups: List::new(alloc),
        }),
    }
}

/// The task of each constraint. It asks for each interval of a function which of its parts are of it.
#[tactic(auto, using(crate::proofs::Making::no_tasks, crate::proofs::Making::one_task, crate::proofs::Making::all_tasks))]
pub fn tasks_of(
    alloc: Global,
    model: &Model,
    constraints: &[Constraint],
) -> Result<Vec<Task>, NoMemory>
    ensures { IfOk result (λ v. AreTasks model.now constraints.now v.items) }
{
    let mut list = Vec::new(alloc);
    for constraint in constraints {
        list.push(task_of(alloc, model, constraint)?)?;
    }
    Ok(list)
}
