//! What the propagator of a constraint is about.
ghost use Rattle.std.specs.Prelude.{◌≡◌, ◌∷◌, Some, IfOk, nat_eq};
ghost use Rattle.std.specs.List.{list_any};
ghost use Rattle.sched_model.specs.Data.{has};
ghost use Rattle.prop_hier.specs.code.Tables.{intervals_of, sequences_of, watch_of, is_bound_of, watches, ListEach};

use refute_hier::{members_of, related_in};
use region::CellName;
use sched_base::{Itv, List, NoMemory, Seq};
use sched_model::{Constraint, Model};
use std::alloc::Global;

/// What a propagator watches: the presence of intervals, and the orders of the sequence of its
/// relation, or where it has none the bounds of these intervals.
#[derive(Debug, Drop)]
pub struct Watch {
    pub intervals: List<Itv>,
    pub sequences: List<Seq>,
}

/// A list of its own of an interval and its parts.
fn joined(alloc: Global, a: Itv, parts: &[Itv]) -> Result<List<Itv>, NoMemory>
    ensures { IfOk result (λ v. v ≡ a ∷ parts.now) }
{
    let mut list = Vec::new(alloc);
    list.push(a)?;
    list.extend_from_slice(parts)?;
    Ok(List::from_vec(list))
}

fn copied(alloc: Global, members: &[Itv]) -> Result<List<Itv>, NoMemory>
    ensures { IfOk result (λ v. v ≡ members.now) }
{
    let mut list = Vec::new(alloc);
    list.extend_from_slice(members)?;
    Ok(List::from_vec(list))
}

/// The intervals that a constraint is about: of an interval with parts these, of a relation of two
/// members these, and of other relations the members of their sequence.
fn intervals_of(
    alloc: Global,
    model: &Model,
    constraint: &Constraint,
) -> Result<List<Itv>, NoMemory>
    ensures { IfOk result (λ v. v ≡ intervals_of model.now (Some constraint.now)) }
{
    match constraint {
        Constraint::Span { a, parts } => joined(alloc, *a, parts.as_slice()),
        Constraint::Alternative { a, parts, count: _ } => joined(alloc, *a, parts.as_slice()),
        Constraint::Synchronize { a, parts } => joined(alloc, *a, parts.as_slice()),
        Constraint::First { p, a: _ } => copied(alloc, members_of(model, *p)),
        Constraint::Last { p, a: _ } => copied(alloc, members_of(model, *p)),
        Constraint::Before { p: _, a, b } => copied(alloc, &[*a, *b]),
        Constraint::Prev { p, a: _, b: _ } => copied(alloc, members_of(model, *p)),
        _ => Ok(List::new(alloc)),
    }
}

fn sequences_of(alloc: Global, constraint: &Constraint) -> Result<List<Seq>, NoMemory>
    ensures { IfOk result (λ v. v ≡ sequences_of (Some constraint.now)) }
{
    let Some(p) = related_in(constraint) else {
        return Ok(List::new(alloc));
    };
    let mut list = Vec::new(alloc);
    list.push(p)?;
    Ok(List::from_vec(list))
}

fn watch_of(alloc: Global, model: &Model, constraint: &Constraint) -> Result<Watch, NoMemory>
    ensures { IfOk result (λ w. w ≡ watch_of model.now (Some constraint.now)) }
{
    Ok(Watch {
        intervals: intervals_of(alloc, model, constraint)?,
        sequences: sequences_of(alloc, constraint)?,
    })
}

/// What the propagator of each of these constraints watches.
#[tactic(auto, using(crate::proofs::Making::list_none, crate::proofs::Making::list_more, crate::proofs::Making::list_all))]
pub fn watch_each(
    alloc: Global,
    model: &Model,
    constraints: &[Constraint],
) -> Result<Vec<Watch>, NoMemory>
    ensures { IfOk result (λ v. ListEach model.now constraints.now v.items) }
{
    let mut list = Vec::new(alloc);
    for constraint in constraints {
        list.push(watch_of(alloc, model, constraint)?)?;
    }
    Ok(list)
}

fn has(intervals: &[Itv], x: Itv) -> bool
    ensures { result ≡ has intervals.now x }
{
    intervals.iter().any(|y| x.0 == y.0)
}

fn has_sequence(sequences: &[Seq], p: Seq) -> bool
    ensures { result ≡ list_any (λ q. nat_eq p.0 q.0) sequences.now }
{
    sequences.iter().any(|q| p.0 == q.0)
}

impl Watch {
    /// Whether it watches the bounds of an interval.
    fn is_bound_of(&self, x: Itv) -> bool
        ensures { result ≡ is_bound_of self.now x }
    {
        self.sequences.as_slice().is_empty() && has(self.intervals.as_slice(), x)
    }

    /// Whether it watches a cell.
    pub fn watches(&self, cell: CellName) -> bool
        ensures { result ≡ watches self.now cell }
    {
        match cell {
            CellName::Presence(x) => has(self.intervals.as_slice(), x),
            CellName::StartMin(x) => self.is_bound_of(x),
            CellName::StartMax(x) => self.is_bound_of(x),
            CellName::EndMin(x) => self.is_bound_of(x),
            CellName::EndMax(x) => self.is_bound_of(x),
            CellName::Order(p, _, _) => has_sequence(self.sequences.as_slice(), p),
        }
    }
}
