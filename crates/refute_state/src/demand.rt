//! What state constraints demand, and how far apart demands are to be.
ghost use Rattle.std.specs.Prelude.{◌≡◌};
ghost use Rattle.sched_model.specs.Data.{state_matrix};
ghost use Rattle.refute_state.specs.Demands.{demand_of, demand_at, of_one, same_state, some_state, state_gap, demand_gap};

use sched_base::{Itv, Mat, Stf, at};
use sched_model::{Constraint, Model, distance};

/// What a constraint demands of a state function while an interval lasts.
#[derive(Clone, Copy, Debug, PartialEq, Eq)]
pub struct Demand {
    /// The state function.
    pub g: Stf,
    /// The interval.
    pub x: Itv,
    /// The state, or none where no segment may share a moment with the interval.
    pub state: Option<i64>,
    /// Whether a segment starts with the interval.
    pub starts: bool,
    /// Whether a segment ends with the interval.
    pub ends: bool,
}

/// The demand of a state constraint.
pub fn demand_of(constraint: &Constraint) -> Option<Demand>
    ensures { result ≡ demand_of constraint.now }
{
    match constraint {
        Constraint::AlwaysEqual {
            g,
            a,
            v,
            start_aligned,
            end_aligned,
        } => Some(Demand {
            g: *g,
            x: *a,
            state: Some(*v),
            starts: *start_aligned,
            ends: *end_aligned,
        }),
        Constraint::AlwaysNoState { g, a } => Some(Demand {
            g: *g,
            x: *a,
            state: None,
            starts: false,
            ends: false,
        }),
        _ => None,
    }
}

/// The demand of the constraint of this id, if it is a state constraint.
pub fn demand_at(model: &Model, c: u32) -> Option<Demand>
    ensures { result ≡ demand_at model.now c }
{
    match at(model.constraints(), c as usize) {
        None => None,
        Some(constraint) => demand_of(constraint),
    }
}

/// Whether two demands are of one state function.
pub fn of_one(a: Demand, b: Demand) -> bool
    ensures { result ≡ of_one a b }
{
    a.g.0 == b.g.0
}

/// Whether two demands are of one state.
pub fn same_state(a: Option<i64>, b: Option<i64>) -> bool
    ensures { result ≡ same_state a b }
{
    match (a, b) {
        (Some(v), Some(w)) => v == w,
        _ => false,
    }
}

/// Whether at least one of two demands is of a state.
pub fn some_state(a: Option<i64>, b: Option<i64>) -> bool
    ensures { result ≡ some_state a b }
{
    a.is_some() || b.is_some()
}

fn state_matrix(model: &Model, g: Stf) -> Option<Mat>
    ensures { result ≡ state_matrix model.now g }
{
    match model.states().get(g.0 as usize) {
        None => None,
        Some(d) => d.matrix,
    }
}

fn state_gap(model: &Model, g: Stf, a: Option<i64>, b: Option<i64>) -> i64
    ensures { result ≡ state_gap model.now g a b }
{
    match (a, b) {
        (Some(v), Some(w)) => {
            distance(
                model,
                state_matrix(model, g),
                v.unsigned_abs(),
                w.unsigned_abs(),
            )
        }
        _ => 0,
    }
}

/// The distance that a state function keeps from the state of one demand to that of another, a length
/// of time: 0 where one of them is of no state.
pub fn demand_gap(model: &Model, a: Demand, b: Demand) -> i64
    ensures { result ≡ demand_gap model.now a b }
{
    state_gap(model, a.g, a.state, b.state)
}
