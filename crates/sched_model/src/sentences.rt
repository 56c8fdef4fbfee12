ghost use Rattle.std.specs.Prelude.{◌≡◌, ◌<◌, ◌&&◌, Some, length, true, is_some, slice_get, IsTrue, ◌↔◌};
ghost use Rattle.sched_model.specs.Hull.{hull_of};
ghost use Rattle.std.specs.List.{list_all};
ghost use Rattle.sched_model.specs.Words.{placewise};
ghost use Rattle.sched_model.specs.Domain.{fits_def, is_in_domain};
ghost use Rattle.sched_model.specs.Valid.{IsValid, is_constraint};
ghost use Rattle.sched_model.specs.Sentences.{Holds, holds, holds_at};
ghost use Rattle.sched_model.specs.declared.types.Constraint.{Constraint};
ghost use Rattle.sched_model.specs.Solution.{IsSolution, beats, is_solution, objective_of};
ghost use Rattle.sched_model.specs.Value.{is_present, is_true, value_of};

use crate::cumulative::{Bound, is_bounded};
use crate::domain::in_domain;
use crate::hierarchy::{is_alternative, is_synchronized, spans};
use crate::model::Model;
use crate::sequence::{has_no_overlap, is_first, is_last, stands_before, stands_next};
use crate::slots::{is_present, order_of};
use crate::states::{has_no_state, has_state};
use crate::temporal::is_precedence;
use crate::types::{Assignment, Constraint, Expr, Sense};
use crate::values::value_in;
use sched_base::{Con, Itv, at};

fn is_logic_true(model: &Model, a: &Assignment, e: &Expr) -> bool
    requires hull { is_some (hull_of model.now e.now) ≡ true }
    requires fits { placewise fits_def model.now.intervals a.now.slots ≡ true }
    ensures { result ≡ is_true (value_of a.now e.now) }
{
    value_in(model, a, e) != 0
}

fn are_both_present(a: &Assignment, x: Itv, y: Itv) -> bool
    ensures { result ≡ (is_present a.now x && is_present a.now y) }
{
    is_present(a, x) && is_present(a, y)
}

#[tactic(auto, using(crate::specs::laws::Domain::slots_fit))]
fn holds_in(model: &Model, c: &Constraint, a: &Assignment) -> bool
    requires model { IsValid model.now }
    requires valid { is_constraint model.now c.now ≡ true }
    requires domain { is_in_domain model.now a.now ≡ true }
    ensures { result ≡ holds model.now a.now c.now }
{
    match c {
        Constraint::Temporal {
            from,
            to,
            equal,
            a: x,
            b: y,
            z,
        } => is_precedence(a, *from, *to, *equal, *x, *y, *z),
        Constraint::Logic(e) => is_logic_true(model, a, e),
        Constraint::Span { a: x, parts } => spans(a, *x, parts.as_slice()),
        Constraint::Alternative { a: x, parts, count } => {
            is_alternative(a, *x, *count, parts.as_slice())
        }
        Constraint::Synchronize { a: x, parts } => is_synchronized(a, *x, parts.as_slice()),
        Constraint::NoOverlap { p, matrix, direct } => {
            has_no_overlap(model, a, *p, *matrix, *direct, order_of(a, *p))
        }
        Constraint::First { p, a: x } => is_first(a, *x, order_of(a, *p)),
        Constraint::Last { p, a: x } => is_last(a, *x, order_of(a, *p)),
        Constraint::Before { p, a: x, b: y } => {
            !are_both_present(a, *x, *y) || stands_before(order_of(a, *p), *x, *y)
        }
        Constraint::Prev { p, a: x, b: y } => {
            !are_both_present(a, *x, *y) || stands_next(order_of(a, *p), *x, *y)
        }
        Constraint::CumulIn { f, window, lo, hi } => {
            let bound = Bound {
                f: *f,
                window: *window,
                lo: *lo,
                hi: *hi,
            };
            is_bounded(model, a, bound)
        }
        Constraint::AlwaysEqual {
            g,
            a: x,
            v,
            start_aligned,
            end_aligned,
        } => has_state(a, *g, *x, *v, *start_aligned, *end_aligned),
        Constraint::AlwaysNoState { g, a: x } => has_no_state(a, *g, *x),
    }
}

#[tactic(auto, using(crate::proofs::walks::Elements::valid_there, crate::specs::laws::Domain::slots_fit))]
fn holds_there(model: &Model, c: Con, a: &Assignment) -> bool
    requires { is_in_domain model.now a.now ≡ true }
    ensures { result ≡ holds_at model.now c a.now }
{
    match at(model.constraints(), c.0 as usize) {
        None => false,
        Some(c) => holds_in(model, c, a),
    }
}

/// Whether the sentence of a constraint of the model holds, that of a cumulative function at each
/// moment.
pub fn holds(model: &Model, c: Con, a: &Assignment) -> bool
    requires there { c.0 < length model.now.constraints }
    requires domain { is_in_domain model.now a.now ≡ true }
    ensures test { result ≡ holds_at model.now c a.now }
    ensures sentence { (k : Constraint) → slice_get model.now.constraints c.0 ≡ Some k → IsTrue result ↔ Holds model.now a.now k }
{
    holds_there(model, c, a)
}

/// The value of the objective; none exactly where the model has no objective.
#[tactic(auto, using(crate::proofs::walks::Elements::objective_hull, crate::specs::laws::Domain::slots_fit))]
pub fn value(model: &Model, a: &Assignment) -> Option<i64>
    requires { is_in_domain model.now a.now ≡ true }
    ensures { result ≡ objective_of model.now a.now }
{
    let objective = model.objective()?;
    Some(value_in(model, a, &objective.expr))
}

fn all_hold_in(model: &Model, a: &Assignment, cs: &[Constraint]) -> bool
    requires model { IsValid model.now }
    requires valid { list_all (is_constraint model.now) cs.now ≡ true }
    requires domain { is_in_domain model.now a.now ≡ true }
    ensures { result ≡ list_all (holds model.now a.now) cs.now }
{
    for c in cs {
        if !holds_in(model, c, a) {
            return false;
        }
    }
    true
}

fn all_hold(model: &Model, a: &Assignment) -> bool
    requires { is_in_domain model.now a.now ≡ true }
    ensures { result ≡ list_all (holds model.now a.now) model.now.constraints }
{
    all_hold_in(model, a, model.constraints())
}

/// Whether the assignment is a solution: in the domain, and every constraint holds.
#[tactic(auto, using(crate::specs::laws::Tested::solution_from_test, crate::specs::laws::Tested::test_from_solution, crate::specs::laws::Domain::slots_fit))]
pub fn is_solution(model: &Model, a: &Assignment) -> bool
    ensures test { result ≡ is_solution model.now a.now }
    ensures fact { IsTrue result ↔ IsSolution model.now a.now }
{
    if !in_domain(model, a) {
        return false;
    }
    all_hold(model, a)
}

/// Whether a value is better than another, in the sense of an objective.
pub fn beats(sense: Sense, value: i64, best: i64) -> bool
    ensures { result ≡ beats sense value best }
{
    match sense {
        Sense::Minimize => value < best,
        Sense::Maximize => best < value,
    }
}
