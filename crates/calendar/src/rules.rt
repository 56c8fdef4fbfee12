ghost use Rattle.std.specs.Prelude.{◌≡◌, ℕ, map, take, true, IfOk, OnOk, OnErr};
ghost use Rattle.std.specs.List.{list_all};
ghost use Rattle.sched_model.specs.declared.types.Expr.{roll-Expr};
ghost use Rattle.sched_model.specs.declared.types.Expr.TheOpen.{Expr-F as expr};
ghost use Rattle.sched_model.specs.Bounds.{is_small};
ghost use Rattle.sched_model.specs.Valid.{IsValid};
ghost use Rattle.calendar.specs.Steps.{are_steps};
ghost use Rattle.calendar.specs.Rules.{number_of, start_as, end_as, is_empty_of, where_present, start_rule, extent_rule, is_small_range, rule_of, rules_of, with_constraints, RulesSayIt};
ghost use Rattle.calendar.specs.declared.rules.Demand.TheVariants as demand;

use crate::ranges::closed;
use crate::step::{Pair, StepFn};
use sched_base::{Boxed, Itv, List, NoMemory};
use sched_model::{CompareOp, Constraint, Expr, Model};
use std::alloc::Global;

/// What a calendar asks of an interval that is present.
#[derive(Clone, Copy, Debug, PartialEq, Eq)]
pub enum Demand {
    /// That it starts where the function isn't 0.
    Start,
    /// That the function isn't 0 as long as it lasts.
    Extent,
}

/// A number as it is written: a negative one with a minus before its literal.
fn number_of(alloc: Global, z: i64) -> Result<Expr, NoMemory>
    requires { is_small z ≡ true }
    ensures { IfOk result (λ e. e ≡ number_of z) }
{
    if z < 0 {
        return Ok(Expr::Neg(Boxed::new(alloc, Expr::Lit(-z))?));
    }
    Ok(Expr::Lit(z))
}

fn compared(alloc: Global, op: CompareOp, of: Expr, to: Expr) -> Result<Expr, NoMemory>
    ensures { IfOk result (λ e. e ≡ roll-Expr (expr.Compare op of to)) }
{
    let of = Boxed::new(alloc, of)?;
    let to = Boxed::new(alloc, to)?;
    Ok(Expr::Compare(op, of, to))
}

fn start_as(alloc: Global, op: CompareOp, a: Itv, z: i64) -> Result<Expr, NoMemory>
    requires { is_small z ≡ true }
    ensures { IfOk result (λ e. e ≡ start_as op a z) }
{
    let z = number_of(alloc, z)?;
    compared(alloc, op, Expr::StartOf(a, 0), z)
}

fn end_as(alloc: Global, op: CompareOp, a: Itv, z: i64) -> Result<Expr, NoMemory>
    requires { is_small z ≡ true }
    ensures { IfOk result (λ e. e ≡ end_as op a z) }
{
    let z = number_of(alloc, z)?;
    compared(alloc, op, Expr::EndOf(a, 0), z)
}

fn is_empty_of(alloc: Global, a: Itv) -> Result<Expr, NoMemory>
    ensures { IfOk result (λ e. e ≡ is_empty_of a) }
{
    compared(alloc, CompareOp::Eq, Expr::SizeOf(a, 0), Expr::Lit(0))
}

/// Where the interval is present, one of these.
fn where_present(alloc: Global, a: Itv, parts: List<Expr>) -> Result<Constraint, NoMemory>
    ensures { IfOk result (λ c. c ≡ where_present a parts) }
{
    let some = Boxed::new(alloc, Expr::Or(parts))?;
    let present = Boxed::new(alloc, Expr::PresenceOf(a))?;
    Ok(Constraint::Logic(Expr::Implies(present, some)))
}

/// It starts before the range, or behind it.
fn start_rule(alloc: Global, a: Itv, r: Pair) -> Result<Constraint, NoMemory>
    requires { is_small_range r ≡ true }
    ensures { IfOk result (λ c. c ≡ start_rule a r) }
{
    let mut parts = Vec::new(alloc);
    let before = start_as(alloc, CompareOp::Lt, a, r.t)?;
    parts.push(before)?;
    let behind = start_as(alloc, CompareOp::Ge, a, r.v)?;
    parts.push(behind)?;
    where_present(alloc, a, List::from_vec(parts))
}

/// It is empty, or ends before the range, or starts behind it.
fn extent_rule(alloc: Global, a: Itv, r: Pair) -> Result<Constraint, NoMemory>
    requires { is_small_range r ≡ true }
    ensures { IfOk result (λ c. c ≡ extent_rule a r) }
{
    let mut parts = Vec::new(alloc);
    let empty = is_empty_of(alloc, a)?;
    parts.push(empty)?;
    let before = end_as(alloc, CompareOp::Le, a, r.t)?;
    parts.push(before)?;
    let behind = start_as(alloc, CompareOp::Ge, a, r.v)?;
    parts.push(behind)?;
    where_present(alloc, a, List::from_vec(parts))
}

fn rule_of(alloc: Global, demand: Demand, a: Itv, r: Pair) -> Result<Constraint, NoMemory>
    requires { is_small_range r ≡ true }
    ensures { IfOk result (λ c. c ≡ rule_of demand a r) }
{
    match demand {
        Demand::Start => start_rule(alloc, a, r),
        Demand::Extent => extent_rule(alloc, a, r),
    }
}

/// Adds a constraint for each range. A refusal leaves the model with the first of them.
#[tactic(auto, using(crate::proofs::Adding::small_there, crate::proofs::Adding::stays_valid, crate::proofs::Adding::one_more, crate::proofs::Adding::all_added, crate::proofs::Adding::none_added))]
fn add_rules(
    alloc: Global,
    model: &mut Model,
    demand: Demand,
    a: Itv,
    ranges: &[Pair],
) -> Result<(), NoMemory>
    requires small { list_all is_small_range ranges.now ≡ true }
    requires valid { IsValid (with_constraints (map (rule_of demand a) ranges.now) model.old) }
    ensures ok { OnOk result (model.new ≡ with_constraints (map (rule_of demand a) ranges.now) model.old) }
    ensures err { OnErr result ((n : ℕ) × (model.new ≡ with_constraints (take n (map (rule_of demand a) ranges.now)) model.old)) }
{
    for i in 0..ranges.len() {
        let c = rule_of(alloc, demand, a, ranges[i])?;
        let _ = model.add_constraint(c)?;
    }
    Ok(())
}

/// Adds the constraints of a calendar: one for each closed range, in rising order. A refusal leaves
/// the model with the first of them.
#[tactic(auto, using(crate::specs::laws::Fitting::ranges_small, crate::proofs::Adding::rules_same, crate::proofs::Adding::rules_part, crate::proofs::Adding::rules_mean))]
fn forbid(
    alloc: Global,
    model: &mut Model,
    demand: Demand,
    a: Itv,
    f: &StepFn,
) -> Result<(), NoMemory>
    requires steps { are_steps f.now.pairs ≡ true }
    requires valid { IsValid (with_constraints (rules_of demand a f.now.pairs) model.old) }
    ensures ok { OnOk result (model.new ≡ with_constraints (rules_of demand a f.now.pairs) model.old) }
    ensures err { OnErr result ((n : ℕ) × (model.new ≡ with_constraints (take n (rules_of demand a f.now.pairs)) model.old)) }
    ensures meaning { RulesSayIt model.old demand a f.now.pairs }
{
    let ranges = closed(alloc, f)?;
    add_rules(alloc, model, demand, a, ranges.as_slice())
}

/// Forbids the interval `a` to start where the function is 0.
///
/// Adds for each closed range [u, v), in rising order, the constraint
/// `presenceOf(a) => (startOf(a,0) < u) || (startOf(a,0) >= v)`. An assignment in the domain makes all
/// of them hold exactly where `a` is absent or starts at a moment at which the function isn't 0. A
/// refusal, for want of memory alone, leaves the model with the first of them.
pub fn forbid_start(alloc: Global, model: &mut Model, a: Itv, f: &StepFn) -> Result<(), NoMemory>
    requires steps { are_steps f.now.pairs ≡ true }
    requires valid { IsValid (with_constraints (rules_of demand.Start a f.now.pairs) model.old) }
    ensures ok { OnOk result (model.new ≡ with_constraints (rules_of demand.Start a f.now.pairs) model.old) }
    ensures err { OnErr result ((n : ℕ) × (model.new ≡ with_constraints (take n (rules_of demand.Start a f.now.pairs)) model.old)) }
    ensures meaning { RulesSayIt model.old demand.Start a f.now.pairs }
{
    forbid(alloc, model, Demand::Start, a, f)
}

/// Forbids the interval `a` to last where the function is 0, unless it is empty.
///
/// Adds for each closed range [u, v), in rising order, the constraint
/// `presenceOf(a) => (sizeOf(a,0) == 0) || (endOf(a,0) <= u) || (startOf(a,0) >= v)`. An assignment in
/// the domain makes all of them hold exactly where `a` is absent, or of length 0, or the function isn't
/// 0 from its start up to its end. A refusal, for want of memory alone, leaves the model with the first
/// of them.
pub fn forbid_extent(alloc: Global, model: &mut Model, a: Itv, f: &StepFn) -> Result<(), NoMemory>
    requires steps { are_steps f.now.pairs ≡ true }
    requires valid { IsValid (with_constraints (rules_of demand.Extent a f.now.pairs) model.old) }
    ensures ok { OnOk result (model.new ≡ with_constraints (rules_of demand.Extent a f.now.pairs) model.old) }
    ensures err { OnErr result ((n : ℕ) × (model.new ≡ with_constraints (take n (rules_of demand.Extent a f.now.pairs)) model.old)) }
    ensures meaning { RulesSayIt model.old demand.Extent a f.now.pairs }
{
    forbid(alloc, model, Demand::Extent, a, f)
}
