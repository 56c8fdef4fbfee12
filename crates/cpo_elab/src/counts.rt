ghost use Rattle.std.specs.Prelude.{◌≡◌, ◌+◌, ◌≤◌, ℕ, map, sum, sum_by, length};
ghost use Rattle.sched_model.specs.Data.{parts_of};
ghost use Rattle.sched_model.specs.Valid.{node_count, nodes_of, pair_count};
ghost use Rattle.sched_model.specs.Rank.{criteria_of};
ghost use Rattle.cpo_elab.specs.Elaborated.{plain_parts, parts_in};
ghost use Rattle.cpo_elab.specs.code.Drafts.{capped, plus};

use crate::draft::Draft;
use cpo_text::{Cpart, Cumul};
use sched_base::Cum;
use sched_model::{Constraint, Expr, Model, Objective, Part};

/// The sum of two counts, as far as it can be counted.
#[tactic(auto, unfolding(crate::specs::code::Drafts::plus))]
pub fn plus(a: u64, b: u64) -> u64
    ensures { result ≡ plus a b }
{
    a.saturating_add(b)
}

/// The number of the nodes of an expression, as far as it can be counted.
#[cycle(nodes)]
#[tactic(auto, using(crate::proofs::adding::Capped::plus_capped))]
pub fn nodes(e: &Expr) -> u64
    ensures { result ≡ capped (node_count e.now) }
{
    match e {
        Expr::Lit(_) => leaf(),
        Expr::StartOf(_, _) => leaf(),
        Expr::EndOf(_, _) => leaf(),
        Expr::SizeOf(_, _) => leaf(),
        Expr::LengthOf(_, _) => leaf(),
        Expr::PresenceOf(_) => leaf(),
        Expr::Neg(part) => nodes_over(part.get()),
        Expr::Sum(parts) => list_nodes(parts.as_slice()),
        Expr::Product(parts) => list_nodes(parts.as_slice()),
        Expr::Max(parts) => list_nodes(parts.as_slice()),
        Expr::Min(parts) => list_nodes(parts.as_slice()),
        Expr::Compare(_, a, b) => {
            let a = nodes_over(a.get());
            let b = nodes(b.get());
            plus(a, b)
        }
        Expr::Not(part) => nodes_over(part.get()),
        Expr::And(parts) => list_nodes(parts.as_slice()),
        Expr::Or(parts) => list_nodes(parts.as_slice()),
        Expr::Implies(a, b) => {
            let a = nodes_over(a.get());
            let b = nodes(b.get());
            plus(a, b)
        }
    }
}

#[tactic(auto, unfolding(crate::specs::code::Drafts::capped))]
fn leaf() -> u64
    ensures { result ≡ capped 1 }
{
    1
}

/// A node over one part.
#[cycle(nodes)]
#[tactic(auto, using(crate::proofs::adding::Capped::plus_capped))]
fn nodes_over(part: &Expr) -> u64
    ensures { result ≡ capped (1 + node_count part.now) }
{
    plus(leaf(), nodes(part))
}

/// A node over a list of parts.
#[cycle(nodes)]
fn list_nodes(parts: &[Expr]) -> u64
    ensures { result ≡ capped (1 + sum (map node_count parts.now)) }
{
    let mut total = 1;
    for part in parts {
        total = plus(total, nodes(part));
    }
    total
}

/// The number of the nodes of a constraint, as far as it can be counted.
pub fn constraint_nodes(c: &Constraint) -> u64
    ensures { result ≡ capped (nodes_of c.now) }
{
    match c {
        Constraint::Logic(e) => nodes(e),
        _ => none(),
    }
}

/// The number of the nodes of some expressions together, as far as it can be counted.
fn nodes_together(es: &[Expr]) -> u64
    ensures { result ≡ capped (sum_by node_count es.now) }
{
    let mut total = none();
    for e in es {
        total = plus(total, nodes(e));
    }
    total
}

/// The number of the nodes of the criteria of an objective, which a plain one has as its expression.
#[tactic(auto, using(crate::proofs::adding::Capped::plain_nodes, crate::proofs::adding::Capped::several_nodes))]
pub fn criteria_nodes(o: &Objective) -> u64
    ensures { result ≡ capped (sum_by node_count (criteria_of o.now)) }
{
    if o.criteria.is_empty() {
        return nodes(&o.expr);
    }
    nodes_together(o.criteria.as_slice())
}

#[tactic(auto, unfolding(crate::specs::code::Drafts::capped))]
fn none() -> u64
    ensures { result ≡ capped 0 }
{
    0
}

pub fn parts_of(model: &Model, f: Cum) -> &[Part]
    ensures { result.now ≡ parts_of model.now f }
{
    match model.cumuls().get(f.0 as usize) {
        None => &[],
        Some(d) => d.parts.as_slice(),
    }
}

#[tactic(auto, unfolding(crate::specs::code::Drafts::capped))]
fn part_count(draft: &Draft, part: &Cpart) -> u64
    ensures { result ≡ capped (length (plain_parts draft.now part.now)) }
{
    match part {
        Cpart::Named(f) => parts_of(draft.model(), draft.cum_of(f.as_slice())).len() as u64,
        _ => 1,
    }
}

/// The number of the parts of a cumulative expression, as far as it can be counted; a named
/// function has many.
pub fn parts_count(draft: &Draft, c: &Cumul) -> u64
    ensures { result ≡ capped (length (parts_in draft.now c.now)) }
{
    let mut total = part_count(draft, &c.first.part);
    for s in c.more.as_slice() {
        total = plus(total, part_count(draft, &s.part));
    }
    total
}

/// The number of pairs of so many things.
pub fn pair_count(n: usize) -> usize
    requires { n ≤ 500 }
    ensures pairs { result ≡ pair_count n }
    ensures few { result ≤ 250000 }
{
    let mut total = 0;
    for i in 0..n {
        total += i;
    }
    total
}
