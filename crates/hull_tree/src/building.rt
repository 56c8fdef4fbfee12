ghost use Rattle.std.specs.Prelude.{◌≡◌, ◌∷◌, [], ◌<◌, length, true, All, IfOk, OnOk, List};
ghost use Rattle.sched_model.specs.Data.{Data};
ghost use Rattle.hull_tree.specs.code.Nodes.{AreNodes, Grown, IsJoined, is_joining};
ghost use Rattle.hull_tree.specs.code.Meaning.{Means, MeanEach, IsProductFrom};

use crate::nodes::{Leaf, Node, Op, Span};
use crate::put::{join, put_leaf, put_pair};
use sched_base::NoMemory;
use sched_model::Expr;
use std::alloc::Global;

/// One node for the product of some nodes, one after the other.
#[tactic(auto, using(crate::proofs::Meant::product_begun, crate::proofs::Meant::product_more, crate::proofs::Placing::grown_on))]
fn chain(nodes: &mut Vec<Node>, spans: &mut Vec<Span>, list: &[u32]) -> Result<u32, NoMemory>
    requires nodes { AreNodes nodes.old.items spans.old.items }
    requires within { All (λ i. i < length nodes.old.items) list.now }
    ensures nodes { OnOk result (AreNodes nodes.new.items spans.new.items) }
    ensures grown { OnOk result (Grown nodes.old.items nodes.new.items) }
    ensures product { IfOk result (λ i. IsProductFrom nodes.new.items list.now (length list.now) i) }
{
    let mut so_far = put_leaf(nodes, spans, Leaf::Lit(1))?;
    for x in list {
        so_far = put_pair(nodes, spans, Op::Times, so_far, *x)?;
    }
    Ok(so_far)
}

/// One node for what an operation makes of some nodes, and `none` for what it makes of none.
#[tactic(auto, using(crate::proofs::Placing::joined_none))]
fn join_all(
    nodes: &mut Vec<Node>,
    spans: &mut Vec<Span>,
    op: Op,
    list: &[u32],
) -> Result<u32, NoMemory>
    requires nodes { AreNodes nodes.old.items spans.old.items }
    requires joins { is_joining op ≡ true }
    requires within { All (λ i. i < length nodes.old.items) list.now }
    ensures nodes { OnOk result (AreNodes nodes.new.items spans.new.items) }
    ensures grown { OnOk result (Grown nodes.old.items nodes.new.items) }
    ensures joined { IfOk result (λ i. IsJoined op nodes.new.items list.now i) }
{
    if list.len() > 0 {
        return join(nodes, spans, op, list);
    }
    let none = match op {
        Op::Both => 1,
        _ => 0,
    };
    let i = put_leaf(nodes, spans, Leaf::Lit(none))?;
    Ok(i)
}

/// The nodes of an expression behind the others: in each region, the last has its look hull.
#[cycle(build)]
pub fn build(
    alloc: Global,
    nodes: &mut Vec<Node>,
    spans: &mut Vec<Span>,
    e: &Expr,
) -> Result<u32, NoMemory>
    requires nodes { AreNodes nodes.old.items spans.old.items }
    ensures nodes { OnOk result (AreNodes nodes.new.items spans.new.items) }
    ensures grown { OnOk result (Grown nodes.old.items nodes.new.items) }
    ensures within { IfOk result (λ i. i < length nodes.new.items) }
    ensures means { IfOk result (λ i. (m : Data) → Means m nodes.new.items i e.now) }
{
    match e {
        Expr::Lit(n) => put_leaf(nodes, spans, Leaf::Lit(*n)),
        Expr::StartOf(x, d) => put_leaf(nodes, spans, Leaf::Start(*x, *d)),
        Expr::EndOf(x, d) => put_leaf(nodes, spans, Leaf::End(*x, *d)),
        Expr::SizeOf(x, d) => put_leaf(nodes, spans, Leaf::Size(*x, *d)),
        Expr::LengthOf(x, d) => put_leaf(nodes, spans, Leaf::Size(*x, *d)),
        Expr::PresenceOf(x) => put_leaf(nodes, spans, Leaf::Presence(*x)),
        Expr::Neg(part) => {
            let i = build(alloc, nodes, spans, part.get())?;
            put_pair(nodes, spans, Op::Neg, i, i)
        }
        Expr::Sum(parts) => {
            let list = roots(alloc, nodes, spans, parts.as_slice())?;
            join_all(nodes, spans, Op::Add, list.as_slice())
        }
        Expr::Product(parts) => {
            let list = roots(alloc, nodes, spans, parts.as_slice())?;
            chain(nodes, spans, list.as_slice())
        }
        Expr::Max(parts) => {
            let list = roots(alloc, nodes, spans, parts.as_slice())?;
            join_all(nodes, spans, Op::Greater, list.as_slice())
        }
        Expr::Min(parts) => {
            let list = roots(alloc, nodes, spans, parts.as_slice())?;
            join_all(nodes, spans, Op::Lesser, list.as_slice())
        }
        Expr::Compare(op, a, b) => {
            let i = build(alloc, nodes, spans, a.get())?;
            let j = build(alloc, nodes, spans, b.get())?;
            put_pair(nodes, spans, Op::Compare(*op), i, j)
        }
        Expr::Not(part) => {
            let i = build(alloc, nodes, spans, part.get())?;
            put_pair(nodes, spans, Op::Not, i, i)
        }
        Expr::And(parts) => {
            let list = roots(alloc, nodes, spans, parts.as_slice())?;
            join_all(nodes, spans, Op::Both, list.as_slice())
        }
        Expr::Or(parts) => {
            let list = roots(alloc, nodes, spans, parts.as_slice())?;
            join_all(nodes, spans, Op::Either, list.as_slice())
        }
        Expr::Implies(a, b) => {
            let i = build(alloc, nodes, spans, a.get())?;
            let j = build(alloc, nodes, spans, b.get())?;
            put_pair(nodes, spans, Op::Implies, i, j)
        }
    }
}

/// The places of some expressions.
#[cycle(build)]
fn roots(
    alloc: Global,
    nodes: &mut Vec<Node>,
    spans: &mut Vec<Span>,
    parts: &[Expr],
) -> Result<Vec<u32>, NoMemory>
    requires nodes { AreNodes nodes.old.items spans.old.items }
    ensures nodes { OnOk result (AreNodes nodes.new.items spans.new.items) }
    ensures grown { OnOk result (Grown nodes.old.items nodes.new.items) }
    ensures within { IfOk result (λ v. All (λ i. i < length nodes.new.items) v.items) }
    ensures mean { IfOk result (λ v. (m : Data) → MeanEach m nodes.new.items v.items parts.now) }
{
    let mut list = Vec::new(alloc);
    for part in parts {
        let i = build(alloc, nodes, spans, part)?;
        list.push(i)?;
    }
    Ok(list)
}
