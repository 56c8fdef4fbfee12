ghost use Rattle.std.specs.Prelude.{◌≡◌, ◌<◌, ◌≤◌, length, true, All, IfOk, OnOk, ◌∷◌, []};
ghost use Rattle.hull_tree.specs.declared.nodes.Node.TheVariants as node;
ghost use Rattle.hull_tree.specs.code.Nodes.{AreNodes, Grown, IsAt, IsJoined, IsPlacedBy, IsWithin, is_joining};

use crate::nodes::{Leaf, Node, Op, Span};
use sched_base::NoMemory;

/// The place of the next node.
pub fn next_place(nodes: &[Node]) -> Result<u32, NoMemory>
    ensures { IfOk result (λ i. i ≡ length nodes.now) }
{
    if nodes.len() >= u32::MAX as usize {
        return Err(NoMemory);
    }
    Ok(nodes.len() as u32)
}

/// Puts a node behind the others.
#[tactic(auto, using(crate::proofs::Placing::put_nodes, crate::proofs::Placing::put_grown, crate::proofs::Placing::put_at))]
fn put(
    nodes: &mut Vec<Node>,
    spans: &mut Vec<Span>,
    node: Node,
    span: Span,
) -> Result<u32, NoMemory>
    requires nodes { AreNodes nodes.old.items spans.old.items }
    requires placed { IsPlacedBy spans.old.items (length nodes.old.items) span node }
    ensures nodes { OnOk result (AreNodes nodes.new.items spans.new.items) }
    ensures grown { OnOk result (Grown nodes.old.items nodes.new.items) }
    ensures at { IfOk result (λ i. IsAt nodes.new.items node i) }
{
    let i = next_place(nodes.as_slice())?;
    nodes.push(node)?;
    spans.push(span)?;
    Ok(i)
}

pub fn put_leaf(nodes: &mut Vec<Node>, spans: &mut Vec<Span>, leaf: Leaf) -> Result<u32, NoMemory>
    requires nodes { AreNodes nodes.old.items spans.old.items }
    ensures nodes { OnOk result (AreNodes nodes.new.items spans.new.items) }
    ensures grown { OnOk result (Grown nodes.old.items nodes.new.items) }
    ensures at { IfOk result (λ i. IsAt nodes.new.items (node.Leaf leaf) i) }
{
    let i = next_place(nodes.as_slice())?;
    put(nodes, spans, Node::Leaf(leaf), Span { first: i, last: i })
}

fn lesser(a: u32, b: u32) -> u32
    ensures first { result ≤ a }
    ensures second { result ≤ b }
{
    if a < b { a } else { b }
}

fn greater(a: u32, b: u32) -> u32
    ensures first { a ≤ result }
    ensures second { b ≤ result }
{
    if a < b { b } else { a }
}

/// A span that has both.
fn around(s: Span, t: Span) -> Span
    ensures first { IsWithin s result }
    ensures second { IsWithin t result }
{
    Span {
        first: lesser(s.first, t.first),
        last: greater(s.last, t.last),
    }
}

#[tactic(auto, using(crate::proofs::Placing::pair_placed))]
pub fn put_pair(
    nodes: &mut Vec<Node>,
    spans: &mut Vec<Span>,
    op: Op,
    a: u32,
    b: u32,
) -> Result<u32, NoMemory>
    requires nodes { AreNodes nodes.old.items spans.old.items }
    requires first { a < length nodes.old.items }
    requires second { b < length nodes.old.items }
    ensures nodes { OnOk result (AreNodes nodes.new.items spans.new.items) }
    ensures grown { OnOk result (Grown nodes.old.items nodes.new.items) }
    ensures at { IfOk result (λ i. IsAt nodes.new.items (node.Pair op a b) i) }
{
    let span = around(spans[a as usize], spans[b as usize]);
    put(nodes, spans, Node::Pair(op, a, b), span)
}

/// What an operation makes of one node.
#[tactic(auto, using(crate::proofs::Placing::joined_itself, crate::proofs::Placing::joined_and, crate::proofs::Placing::joined_or, crate::proofs::Placing::grown_none))]
fn join_one(nodes: &mut Vec<Node>, spans: &mut Vec<Span>, op: Op, i: u32) -> Result<u32, NoMemory>
    requires nodes { AreNodes nodes.old.items spans.old.items }
    requires joins { is_joining op ≡ true }
    requires within { i < length nodes.old.items }
    ensures nodes { OnOk result (AreNodes nodes.new.items spans.new.items) }
    ensures grown { OnOk result (Grown nodes.old.items nodes.new.items) }
    ensures joined { IfOk result (λ j. IsJoined op nodes.new.items (i ∷ []) j) }
{
    match op {
        Op::Both => put_pair(nodes, spans, op, i, i),
        Op::Either => put_pair(nodes, spans, op, i, i),
        _ => Ok(i),
    }
}

/// One node for what an operation makes of a list of nodes, by halves.
#[tactic(auto, using(crate::proofs::Placing::joined_halves, crate::proofs::Placing::grown_on))]
pub fn join(
    nodes: &mut Vec<Node>,
    spans: &mut Vec<Span>,
    op: Op,
    list: &[u32],
) -> Result<u32, NoMemory>
    requires nodes { AreNodes nodes.old.items spans.old.items }
    requires joins { is_joining op ≡ true }
    requires some { 0 < length list.now }
    requires within { All (λ i. i < length nodes.old.items) list.now }
    ensures nodes { OnOk result (AreNodes nodes.new.items spans.new.items) }
    ensures grown { OnOk result (Grown nodes.old.items nodes.new.items) }
    ensures joined { IfOk result (λ i. IsJoined op nodes.new.items list.now i) }
{
    if list.len() == 1 {
        return join_one(nodes, spans, op, list[0]);
    }
    let mid = list.len() / 2;
    let a = join(nodes, spans, op, &list[..mid])?;
    let b = join(nodes, spans, op, &list[mid..])?;
    let i = put_pair(nodes, spans, op, a, b)?;
    Ok(i)
}
