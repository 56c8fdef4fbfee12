//! Expressions as nodes.
ghost use Rattle.std.specs.Prelude.{◌≡◌};
ghost use Rattle.hull_tree.specs.code.Nodes.{interval_of, named};

use sched_base::Itv;
use sched_model::CompareOp;

/// A number, or what an interval tells: its start, end or size with the number that stands for it
/// where the interval is absent, or whether it is there.
#[derive(Clone, Copy, Debug, PartialEq, Eq)]
pub enum Leaf {
    Lit(i64),
    Start(Itv, i64),
    End(Itv, i64),
    Size(Itv, i64),
    Presence(Itv),
}

/// What a node makes of two others. Negation and `not` look at the first alone.
#[derive(Clone, Copy, Debug, PartialEq, Eq)]
pub enum Op {
    Neg,
    Add,
    Times,
    Greater,
    Lesser,
    Compare(CompareOp),
    Not,
    Both,
    Either,
    Implies,
}

/// A node names others by their places, which are before its own.
#[derive(Clone, Copy, Debug, PartialEq, Eq)]
pub enum Node {
    Leaf(Leaf),
    Pair(Op, u32, u32),
}

/// From the first place to the last.
#[derive(Clone, Copy, Debug, PartialEq, Eq)]
pub struct Span {
    pub first: u32,
    pub last: u32,
}

/// The interval that a leaf tells of.
fn interval_of(leaf: Leaf) -> Option<Itv>
    ensures { result ≡ interval_of leaf }
{
    match leaf {
        Leaf::Lit(_) => None,
        Leaf::Start(x, _) => Some(x),
        Leaf::End(x, _) => Some(x),
        Leaf::Size(x, _) => Some(x),
        Leaf::Presence(x) => Some(x),
    }
}

/// The interval that a node tells of itself.
pub fn named(node: Node) -> Option<Itv>
    ensures { result ≡ named node }
{
    match node {
        Node::Leaf(leaf) => interval_of(leaf),
        Node::Pair(..) => None,
    }
}
