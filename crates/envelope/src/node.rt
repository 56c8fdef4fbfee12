ghost use Rattle.std.specs.Prelude.{◌≡◌, ◌^◌, ◌+ℤ◌, ◌*ℤ◌, ◌≤ℤ◌, neg_ℤ, pos};
ghost use Rattle.std.specs.Option.{option_map};
ghost use Rattle.envelope.specs.code.Nodes.{greater_of, leaf_node, joined, IsSmall, IsNear};
ghost use Rattle.envelope.specs.code.Bars.{IsSmallBar, IsCapacity};

use crate::bars::Bar;

/// What a node knows of the bars below it that are on.
#[derive(Clone, Copy, Debug)]
pub struct Node {
    /// The sum of their energies.
    pub sum: i128,
    /// The energy envelope, where one is on.
    pub env: Option<i128>,
}

/// The node of no bar.
pub const EMPTY: Node = Node { sum: 0, env: None };

fn plus(a: i128, b: i128) -> i128
    requires from { neg_ℤ (pos (2 ^ 126)) ≤ℤ (a +ℤ b) }
    requires to { (a +ℤ b) ≤ℤ pos (2 ^ 126) }
    ensures { result ≡ a +ℤ b }
{
    a + b
}

fn greater_of(a: Option<i128>, b: Option<i128>) -> Option<i128>
    ensures { result ≡ greater_of a b }
{
    match (a, b) {
        (None, b) => b,
        (Some(a), None) => Some(a),
        (Some(a), Some(b)) => Some(if a < b { b } else { a }),
    }
}

/// What the resource offers up to a moment.
#[tactic(auto, using(crate::proofs::Products::offered_from, crate::proofs::Products::offered_to))]
fn offered(capacity: i64, t: i64) -> i128
    requires capacity { IsCapacity capacity }
    requires from { neg_ℤ (pos 1000000000) ≤ℤ t }
    requires to { t ≤ℤ pos 1000000000 }
    ensures value { result ≡ capacity *ℤ t }
{
    i128::from(capacity) * i128::from(t)
}

/// The node of a bar.
pub fn leaf(capacity: i64, bar: Bar, on: bool) -> Node
    requires capacity { IsCapacity capacity }
    requires bar { IsSmallBar bar }
    ensures { result ≡ leaf_node capacity bar on }
{
    if !on {
        return EMPTY;
    }
    Node {
        sum: bar.energy,
        env: Some(plus(offered(capacity, bar.est), bar.energy)),
    }
}

/// The bars of the left part, with all of the right part after them.
fn left_then_right(l: Node, r: Node) -> Option<i128>
    requires left { IsSmall (2 ^ 80) l }
    requires right { IsSmall (2 ^ 80) r }
    ensures { result ≡ option_map (λ z. z +ℤ r.sum) l.env }
{
    l.env.map(|z| plus(z, r.sum))
}

/// The node above two others, the left one of the bars that start earlier: a set begins in the right
/// part, or all that the right part has follows the left part.
pub fn join(l: Node, r: Node) -> Node
    requires left { IsSmall (2 ^ 80) l }
    requires right { IsSmall (2 ^ 80) r }
    ensures { result ≡ joined l r }
{
    Node {
        sum: plus(l.sum, r.sum),
        env: greater_of(r.env, left_then_right(l, r)),
    }
}
