ghost use Rattle.std.specs.Prelude.{◌≡◌, ◌^◌, ◌+ℤ◌, ◌≤ℤ◌, neg_ℤ, pos, cond, int_lt};
ghost use Rattle.std.specs.Option.{option_map};
ghost use Rattle.thetatree.specs.code.Nodes.{greater_of, later, better, best_of, no_node, leaf_node, joined, IsNear, IsSmall};

use crate::leaves::{Colour, Task};
use sched_base::H;

/// A greatest number over sets of white leaves and at most one gray leaf, and the gray leaf of a set
/// that reaches it, where that set has one.
#[derive(Clone, Copy, Debug)]
pub struct Best {
    pub value: i64,
    pub leaf: Option<u32>,
}

/// What a node knows of the leaves below it.
#[derive(Clone, Copy, Debug)]
pub struct Node {
    /// The sum of the sizes of the white leaves.
    pub sum: i64,
    /// The earliest completion time of the white leaves, where there is one.
    pub ect: Option<i64>,
    /// The greatest sum of sizes of the white leaves and at most one gray leaf.
    pub gray_sum: Best,
    /// The greatest earliest completion time of white leaves and at most one gray leaf.
    pub gray_ect: Option<Best>,
}

/// The node of no leaf.
pub const EMPTY: Node = Node {
    sum: 0,
    ect: None,
    gray_sum: Best {
        value: 0,
        leaf: None,
    },
    gray_ect: None,
};

fn plus(a: i64, b: i64) -> i64
    requires from { neg_ℤ (pos (2 ^ 62)) ≤ℤ (a +ℤ b) }
    requires to { (a +ℤ b) ≤ℤ pos (2 ^ 62) }
    ensures { result ≡ a +ℤ b }
{
    a + b
}

pub fn greater_of(a: Option<i64>, b: Option<i64>) -> Option<i64>
    ensures { result ≡ greater_of a b }
{
    match (a, b) {
        (None, b) => b,
        (Some(a), None) => Some(a),
        (Some(a), Some(b)) => Some(if a < b { b } else { a }),
    }
}

fn better(a: Best, b: Best) -> Best
    ensures { result ≡ better a b }
{
    if a.value < b.value { b } else { a }
}

fn best_of(a: Option<Best>, b: Option<Best>) -> Option<Best>
    ensures { result ≡ best_of a b }
{
    match (a, b) {
        (None, b) => b,
        (Some(a), None) => Some(a),
        (Some(a), Some(b)) => Some(better(a, b)),
    }
}

fn later(n: i64, b: Best) -> Best
    requires from { neg_ℤ (pos (2 ^ 62)) ≤ℤ (b.value +ℤ n) }
    requires to { (b.value +ℤ n) ≤ℤ pos (2 ^ 62) }
    ensures { result ≡ later n b }
{
    Best {
        value: plus(b.value, n),
        leaf: b.leaf,
    }
}

/// The node of a task at a place.
pub fn leaf(task: Task, colour: Colour, place: u32) -> Node
    requires est { IsNear 0 task.est }
    requires from { pos 0 ≤ℤ task.p }
    requires to { task.p ≤ℤ (H +ℤ H) }
    ensures { result ≡ leaf_node task colour place }
{
    let ect = plus(task.est, task.p);
    match colour {
        Colour::Out => EMPTY,
        Colour::White => {
            let gray_ect = Best {
                value: ect,
                leaf: None,
            };
            let gray_sum = Best {
                value: task.p,
                leaf: None,
            };
            Node {
                sum: task.p,
                ect: Some(ect),
                gray_sum,
                gray_ect: Some(gray_ect),
            }
        }
        Colour::Gray => {
            let gray_ect = Best {
                value: ect,
                leaf: Some(place),
            };
            let gray_sum = Best {
                value: task.p,
                leaf: Some(place),
            };
            Node {
                sum: 0,
                ect: None,
                gray_sum,
                gray_ect: Some(gray_ect),
            }
        }
    }
}

/// The white tasks of the left part, with those of the right part after them.
fn white_then_white(l: Node, r: Node) -> Option<i64>
    requires left { IsSmall (2 ^ 50) l }
    requires right { IsSmall (2 ^ 50) r }
    ensures { result ≡ option_map (λ z. z +ℤ r.sum) l.ect }
{
    l.ect.map(|z| plus(z, r.sum))
}

/// The same with a gray task on the left.
fn gray_then_white(l: Node, r: Node) -> Option<Best>
    requires left { IsSmall (2 ^ 50) l }
    requires right { IsSmall (2 ^ 50) r }
    ensures { result ≡ option_map (later r.sum) l.gray_ect }
{
    l.gray_ect.map(|b| later(r.sum, b))
}

/// The same with a gray task on the right.
fn white_then_gray(l: Node, r: Node) -> Option<Best>
    requires left { IsSmall (2 ^ 50) l }
    requires right { IsSmall (2 ^ 50) r }
    ensures { result ≡ option_map (λ z. later z r.gray_sum) l.ect }
{
    l.ect.map(|z| later(z, r.gray_sum))
}

fn gray_sum(l: Node, r: Node) -> Best
    requires left { IsSmall (2 ^ 50) l }
    requires right { IsSmall (2 ^ 50) r }
    ensures { result ≡ better (later r.sum l.gray_sum) (later l.sum r.gray_sum) }
{
    better(later(r.sum, l.gray_sum), later(l.sum, r.gray_sum))
}

/// The node above two others, the left one of the tasks that start earlier (Vilím 2007, the rules of
/// theta trees and theta-lambda trees): a set begins in the right part, or all that the right part
/// has follows the left part.
pub fn join(l: Node, r: Node) -> Node
    requires left { IsSmall (2 ^ 50) l }
    requires right { IsSmall (2 ^ 50) r }
    ensures { result ≡ joined l r }
{
    let gray = best_of(gray_then_white(l, r), white_then_gray(l, r));
    Node {
        sum: plus(l.sum, r.sum),
        ect: greater_of(r.ect, white_then_white(l, r)),
        gray_sum: gray_sum(l, r),
        gray_ect: best_of(r.gray_ect, gray),
    }
}
