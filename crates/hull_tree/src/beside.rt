//! The range of a node where one interval has other bounds.
ghost use Rattle.std.specs.Prelude.{◌≡◌, ◌<◌, length};
ghost use Rattle.hull_tree.specs.code.Nodes.{AreNodes};
ghost use Rattle.hull_tree.specs.code.Atoms.{AreAtoms, HasReach};

use crate::combine::{Ends, combine};
use crate::nodes::{Leaf, Node};
use crate::walk::{Walk, is_clear};
use region::{Bounds, Presence};

/// The range, if it isn't empty, and else another.
fn unless_empty(r: (i64, i64), instead: (i64, i64)) -> Ends {
    let (lo, hi) = if r.0 <= r.1 { r } else { instead };
    (i128::from(lo), i128::from(hi))
}

/// The range of a number that is `d` where the interval is absent.
fn unless_absent(presence: Presence, d: i64, r: Ends) -> Ends {
    let d = i128::from(d);
    match presence {
        Presence::Present => r,
        Presence::Absent => (d, d),
        Presence::Maybe => (r.0.min(d), r.1.max(d)),
    }
}

fn start_ends(c: Bounds) -> Ends {
    let last = c.smax.min(c.emax.saturating_sub(c.pmin));
    unless_empty((c.smin, last), (c.smin, c.smax))
}

fn end_ends(c: Bounds) -> Ends {
    let first = c.emin.max(c.smin.saturating_add(c.pmin));
    unless_empty((first, c.emax), (c.emin, c.emax))
}

fn size_ends(c: Bounds) -> Ends {
    let least = c.pmin.max(c.emin.saturating_sub(c.smax));
    let greatest = c.pmax.min(c.emax.saturating_sub(c.smin));
    unless_empty((least, greatest), (c.pmin, c.pmax))
}

/// The range of a leaf that tells of an interval with these bounds.
fn leaf_ends(leaf: Leaf, c: Bounds) -> Ends {
    match leaf {
        Leaf::Lit(n) => (i128::from(n), i128::from(n)),
        Leaf::Start(_, d) => unless_absent(c.presence, d, start_ends(c)),
        Leaf::End(_, d) => unless_absent(c.presence, d, end_ends(c)),
        Leaf::Size(_, d) => unless_absent(c.presence, d, size_ends(c)),
        Leaf::Presence(_) => unless_absent(c.presence, 0, (1, 1)),
    }
}

/// The range of a node where the interval of the walk has these bounds, and all others those of the
/// region that was evaluated. It turns back where nothing tells of the interval.
#[cycle(beside)]
pub fn beside(walk: &Walk<'_>, c: Bounds, i: u32) -> Ends
    requires nodes { AreNodes walk.now.nodes.now walk.now.spans.now }
    requires atoms { AreAtoms walk.now.nodes.now walk.now.atoms.now }
    requires reaches { HasReach walk.now.atoms.now walk.now.x × HasReach walk.now.atoms.now walk.now.y }
    requires size { length walk.now.ends.now ≡ length walk.now.nodes.now }
    requires within { i < length walk.now.nodes.now }
{
    let n = i as usize;
    if is_clear(walk, walk.spans[n]) {
        return walk.ends[n];
    }
    visited(walk, c, i)
}

#[cycle(beside)]
fn visited(walk: &Walk<'_>, c: Bounds, i: u32) -> Ends
    requires nodes { AreNodes walk.now.nodes.now walk.now.spans.now }
    requires atoms { AreAtoms walk.now.nodes.now walk.now.atoms.now }
    requires reaches { HasReach walk.now.atoms.now walk.now.x × HasReach walk.now.atoms.now walk.now.y }
    requires size { length walk.now.ends.now ≡ length walk.now.nodes.now }
    requires within { i < length walk.now.nodes.now }
{
    match walk.nodes[i as usize] {
        Node::Leaf(leaf) => leaf_ends(leaf, c),
        Node::Pair(op, a, b) => {
            let r = beside(walk, c, a);
            if a == b {
                return combine(op, r, r);
            }
            let s = beside(walk, c, b);
            combine(op, r, s)
        }
    }
}
