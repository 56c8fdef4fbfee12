//! The ranges of all nodes in a region, and that of one under a guess.
ghost use Rattle.std.specs.Prelude.{◌≡◌, ◌<◌, length};
ghost use Rattle.region.specs.Looks.{IsRegionOf};
ghost use Rattle.hull_tree.specs.code.Nodes.{AreNodes, AreEnds, DifferAt, IsEndsOf, IsThere, node_ends};
ghost use Rattle.std.specs.Prelude.{true};
ghost use Rattle.std.specs.List.Sorted.{IsNonDecreasingBy};
ghost use Rattle.hull_tree.specs.code.Atoms.{AreAtoms, HasReach, IsClear, key_of};

use crate::atoms::Atom;
use crate::combine::{Ends, combine, leaf_ends};
use crate::nodes::{Node, Span};
use crate::reach::{Reach, is_clear_of};
use region::Look;
use sched_model::Model;

fn of_node(model: &Model, look: &Look<'_>, ends: &[Ends], node: Node) -> Ends
    requires of { IsRegionOf model.now look.now.region }
    requires there { IsThere (length ends.now) node }
    ensures { result ≡ node_ends model.now look.now.region ends.now node }
{
    match node {
        Node::Leaf(leaf) => leaf_ends(model, look, leaf),
        Node::Pair(op, a, b) => combine(op, ends[a as usize], ends[b as usize]),
    }
}

/// The ranges of all nodes, each written over the one that stood at its place.
#[tactic(auto, using(crate::proofs::Growing::ends_set, crate::proofs::Growing::set_size, crate::proofs::Growing::placed_there, crate::proofs::Growing::ends_none))]
pub fn evaluate(model: &Model, look: &Look<'_>, nodes: &[Node], spans: &[Span], ends: &mut [Ends])
    requires of { IsRegionOf model.now look.now.region }
    requires nodes { AreNodes nodes.now spans.now }
    requires size { length ends.old ≡ length nodes.now }
    ensures size { length ends.new ≡ length nodes.now }
    ensures ends { AreEnds model.now nodes.now look.now.region (length nodes.now) ends.new }
{
    for i in 0..nodes.len() {
        ends[i] = of_node(model, look, ends, nodes[i]);
    }
}

/// What a walk goes by: nodes with what is kept of them, and from where to where the two intervals
/// stand that are changed. These are looked up once, and not at each node.
#[derive(Drop)]
pub struct Walk<'a> {
    pub nodes: &'a [Node],
    pub spans: &'a [Span],
    pub atoms: &'a [Atom],
    pub ends: &'a [Ends],
    pub x: Reach,
    pub y: Reach,
}

/// Whether nothing at these places tells of either interval.
pub fn is_clear(walk: &Walk<'_>, span: Span) -> bool
    requires rising { IsNonDecreasingBy key_of walk.now.atoms.now }
    requires reaches { HasReach walk.now.atoms.now walk.now.x × HasReach walk.now.atoms.now walk.now.y }
    ensures { result ≡ true → IsClear walk.now.atoms.now walk.now.x.interval span × IsClear walk.now.atoms.now walk.now.y.interval span }
{
    if !is_clear_of(walk.atoms, walk.x, span) {
        return false;
    }
    if walk.x.interval.0 == walk.y.interval.0 {
        return true;
    }
    is_clear_of(walk.atoms, walk.y, span)
}

/// The range of a node in a look that tells the same as before but of two intervals. It turns back at
/// every node under which none of these is told of, which takes no call.
#[cycle(under)]
#[inline(always)]
pub fn under(model: &Model, look: &Look<'_>, walk: &Walk<'_>, i: u32) -> Ends
    requires of { IsRegionOf model.now look.now.region }
    requires nodes { AreNodes walk.now.nodes.now walk.now.spans.now }
    requires atoms { AreAtoms walk.now.nodes.now walk.now.atoms.now }
    requires reaches { HasReach walk.now.atoms.now walk.now.x × HasReach walk.now.atoms.now walk.now.y }
    requires differ { DifferAt model.now walk.now.nodes.now walk.now.x.interval walk.now.y.interval walk.now.ends.now look.now.region }
    requires within { i < length walk.now.nodes.now }
    ensures { IsEndsOf model.now walk.now.nodes.now look.now.region i result }
{
    let n = i as usize;
    if is_clear(walk, walk.spans[n]) {
        return walk.ends[n];
    }
    visited(model, look, walk, i)
}

/// The range of a node under which one of them is told of.
#[cycle(under)]
fn visited(model: &Model, look: &Look<'_>, walk: &Walk<'_>, i: u32) -> Ends
    requires of { IsRegionOf model.now look.now.region }
    requires nodes { AreNodes walk.now.nodes.now walk.now.spans.now }
    requires atoms { AreAtoms walk.now.nodes.now walk.now.atoms.now }
    requires reaches { HasReach walk.now.atoms.now walk.now.x × HasReach walk.now.atoms.now walk.now.y }
    requires differ { DifferAt model.now walk.now.nodes.now walk.now.x.interval walk.now.y.interval walk.now.ends.now look.now.region }
    requires within { i < length walk.now.nodes.now }
    ensures { IsEndsOf model.now walk.now.nodes.now look.now.region i result }
{
    match walk.nodes[i as usize] {
        Node::Leaf(leaf) => leaf_ends(model, look, leaf),
        Node::Pair(op, a, b) => {
            let r = under(model, look, walk, a);
            if a == b {
                return combine(op, r, r);
            }
            let s = under(model, look, walk, b);
            combine(op, r, s)
        }
    }
}
