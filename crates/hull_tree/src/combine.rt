//! What a node makes of the ranges of others.
ghost use Rattle.std.specs.Prelude.{◌≡◌, ◌&&◌, ◌||◌};
ghost use Rattle.region.specs.Looks.{IsRegionOf};
ghost use Rattle.look_hull.specs.LookHull.{surely_true, surely_false};
ghost use Rattle.look_hull.specs.code.Saturated.{saturated};
ghost use Rattle.hull_tree.specs.declared.nodes.Op.TheVariants as op;
ghost use Rattle.hull_tree.specs.code.Nodes.{combined, joined_truth, added, negation, leaf_ends};

use crate::nodes::{Leaf, Op};
use look_hull::{
    compare_range, end_of, implies_range, not_range, presence_of, size_of, start_of, surely_false,
    surely_true, truth_range,
};
use region::Look;
use sched_model::Model;
use sched_model::ranges::{nearest, times};

/// The least and the greatest value. Parts of sums may pass 64 bits.
pub type Ends = (i128, i128);

fn widened(r: (i64, i64)) -> Ends
    ensures { result ≡ r }
{
    (i128::from(r.0), i128::from(r.1))
}

/// The ends, each as the nearest number of 64 bits.
pub fn narrowed(r: Ends) -> (i64, i64)
    ensures { result ≡ saturated r }
{
    (nearest(r.0), nearest(r.1))
}

/// The range of a leaf.
pub fn leaf_ends(model: &Model, look: &Look<'_>, leaf: Leaf) -> Ends
    requires { IsRegionOf model.now look.now.region }
    ensures { result ≡ leaf_ends model.now look.now.region leaf }
{
    match leaf {
        Leaf::Lit(n) => widened((n, n)),
        Leaf::Start(x, d) => widened(start_of(model, look, x, d)),
        Leaf::End(x, d) => widened(end_of(model, look, x, d)),
        Leaf::Size(x, d) => widened(size_of(model, look, x, d)),
        Leaf::Presence(x) => widened(presence_of(model, look, x)),
    }
}

fn added(r: Ends, s: Ends) -> Ends
    ensures { result ≡ added r s }
{
    (r.0.saturating_add(s.0), r.1.saturating_add(s.1))
}

fn negated(r: Ends) -> Ends
    ensures { result ≡ negation r }
{
    (0i128.saturating_sub(r.1), 0i128.saturating_sub(r.0))
}

fn greater(r: Ends, s: Ends) -> Ends
    ensures { result ≡ combined op.Greater r s }
{
    (r.0.max(s.0), r.1.max(s.1))
}

fn lesser(r: Ends, s: Ends) -> Ends
    ensures { result ≡ combined op.Lesser r s }
{
    (r.0.min(s.0), r.1.min(s.1))
}

fn both_true(r: (i64, i64), s: (i64, i64)) -> bool
    ensures { result ≡ (surely_true r && surely_true s) }
{
    surely_true(r) && surely_true(s)
}

fn both_false(r: (i64, i64), s: (i64, i64)) -> bool
    ensures { result ≡ (surely_false r && surely_false s) }
{
    surely_false(r) && surely_false(s)
}

fn some_true(r: (i64, i64), s: (i64, i64)) -> bool
    ensures { result ≡ (surely_true r || surely_true s) }
{
    surely_true(r) || surely_true(s)
}

fn some_false(r: (i64, i64), s: (i64, i64)) -> bool
    ensures { result ≡ (surely_false r || surely_false s) }
{
    surely_false(r) || surely_false(s)
}

/// The range of a truth value, and that of other values, which is none.
fn truth(op: Op, r: (i64, i64), s: (i64, i64)) -> (i64, i64)
    ensures { result ≡ joined_truth op r s }
{
    match op {
        Op::Compare(op) => compare_range(op, r, s),
        Op::Not => not_range(r),
        Op::Both => truth_range(both_true(r, s), some_false(r, s)),
        Op::Either => truth_range(some_true(r, s), both_false(r, s)),
        Op::Implies => implies_range(r, s),
        _ => (0, 0),
    }
}

/// What an operation makes of two ranges.
pub fn combine(op: Op, r: Ends, s: Ends) -> Ends
    ensures { result ≡ combined op r s }
{
    match op {
        Op::Neg => negated(r),
        Op::Add => added(r, s),
        Op::Times => times(r, narrowed(s)),
        Op::Greater => greater(r, s),
        Op::Lesser => lesser(r, s),
        _ => widened(truth(op, narrowed(r), narrowed(s))),
    }
}
