//! The look hull of one expression, kept.
ghost use Rattle.std.specs.Prelude.{IfOk, ◌≡◌, IsTrue, is_some};
ghost use Rattle.sched_model.specs.declared.types.Expr.{Expr};
ghost use Rattle.sched_model.specs.Hull.{hull_of};
ghost use Rattle.sched_model.specs.Words.{passes_if_any};
ghost use Rattle.region.specs.Looks.{IsRegionOf};
ghost use Rattle.region.specs.Guesses.{admits, looked_at};
ghost use Rattle.look_hull.specs.LookHull.{look_hull};
ghost use Rattle.hull_tree.specs.code.Trees.{IsTreeOf, IsEvaluated};

use hull_tree::HullTree;
use region::{Guess, Region};
use sched_base::{Itv, NoMemory};
use sched_model::{Expr, Model};
use std::alloc::Global;

pub fn new_tree(alloc: Global, e: &Expr) -> Result<HullTree, NoMemory>
    ensures { IfOk result (IsTreeOf e.now) }
{
    HullTree::new(alloc, e)
}

pub fn evaluate(tree: &mut HullTree, model: &Model, region: &Region)
    requires of { IsRegionOf model.now region.now.region }
    ensures evaluated { IsEvaluated model.now region.now.region tree.new }
    ensures intervals { tree.new.intervals ≡ tree.old.intervals }
    ensures kept { (e : Expr) → IsTreeOf e tree.old → IsTreeOf e tree.new }
{
    tree.evaluate(model, region);
}

pub fn range(tree: &HullTree, model: &Model, region: &Region, guess: Option<Guess>) -> (i64, i64)
    requires of { IsRegionOf model.now region.now.region }
    requires evaluated { IsEvaluated model.now region.now.region tree.now }
    requires admitted { IsTrue (passes_if_any (admits region.now.region) guess) }
    ensures { (e : Expr) → IsTreeOf e tree.now → IsTrue (is_some (hull_of model.now e)) → result ≡ look_hull model.now (looked_at guess region.now.region) e }
{
    tree.range(model, region, guess)
}
