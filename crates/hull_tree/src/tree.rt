//! The look hull of one expression, kept.
ghost use Rattle.std.specs.Prelude.{◌≡◌, length, IfOk, IsTrue, is_some};
ghost use Rattle.sched_model.specs.declared.types.Expr.{Expr};
ghost use Rattle.sched_model.specs.Hull.{hull_of};
ghost use Rattle.sched_model.specs.Words.{passes_if_any};
ghost use Rattle.region.specs.Guesses.{admits, looked_at, topic};
ghost use Rattle.region.specs.Looks.{IsRegionOf};
ghost use Rattle.look_hull.specs.LookHull.{look_hull};
ghost use Rattle.hull_tree.specs.code.Nodes.{AreNodes, DifferAt};
ghost use Rattle.hull_tree.specs.code.Atoms.{AreAtoms, HasReach};
ghost use Rattle.hull_tree.specs.code.Trees.{IsTreeOf, IsEvaluated, IsRootRange, changed};

use crate::atoms::{Atom, atoms_of, intervals_of};
use crate::beside::beside;
use crate::building::build;
use crate::combine::{Ends, narrowed};
use crate::nodes::{Node, Op, Span};
use crate::reach::{other_reach, reach_of};
use crate::walk::{Walk, evaluate, under};
use region::{Bounds, Guess, Look, Region};
use sched_base::{Itv, NoMemory};
use sched_model::{CompareOp, Expr, Model};
use std::alloc::Global;

/// An expression as nodes, and the range of each node in the region that was evaluated last.
#[derive(Debug, Drop)]
pub struct HullTree {
    nodes: Vec<Node>,
    spans: Vec<Span>,
    root: u32,
    atoms: Vec<Atom>,
    intervals: Vec<Itv>,
    ends: Vec<Ends>,
}

impl std::marker::Model for HullTree {
    ghost use Rattle.hull_tree.specs.code.Trees.{Tree, IsTree};

    ghost Value = { Tree };

    ghost view = { λ t. record { nodes = t.nodes.items; root = t.root; intervals = t.intervals.items; ends = t.ends.items } };

    ghost invariant = { λ t. IsTree t.nodes.items t.spans.items t.root t.atoms.items t.ends.items };
}

/// A range for each node.
fn room(alloc: Global, n: usize) -> Result<Vec<Ends>, NoMemory>
    ensures { IfOk result (λ v. length v.items ≡ n) }
{
    let mut ends = Vec::new(alloc);
    ends.resize(n, (0, 0))?;
    Ok(ends)
}

/// The two intervals whose bounds a guess changes; one and the same for a guess on an interval.
fn changed(guess: Guess) -> (Itv, Itv)
    ensures { result ≡ changed (topic guess) }
{
    match guess {
        Guess::Present(x) => (x, x),
        Guess::Absent(x) => (x, x),
        Guess::StartLe(x, _) => (x, x),
        Guess::StartGe(x, _) => (x, x),
        Guess::EndLe(x, _) => (x, x),
        Guess::EndGe(x, _) => (x, x),
        Guess::Before(_, x, y) => (x, y),
    }
}

/// A comparison, and the ranges of its two sides.
#[derive(Clone, Copy, Debug, PartialEq, Eq)]
pub struct Sides {
    pub op: CompareOp,
    pub left: (i64, i64),
    pub right: (i64, i64),
}

impl HullTree {
    /// The tree of an expression. Only this call asks for memory, as much as the expression has nodes.
    pub fn new(alloc: Global, e: &Expr) -> Result<HullTree, NoMemory>
        ensures { IfOk result (IsTreeOf e.now) }
    {
        let mut nodes = Vec::new(alloc);
        let mut spans = Vec::new(alloc);
        let root = build(alloc, &mut nodes, &mut spans, e)?;
        let atoms = atoms_of(alloc, nodes.as_slice())?;
        let intervals = intervals_of(alloc, atoms.as_slice())?;
        let ends = room(alloc, nodes.len())?;
        Ok(HullTree {
            nodes,
            spans,
            root,
            atoms,
            intervals,
            ends,
        })
    }

    /// The intervals that the expression names, each once.
    pub fn intervals(&self) -> &[Itv]
        ensures { result.now ≡ self.now.intervals }
    {
        self.intervals.as_slice()
    }

    /// Evaluates the expression in a region, in the time of its nodes.
    pub fn evaluate(&mut self, model: &Model, region: &Region)
        requires of { IsRegionOf model.now region.now.region }
        ensures evaluated { IsEvaluated model.now region.now.region self.new }
        ensures intervals { self.new.intervals ≡ self.old.intervals }
        ensures kept { (e : Expr) → IsTreeOf e self.old → IsTreeOf e self.new }
    {
        let look = region.look(None, None);
        evaluate(
            model,
            &look,
            self.nodes.as_slice(),
            self.spans.as_slice(),
            self.ends.as_mut_slice(),
        );
    }

    /// All nodes with what is kept of them, and where two intervals stand.
    fn walk(&self, x: Itv, y: Itv) -> Walk<'_>
        ensures nodes { result.nodes.now ≡ self.now.nodes }
        ensures ends { result.ends.now ≡ self.now.ends }
        ensures spans { AreNodes result.nodes.now result.spans.now }
        ensures atoms { AreAtoms result.nodes.now result.atoms.now }
        ensures intervals { (result.x.interval ≡ x) × (result.y.interval ≡ y) }
        ensures reaches { HasReach result.atoms.now result.x × HasReach result.atoms.now result.y }
    {
        let atoms = self.atoms.as_slice();
        let of_x = reach_of(atoms, x);
        let of_y = other_reach(atoms, of_x, y);
        Walk {
            nodes: self.nodes.as_slice(),
            spans: self.spans.as_slice(),
            atoms,
            ends: self.ends.as_slice(),
            x: of_x,
            y: of_y,
        }
    }

    /// The range of the root in a look that tells the same but of two intervals.
    fn root_under(&self, model: &Model, look: &Look<'_>, x: Itv, y: Itv) -> Ends
        requires of { IsRegionOf model.now look.now.region }
        requires differ { DifferAt model.now self.now.nodes x y self.now.ends look.now.region }
        ensures { IsRootRange model.now self.now look.now.region result }
    {
        let walk = self.walk(x, y);
        under(model, look, &walk, self.root)
    }

    fn root_ends(&self, model: &Model, region: &Region, guess: Option<Guess>) -> Ends
        requires of { IsRegionOf model.now region.now.region }
        requires evaluated { IsEvaluated model.now region.now.region self.now }
        requires admitted { IsTrue (passes_if_any (admits region.now.region) guess) }
        ensures { IsRootRange model.now self.now (looked_at guess region.now.region) result }
    {
        match guess {
            None => self.ends[self.root as usize],
            Some(g) => {
                let (x, y) = changed(g);
                self.root_under(model, &region.look(guess, None), x, y)
            }
        }
    }

    /// The range of the expression in the region that was evaluated last, under a guess or as it
    /// stands: what interval arithmetic makes of it. Under a guess it costs the way from the root to
    /// what tells of the guess's interval, and as it stands nothing.
    pub fn range(&self, model: &Model, region: &Region, guess: Option<Guess>) -> (i64, i64)
        requires of { IsRegionOf model.now region.now.region }
        requires evaluated { IsEvaluated model.now region.now.region self.now }
        requires admitted { IsTrue (passes_if_any (admits region.now.region) guess) }
        ensures { (e : Expr) → IsTreeOf e self.now → IsTrue (is_some (hull_of model.now e)) → result ≡ look_hull model.now (looked_at guess region.now.region) e }
    {
        // Called for its clause alone.
        let _ = model.intervals();
        narrowed(self.root_ends(model, region, guess))
    }

    /// The ranges of the two sides under a guess, where the expression is a comparison. They cost as much
    /// as `range`; nothing is proved of them, for they only tell how far a refuted guess may be moved.
    pub fn sides(&self, model: &Model, region: &Region, guess: Guess) -> Option<Sides>
        requires of { IsRegionOf model.now region.now.region }
        requires evaluated { IsEvaluated model.now region.now.region self.now }
        requires admitted { IsTrue (admits region.now.region guess) }
    {
        let Node::Pair(Op::Compare(op), a, b) = self.nodes[self.root as usize] else {
            return None;
        };
        let (x, y) = changed(guess);
        let look = region.look(Some(guess), None);
        let walk = self.walk(x, y);
        Some(Sides {
            op,
            left: narrowed(under(model, &look, &walk, a)),
            right: narrowed(under(model, &look, &walk, b)),
        })
    }

    /// The range in the region that was evaluated last, as it stands.
    pub fn kept_range(&self) -> (i64, i64) {
        narrowed(self.ends[self.root as usize])
    }

    /// The range in the region that was evaluated last, where one interval has other bounds. It costs as
    /// much as `range`; nothing is proved of it, for it only tells where to look first.
    pub fn range_with(&self, x: Itv, bounds: Bounds) -> (i64, i64) {
        narrowed(beside(&self.walk(x, x), bounds, self.root))
    }
}
