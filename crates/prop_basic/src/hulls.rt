//! What the kept look hull of an expression tells under guesses.
ghost use Rattle.std.specs.Prelude.{◌≡◌, ◌≤◌, ◌∷◌, [], length, IsTrue, IfNone, IfOk, IfSome, is_some};
ghost use Rattle.sched_model.specs.declared.types.Expr.{Expr};
ghost use Rattle.sched_model.specs.Hull.{hull_of};
ghost use Rattle.region.specs.Looks.{IsRegionOf};
ghost use Rattle.findings.specs.Found.{IsFound};
ghost use Rattle.findings.specs.code.Reads.{AreUnrefuted};
ghost use Rattle.hull_tree.specs.code.Trees.{IsTreeOf};
ghost use Rattle.prop_basic.specs.code.Goals.{is_missed, misses};
ghost use Rattle.prop_basic.specs.code.Ready.{IsReady};

use findings::ask_by;
use hull_tree::{HullTree, Sides};
use look_hull::surely_false;
use refute_basic::never_beats;
use region::{Guess, GuessTest, Region};
use sched_base::{Itv, NoMemory};
use sched_model::{CompareOp, Expr, Model, Sense};
use std::alloc::Global;

/// What the value of an expression has to do: be true, or be better than the best value.
#[derive(Clone, Copy, Debug, PartialEq, Eq)]
pub enum Goal {
    Holds,
    Beats(Sense, i64),
}

/// Whether no number of the range does.
fn is_missed(goal: Goal, r: (i64, i64)) -> bool
    ensures { result ≡ is_missed goal r }
{
    match goal {
        Goal::Holds => surely_false(r),
        Goal::Beats(sense, best) => never_beats(sense, best, r),
    }
}

/// By how much a comparison fails in all of its two ranges: how far they may still come together.
fn failing_by(sides: Sides) -> Option<i64> {
    let Sides { op, left, right } = sides;
    let above = left.0.checked_sub(right.1)?;
    let below = right.0.checked_sub(left.1)?;
    match op {
        CompareOp::Eq => Some(above.max(below).saturating_sub(1)),
        CompareOp::Ne => None,
        CompareOp::Le => Some(above.saturating_sub(1)),
        CompareOp::Ge => Some(below.saturating_sub(1)),
        CompareOp::Lt => Some(above),
        CompareOp::Gt => Some(below),
    }
}

/// How far the range lies behind the first value that isn't better than the best.
fn behind(sense: Sense, best: i64, r: (i64, i64)) -> Option<i64> {
    match sense {
        Sense::Minimize => r.0.checked_sub(best),
        Sense::Maximize => best.checked_sub(r.1),
    }
}

/// The test by the tree of the expression, which was evaluated in the region.
#[derive(Drop)]
struct HullTest<'a> {
    tree: &'a HullTree,
    model: &'a Model,
    region: &'a Region,
    expression: &'a Expr,
    goal: Goal,
}

impl<'a> GuessTest for HullTest<'a> {
    ghost use Rattle.prop_basic.specs.code.Goals.{misses};
    ghost use Rattle.prop_basic.specs.code.Ready.{IsReady};

    ghost region = { λ t. t.region.now.region };

    ghost is_ready = { λ t. IsReady t.model.now t.region.now.region t.expression.now t.tree.now };

    ghost refuting = { λ t guess. misses t.model.now t.region.now.region t.expression.now t.goal guess };

    fn refutes(&self, guess: Option<Guess>) -> bool {
        is_missed(self.goal, self.tree.range(self.model, self.region, guess))
    }

    fn reach(&self, guess: Guess) -> Option<u64> {
        let missed = match self.goal {
            Goal::Holds => failing_by(self.tree.sides(self.model, self.region, guess)?)?,
            Goal::Beats(sense, best) => {
                let range = self.tree.range(self.model, self.region, Some(guess));
                behind(sense, best, range)?
            }
        };
        u64::try_from(missed).ok()
    }
}

/// The tree of an expression, and the place among its intervals where the next search begins: that
/// of the last finding, so that those before it aren't asked again for each finding. It is calm where
/// nothing was found last.
#[derive(Debug, Drop)]
pub struct Scan {
    tree: HullTree,
    place: usize,
    calm: bool,
}

impl std::marker::Model for Scan {
    ghost use Rattle.hull_tree.specs.code.Trees.{Tree};

    ghost Value = { Tree };

    ghost view = { λ s. s.tree };
}

impl Scan {
    pub fn new(alloc: Global, e: &Expr) -> Result<Scan, NoMemory>
        ensures { IfOk result (IsTreeOf e.now) }
    {
        let tree = HullTree::new(alloc, e)?;
        Ok(Scan {
            tree,
            place: 0,
            calm: false,
        })
    }

    /// Whether nothing was found when it was asked last.
    pub fn is_calm(&self) -> bool {
        self.calm
    }

    /// The intervals that the expression names, each once.
    pub fn intervals(&self) -> &[Itv]
        ensures { result.now ≡ self.now.intervals }
    {
        self.tree.intervals()
    }
}

/// What a test gives of some intervals, from a place on and then up to it.
#[tactic(auto, using(crate::proofs::Round::unrefuted_round, crate::proofs::Round::busy_after, crate::proofs::Round::busy_before))]
fn ask_round<T: GuessTest>(
    test: &T,
    region: &Region,
    intervals: &[Itv],
    place: usize,
) -> Option<Option<Guess>>
    requires ready { T.is_ready test.now }
    requires of { T.region test.now ≡ region.now.region }
    requires within { place ≤ length intervals.now }
    ensures none { IfNone result (AreUnrefuted (T.refuting test.now) region.now.region intervals.now []) }
    ensures some { IfSome result (IsFound (T.refuting test.now) region.now.region) }
    ensures busy { IfSome result (λ guess. AreUnrefuted (T.refuting test.now) region.now.region intervals.now [] → ⊥) }
{
    if let Some(found) = ask_by(test, region, &intervals[place..], &[]) {
        return Some(found);
    }
    ask_by(test, region, &intervals[..place], &[])
}

/// The interval of a guess, and of one on an order the first.
fn interval_of(guess: Guess) -> Itv {
    match guess {
        Guess::Present(x) => x,
        Guess::Absent(x) => x,
        Guess::StartLe(x, _) => x,
        Guess::StartGe(x, _) => x,
        Guess::EndLe(x, _) => x,
        Guess::EndGe(x, _) => x,
        Guess::Before(_, x, _) => x,
    }
}

/// Where the interval of the guess stands; the first place where there is none.
fn place_of(intervals: &[Itv], guess: Option<Guess>) -> usize {
    let Some(g) = guess else {
        return 0;
    };
    let x = interval_of(g);
    intervals.iter().position(|y| y.0 == x.0).unwrap_or(0)
}

/// What is found by the tree, which was evaluated in the region.
fn find(
    tree: &HullTree,
    model: &Model,
    region: &Region,
    expression: &Expr,
    goal: Goal,
    place: usize,
) -> Option<Option<Guess>>
    requires ready { IsReady model.now region.now.region expression.now tree.now }
    ensures none { IfNone result (AreUnrefuted (misses model.now region.now.region expression.now goal) region.now.region tree.now.intervals []) }
    ensures some { IfSome result (IsFound (misses model.now region.now.region expression.now goal) region.now.region) }
    ensures busy { IfSome result (λ guess. AreUnrefuted (misses model.now region.now.region expression.now goal) region.now.region tree.now.intervals [] → ⊥) }
{
    let test = HullTest {
        tree,
        model,
        region,
        expression,
        goal,
    };
    let intervals = tree.intervals();
    let begin = if place <= intervals.len() { place } else { 0 };
    ask_round(&test, region, intervals, begin)
}

/// What is found of an expression: nothing, or that it misses its goal in the region, or the tight
/// guess under which it does. The tree is evaluated once; each guess then walks its own ways, and
/// nothing is answered after one round through all of them.
pub fn ask_tree(
    tree: &mut Scan,
    model: &Model,
    region: &Region,
    expression: &Expr,
    goal: Goal,
) -> Option<Option<Guess>>
    requires of { IsRegionOf model.now region.now.region }
    requires tree { IsTreeOf expression.now tree.old }
    requires hull { IsTrue (is_some (hull_of model.now expression.now)) }
    ensures kept { (e : Expr) → IsTreeOf e tree.old → IsTreeOf e tree.new }
    ensures none { IfNone result (AreUnrefuted (misses model.now region.now.region expression.now goal) region.now.region tree.new.intervals []) }
    ensures some { IfSome result (IsFound (misses model.now region.now.region expression.now goal) region.now.region) }
    ensures busy { IfSome result (λ guess. AreUnrefuted (misses model.now region.now.region expression.now goal) region.now.region tree.new.intervals [] → ⊥) }
{
    tree.tree.evaluate(model, region);
    let found = find(&tree.tree, model, region, expression, goal, tree.place);
    tree.calm = found.is_none();
    let found = found?;
    tree.place = place_of(tree.tree.intervals(), found);
    Some(found)
}
