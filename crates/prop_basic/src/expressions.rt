//! What the witnesses of expressions and of the objective find.
ghost use Rattle.std.specs.Prelude.{IfNone, IfSome, slice_get};
ghost use Rattle.region.specs.Looks.{IsRegionOf};
ghost use Rattle.findings.specs.Found.{IsFinding};
ghost use Rattle.refute_basic.specs.declared.witness.BasicWitness.TheVariants as basic;
ghost use Rattle.refute_basic.specs.Basic.{refutes};
ghost use Rattle.prop_basic.specs.code.Tasks.{IsSilent, logic_of, objective_of};
ghost use Rattle.prop_basic.specs.code.Tables.{Fits};

use crate::hulls::{Goal, Scan, ask_tree};
use findings::Finding;
use refute_basic::BasicWitness;
use region::Region;
use sched_base::at;
use sched_model::{Constraint, Model};

/// What EXPR of a constraint finds; nothing where the constraint is no expression.
#[inline(never)]
pub fn ask_constraint(
    tree: &mut Option<Scan>,
    model: &Model,
    region: &Region,
    best: Option<i64>,
    c: u32,
) -> Option<Finding<BasicWitness>>
    requires of { IsRegionOf model.now region.now.region }
    requires tree { Fits (logic_of (slice_get model.now.constraints c)) tree.old }
    ensures kept { (o : _) → Fits o tree.old → Fits o tree.new }
    ensures none { IfNone result (IsSilent model.now region.now.region best (basic.Expr c)) }
    ensures some { IfSome result (IsFinding refutes model.now region.now.region best) }
    ensures busy { IfSome result (λ f. IsSilent model.now region.now.region best (basic.Expr c) → ⊥) }
{
    let Some(Constraint::Logic(e)) = at(model.constraints(), c as usize) else {
        return None;
    };
    let Some(tree) = tree else {
        return None;
    };
    let guess = ask_tree(tree, model, region, e, Goal::Holds)?;
    let witness = BasicWitness::Expr { c };
    Some(Finding { guess, witness })
}

/// What OBJ finds; nothing where there is no best value or no objective.
#[inline(never)]
pub fn ask_objective(
    tree: &mut Option<Scan>,
    model: &Model,
    region: &Region,
    best: Option<i64>,
) -> Option<Finding<BasicWitness>>
    requires of { IsRegionOf model.now region.now.region }
    requires tree { Fits (objective_of model.now.objective) tree.old }
    ensures kept { (o : _) → Fits o tree.old → Fits o tree.new }
    ensures none { IfNone result (IsSilent model.now region.now.region best basic.Obj) }
    ensures some { IfSome result (IsFinding refutes model.now region.now.region best) }
    ensures busy { IfSome result (λ f. IsSilent model.now region.now.region best basic.Obj → ⊥) }
{
    let best = best?;
    let o = model.objective()?;
    let Some(tree) = tree else {
        return None;
    };
    let guess = ask_tree(tree, model, region, &o.expr, Goal::Beats(o.sense, best))?;
    let witness = BasicWitness::Obj;
    Some(Finding { guess, witness })
}
