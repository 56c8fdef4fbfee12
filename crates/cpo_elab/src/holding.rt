//! The expressions that a statement holds, as those of a model.
ghost use Rattle.std.specs.Prelude.{◌≡◌, ◌<◌, [], ◌∷◌, length, map, IfOk};
ghost use Rattle.sched_model.specs.Rank.{rank_within};
ghost use Rattle.cpo_elab.specs.Elaborated.{expr_of};
ghost use Rattle.cpo_elab.specs.Judged.{lacks_hull};
ghost use Rattle.sched_model.specs.declared.types.Expr.{Expr as Tree};
ghost use Rattle.std.specs.Prelude.{List as Seq, is_none};
ghost use Rattle.sched_model.specs.Hull.{hull_of};
ghost use Rattle.cpo_elab.specs.code.Judging.{written_of, written_in};

use crate::draft::Draft;
use crate::exprs::{expr_of, exprs_of};
use cpo_text::{Constrained, Logic, Statement};
use sched_base::{List, NoMemory};
use sched_model::{Expr, Model, hull, make_rank};
use std::alloc::Global;

/// The expressions of a statement: none, one, or the criteria of an objective that has several.
/// Beside these stands their rank, if they have one.
#[derive(Drop)]
pub enum Written {
    Nothing,
    One(Expr),
    Several(List<Expr>, Option<Expr>),
}

/// The rank of several expressions, if they have one.
fn rank_of(alloc: Global, draft: &Draft, es: &[Logic]) -> Result<Option<Expr>, NoMemory>
    ensures { IfOk result (λ o. o ≡ rank_within draft.now (map (expr_of draft.now) es.now)) }
{
    let criteria = exprs_of(alloc, draft, es)?;
    make_rank(alloc, draft.model(), criteria)
}

/// Several expressions beside their rank. They are made twice, since a rank is made of them and an
/// expression isn't copied.
fn several(alloc: Global, draft: &Draft, es: &[Logic]) -> Result<Written, NoMemory>
    requires { 1 < length es.now }
    ensures { IfOk result (λ w. w ≡ written_of draft.now (map (expr_of draft.now) es.now)) }
{
    let rank = rank_of(alloc, draft, es)?;
    let criteria = exprs_of(alloc, draft, es)?;
    Ok(Written::Several(criteria, rank))
}

fn one(alloc: Global, draft: &Draft, e: &Logic) -> Result<Written, NoMemory>
    ensures { IfOk result (λ w. w ≡ written_of draft.now (expr_of draft.now e.now ∷ [])) }
{
    Ok(Written::One(expr_of(alloc, draft, e)?))
}

/// The expressions of an objective that has several, which may be one alone.
fn criteria(alloc: Global, draft: &Draft, es: &[Logic]) -> Result<Written, NoMemory>
    ensures { IfOk result (λ w. w ≡ written_of draft.now (map (expr_of draft.now) es.now)) }
{
    match es {
        [] => Ok(Written::Nothing),
        [e] => one(alloc, draft, e),
        _ => several(alloc, draft, es),
    }
}

/// The expressions of a statement.
pub fn exprs_in(alloc: Global, draft: &Draft, s: &Statement) -> Result<Written, NoMemory>
    ensures { IfOk result (λ w. w ≡ written_in draft.now s.now) }
{
    match s {
        Statement::Constrain(Constrained::Holds(e)) => one(alloc, draft, e),
        Statement::Aim(_, e) => one(alloc, draft, e),
        Statement::Rank(_, es) => criteria(alloc, draft, es.as_slice()),
        _ => Ok(Written::Nothing),
    }
}

/// Whether some part of an expression has no hull within the bound on literals.
fn has_none(model: &Model, e: &Expr) -> bool
    ensures { result ≡ is_none (hull_of model.now e.now) }
{
    hull(model, e).is_none()
}

/// Whether an expression, or the rank of several, has no hull within the bound on literals.
#[tactic(auto, using(crate::proofs::judging::Written::nothing_lacks, crate::proofs::judging::Written::one_lacks, crate::proofs::judging::Written::several_lack))]
pub fn leaves_bound(draft: &Draft, written: &Written) -> bool
    ensures { (es : Seq Tree) → written.now ≡ written_of draft.now es → result ≡ lacks_hull draft.now es }
{
    match written {
        Written::Nothing => false,
        Written::One(e) => has_none(draft.model(), e),
        Written::Several(_, rank) => rank.is_none(),
    }
}
