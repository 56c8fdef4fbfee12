ghost use Rattle.std.specs.Prelude.{◌≡◌, pos, map, IfOk};
ghost use Rattle.cpo_elab.specs.Elaborated.{measure_of, gather_of, link_of, compare_of, expr_of};
ghost use Rattle.cpo_elab.specs.Literals.{size_of};
ghost use Rattle.sched_model.specs.declared.types.Expr.{roll-Expr};
ghost use Rattle.sched_model.specs.declared.types.Expr.TheOpen.{Expr-F as expr};

use crate::draft::Draft;
use crate::literals::{int_or_zero, size_of};
use cpo_text::{Comparison, Gather, Link, Logic, Measure};
use sched_base::{Boxed, Itv, List, NoMemory};
use sched_model::{CompareOp, Expr};
use std::alloc::Global;

fn measure_of(how: Measure, a: Itv, d: i64) -> Expr
    ensures { result ≡ measure_of how a d }
{
    match how {
        Measure::StartOf => Expr::StartOf(a, d),
        Measure::EndOf => Expr::EndOf(a, d),
        Measure::SizeOf => Expr::SizeOf(a, d),
        Measure::LengthOf => Expr::LengthOf(a, d),
    }
}

fn gather_of(gather: Gather, parts: List<Expr>) -> Expr
    ensures { result ≡ gather_of gather parts }
{
    match gather {
        Gather::Max => Expr::Max(parts),
        Gather::Min => Expr::Min(parts),
        Gather::Sum => Expr::Sum(parts),
    }
}

fn link_of(link: Link, parts: List<Expr>) -> Expr
    ensures { result ≡ link_of link parts }
{
    match link {
        Link::Times => Expr::Product(parts),
        Link::And => Expr::And(parts),
        Link::Or => Expr::Or(parts),
    }
}

fn compare_of(comparison: Comparison) -> CompareOp
    ensures { result ≡ compare_of comparison }
{
    match comparison {
        Comparison::Equal => CompareOp::Eq,
        Comparison::NotEqual => CompareOp::Ne,
        Comparison::AtMost => CompareOp::Le,
        Comparison::AtLeast => CompareOp::Ge,
        Comparison::Below => CompareOp::Lt,
        Comparison::Above => CompareOp::Gt,
    }
}

fn literal(n: Option<u64>) -> Expr
    ensures { result ≡ roll-Expr (expr.Lit (pos (size_of n))) }
{
    Expr::Lit(size_of(n) as i64)
}

/// The expression of a model that is written; brackets are gone.
#[cycle(expr_of)]
pub fn expr_of(alloc: Global, draft: &Draft, e: &Logic) -> Result<Expr, NoMemory>
    ensures { IfOk result (λ x. x ≡ expr_of draft.now e.now) }
{
    match e {
        Logic::Lit(n) => Ok(literal(*n)),
        Logic::Group(part) => expr_of(alloc, draft, part.get()),
        Logic::PresenceOf(a) => Ok(Expr::PresenceOf(draft.itv_of(a.as_slice()))),
        Logic::Measured(how, a, d) => {
            Ok(measure_of(*how, draft.itv_of(a.as_slice()), int_or_zero(*d)))
        }
        Logic::Gathered(gather, parts) => {
            let parts = exprs_of(alloc, draft, parts.as_slice())?;
            Ok(gather_of(*gather, parts))
        }
        Logic::Linked(link, parts) => {
            let parts = exprs_of(alloc, draft, parts.as_slice())?;
            Ok(link_of(*link, parts))
        }
        Logic::Neg(part) => Ok(Expr::Neg(boxed_of(alloc, draft, part.get())?)),
        Logic::Sum(parts) => {
            let parts = exprs_of(alloc, draft, parts.as_slice())?;
            Ok(Expr::Sum(parts))
        }
        Logic::Compare(comparison, a, b) => {
            let a = boxed_of(alloc, draft, a.get())?;
            let b = boxed_of(alloc, draft, b.get())?;
            Ok(Expr::Compare(compare_of(*comparison), a, b))
        }
        Logic::Not(part) => Ok(Expr::Not(boxed_of(alloc, draft, part.get())?)),
        Logic::Implies(a, b) => {
            let a = boxed_of(alloc, draft, a.get())?;
            let b = boxed_of(alloc, draft, b.get())?;
            Ok(Expr::Implies(a, b))
        }
    }
}

/// The expression of a part. In a function of its own, which owns it over one way out.
#[cycle(expr_of)]
fn boxed_of(alloc: Global, draft: &Draft, part: &Logic) -> Result<Boxed<Expr>, NoMemory>
    ensures { IfOk result (λ x. x ≡ expr_of draft.now part.now) }
{
    let part = expr_of(alloc, draft, part)?;
    Boxed::new(alloc, part)
}

#[cycle(expr_of)]
pub fn exprs_of(alloc: Global, draft: &Draft, parts: &[Logic]) -> Result<List<Expr>, NoMemory>
    ensures { IfOk result (λ xs. xs ≡ map (expr_of draft.now) parts.now) }
{
    let mut found = Vec::new(alloc);
    for part in parts {
        let part = expr_of(alloc, draft, part)?;
        found.push(part)?;
    }
    Ok(List::from_vec(found))
}
