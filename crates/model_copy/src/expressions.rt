ghost use Rattle.std.specs.Prelude.{◌≡◌, IfOk};

use sched_base::{Boxed, List, NoMemory};
use sched_model::Expr;
use std::alloc::Global;

/// A copy of an expression, node by node.
#[cycle(copy)]
pub fn copy_expr(alloc: Global, e: &Expr) -> Result<Expr, NoMemory>
    ensures { IfOk result (λ x. x ≡ e.now) }
{
    match e {
        Expr::Lit(n) => Ok(Expr::Lit(*n)),
        Expr::StartOf(a, d) => Ok(Expr::StartOf(*a, *d)),
        Expr::EndOf(a, d) => Ok(Expr::EndOf(*a, *d)),
        Expr::SizeOf(a, d) => Ok(Expr::SizeOf(*a, *d)),
        Expr::LengthOf(a, d) => Ok(Expr::LengthOf(*a, *d)),
        Expr::PresenceOf(a) => Ok(Expr::PresenceOf(*a)),
        Expr::Neg(part) => Ok(Expr::Neg(copy_boxed(alloc, part.get())?)),
        Expr::Sum(parts) => Ok(Expr::Sum(copy_exprs(alloc, parts.as_slice())?)),
        Expr::Product(parts) => Ok(Expr::Product(copy_exprs(alloc, parts.as_slice())?)),
        Expr::Max(parts) => Ok(Expr::Max(copy_exprs(alloc, parts.as_slice())?)),
        Expr::Min(parts) => Ok(Expr::Min(copy_exprs(alloc, parts.as_slice())?)),
        Expr::Compare(op, a, b) => {
            let a = copy_boxed(alloc, a.get())?;
            let b = copy_boxed(alloc, b.get())?;
            Ok(Expr::Compare(*op, a, b))
        }
        Expr::Not(part) => Ok(Expr::Not(copy_boxed(alloc, part.get())?)),
        Expr::And(parts) => Ok(Expr::And(copy_exprs(alloc, parts.as_slice())?)),
        Expr::Or(parts) => Ok(Expr::Or(copy_exprs(alloc, parts.as_slice())?)),
        Expr::Implies(a, b) => {
            let a = copy_boxed(alloc, a.get())?;
            let b = copy_boxed(alloc, b.get())?;
            Ok(Expr::Implies(a, b))
        }
    }
}

/// A copy of a part. In a function of its own, which owns it over one way out.
#[cycle(copy)]
fn copy_boxed(alloc: Global, part: &Expr) -> Result<Boxed<Expr>, NoMemory>
    ensures { IfOk result (λ x. x ≡ part.now) }
{
    let part = copy_expr(alloc, part)?;
    Boxed::new(alloc, part)
}

#[cycle(copy)]
fn copy_exprs(alloc: Global, parts: &[Expr]) -> Result<List<Expr>, NoMemory>
    ensures { IfOk result (λ xs. xs ≡ parts.now) }
{
    let mut found = Vec::new(alloc);
    for part in parts {
        let part = copy_expr(alloc, part)?;
        found.push(part)?;
    }
    Ok(List::from_vec(found))
}
