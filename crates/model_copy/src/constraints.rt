ghost use Rattle.std.specs.Prelude.{◌≡◌, IfOk, filter_map, slice_get};

use crate::expressions::copy_expr;
use crate::things::copy_list;
use sched_base::{Con, List, NoMemory, at};
use sched_model::Constraint;
use std::alloc::Global;

fn copy_constraint(alloc: Global, c: &Constraint) -> Result<Constraint, NoMemory>
    ensures { IfOk result (λ d. d ≡ c.now) }
{
    match c {
        Constraint::Temporal {
            from,
            to,
            equal,
            a,
            b,
            z,
        } => Ok(Constraint::Temporal {
            from: *from,
            to: *to,
            equal: *equal,
            a: *a,
            b: *b,
            z: *z,
        }),
        Constraint::Logic(e) => Ok(Constraint::Logic(copy_expr(alloc, e)?)),
        Constraint::Span { a, parts } => Ok(Constraint::Span {
            a: *a,
            parts: copy_list(alloc, parts.as_slice())?,
        }),
        Constraint::Alternative { a, parts, count } => Ok(Constraint::Alternative {
            a: *a,
            parts: copy_list(alloc, parts.as_slice())?,
            count: *count,
        }),
        Constraint::Synchronize { a, parts } => Ok(Constraint::Synchronize {
            a: *a,
            parts: copy_list(alloc, parts.as_slice())?,
        }),
        Constraint::NoOverlap { p, matrix, direct } => Ok(Constraint::NoOverlap {
            p: *p,
            matrix: *matrix,
            direct: *direct,
        }),
        Constraint::First { p, a } => Ok(Constraint::First { p: *p, a: *a }),
        Constraint::Last { p, a } => Ok(Constraint::Last { p: *p, a: *a }),
        Constraint::Before { p, a, b } => Ok(Constraint::Before {
            p: *p,
            a: *a,
            b: *b,
        }),
        Constraint::Prev { p, a, b } => Ok(Constraint::Prev {
            p: *p,
            a: *a,
            b: *b,
        }),
        Constraint::CumulIn { f, window, lo, hi } => Ok(Constraint::CumulIn {
            f: *f,
            window: *window,
            lo: *lo,
            hi: *hi,
        }),
        Constraint::AlwaysEqual {
            g,
            a,
            v,
            start_aligned,
            end_aligned,
        } => Ok(Constraint::AlwaysEqual {
            g: *g,
            a: *a,
            v: *v,
            start_aligned: *start_aligned,
            end_aligned: *end_aligned,
        }),
        Constraint::AlwaysNoState { g, a } => Ok(Constraint::AlwaysNoState { g: *g, a: *a }),
    }
}

/// Copies of the constraints that these ids name, in their order.
pub fn copy_constraints(
    alloc: Global,
    constraints: &[Constraint],
    keep: &[Con],
) -> Result<List<Constraint>, NoMemory>
    ensures { IfOk result (λ ds. ds ≡ filter_map (λ c. slice_get constraints.now c.0) keep.now) }
{
    let mut found = Vec::new(alloc);
    for c in keep {
        if let Some(constraint) = at(constraints, c.0 as usize) {
            found.push(copy_constraint(alloc, constraint)?)?;
        }
    }
    Ok(List::from_vec(found))
}
