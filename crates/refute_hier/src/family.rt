ghost use Rattle.std.specs.Prelude.{◌≡◌, false, IfSome, IfNone};
ghost use Rattle.refute_hier.specs.code.Rows.{as_constraint, is_family};

use sched_base::Itv;
use sched_model::Constraint;

/// What a constraint says of an interval and its parts.
#[derive(Clone, Copy, Debug, PartialEq, Eq)]
pub enum Kind {
    Span,
    Alternative { count: i64 },
    Synchronize,
}

/// A constraint on an interval `a` and its parts.
#[derive(Clone, Copy, Debug)]
pub struct Family<'a> {
    pub kind: Kind,
    pub a: Itv,
    pub parts: &'a [Itv],
}

/// The constraint as one on an interval and its parts, if it is one.
pub fn as_family(constraint: &Constraint) -> Option<Family<'_>>
    ensures some { IfSome result (λ f. constraint.now ≡ as_constraint f.kind f.a f.parts.now) }
    ensures none { IfNone result (is_family constraint.now ≡ false) }
{
    match constraint {
        Constraint::Span { a, parts } => Some(Family {
            kind: Kind::Span,
            a: *a,
            parts: parts.as_slice(),
        }),
        Constraint::Alternative { a, parts, count } => Some(Family {
            kind: Kind::Alternative { count: *count },
            a: *a,
            parts: parts.as_slice(),
        }),
        Constraint::Synchronize { a, parts } => Some(Family {
            kind: Kind::Synchronize,
            a: *a,
            parts: parts.as_slice(),
        }),
        _ => None,
    }
}
