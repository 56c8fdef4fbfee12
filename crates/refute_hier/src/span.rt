ghost use Rattle.std.specs.Prelude.{◌≡◌};
ghost use Rattle.refute_hier.specs.Span.{span_case, span_row};

use crate::parts::{Role, at_part, shows_absent, shows_present, some_part};
use region::Look;
use sched_base::{Itv, at};
use sched_model::{Constraint, Model};

fn span_case(look: &Look<'_>, r: u32, i: u32, a: Itv, parts: &[Itv]) -> bool
    ensures { result ≡ span_case look.now.region r i a parts.now }
{
    match r {
        1 => shows_absent(look, a) && at_part(look, Role::IsThere, a, parts, i),
        2 => i == 0 && shows_present(look, a) && !some_part(look, Role::MayStart, a, parts),
        3 => i == 0 && shows_present(look, a) && !some_part(look, Role::MayEnd, a, parts),
        4 => !shows_absent(look, a) && at_part(look, Role::StartsBefore, a, parts, i),
        5 => !shows_absent(look, a) && at_part(look, Role::EndsAfter, a, parts, i),
        _ => false,
    }
}

/// Whether SPAN refutes the look. It reads each part at most once.
pub fn span(model: &Model, look: &Look<'_>, c: u32, r: u32, i: u32) -> bool
    ensures { result ≡ span_row model.now look.now c r i }
{
    match at(model.constraints(), c as usize) {
        Some(Constraint::Span { a, parts }) => span_case(look, r, i, *a, parts.as_slice()),
        _ => false,
    }
}
