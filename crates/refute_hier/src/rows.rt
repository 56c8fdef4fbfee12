//! Whether some row of a constraint refutes a look.
ghost use Rattle.std.specs.Prelude.{◌≡◌};
ghost use Rattle.region.specs.declared.types.Presence.TheVariants as presence;
ghost use Rattle.region.specs.Cells.{bounds_of};
ghost use Rattle.refute_hier.specs.code.Rows.{some_case, some_refutes};
ghost use Rattle.refute_hier.specs.declared.family.Kind.TheVariants as kind;

use crate::alt::{is_crowded, is_short};
use crate::family::{Family, Kind};
use crate::parts::{Role, known, some_part};
use region::{Look, Presence};
use sched_base::Itv;

pub fn presence(look: &Look<'_>, x: Itv) -> Presence
    ensures { result ≡ (bounds_of look.now.region x).presence }
{
    known(look, x).presence
}

/// Whether a part of a span reaches out of it.
fn reach_out(look: &Look<'_>, a: Itv, parts: &[Itv]) -> bool
    ensures { result ≡ some_case kind.Span presence.Maybe look.now.region a parts.now }
{
    some_part(look, Role::StartsBefore, a, parts) || some_part(look, Role::EndsAfter, a, parts)
}

fn refutes_span(look: &Look<'_>, presence: Presence, a: Itv, parts: &[Itv]) -> bool
    ensures { result ≡ some_case kind.Span presence look.now.region a parts.now }
{
    match presence {
        Presence::Absent => some_part(look, Role::IsThere, a, parts),
        Presence::Maybe => reach_out(look, a, parts),
        Presence::Present => {
            !some_part(look, Role::MayStart, a, parts)
                || !some_part(look, Role::MayEnd, a, parts)
                || reach_out(look, a, parts)
        }
    }
}

fn refutes_alternative(
    look: &Look<'_>,
    presence: Presence,
    count: i64,
    a: Itv,
    parts: &[Itv],
) -> bool
    ensures { result ≡ some_case (kind.Alternative count) presence look.now.region a parts.now }
{
    match presence {
        Presence::Absent => {
            some_part(look, Role::IsThere, a, parts) || is_crowded(look, count, a, parts)
        }
        Presence::Maybe => {
            is_crowded(look, count, a, parts) || some_part(look, Role::Clashes, a, parts)
        }
        Presence::Present => {
            is_crowded(look, count, a, parts)
                || is_short(look, count, a, parts)
                || some_part(look, Role::Clashes, a, parts)
        }
    }
}

fn refutes_synchronize(look: &Look<'_>, presence: Presence, a: Itv, parts: &[Itv]) -> bool
    ensures { result ≡ some_case kind.Synchronize presence look.now.region a parts.now }
{
    match presence {
        Presence::Present => some_part(look, Role::Clashes, a, parts),
        _ => false,
    }
}

/// Whether a row of the constraint refutes the look. It reads each part a few times.
pub fn some_refutes(look: &Look<'_>, family: &Family<'_>) -> bool
    ensures { result ≡ some_refutes family.now.kind look.now.region family.now.a family.now.parts.now }
{
    let presence = presence(look, family.a);
    match family.kind {
        Kind::Span => refutes_span(look, presence, family.a, family.parts),
        Kind::Alternative { count } => {
            refutes_alternative(look, presence, count, family.a, family.parts)
        }
        Kind::Synchronize => refutes_synchronize(look, presence, family.a, family.parts),
    }
}
