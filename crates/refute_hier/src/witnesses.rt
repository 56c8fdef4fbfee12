//! A witness of a constraint that refutes a look.
ghost use Rattle.std.specs.Prelude.{◌≡◌, ◌<◌, ◌^◌, pos, true, false, IsTrue, IfSome, IfNone, length};
ghost use Rattle.region.specs.declared.types.Presence.TheVariants as presence;
ghost use Rattle.refute_hier.specs.Parts.{is_away, at_part, some_part};
ghost use Rattle.refute_hier.specs.Alt.{is_crowded};
ghost use Rattle.refute_hier.specs.code.Rows.{two_parts, some_case, some_refutes, IsWitness, AreTwo};
ghost use Rattle.refute_hier.specs.declared.family.Kind.TheVariants as kind;

use crate::alt::{is_crowded, is_short};
use crate::family::{Family, Kind};
use crate::parts::{Role, at_part, some_part};
use crate::rows::presence;
use crate::witness::HierWitness;
use region::{Look, Presence};
use sched_base::Itv;

/// The first place of a part that is that.
#[tactic(auto, using(crate::proofs::Places::none_so_far))]
fn place(look: &Look<'_>, role: Role, a: Itv, parts: &[Itv]) -> Option<u32>
    requires { length parts.now < 2 ^ 32 }
    ensures some { IfSome result (λ i. IsTrue (at_part look.now.region role a parts.now i)) }
    ensures none { IfNone result (some_part look.now.region role a parts.now ≡ false) }
{
    for i in 0..parts.len() as u32 {
        if at_part(look, role, a, parts, i) {
            return Some(i);
        }
    }
    None
}

/// The first two places of parts that are present.
#[tactic(auto, using(crate::proofs::Two::none_yet, crate::proofs::Two::passed, crate::proofs::Two::found_one, crate::proofs::Two::found_two, crate::proofs::Two::not_two))]
fn two_places(look: &Look<'_>, a: Itv, parts: &[Itv]) -> Option<(u32, u32)>
    requires { length parts.now < 2 ^ 32 }
    ensures some { IfSome result (λ p. AreTwo look.now.region a parts.now p.0 p.1) }
    ensures none { IfNone result (two_parts look.now.region a parts.now ≡ false) }
{
    let mut first = None;
    for i in 0..parts.len() as u32 {
        if !at_part(look, Role::IsThere, a, parts, i) {
            continue;
        }
        if let Some(before) = first {
            return Some((before, i));
        }
        first = Some(i);
    }
    None
}

/// A part that reaches out of the span.
fn reaching(look: &Look<'_>, a: Itv, parts: &[Itv], c: u32) -> Option<HierWitness>
    requires few { length parts.now < 2 ^ 32 }
    requires here { is_away look.now.region a ≡ false }
    ensures some { IfSome result (IsWitness kind.Span look.now.region a parts.now c) }
    ensures none { IfNone result (some_case kind.Span presence.Maybe look.now.region a parts.now ≡ false) }
{
    if let Some(i) = place(look, Role::StartsBefore, a, parts) {
        return Some(HierWitness::Span { c, r: 4, i });
    }
    let i = place(look, Role::EndsAfter, a, parts)?;
    Some(HierWitness::Span { c, r: 5, i })
}

fn of_span(look: &Look<'_>, a: Itv, parts: &[Itv], c: u32) -> Option<HierWitness>
    requires { length parts.now < 2 ^ 32 }
    ensures some { IfSome result (IsWitness kind.Span look.now.region a parts.now c) }
    ensures none { IfNone result (some_refutes kind.Span look.now.region a parts.now ≡ false) }
{
    match presence(look, a) {
        Presence::Absent => {
            let i = place(look, Role::IsThere, a, parts)?;
            Some(HierWitness::Span { c, r: 1, i })
        }
        Presence::Maybe => reaching(look, a, parts, c),
        Presence::Present => {
            if !some_part(look, Role::MayStart, a, parts) {
                return Some(HierWitness::Span { c, r: 2, i: 0 });
            }
            if !some_part(look, Role::MayEnd, a, parts) {
                return Some(HierWitness::Span { c, r: 3, i: 0 });
            }
            reaching(look, a, parts, c)
        }
    }
}

/// The two parts that are present, of an alternative with the count 1.
#[tactic(auto, using(crate::proofs::Crowds::one_too_many))]
fn second(look: &Look<'_>, a: Itv, parts: &[Itv], c: u32) -> Option<HierWitness>
    requires { length parts.now < 2 ^ 32 }
    ensures some { IfSome result (IsWitness (kind.Alternative (pos 1)) look.now.region a parts.now c) }
    ensures none { IfNone result (is_crowded look.now.region (pos 1) a parts.now ≡ false) }
{
    let (i, j) = two_places(look, a, parts)?;
    Some(HierWitness::Alt { c, r: 2, i, j })
}

/// That more parts are present than the count: which two, where it is 1.
#[tactic(auto, using(crate::proofs::Crowds::found_once, crate::proofs::Crowds::none_once))]
fn crowd(look: &Look<'_>, count: i64, a: Itv, parts: &[Itv], c: u32) -> Option<HierWitness>
    requires { length parts.now < 2 ^ 32 }
    ensures some { IfSome result (IsWitness (kind.Alternative count) look.now.region a parts.now c) }
    ensures none { IfNone result (is_crowded look.now.region count a parts.now ≡ false) }
{
    if count == 1 {
        return second(look, a, parts, c);
    }
    if !is_crowded(look, count, a, parts) {
        return None;
    }
    Some(HierWitness::Alt {
        c,
        r: 5,
        i: 0,
        j: 0,
    })
}

/// That too many parts are present, or one that can't match the interval.
fn crowding(look: &Look<'_>, count: i64, a: Itv, parts: &[Itv], c: u32) -> Option<HierWitness>
    requires few { length parts.now < 2 ^ 32 }
    requires here { is_away look.now.region a ≡ false }
    ensures some { IfSome result (IsWitness (kind.Alternative count) look.now.region a parts.now c) }
    ensures none { IfNone result (some_case (kind.Alternative count) presence.Maybe look.now.region a parts.now ≡ false) }
{
    if let Some(w) = crowd(look, count, a, parts, c) {
        return Some(w);
    }
    let i = place(look, Role::Clashes, a, parts)?;
    Some(HierWitness::Alt { c, r: 4, i, j: 0 })
}

/// That a part is present where the interval is absent.
fn without(look: &Look<'_>, count: i64, a: Itv, parts: &[Itv], c: u32) -> Option<HierWitness>
    requires few { length parts.now < 2 ^ 32 }
    requires away { is_away look.now.region a ≡ true }
    ensures some { IfSome result (IsWitness (kind.Alternative count) look.now.region a parts.now c) }
    ensures none { IfNone result (some_case (kind.Alternative count) presence.Absent look.now.region a parts.now ≡ false) }
{
    if let Some(i) = place(look, Role::IsThere, a, parts) {
        return Some(HierWitness::Alt { c, r: 1, i, j: 0 });
    }
    crowd(look, count, a, parts, c)
}

fn of_alternative(look: &Look<'_>, count: i64, a: Itv, parts: &[Itv], c: u32) -> Option<HierWitness>
    requires { length parts.now < 2 ^ 32 }
    ensures some { IfSome result (IsWitness (kind.Alternative count) look.now.region a parts.now c) }
    ensures none { IfNone result (some_refutes (kind.Alternative count) look.now.region a parts.now ≡ false) }
{
    match presence(look, a) {
        Presence::Absent => without(look, count, a, parts, c),
        Presence::Maybe => crowding(look, count, a, parts, c),
        Presence::Present => {
            if is_short(look, count, a, parts) {
                return Some(HierWitness::Alt {
                    c,
                    r: 3,
                    i: 0,
                    j: 0,
                });
            }
            crowding(look, count, a, parts, c)
        }
    }
}

fn of_synchronize(look: &Look<'_>, a: Itv, parts: &[Itv], c: u32) -> Option<HierWitness>
    requires { length parts.now < 2 ^ 32 }
    ensures some { IfSome result (IsWitness kind.Synchronize look.now.region a parts.now c) }
    ensures none { IfNone result (some_refutes kind.Synchronize look.now.region a parts.now ≡ false) }
{
    match presence(look, a) {
        Presence::Present => {
            let i = place(look, Role::Clashes, a, parts)?;
            Some(HierWitness::Sync { c, i })
        }
        _ => None,
    }
}

/// A witness of constraint `c`, which is this one, that refutes the look; none exactly where none does.
pub fn find_witness(look: &Look<'_>, family: &Family<'_>, c: u32) -> Option<HierWitness>
    requires { length family.now.parts.now < 2 ^ 32 }
    ensures some { IfSome result (IsWitness family.now.kind look.now.region family.now.a family.now.parts.now c) }
    ensures none { IfNone result (some_refutes family.now.kind look.now.region family.now.a family.now.parts.now ≡ false) }
{
    match family.kind {
        Kind::Span => of_span(look, family.a, family.parts, c),
        Kind::Alternative { count } => of_alternative(look, count, family.a, family.parts, c),
        Kind::Synchronize => of_synchronize(look, family.a, family.parts, c),
    }
}
