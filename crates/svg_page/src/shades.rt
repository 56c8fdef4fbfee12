//! Which of eight colours a bar has: in the row of a sequence with types that of its type; else that of
//! the interval for which an alternative chooses it, by the name without what stands behind its last `_`,
//! or by its number where there is no `_`.
ghost use Rattle.std.specs.Prelude.{◌≡◌, ◌<◌, Option, Some, None, nat_eq, position};
ghost use Rattle.svg_page.specs.Shades.{name_at, found_at, stem_sum, whole_in, kin, shade_of, shade, type_of, type_in, type_at, shade_in};

use crate::lanes::is_member;
use sched_base::Itv;
use sched_model::{Constraint, Model, SequenceDef};

pub fn name_at(model: &Model, i: usize) -> &[u8]
    ensures { result.now ≡ name_at model.now i }
{
    match model.intervals().get(i) {
        None => b"",
        Some(d) => d.name.as_slice(),
    }
}

/// The sum so far, where this byte is a `_`.
fn found_at(found: Option<u128>, total: u128, b: u8) -> Option<u128>
    ensures { result ≡ found_at found total b }
{
    if b == b'_' { Some(total) } else { found }
}

/// The sum of the bytes before the last `_`.
fn stem_sum(name: &[u8]) -> Option<u128>
    ensures { result ≡ stem_sum None 0 name.now }
{
    let mut found = None;
    let mut total: u128 = 0;
    for b in name {
        found = found_at(found, total, *b);
        total += u128::from(*b);
    }
    found
}

/// The interval that an alternative chooses this one for.
fn whole_in(c: &Constraint, i: usize) -> Option<usize>
    ensures { result ≡ whole_in i c.now }
{
    match c {
        Constraint::Alternative { a, parts, count: _ } if is_member(parts.as_slice(), i) => Some(
            a.0 as usize,
        ),
        _ => None,
    }
}

/// That of the first alternative that has it as a part, or else the interval itself.
fn kin(constraints: &[Constraint], i: usize) -> usize
    ensures { result ≡ kin i constraints.now }
{
    for c in constraints {
        if let Some(whole) = whole_in(c, i) {
            return whole;
        }
    }
    i
}

fn shade_of(name: &[u8], i: usize) -> u128
    ensures { result ≡ shade_of name.now i }
{
    match stem_sum(name) {
        None => (i % 8) as u128,
        Some(sum) => sum % 8,
    }
}

/// The colour of an interval's bar.
pub fn shade(model: &Model, i: usize) -> u128
    ensures { result ≡ shade model.now i }
{
    let whole = kin(model.constraints(), i);
    shade_of(name_at(model, whole), whole)
}

/// Where the interval stands among these.
fn place_in(xs: &[Itv], i: usize) -> Option<usize>
    ensures { result ≡ position (λ x. nat_eq x.0 i) xs.now }
{
    xs.iter().position(|x| x.0 as usize == i)
}

/// The type of the interval in a list with a type for each of these.
fn type_of(members: &[Itv], types: &[u32], i: usize) -> Option<u32>
    ensures { result ≡ type_of members.now types.now i }
{
    let k = place_in(members, i)?;
    types.get(k).copied()
}

/// The type of a member, where the sequence has types.
fn type_in(d: &SequenceDef, i: usize) -> Option<u32>
    ensures { result ≡ type_in i d.now }
{
    match &d.types {
        None => None,
        Some(types) => type_of(d.members.as_slice(), types.as_slice(), i),
    }
}

fn type_at(model: &Model, p: usize, i: usize) -> Option<u32>
    ensures { result ≡ type_at model.now p i }
{
    let d = model.sequences().get(p)?;
    type_in(d, i)
}

/// The colour of an interval's bar in the row of a sequence.
pub fn shade_in(model: &Model, p: usize, i: usize) -> u128
    ensures { result ≡ shade_in model.now p i }
{
    match type_at(model, p, i) {
        None => shade(model, i),
        Some(t) => u128::from(t % 8),
    }
}
