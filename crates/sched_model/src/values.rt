ghost use Rattle.std.specs.Prelude.{◌≡◌, ◌∷◌, [], ◌++◌, is_some, map, not, pos, true, ◌-ℤ◌};
ghost use Rattle.std.specs.Int.{saturate_signed, w64};
ghost use Rattle.std.specs.List.{list_all, list_any};
ghost use Rattle.std.specs.Option.{option_to_list};
ghost use Rattle.sched_model.specs.Words.{greatest, least, placewise, total};
ghost use Rattle.sched_model.specs.Domain.{fits_def};
ghost use Rattle.sched_model.specs.Hull.{hull_of};
ghost use Rattle.sched_model.specs.Value.{compared, end_or, is_true, start_or, truth, value_of};
ghost use Rattle.sched_model.specs.code.Saturated.{saturated_product, saturated_size, saturated_value};

use crate::model::Model;
use crate::ranges::{nearest, scaled};
use crate::slots::{Slots, is_here};
use crate::types::{CompareOp, Expr, Slot};

fn start_or(slot: Slot, d: i64) -> i64
    ensures { result ≡ start_or d slot }
{
    match slot {
        Slot::Absent => d,
        Slot::Present { s, e: _ } => s,
    }
}

fn end_or(slot: Slot, d: i64) -> i64
    ensures { result ≡ end_or d slot }
{
    match slot {
        Slot::Absent => d,
        Slot::Present { s: _, e } => e,
    }
}

fn size_or(slot: Slot, d: i64) -> i64
    ensures { result ≡ saturated_size d slot }
{
    match slot {
        Slot::Absent => d,
        Slot::Present { s, e } => e.saturating_sub(s),
    }
}

fn truth(yes: bool) -> i64
    ensures { result ≡ truth yes }
{
    if yes { 1 } else { 0 }
}

fn is_true(z: i64) -> bool
    ensures { result ≡ is_true z }
{
    z != 0
}

fn compared(op: CompareOp, x: i64, y: i64) -> bool
    ensures { result ≡ compared op x y }
{
    match op {
        CompareOp::Eq => x == y,
        CompareOp::Ne => x != y,
        CompareOp::Le => x <= y,
        CompareOp::Ge => x >= y,
        CompareOp::Lt => x < y,
        CompareOp::Gt => x > y,
    }
}

fn greater(so_far: Option<i64>, z: i64) -> i64
    ensures { result ≡ greatest (option_to_list so_far ++ z ∷ []) }
{
    match so_far {
        None => z,
        Some(y) => y.max(z),
    }
}

fn lesser(so_far: Option<i64>, z: i64) -> i64
    ensures { result ≡ least (option_to_list so_far ++ z ∷ []) }
{
    match so_far {
        None => z,
        Some(y) => y.min(z),
    }
}

/// The value of an expression that has a hull, where each interval of the model has a slot that
/// fits its definition.
pub fn value_in<S: Slots>(model: &Model, slots: &S, e: &Expr) -> i64
    requires hull { is_some (hull_of model.now e.now) ≡ true }
    requires fits { placewise fits_def model.now.intervals (S.meaning slots.now).slots ≡ true }
    ensures { result ≡ value_of (S.meaning slots.now) e.now }
{
    value_of(slots, e)
}

/// The value of an expression by arithmetic that saturates.
#[cycle(value_of)]
pub fn value_of<S: Slots>(slots: &S, e: &Expr) -> i64
    ensures { result ≡ saturated_value (S.meaning slots.now) e.now }
{
    match e {
        Expr::Lit(n) => *n,
        Expr::StartOf(x, d) => start_or(slots.slot(*x), *d),
        Expr::EndOf(x, d) => end_or(slots.slot(*x), *d),
        Expr::SizeOf(x, d) => size_or(slots.slot(*x), *d),
        Expr::LengthOf(x, d) => size_or(slots.slot(*x), *d),
        Expr::PresenceOf(x) => truth(is_here(slots.slot(*x))),
        Expr::Neg(part) => 0i64.saturating_sub(value_of(slots, part.get())),
        Expr::Sum(parts) => sum_of(slots, parts.as_slice()),
        Expr::Product(parts) => product_of(slots, parts.as_slice()),
        Expr::Max(parts) => greatest_of(slots, parts.as_slice()),
        Expr::Min(parts) => least_of(slots, parts.as_slice()),
        Expr::Compare(op, x, y) => {
            let first = value_of(slots, x.get());
            let second = value_of(slots, y.get());
            truth(compared(*op, first, second))
        }
        Expr::Not(part) => {
            let z = value_of(slots, part.get());
            truth(!is_true(z))
        }
        Expr::And(parts) => truth(are_true(slots, parts.as_slice())),
        Expr::Or(parts) => truth(some_true(slots, parts.as_slice())),
        Expr::Implies(x, y) => {
            let first = value_of(slots, x.get());
            let second = value_of(slots, y.get());
            truth(!is_true(first) || is_true(second))
        }
    }
}

#[cycle(value_of)]
fn sum_of<S: Slots>(slots: &S, parts: &[Expr]) -> i64
    ensures { result ≡ saturate_signed w64 (total (map (saturated_value (S.meaning slots.now)) parts.now)) }
{
    let mut sum: i128 = 0;
    for part in parts {
        sum += i128::from(value_of(slots, part));
    }
    nearest(sum)
}

#[cycle(value_of)]
fn product_of<S: Slots>(slots: &S, parts: &[Expr]) -> i64
    ensures { result ≡ saturate_signed w64 (saturated_product (map (saturated_value (S.meaning slots.now)) parts.now)) }
{
    let mut product: i128 = 1;
    for part in parts {
        product = scaled(product, value_of(slots, part));
    }
    nearest(product)
}

#[cycle(value_of)]
fn greatest_of<S: Slots>(slots: &S, parts: &[Expr]) -> i64
    ensures { result ≡ greatest (map (saturated_value (S.meaning slots.now)) parts.now) }
{
    let mut so_far = None;
    for part in parts {
        so_far = Some(greater(so_far, value_of(slots, part)));
    }
    so_far.unwrap_or(0)
}

#[cycle(value_of)]
fn least_of<S: Slots>(slots: &S, parts: &[Expr]) -> i64
    ensures { result ≡ least (map (saturated_value (S.meaning slots.now)) parts.now) }
{
    let mut so_far = None;
    for part in parts {
        so_far = Some(lesser(so_far, value_of(slots, part)));
    }
    so_far.unwrap_or(0)
}

#[cycle(value_of)]
fn are_true<S: Slots>(slots: &S, parts: &[Expr]) -> bool
    ensures { result ≡ list_all is_true (map (saturated_value (S.meaning slots.now)) parts.now) }
{
    for part in parts {
        let z = value_of(slots, part);
        if !is_true(z) {
            return false;
        }
    }
    true
}

#[cycle(value_of)]
fn some_true<S: Slots>(slots: &S, parts: &[Expr]) -> bool
    ensures { result ≡ list_any is_true (map (saturated_value (S.meaning slots.now)) parts.now) }
{
    for part in parts {
        let z = value_of(slots, part);
        if is_true(z) {
            return true;
        }
    }
    false
}
