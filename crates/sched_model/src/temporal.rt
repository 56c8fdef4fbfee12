ghost use Rattle.std.specs.Prelude.{◌≡◌, ◌+ℤ◌, int_le};
ghost use Rattle.sched_model.specs.Temporal.{is_precedence, reaches};

use crate::slots::{Slots, is_here, point_in};
use crate::types::End;
use sched_base::Itv;

/// Whether `first + z <= second`.
fn is_at_most(first: i64, z: i64, second: i64) -> bool
    ensures { result ≡ int_le (first +ℤ z) second }
{
    i128::from(first) + i128::from(z) <= i128::from(second)
}

/// Whether `first + z >= second`.
fn is_at_least(first: i64, z: i64, second: i64) -> bool
    ensures { result ≡ int_le second (first +ℤ z) }
{
    i128::from(second) <= i128::from(first) + i128::from(z)
}

fn reaches(equal: bool, first: i64, z: i64, second: i64) -> bool
    ensures { result ≡ reaches equal (first +ℤ z) second }
{
    if !is_at_most(first, z, second) {
        return false;
    }
    if !equal {
        return true;
    }
    is_at_least(first, z, second)
}

/// Whether a precedence holds: `from` of `x`, plus `z`, against `to` of `y`.
pub fn is_precedence<S: Slots>(
    slots: &S,
    from: End,
    to: End,
    equal: bool,
    x: Itv,
    y: Itv,
    z: i64,
) -> bool
    ensures { result ≡ is_precedence (S.meaning slots.now) from to equal x y z }
{
    let first = slots.slot(x);
    let second = slots.slot(y);
    if !is_here(first) || !is_here(second) {
        return true;
    }
    reaches(equal, point_in(first, from), z, point_in(second, to))
}
