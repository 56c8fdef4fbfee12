ghost use Rattle.std.specs.Prelude.{◌≡◌, ◌≤◌, ◌^◌};
ghost use Rattle.cpo_elab.specs.Literals.{size_of, int_of, int_or_zero, count_or_one, range_of};

use cpo_text::{Int, Range};
use sched_base::NUMBER_LIMIT;

/// The value of digits; 0 for those that are above the bound on literals, which no statement has
/// that the grammar accepts.
pub fn size_of(n: Option<u64>) -> u64
    ensures value { result ≡ size_of n }
    ensures small { result ≤ 2 ^ 62 }
{
    match n {
        None => 0,
        Some(n) => { if n <= NUMBER_LIMIT as u64 { n } else { 0 } }
    }
}

/// The value of a number with its sign.
pub fn int_of(i: Int) -> i64
    ensures { result ≡ int_of i }
{
    let size = size_of(i.size) as i64;
    if i.minus { -size } else { size }
}

/// The number that is written, or 0 where none is.
pub fn int_or_zero(i: Option<Int>) -> i64
    ensures { result ≡ int_or_zero i }
{
    match i {
        None => 0,
        Some(i) => int_of(i),
    }
}

/// How many parts an alternative chooses: one where no number is written.
pub fn count_or_one(i: Option<Int>) -> i64
    ensures { result ≡ count_or_one i }
{
    match i {
        None => 1,
        Some(i) => int_of(i),
    }
}

/// Both ends of a range.
pub fn range_of(r: Range) -> (i64, i64)
    ensures { result ≡ range_of r }
{
    (int_of(r.from), int_of(r.to.unwrap_or(r.from)))
}
