ghost use Rattle.std.specs.Prelude.{◌≡◌, ℕ, pos, [], ◌∷◌, IsTrue, IfSome, IfNone};
ghost use Rattle.sched_model.specs.Bounds.{is_number};
ghost use Rattle.refute_cumul.specs.Witness.{numbers_of, is_valid};
ghost use Rattle.refute_cumul.specs.declared.witness.CumulWitness.{CumulWitness};

use crate::witness::CumulWitness;
use region::Numbers;
use sched_base::NoMemory;
use sched_model::is_small;
use std::alloc::Global;

// The place of the one kind of this crate, which is POINT.
const POINT: i64 = 0;

impl Numbers for CumulWitness {
    ghost use Rattle.refute_cumul.specs.Witness.{numbers_of, is_valid};
    ghost use Rattle.refute_cumul.specs.laws.Spelling.{few_numbers, small_numbers, told_apart};

    ghost numbers = { numbers_of };

    ghost is_valid = { is_valid };

    fn valid(&self) -> bool {
        match *self {
            CumulWitness::Point { c, t, u } => is_number(c) && is_small(t) && is_number(u),
        }
    }

    fn count(&self) -> usize {
        match *self {
            CumulWitness::Point { c: _, t: _, u: _ } => 4,
        }
    }

    fn number(&self, n: usize) -> i64 {
        match *self {
            CumulWitness::Point { c, t, u } => match n {
                0 => POINT,
                1 => i64::from(c),
                2 => t,
                _ => i64::from(u),
            },
        }
    }

    fn from_numbers(_: Global, list: &[i64]) -> Result<Option<CumulWitness>, NoMemory> {
        Ok(read(list))
    }

    ghost few = { few_numbers };

    ghost small = { small_numbers };

    ghost told_apart = { told_apart };
}

/// Whether a log may hold the number: it may hold each.
fn is_number(n: u32) -> bool
    ensures { result ≡ is_number n }
{
    u64::from(n) < 1 << 32
}

/// The number as one that isn't a moment, if it is small enough.
fn small(number: i64) -> Option<u32>
    ensures some { IfSome result (λ n. number ≡ pos n) }
    ensures none { IfNone result ((n : ℕ) → IsTrue (is_number n) → number ≡ pos n → ⊥) }
{
    u32::try_from(number).ok()
}

fn point(c: i64, t: i64, u: i64) -> Option<CumulWitness>
    ensures some { IfSome result (λ w. (numbers_of w ≡ pos 0 ∷ c ∷ t ∷ u ∷ []) × IsTrue (is_valid w)) }
    ensures none { IfNone result ((w : CumulWitness) → IsTrue (is_valid w) → numbers_of w ≡ pos 0 ∷ c ∷ t ∷ u ∷ [] → ⊥) }
{
    let c = small(c)?;
    let u = small(u)?;
    if !is_small(t) {
        return None;
    }
    Some(CumulWitness::Point { c, t, u })
}

/// The valid witness with these numbers.
fn read(list: &[i64]) -> Option<CumulWitness>
    ensures some { IfSome result (λ w. (numbers_of w ≡ list.now) × IsTrue (is_valid w)) }
    ensures none { IfNone result ((w : CumulWitness) → IsTrue (is_valid w) → numbers_of w ≡ list.now → ⊥) }
{
    match list {
        [POINT, c, t, u] => point(*c, *t, *u),
        _ => None,
    }
}
