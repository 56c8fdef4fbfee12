ghost use Rattle.std.specs.Prelude.{◌≡◌, ℕ, pos, [], ◌∷◌, IsTrue, IfSome, IfNone};
ghost use Rattle.sched_model.specs.Bounds.{is_number};
ghost use Rattle.refute_state.specs.Witness.{numbers_of, is_valid};
ghost use Rattle.refute_state.specs.declared.witness.StateWitness.{StateWitness};

use crate::witness::StateWitness;
use region::Numbers;
use sched_base::NoMemory;
use std::alloc::Global;

// The places of the kinds of this crate, which are STATE and STATE3.
const STATE: i64 = 0;

const STATE3: i64 = 1;

impl Numbers for StateWitness {
    ghost use Rattle.refute_state.specs.Witness.{numbers_of, is_valid};
    ghost use Rattle.refute_state.specs.laws.Spelling.{few_numbers, small_numbers, told_apart};

    ghost numbers = { numbers_of };

    ghost is_valid = { is_valid };

    fn valid(&self) -> bool {
        match *self {
            StateWitness::State { c1, c2 } => is_number(c1) && is_number(c2),
            StateWitness::State3 { c1, c2, c3 } => {
                is_number(c1) && is_number(c2) && is_number(c3)
            }
        }
    }

    fn count(&self) -> usize {
        match *self {
            StateWitness::State { c1: _, c2: _ } => 3,
            StateWitness::State3 {
                c1: _,
                c2: _,
                c3: _,
            } => 4,
        }
    }

    fn number(&self, n: usize) -> i64 {
        match *self {
            StateWitness::State { c1, c2 } => match n {
                0 => STATE,
                1 => i64::from(c1),
                _ => i64::from(c2),
            },
            StateWitness::State3 { c1, c2, c3 } => match n {
                0 => STATE3,
                1 => i64::from(c1),
                2 => i64::from(c2),
                _ => i64::from(c3),
            },
        }
    }

    fn from_numbers(_: Global, list: &[i64]) -> Result<Option<StateWitness>, NoMemory> {
        Ok(read(list))
    }

    ghost few = { few_numbers };

    ghost small = { small_numbers };

    ghost told_apart = { told_apart };
}

/// Whether a log may hold the number: it may hold each.
fn is_number(n: u32) -> bool
    ensures { result ≡ is_number n }
{
    u64::from(n) < 1 << 32
}

/// The number as one that isn't a moment, if it is small enough.
fn small(number: i64) -> Option<u32>
    ensures some { IfSome result (λ n. number ≡ pos n) }
    ensures none { IfNone result ((n : ℕ) → IsTrue (is_number n) → number ≡ pos n → ⊥) }
{
    u32::try_from(number).ok()
}

fn state(c1: i64, c2: i64) -> Option<StateWitness>
    ensures some { IfSome result (λ w. (numbers_of w ≡ pos 0 ∷ c1 ∷ c2 ∷ []) × IsTrue (is_valid w)) }
    ensures none { IfNone result ((w : StateWitness) → IsTrue (is_valid w) → numbers_of w ≡ pos 0 ∷ c1 ∷ c2 ∷ [] → ⊥) }
{
    Some(StateWitness::State {
        c1: small(c1)?,
        c2: small(c2)?,
    })
}

fn state3(c1: i64, c2: i64, c3: i64) -> Option<StateWitness>
    ensures some { IfSome result (λ w. (numbers_of w ≡ pos 1 ∷ c1 ∷ c2 ∷ c3 ∷ []) × IsTrue (is_valid w)) }
    ensures none { IfNone result ((w : StateWitness) → IsTrue (is_valid w) → numbers_of w ≡ pos 1 ∷ c1 ∷ c2 ∷ c3 ∷ [] → ⊥) }
{
    Some(StateWitness::State3 {
        c1: small(c1)?,
        c2: small(c2)?,
        c3: small(c3)?,
    })
}

/// The valid witness with these numbers.
fn read(list: &[i64]) -> Option<StateWitness>
    ensures some { IfSome result (λ w. (numbers_of w ≡ list.now) × IsTrue (is_valid w)) }
    ensures none { IfNone result ((w : StateWitness) → IsTrue (is_valid w) → numbers_of w ≡ list.now → ⊥) }
{
    match list {
        [STATE, c1, c2] => state(*c1, *c2),
        [STATE3, c1, c2, c3] => state3(*c1, *c2, *c3),
        _ => None,
    }
}
