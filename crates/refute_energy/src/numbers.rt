//! Sets of places in the spelling of a witness.
ghost use Rattle.std.specs.Prelude.{◌≡◌, nat_lt, ℕ, ◌<◌, ℤ, pos, ◌∷◌, Some, List as Lists, length, map, slice_get, IsTrue, IfOk, IfSome, IfNone};
ghost use Rattle.std.specs.List.{list_all};
ghost use Rattle.sched_model.specs.Words.{adjacent};
ghost use Rattle.sched_model.specs.Bounds.{is_number};
ghost use Rattle.refute_seq.specs.Witness.{set_numbers, is_number_set};

use sched_base::{List, NoMemory};
use std::alloc::Global;

/// Whether a log may hold the number: it may hold each.
pub fn is_number(n: u32) -> bool
    ensures { result ≡ is_number n }
{
    u64::from(n) < 1 << 32
}

/// Whether a log may hold so many numbers.
pub fn is_count(count: usize) -> bool
    ensures { result ≡ is_number count }
{
    count < 1 << 32
}

/// The number as one of 32 bits, where it is one.
pub fn small(number: i64) -> Option<u32>
    ensures some { IfSome result (λ n. number ≡ pos n) }
    ensures none { IfNone result ((n : ℕ) → IsTrue (is_number n) → number ≡ pos n → ⊥) }
{
    u32::try_from(number).ok()
}

/// Whether each number is above the one before.
#[tactic(auto, using(crate::proofs::Reading::rises_more, crate::proofs::Reading::rises_not, crate::proofs::Reading::rises_all))]
pub fn rises_from(first: u32, rest: &[u32]) -> bool
    ensures { result ≡ adjacent nat_lt (first ∷ rest.now) }
{
    let mut last = first;
    for n in rest {
        if *n <= last {
            return false;
        }
        last = *n;
    }
    true
}

fn rises(set: &[u32]) -> bool
    ensures { result ≡ adjacent nat_lt set.now }
{
    match set {
        [] => true,
        [first, rest @ ..] => rises_from(*first, rest),
    }
}

fn are_numbers(set: &[u32]) -> bool
    ensures { result ≡ list_all is_number set.now }
{
    set.iter().all(|n| is_number(*n))
}

/// Whether a log may hold the set: its members rise.
pub fn is_number_set(set: &[u32]) -> bool
    ensures { result ≡ is_number_set set.now }
{
    rises(set) && are_numbers(set)
}

/// One of the numbers of a set: its size, and behind it the members.
pub fn set_number(set: &[u32], n: usize) -> i64
    requires { n < length (set_numbers set.now) }
    ensures { slice_get (set_numbers set.now) n ≡ Some result }
{
    if n == 0 {
        return set.len() as i64;
    }
    i64::from(set[n - 1])
}

/// The set with these members. They take room as they are read.
#[tactic(auto, using(crate::proofs::Reading::one_read, crate::proofs::Reading::all_read, crate::proofs::Reading::not_read))]
pub fn read_members(alloc: Global, members: &[i64]) -> Result<Option<List<u32>>, NoMemory>
    ensures some { IfOk result (λ o. IfSome o (λ s. map (λ n. pos n) s ≡ members.now)) }
    ensures none { IfOk result (λ o. IfNone o ((s : Lists ℕ) → IsTrue (list_all is_number s) → map (λ n. pos n) s ≡ members.now → ⊥)) }
{
    let mut set = List::new(alloc);
    for member in members {
        let Some(n) = small(*member) else {
            return Ok(None);
        };
        set.push(n)?;
    }
    Ok(Some(set))
}
