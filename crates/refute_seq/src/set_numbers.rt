//! The numbers of sets in the spelling of a witness.
ghost use Rattle.std.specs.Prelude.{◌≡◌, ℕ, ◌+◌, ◌<◌, ℤ, pos, ◌++◌, List, Some, true, drop, length, map, slice_get, IsTrue, IfOk, IfSome, IfNone};
ghost use Rattle.std.specs.List.{list_all};
ghost use Rattle.sched_model.specs.Bounds.{is_number};
ghost use Rattle.refute_seq.specs.Witness.{set_numbers, is_number_set};

use crate::few::Few;
use crate::sets::rises;
use sched_base::NoMemory;
use std::alloc::Global;

/// Whether a log may hold the number: it may hold each.
pub fn is_number(n: u32) -> bool
    ensures { result ≡ is_number n }
{
    u64::from(n) < 1 << 32
}

/// The number as one that isn't a moment, if it is small enough.
pub fn small(number: i64) -> Option<u32>
    ensures some { IfSome result (λ n. number ≡ pos n) }
    ensures none { IfNone result ((n : ℕ) → IsTrue (is_number n) → number ≡ pos n → ⊥) }
{
    u32::try_from(number).ok()
}

/// Whether a log may hold so many numbers.
pub fn is_count(count: usize) -> bool
    ensures { result ≡ is_number count }
{
    count < 1 << 32
}

fn are_numbers(set: &[u32]) -> bool
    ensures { result ≡ list_all is_number set.now }
{
    set.iter().all(|n| is_number(*n))
}

/// Whether a log may hold the set: its members rise.
pub fn is_number_set(set: &[u32]) -> bool
    ensures { result ≡ is_number_set set.now }
{
    rises(set) && are_numbers(set)
}

/// How many numbers a set has: its size and its members.
pub fn count_of(set: &[u32]) -> usize
    ensures { result ≡ length (set_numbers set.now) }
{
    1 + set.len()
}

/// One of the numbers of a set.
pub fn set_number(set: &[u32], n: usize) -> i64
    requires { n < length (set_numbers set.now) }
    ensures { slice_get (set_numbers set.now) n ≡ Some result }
{
    if n == 0 {
        return set.len() as i64;
    }
    i64::from(set[n - 1])
}

/// One of the numbers of two sets.
fn number_in_two(first: &[u32], second: &[u32], n: usize) -> i64
    requires { n < length (set_numbers first.now ++ set_numbers second.now) }
    ensures { slice_get (set_numbers first.now ++ set_numbers second.now) n ≡ Some result }
{
    let count = count_of(first);
    if n < count {
        return set_number(first, n);
    }
    set_number(second, n - count)
}

/// One of the numbers of three sets.
pub fn number_in_three(s: &[u32], u: &[u32], v: &[u32], n: usize) -> i64
    requires { n < length (set_numbers s.now ++ (set_numbers u.now ++ set_numbers v.now)) }
    ensures { slice_get (set_numbers s.now ++ (set_numbers u.now ++ set_numbers v.now)) n ≡ Some result }
{
    let count = count_of(s);
    if n < count {
        return set_number(s, n);
    }
    number_in_two(u, v, n - count)
}

/// The numbers, each small enough.
fn read_few(alloc: Global, members: &[i64]) -> Result<Option<Few>, NoMemory>
    ensures some { IfOk result (λ o. IfSome o (λ s. (map (λ n. pos n) s ≡ members.now) × IsTrue (list_all is_number s))) }
    ensures none { IfOk result (λ o. IfNone o ((s : List ℕ) → IsTrue (list_all is_number s) → map (λ n. pos n) s ≡ members.now → ⊥)) }
{
    let mut set = Few::new(alloc);
    for member in members {
        let Some(n) = small(*member) else {
            return Ok(None);
        };
        set.push(n)?;
    }
    Ok(Some(set))
}

/// The set with these members. They take room as they are read.
#[tactic(auto, using(crate::proofs::SetReading::not_rising, crate::proofs::SetReading::is_rising))]
fn read_members(alloc: Global, members: &[i64]) -> Result<Option<Few>, NoMemory>
    ensures some { IfOk result (λ o. IfSome o (λ s. (map (λ n. pos n) s ≡ members.now) × IsTrue (is_number_set s))) }
    ensures none { IfOk result (λ o. IfNone o ((s : List ℕ) → IsTrue (is_number_set s) → map (λ n. pos n) s ≡ members.now → ⊥)) }
{
    let Some(set) = read_few(alloc, members)? else {
        return Ok(None);
    };
    if !rises(set.as_slice()) {
        return Ok(None);
    }
    Ok(Some(set))
}

/// The set that the numbers begin with.
#[tactic(auto, using(crate::proofs::SetReading::nothing_in_front, crate::proofs::SetReading::front_count, crate::proofs::SetReading::front_fits, crate::proofs::SetReading::front_members, crate::proofs::SetReading::front_read))]
pub fn set_in_front(alloc: Global, numbers: &[i64]) -> Result<Option<Few>, NoMemory>
    ensures some { IfOk result (λ o. IfSome o (λ s. (set_numbers s ++ drop (1 + length s) numbers.now ≡ numbers.now) × IsTrue (is_number_set s))) }
    ensures none { IfOk result (λ o. IfNone o ((s : List ℕ) (rest : List ℤ) → IsTrue (is_number_set s) → set_numbers s ++ rest ≡ numbers.now → ⊥)) }
{
    let Some((count, members)) = numbers.split_first() else {
        return Ok(None);
    };
    let Ok(size) = usize::try_from(*count) else {
        return Ok(None);
    };
    if size > members.len() {
        return Ok(None);
    }
    read_members(alloc, &members[..size])
}

/// The numbers behind a set that they begin with.
pub fn behind<'a>(set: &[u32], numbers: &'a [i64]) -> &'a [i64]
    requires { length set.now < length numbers.now }
    ensures { result.now ≡ drop (1 + length set.now) numbers.now }
{
    &numbers[1 + set.len()..]
}

/// The one set that the numbers are.
#[tactic(auto, using(crate::proofs::SetReading::all_read, crate::proofs::SetReading::some_left))]
pub fn only_set(alloc: Global, numbers: &[i64]) -> Result<Option<Few>, NoMemory>
    ensures some { IfOk result (λ o. IfSome o (λ s. (set_numbers s ≡ numbers.now) × IsTrue (is_number_set s))) }
    ensures none { IfOk result (λ o. IfNone o ((s : List ℕ) → IsTrue (is_number_set s) → set_numbers s ≡ numbers.now → ⊥)) }
{
    let Some(set) = set_in_front(alloc, numbers)? else {
        return Ok(None);
    };
    if count_of(set.as_slice()) != numbers.len() {
        return Ok(None);
    }
    Ok(Some(set))
}
