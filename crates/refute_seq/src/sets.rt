//! Sets of present members of a sequence, as tasks of one machine.
ghost use Rattle.std.specs.Prelude.{◌≡◌, pos, neg_ℤ, ◌+ℤ◌, ◌-ℤ◌, ◌≤ℤ◌, ◌^◌, ◌∷◌, map, fold, int_lt, nat_eq, nat_lt, slice_get, true};
ghost use Rattle.std.specs.List.{list_all};
ghost use Rattle.std.specs.Int.{int_min, int_max};
ghost use Rattle.sched_model.specs.Words.{is_empty, passes};
ghost use Rattle.region.specs.Looks.{IsRegionOf};
ghost use Rattle.task_sets.specs.Times.{adjacent, greatest, has, is_outside, is_set, is_task_set, set_est, set_lct, set_p, turned};
ghost use Rattle.refute_seq.specs.Sets.{times_of, is_task};

use crate::tasks::{est, is_task, lct, lst, size};
use region::Look;
use sched_base::Seq;
use sched_model::Model;

/// Whether each number is above the one before.
pub fn rises(set: &[u32]) -> bool
    ensures { result ≡ adjacent nat_lt set.now }
{
    if set.is_empty() {
        return true;
    }
    for n in 0..set.len() - 1 {
        if set[n] >= set[n + 1] {
            return false;
        }
    }
    true
}

fn is_at(part: &[u32], k: usize, n: u32) -> bool
    ensures { result ≡ passes (λ p. nat_eq p n) (slice_get part.now k) }
{
    match part.get(k) {
        None => false,
        Some(p) => *p == n,
    }
}

/// Whether each of a rising list is in another that rises: a walk along both.
#[tactic(auto, using(crate::proofs::Walking::take_step, crate::proofs::Walking::skip_step))]
fn is_part(set: &[u32], part: &[u32]) -> bool
    requires whole { adjacent nat_lt set.now ≡ true }
    requires part { adjacent nat_lt part.now ≡ true }
    ensures { result ≡ list_all (has set.now) part.now }
{
    let mut found = 0;
    for n in set {
        if !is_at(part, found, *n) {
            continue;
        }
        found += 1;
    }
    found == part.len()
}

/// Whether a list rises and each of it is in a set.
pub fn is_set_of(set: &[u32], part: &[u32]) -> bool
    requires { adjacent nat_lt set.now ≡ true }
    ensures { result ≡ is_set (has set.now) part.now }
{
    rises(part) && is_part(set, part)
}

fn are_tasks(model: &Model, look: &Look<'_>, p: Seq, set: &[u32]) -> bool
    requires { IsRegionOf model.now look.now.region }
    ensures { result ≡ list_all (is_task model.now look.now.region p) set.now }
{
    set.iter().all(|n| is_task(model, look, p, *n))
}

/// Whether there are none.
#[tactic(auto, using(crate::proofs::Walking::empty_is))]
pub fn is_empty(set: &[u32]) -> bool
    ensures { result ≡ is_empty set.now }
{
    set.len() == 0
}

/// Whether a list of present members rises and isn't empty.
pub fn is_task_set(model: &Model, look: &Look<'_>, p: Seq, set: &[u32]) -> bool
    requires { IsRegionOf model.now look.now.region }
    ensures { result ≡ is_task_set (is_task model.now look.now.region p) set.now }
{
    rises(set) && are_tasks(model, look, p, set) && !is_empty(set)
}

/// Whether an interval is a present member that isn't in a set.
pub fn is_outside(model: &Model, look: &Look<'_>, p: Seq, i: u32, set: &[u32]) -> bool
    requires { IsRegionOf model.now look.now.region }
    ensures { result ≡ is_outside (is_task model.now look.now.region p) i set.now }
{
    is_task(model, look, p, i) && !set.contains(&i)
}

/// The least of a moment and the earliest start of a task.
fn earlier(look: &Look<'_>, side: u32, moment: i64, n: u32) -> i64
    ensures { result ≡ int_min moment (turned side (times_of look.now.region) n).est }
{
    moment.min(est(look, side, n))
}

/// The least of a moment and the earliest starts of some.
fn est_from(look: &Look<'_>, side: u32, moment: i64, set: &[u32]) -> i64
    ensures { result ≡ fold int_min moment (map (λ i. i.est) (map (turned side (times_of look.now.region)) set.now)) }
{
    let mut least = moment;
    for n in set {
        least = earlier(look, side, least, *n);
    }
    least
}

/// The greatest of a moment and the latest completion of a task.
fn later(look: &Look<'_>, side: u32, moment: i64, n: u32) -> i64
    ensures { result ≡ int_max moment (turned side (times_of look.now.region) n).lct }
{
    moment.max(lct(look, side, n))
}

/// The greatest of a moment and the latest completions of some.
fn lct_from(look: &Look<'_>, side: u32, moment: i64, set: &[u32]) -> i64
    ensures { result ≡ fold int_max moment (map (λ i. i.lct) (map (turned side (times_of look.now.region)) set.now)) }
{
    let mut greatest = moment;
    for n in set {
        greatest = later(look, side, greatest, *n);
    }
    greatest
}

/// The greatest of a moment and the latest start of a task.
fn later_start(look: &Look<'_>, side: u32, moment: i64, n: u32) -> i64
    ensures { result ≡ int_max moment (turned side (times_of look.now.region) n).lst }
{
    moment.max(lst(look, side, n))
}

/// The greatest of a moment and the latest starts of some.
fn lst_from(look: &Look<'_>, side: u32, moment: i64, set: &[u32]) -> i64
    ensures { result ≡ fold int_max moment (map (λ i. i.lst) (map (turned side (times_of look.now.region)) set.now)) }
{
    let mut greatest = moment;
    for n in set {
        greatest = later_start(look, side, greatest, *n);
    }
    greatest
}

/// The earliest start of a set.
pub fn set_est(look: &Look<'_>, side: u32, set: &[u32]) -> i64
    ensures { result ≡ set_est (map (turned side (times_of look.now.region)) set.now) }
{
    let Some((first, rest)) = set.split_first() else {
        return 0;
    };
    est_from(look, side, est(look, side, *first), rest)
}

/// The latest completion of a set.
pub fn set_lct(look: &Look<'_>, side: u32, set: &[u32]) -> i64
    ensures { result ≡ set_lct (map (turned side (times_of look.now.region)) set.now) }
{
    let Some((first, rest)) = set.split_first() else {
        return 0;
    };
    lct_from(look, side, lct(look, side, *first), rest)
}

/// The greatest latest start in a set.
pub fn set_lst(look: &Look<'_>, side: u32, set: &[u32]) -> i64
    ensures { result ≡ greatest (map (λ i. i.lst) (map (turned side (times_of look.now.region)) set.now)) }
{
    let Some((first, rest)) = set.split_first() else {
        return 0;
    };
    lst_from(look, side, lst(look, side, *first), rest)
}

/// A sum with the size of one task more.
fn longer(look: &Look<'_>, side: u32, sum: i128, n: u32) -> i128
    requires low { neg_ℤ (pos (2 ^ 97)) ≤ℤ sum }
    requires high { sum ≤ℤ pos (2 ^ 97) }
    ensures value { result ≡ sum +ℤ (turned side (times_of look.now.region) n).p }
    ensures low { (sum -ℤ pos (2 ^ 31)) ≤ℤ result }
    ensures high { result ≤ℤ (sum +ℤ pos (2 ^ 31)) }
{
    sum + i128::from(size(look, side, n))
}

/// The sum of the sizes of a set. It fits, whatever the set.
fn set_size(look: &Look<'_>, side: u32, set: &[u32]) -> i128
    ensures value { result ≡ set_p (map (turned side (times_of look.now.region)) set.now) }
    ensures low { neg_ℤ (pos (2 ^ 96)) ≤ℤ result }
    ensures high { result ≤ℤ pos (2 ^ 96) }
{
    let mut sum: i128 = 0;
    for n in set {
        sum = longer(look, side, sum, *n);
    }
    sum
}

/// Whether a sum of sizes behind a moment is later than another moment.
fn is_late(start: i64, sum: i128, end: i64) -> bool
    requires low { neg_ℤ (pos (2 ^ 98)) ≤ℤ sum }
    requires high { sum ≤ℤ pos (2 ^ 98) }
    ensures { result ≡ int_lt end (start +ℤ sum) }
{
    i128::from(end) < i128::from(start) + sum
}

/// Whether the sizes of a set, from its earliest start on, reach beyond a moment.
pub fn is_beyond(look: &Look<'_>, side: u32, set: &[u32], moment: i64) -> bool
    ensures { result ≡ int_lt moment (set_est (map (turned side (times_of look.now.region)) set.now) +ℤ set_p (map (turned side (times_of look.now.region)) set.now)) }
{
    is_late(set_est(look, side, set), set_size(look, side, set), moment)
}

/// The sum of the sizes of a task and a set.
fn size_with(look: &Look<'_>, side: u32, i: u32, set: &[u32]) -> i128
    ensures value { result ≡ set_p (map (turned side (times_of look.now.region)) (i ∷ set.now)) }
    ensures low { neg_ℤ (pos (2 ^ 98)) ≤ℤ result }
    ensures high { result ≤ℤ pos (2 ^ 98) }
{
    longer(look, side, set_size(look, side, set), i)
}

/// Whether the sizes of a task and a set, from their earliest start on, reach beyond a moment.
pub fn is_beyond_with(look: &Look<'_>, side: u32, i: u32, set: &[u32], moment: i64) -> bool
    ensures { result ≡ int_lt moment (set_est (map (turned side (times_of look.now.region)) (i ∷ set.now)) +ℤ set_p (map (turned side (times_of look.now.region)) (i ∷ set.now))) }
{
    let start = est_from(look, side, est(look, side, i), set);
    is_late(start, size_with(look, side, i, set), moment)
}
