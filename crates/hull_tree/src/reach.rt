//! From where to where an interval stands among the nodes.
ghost use Rattle.std.specs.Prelude.{◌≡◌, ◌≤◌, ◌<◌, ◌^◌, length, true, nat_le};
ghost use Rattle.std.specs.List.{prefix_len};
ghost use Rattle.std.specs.List.Sorted.{IsNonDecreasingBy};
ghost use Rattle.hull_tree.specs.code.Atoms.{HasReach, IsClear, key_of};

use crate::atoms::{Atom, count_below, key_at, key_of, reaches};
use crate::nodes::Span;
use sched_base::Itv;

/// An interval, and the first and the last place of its atoms. Where it has none, the first is a place
/// that no node has, behind all spans.
#[derive(Clone, Copy, Debug, PartialEq, Eq)]
pub struct Reach {
    pub interval: Itv,
    pub first: u32,
    pub last: u32,
}

/// How many atoms come before the first with a key above this one. Of an interval's atoms mostly one
/// does, so they are counted one by one.
fn count_up_to(atoms: &[Atom], key: u64) -> usize
    ensures bound { result ≤ length atoms.now }
    ensures counted { result ≡ prefix_len (λ a. nat_le (key_of a) key) atoms.now }
{
    atoms.iter().take_while(|a| key_of(**a) <= key).count()
}

/// The reach from one atom of an interval to another.
fn between(x: Itv, first: Atom, last: Atom) -> Reach
    ensures reach { result ≡ record { interval = x; first = first.place; last = last.place } }
    ensures fits { result.first < 2 ^ 32 }
{
    Reach {
        interval: x,
        first: first.place,
        last: last.place,
    }
}

/// The reach of an interval, by one search among all atoms.
pub fn reach_of(atoms: &[Atom], x: Itv) -> Reach
    requires { IsNonDecreasingBy key_of atoms.now }
    ensures interval { result.interval ≡ x }
    ensures reach { HasReach atoms.now result }
{
    let i = count_below(atoms, key_at(x, 0));
    let rest = &atoms[i..];
    let n = count_up_to(rest, key_at(x, u32::MAX));
    if n == 0 {
        return Reach {
            interval: x,
            first: u32::MAX,
            last: 0,
        };
    }
    between(x, rest[0], rest[n - 1])
}

/// The reach of another interval, which may be the same one.
pub fn other_reach(atoms: &[Atom], reach: Reach, y: Itv) -> Reach
    requires rising { IsNonDecreasingBy key_of atoms.now }
    requires reach { HasReach atoms.now reach }
    ensures interval { result.interval ≡ y }
    ensures reach { HasReach atoms.now result }
{
    if reach.interval.0 == y.0 {
        return reach;
    }
    reach_of(atoms, y)
}

/// Whether the interval of a reach has no atom in a span. A span that has its first or its last place
/// has an atom, and only one between the two is searched.
pub fn is_clear_of(atoms: &[Atom], reach: Reach, span: Span) -> bool
    requires rising { IsNonDecreasingBy key_of atoms.now }
    requires reach { HasReach atoms.now reach }
    ensures { result ≡ true → IsClear atoms.now reach.interval span }
{
    if span.last < reach.first {
        return true;
    }
    if reach.last < span.first {
        return true;
    }
    if span.first <= reach.first || reach.last <= span.last {
        return false;
    }
    !reaches(atoms, reach.interval, span)
}
