//! The numbers of members, by which it is known again that nothing is found of them.
ghost use Rattle.std.specs.Prelude.{◌≡◌, ◌<◌, true, length, set, Some, OnOk};
ghost use Rattle.region.specs.Looks.{HasMoments};
ghost use Rattle.prop_sets.specs.code.Rows.{AreMoments};
ghost use Rattle.prop_sets.specs.code.Known.{numbers_of, AreNumbers};

use crate::numbers::{bounds_at, ect_in, lst_in, row_presence};
use region::{Bounds, Region};
use sched_base::{Itv, List, NoMemory};
use std::alloc::Global;
use theta_passes::Presence;

/// The numbers that all rows of a member are made of.
#[derive(Clone, Copy, Debug, PartialEq, Eq)]
pub struct Numbers {
    pub presence: Presence,
    pub est: i64,
    pub lct: i64,
    pub lst: i64,
    pub ect: i64,
    pub p: i64,
}

pub fn numbers_of(c: Bounds) -> Numbers
    requires { HasMoments c }
    ensures value { result ≡ numbers_of c }
    ensures moments { AreMoments result }
{
    Numbers {
        presence: row_presence(c.presence),
        est: c.smin,
        lct: c.emax,
        lst: lst_in(c),
        ect: ect_in(c),
        p: c.pmin,
    }
}

/// Puts those of each member in the place of others.
#[tactic(auto, using(crate::proofs::Remembering::no_numbers, crate::proofs::Remembering::more_numbers, crate::proofs::Remembering::all_numbers))]
pub fn numbers_in(region: &Region, members: &[Itv], list: &mut Vec<Numbers>) -> Result<(), NoMemory>
    ensures { OnOk result (AreNumbers region.now.region members.now (length members.now) list.new.items) }
{
    let look = region.look(None, None);
    list.clear();
    for k in 0..members.len() {
        list.push(numbers_of(bounds_at(&look, members[k])))?;
    }
    Ok(())
}

fn is_same_presence(a: Presence, b: Presence) -> bool
    ensures { result ≡ true → a ≡ b }
{
    match a {
        Presence::Absent => b == Presence::Absent,
        Presence::Maybe => b == Presence::Maybe,
        Presence::Present => b == Presence::Present,
    }
}

#[tactic(auto, using(crate::proofs::Remembering::same_numbers))]
fn is_same(a: Numbers, b: Numbers) -> bool
    ensures { result ≡ true → a ≡ b }
{
    if !is_same_presence(a.presence, b.presence) {
        return false;
    }
    a.est == b.est && a.lct == b.lct && a.lst == b.lst && a.ect == b.ect && a.p == b.p
}

#[tactic(auto, using(crate::proofs::Remembering::none_same, crate::proofs::Remembering::more_same, crate::proofs::Remembering::all_same))]
fn are_same(old: &[Numbers], now: &[Numbers]) -> bool
    ensures { result ≡ true → old.now ≡ now.now }
{
    if old.len() != now.len() {
        return false;
    }
    for k in 0..old.len() {
        if !is_same(old[k], now[k]) {
            return false;
        }
    }
    true
}

/// Whether these are the numbers that are remembered.
pub fn is_remembered(known: &Option<List<Numbers>>, now: &[Numbers]) -> bool
    ensures { result ≡ true → known.now ≡ Some now.now }
{
    match known {
        None => false,
        Some(old) => are_same(old.as_slice(), now),
    }
}

/// Remembers numbers at a place. The list that was remembered there is what the next numbers are put in.
pub fn remember(
    alloc: Global,
    known: &mut Vec<Option<List<Numbers>>>,
    i: usize,
    numbers: &mut Vec<Numbers>,
)
    requires { i < length known.old.items }
    ensures { known.new.items ≡ set known.old.items i (Some numbers.old.items) }
{
    let now = std::mem::replace(numbers, Vec::new(alloc));
    let old = std::mem::replace(&mut known[i], Some(List::from_vec(now)));
    if let Some(list) = old {
        *numbers = list.into_vec();
    }
}
