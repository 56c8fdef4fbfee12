//! The load of a function over time, and the search for a moment at which it is too high.
ghost use Rattle.std.specs.Prelude.{◌≡◌, ◌*◌, ◌≤◌, ◌≤ℤ◌, ◌+ℤ◌, ◌-ℤ◌, ◌^◌, ℤ, neg_ℤ, pos, length, vec_capacity, slice_get, int_le, IfOk, IfSome, IfNone};
ghost use Rattle.std.specs.Ordering.{int_eq};
ghost use Rattle.sched_model.specs.Words.{passes};
ghost use Rattle.refute_cumul.specs.code.Profiles.{IsRising, IsProfileOf, AreReaches, IsPlaceOf, IsAbove, IsNeverAbove, IsFirstAbove, StaysBelow, level_before, level_in};
ghost use Rattle.sched_model.specs.Changes.{IsInOrder, rise, sum_until};

use crate::changes::gather_sorted;
use crate::levels::signed;
use crate::reach::{Reach, reach_all};
use region::Look;
use sched_base::NoMemory;
use sched_model::{Change, Part};
use std::alloc::Global;

/// The level from the moment `t` on.
#[derive(Clone, Copy, Debug, PartialEq, Eq)]
pub struct Level {
    pub t: i64,
    pub level: i128,
}

/// The load of some parts over time: a place for each moment at which it changes. Its lists are filled
/// again and again, and never grow.
#[derive(Debug, Drop)]
pub struct Profile {
    changes: Vec<Change>,
    levels: Vec<Level>,
    reaches: Vec<Reach>,
    room: u32,
}

impl std::marker::Model for Profile {
    ghost use Rattle.std.specs.Prelude.{◌≤◌, ◌*◌, vec_capacity};
    ghost use Rattle.refute_cumul.specs.code.Profiles.{Profile as Profiled, IsRising, AreReaches};

    ghost Value = { Profiled };

    ghost view = { λ p. record { levels = p.levels.items; room = p.room } };

    ghost invariant = { λ p. IsRising p.levels.items × AreReaches p.levels.items p.reaches.items
        × (2 * p.room ≤ vec_capacity p.changes) × (2 * p.room ≤ vec_capacity p.levels) × (2 * p.room ≤ vec_capacity p.reaches) };
}

/// Whether the change at a place is one of the same moment.
fn is_like(changes: &[Change], i: usize, c: Change) -> bool
    ensures { result ≡ passes (λ x. int_eq x.t c.t) (slice_get changes.now i) }
{
    match changes.get(i) {
        None => false,
        Some(x) => x.t == c.t,
    }
}

/// What a level is behind a change.
fn risen(level: i128, c: Change) -> i128
    requires low { neg_ℤ (pos (2 ^ 126)) ≤ℤ level }
    requires high { level ≤ℤ pos (2 ^ 126) }
    ensures value { result ≡ level +ℤ rise c }
    ensures low { (level -ℤ pos (2 ^ 63)) ≤ℤ result }
    ensures high { result ≤ℤ (level +ℤ pos (2 ^ 63)) }
{
    level + signed(c.minus, c.h)
}

/// The levels behind the last change of each moment.
fn sweep(changes: &[Change], levels: &mut Vec<Level>)
    requires order { IsInOrder changes.now }
    requires room { length changes.now ≤ vec_capacity levels.old }
    ensures rising { IsRising levels.new.items }
    ensures value { (t : ℤ) → level_in levels.new.items t ≡ sum_until t changes.now }
    ensures few { length levels.new.items ≤ length changes.now }
    ensures room { vec_capacity levels.new ≡ vec_capacity levels.old }
{
    levels.clear();
    let mut level: i128 = 0;
    for i in 0..changes.len() {
        let c = changes[i];
        level = risen(level, c);
        if is_like(changes, i + 1, c) {
            continue;
        }
        levels.push_reserved(Level { t: c.t, level });
    }
}

/// The level in front of a place.
fn level_before(levels: &[Level], k: usize) -> i128
    requires { k ≤ length levels.now }
    ensures { result ≡ level_before levels.now k }
{
    if k == 0 {
        return 0;
    }
    levels[k - 1].level
}

fn is_until(p: Level, t: i64) -> bool
    ensures { result ≡ int_le p.t t }
{
    p.t <= t
}

/// How many places there are until a moment.
fn places_until(levels: &[Level], t: i64) -> usize
    requires { IsRising levels.now }
    ensures { IsPlaceOf levels.now t result }
{
    levels.partition_point(|p| is_until(*p, t))
}

/// The first place from one on whose level is above the limit, before the moment `to`.
fn place_above(levels: &[Level], reaches: &[Reach], k: usize, to: i64, limit: i128) -> Option<usize>
    requires rising { IsRising levels.now }
    requires each { AreReaches levels.now reaches.now }
    requires within { k ≤ length levels.now }
    ensures some { IfSome result (IsAbove levels.now k to limit) }
    ensures none { IfNone result (IsNeverAbove levels.now k to limit) }
{
    let mut i = k;
    while i < levels.len() {
        if levels[i].t >= to {
            return None;
        }
        let reach = reaches[i];
        if limit < levels[i].level {
            return Some(i);
        }
        i = if reach.top <= limit {
            reach.next
        } else {
            i + 1
        };
    }
    None
}

fn first_above(levels: &[Level], reaches: &[Reach], from: i64, to: i64, limit: i128) -> Option<i64>
    requires rising { IsRising levels.now }
    requires each { AreReaches levels.now reaches.now }
    ensures some { IfSome result (IsFirstAbove levels.now from to limit) }
    ensures none { IfNone result (StaysBelow levels.now from to limit) }
{
    if from >= to {
        return None;
    }
    let k = places_until(levels, from);
    if limit < level_before(levels, k) {
        return Some(from);
    }
    let i = place_above(levels, reaches, k, to, limit)?;
    Some(levels[i].t)
}

impl Profile {
    /// A profile of nothing with room for so many parts. Only this call asks for memory.
    pub fn new(alloc: Global, room: u32) -> Result<Profile, NoMemory>
        ensures { IfOk result (λ p. p.room ≡ room) }
    {
        let size = 2 * room as usize;
        Ok(Profile {
            changes: Vec::with_capacity(alloc, size)?,
            levels: Vec::with_capacity(alloc, size)?,
            reaches: Vec::with_capacity(alloc, size)?,
            room,
        })
    }

    /// Makes it that of some parts, seen from above or from below: in a time that grows with them and
    /// with the logarithm of their number.
    pub fn fill(&mut self, look: &Look<'_>, below: bool, parts: &[Part])
        requires room { length parts.now ≤ self.old.room }
        ensures filled { IsProfileOf look.now.region below parts.now self.new }
        ensures room { self.new.room ≡ self.old.room }
    {
        gather_sorted(&mut self.changes, look, below, parts);
        sweep(self.changes.as_slice(), &mut self.levels);
        reach_all(self.levels.as_slice(), &mut self.reaches);
    }

    /// The first moment from one until before another at which the level is above a limit; none
    /// exactly where there is none. It steps over runs of places that lie below the limit.
    pub fn first_above(&self, from: i64, to: i64, limit: i128) -> Option<i64>
        ensures some { IfSome result (IsFirstAbove self.now.levels from to limit) }
        ensures none { IfNone result (StaysBelow self.now.levels from to limit) }
    {
        first_above(
            self.levels.as_slice(),
            self.reaches.as_slice(),
            from,
            to,
            limit,
        )
    }

    /// Where the run of moments from one on ends, before another at the latest, at which the level is
    /// above a limit: a hint, of which nothing is promised.
    pub fn run_end(&self, from: i64, to: i64, limit: i128) -> i64 {
        let levels = self.levels.as_slice();
        let k = places_until(levels, from);
        for level in &levels[k..] {
            if level.t >= to {
                return to;
            }
            if level.level <= limit {
                return level.t;
            }
        }
        to
    }

    /// How many parts there is room for.
    pub fn room(&self) -> u32
        ensures { result ≡ self.now.room }
    {
        self.room
    }
}
