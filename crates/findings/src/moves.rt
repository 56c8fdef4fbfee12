//! Which members of lists aren't as they were.
use sched_base::{Itv, List, NoMemory};
use std::alloc::Global;

/// Where an interval stands: at a place of one of several lists.
#[derive(Clone, Copy, Debug)]
struct Home {
    interval: u32,
    list: u32,
    place: u32,
}

/// For each of several lists of intervals, which of the first 64 members may have other cells than when
/// they were taken last. Nothing hangs on it.
#[derive(Debug, Drop)]
pub struct Moves {
    /// Where the intervals stand, those of one interval next to one another, and for each interval where
    /// its own begin.
    homes: Vec<Home>,
    begins: Vec<u32>,
    /// What moved of each list since it was taken last, and when that was.
    moved: Vec<u64>,
    taken: Vec<u64>,
    /// How often all was forgotten.
    age: u64,
}

/// The most members of a list of which something is noted.
const MANY: usize = 64;

fn add_homes(homes: &mut Vec<Home>, list: usize, members: &[Itv]) -> Result<(), NoMemory> {
    for k in 0..members.len().min(MANY) {
        homes.push(Home {
            interval: members[k].0,
            list: u32::try_from(list).unwrap_or(u32::MAX),
            place: u32::try_from(k).unwrap_or(0),
        })?;
    }
    Ok(())
}

/// Where the homes of each interval begin, and behind the last one where they end.
fn begins_of(alloc: Global, homes: &[Home]) -> Result<Vec<u32>, NoMemory> {
    let mut begins = Vec::new(alloc);
    for k in 0..homes.len() {
        for _ in begins.len()..homes[k].interval as usize + 1 {
            begins.push(u32::try_from(k).unwrap_or(u32::MAX))?;
        }
    }
    begins.push(u32::try_from(homes.len()).unwrap_or(u32::MAX))?;
    Ok(begins)
}

impl Moves {
    /// Of these lists.
    pub fn new(alloc: Global, lists: &[List<Itv>]) -> Result<Moves, NoMemory> {
        let mut homes = Vec::new(alloc);
        for k in 0..lists.len() {
            add_homes(&mut homes, k, lists[k].as_slice())?;
        }
        homes.sort_unstable_by_key(|home: &Home| home.interval);
        let begins = begins_of(alloc, &homes)?;
        Ok(Moves {
            homes,
            begins,
            moved: vec![in alloc; 0; lists.len()]?,
            taken: vec![in alloc; 0; lists.len()]?,
            age: 1,
        })
    }

    /// Notes that a cell of an interval isn't as it was.
    pub fn note(&mut self, x: Itv) {
        let at = x.0 as usize;
        let (Some(begin), Some(end)) = (self.begins.get(at), self.begins.get(at + 1)) else {
            return;
        };
        for k in *begin as usize..*end as usize {
            let Some(home) = self.homes.get(k) else {
                return;
            };
            if let Some(moved) = self.moved.get_mut(home.list as usize) {
                *moved |= 1 << (home.place % 64);
            }
        }
    }

    /// All may have moved.
    pub fn forget(&mut self) {
        self.age = self.age.wrapping_add(1);
    }

    /// The places of one list whose members may have moved since they were taken last.
    pub fn take(&mut self, k: usize) -> u64 {
        if k >= self.moved.len() || k >= self.taken.len() {
            return u64::MAX;
        }
        let moved = std::mem::replace(&mut self.moved[k], 0);
        let taken = std::mem::replace(&mut self.taken[k], self.age);
        if taken == self.age { moved } else { u64::MAX }
    }
}
