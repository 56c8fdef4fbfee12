//! Of which precedences a point may have moved from which they move the other.
use crate::ways::Way;
use sched_base::NoMemory;
use std::alloc::Global;

/// For each precedence, whether it may move a point since it was seen to move none. Nothing hangs on it.
#[derive(Debug, Drop)]
pub struct Moves {
    /// When each was seen to move none; 0 where it may move one.
    settled: Vec<u64>,
    /// How often all was forgotten.
    age: u64,
}

impl Moves {
    /// Of so many, each of which may.
    pub fn new(alloc: Global, n: usize) -> Result<Moves, NoMemory> {
        Ok(Moves {
            settled: vec![in alloc; 0; n]?,
            age: 1,
        })
    }

    pub fn is_due(&self, c: u32) -> bool {
        match self.settled.get(c as usize) {
            None => true,
            Some(at) => *at != self.age,
        }
    }

    /// It moves no point now.
    pub fn settle(&mut self, c: u32) {
        if let Some(at) = self.settled.get_mut(c as usize) {
            *at = self.age;
        }
    }

    /// These may move one again.
    pub fn note(&mut self, ways: &[Way]) {
        for way in ways {
            if let Some(at) = self.settled.get_mut(way.c as usize) {
                *at = 0;
            }
        }
    }

    /// All may.
    pub fn forget(&mut self) {
        self.age = self.age.wrapping_add(1);
    }
}
