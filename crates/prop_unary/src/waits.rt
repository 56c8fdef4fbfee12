//! What is told of a sequence, however long it is.
use crate::distances::Distances;
use crate::waiting::{Told, Waiting};
use place_sets::{BITS, MovedPlaces};
use region::Region;
use sched_base::{Itv, NoMemory, Seq};
use sched_model::Model;
use std::alloc::Global;

/// How many words hold the places of the longest sequence.
const WORDS: usize = 8;

/// What was read of a sequence: a set of its members is one word where it isn't long.
#[derive(Debug, Drop)]
pub enum Waits {
    Short(Waiting<1>),
    Long(Waiting<WORDS>),
}

impl Waits {
    /// Room for as many members, which keep these distances.
    pub fn new(alloc: Global, members: usize, distances: Distances) -> Result<Waits, NoMemory> {
        if members <= BITS {
            return Ok(Waits::Short(Waiting::new(alloc, members, distances)?));
        }
        Ok(Waits::Long(Waiting::new(alloc, members, distances)?))
    }

    /// Whether all that PAIR finds now of a sequence without overlap, whose members these are, can wait.
    /// `k` is the place of its list among those of which it is told who has moved, or has another order.
    pub fn can_wait(
        &mut self,
        model: &Model,
        region: &Region,
        p: Seq,
        members: &[Itv],
        k: usize,
        moves: &mut MovedPlaces,
        turns: &mut MovedPlaces,
    ) -> bool {
        match self {
            Waits::Short(short) => {
                short.can_wait(model, region, p, members, moves.take(k), turns.take(k))
            },
            Waits::Long(long) => {
                long.can_wait(model, region, p, members, moves.take(k), turns.take(k))
            },
        }
    }

    /// Two of whom something is found, where it was told so when it was asked last: the first of those
    /// from a place on, and then up to it, that is told to stand before some, or else whose order is open
    /// with some whom it is too late for.
    pub fn told(&self, from: usize) -> Option<Told> {
        match self {
            Waits::Short(short) => short.told(from),
            Waits::Long(long) => long.told(from),
        }
    }
}
