//! What is told of a sequence, however long it is.
use crate::probe::{Probe, Told, WORDS};
use place_sets::{BITS, MovedPlaces};
use region::Region;
use sched_base::{Itv, NoMemory};
use std::alloc::Global;

/// The members of a sequence as they were read last: a set of them is one word where it isn't long.
#[derive(Drop)]
pub enum AnyProbe {
    Short(Probe<1>),
    Long(Probe<WORDS>),
}

impl AnyProbe {
    /// Room for as many members.
    pub fn new(alloc: Global, members: usize) -> Result<AnyProbe, NoMemory> {
        if members <= BITS {
            return Ok(AnyProbe::Short(Probe::new(alloc, members)?));
        }
        Ok(AnyProbe::Long(Probe::new(alloc, members)?))
    }

    /// What the sequence with these members is now. It is the list at a place of those whose members'
    /// moves are told.
    pub fn tell(
        &mut self,
        region: &Region,
        members: &[Itv],
        k: usize,
        moves: &mut MovedPlaces,
    ) -> Told {
        match self {
            AnyProbe::Short(short) => short.tell(region, members, moves.take(k)),
            AnyProbe::Long(long) => long.tell(region, members, moves.take(k)),
        }
    }
}
