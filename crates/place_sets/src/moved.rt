//! Which members of lists have moved, however long the lists are.
use crate::place_set::{BITS, PlaceSet};
use findings::Moves;
use sched_base::{Itv, List, NoMemory};
use std::alloc::Global;

/// For each of several lists of intervals, which members may have other cells than when they were taken
/// last. Nothing hangs on it.
#[derive(Debug, Drop)]
pub struct MovedPlaces {
    /// The lists in pieces, each with room in a word.
    moves: Moves,
    /// Where the pieces of each list begin, and behind the last one where they end.
    begins: Vec<usize>,
}

/// Puts the pieces of a list behind others.
fn put_pieces(alloc: Global, pieces: &mut Vec<List<Itv>>, members: &[Itv]) -> Result<(), NoMemory> {
    for piece in members.chunks(BITS) {
        let mut list = Vec::new(alloc);
        list.extend_from_slice(piece)?;
        pieces.push(List::from_vec(list))?;
    }
    Ok(())
}

impl MovedPlaces {
    /// Of these lists.
    pub fn new(alloc: Global, lists: &[List<Itv>]) -> Result<MovedPlaces, NoMemory> {
        let mut pieces = Vec::new(alloc);
        let mut begins = Vec::new(alloc);
        for list in lists {
            begins.push(pieces.len())?;
            put_pieces(alloc, &mut pieces, list.as_slice())?;
        }
        begins.push(pieces.len())?;
        Ok(MovedPlaces {
            moves: Moves::new(alloc, &pieces)?,
            begins,
        })
    }

    /// Notes that a cell of an interval isn't as it was.
    pub fn note(&mut self, x: Itv) {
        self.moves.note(x);
    }

    /// All may have moved.
    pub fn forget(&mut self) {
        self.moves.forget();
    }

    /// The places of one list whose members may have moved since they were taken last. Of a list that has
    /// more places than the set has room for all are told.
    pub fn take<const W: usize>(&mut self, k: usize) -> PlaceSet<W> {
        let (Some(begin), Some(end)) = (self.begins.get(k), self.begins.get(k.saturating_add(1)))
        else {
            return PlaceSet::all();
        };
        let (begin, end) = (*begin, *end);
        let mut set = PlaceSet::none();
        for w in 0..end.saturating_sub(begin).min(W) {
            set.words[w] = self.moves.take(begin + w);
        }
        set
    }
}
