//! The search for a closed walk of positive weight.
ghost use Rattle.std.specs.Prelude.{length, IfOk, IfSome, IfNone};
ghost use Rattle.cycles.specs.code.Walks.{IsGain, HasHeights};
ghost use Rattle.cycles.specs.code.Search.{AreOn};

use crate::search::Search;
use refute_basic::Arc;
use sched_base::{List, NoMemory};
use std::alloc::Global;

/// Searches a list of arcs for a closed walk of positive weight. What it needs of memory it keeps from
/// one search to the next.
///
/// This is the algorithm of Bellman and Ford with heights in place of distances, an arc asking its
/// tail to stand at least its weight above its head. Negative cycles are found as Cherkassky and
/// Goldberg (1999, "Negative-cycle detection algorithms") do by walking to the root: here once after
/// each round, from the point whose height changed last. Walks are kept and never changed, so the way
/// to the root ends.
#[derive(Drop)]
pub struct GainSearch {
    search: Search,
    seen: Vec<usize>,
}

impl GainSearch {
    /// A search that has no memory yet.
    pub fn new(alloc: Global) -> GainSearch {
        GainSearch {
            search: Search::new(alloc),
            seen: Vec::new(alloc),
        }
    }

    /// A closed walk of positive weight, as the places of its arcs, with at most as many arcs as there
    /// are points; none exactly where there is none. The search begins with these heights of the
    /// points, one for each: where they show that there is none, each arc is read once. Else it takes
    /// at most as many rounds as there are points, which go through the arcs forwards and backwards in
    /// turn, so that an order of the arcs with or against the walks is met in a few.
    pub fn find(
        &mut self,
        alloc: Global,
        arcs: &[Arc],
        first: &[i64],
    ) -> Result<Option<List<usize>>, NoMemory>
        requires { AreOn (length first.now) arcs.now }
        ensures some { IfOk result (λ o. IfSome o (λ walk. IsGain arcs.now (length first.now) walk)) }
        ensures none { IfOk result (λ o. IfNone o (HasHeights arcs.now)) }
    {
        let n = first.len();
        self.search.begin(first)?;
        for r in 0..n {
            let Some(k) = self.search.round(n, arcs, r % 2 == 1)? else {
                return Ok(None);
            };
            if let Some((from, to)) = self.search.repeated(&mut self.seen, n, arcs, k)? {
                return Ok(Some(self.search.arcs_between(alloc, n, arcs, from, to)?));
            }
        }
        Ok(None)
    }

    /// The height that the last search gave a point, cut to 64 bits. Where that search found no walk,
    /// these heights serve as the first ones of the next search.
    pub fn height(&self, v: usize) -> i64 {
        self.search.cut_height(v)
    }
}
