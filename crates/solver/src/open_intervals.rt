ghost use Rattle.std.specs.Prelude.{◌≡◌, ◌≤◌, ◌<◌, ℕ, length, IsTrue, IfOk, OnOk, IfSome, IfNone};
ghost use Rattle.std.specs.List.{list_all, range_with_len};
ghost use Rattle.region.specs.Cells.{is_fixed, root};
ghost use Rattle.region.specs.Looks.{IsRegionOf};
ghost use Rattle.solver.specs.code.OpenIntervals.{IsOpenList, Sifts, Leaves};
ghost use Rattle.solver.specs.code.Searching.{CutsRegion};

use crate::branch::cut;
use region::{Guess, Look};
use sched_base::{Itv, NoMemory};
use sched_model::Model;
use std::alloc::Global;

/// The intervals of which something may be open, the first ones of a list that has each interval
/// once (a reversible sparse set: Le Clément et al. 2013). One that is found fixed is exchanged with
/// the last of the first ones and left out; it stays fixed in each part of the region, and going
/// back to the whole is to restore the count.
#[derive(Drop)]
pub struct OpenIntervals {
    list: Vec<u32>,
    count: usize,
}

impl std::marker::Model for OpenIntervals {
    ghost use Rattle.solver.specs.code.OpenIntervals.{OpenList};

    ghost Value = { OpenList };

    ghost view = { λ o. record { list = o.list.items; count = o.count } };
}

/// The numbers of all intervals of the model.
fn numbers(alloc: Global, model: &Model) -> Result<Vec<u32>, NoMemory>
    ensures { IfOk result (λ v. v.items ≡ range_with_len 0 (length model.now.intervals)) }
{
    let n = model.intervals().len();
    let mut list = Vec::with_capacity(alloc, n)?;
    for x in 0..n as u32 {
        list.push(x)?;
    }
    Ok(list)
}

impl OpenIntervals {
    /// All intervals of the model.
    #[tactic(auto, using(crate::proofs::cutting::Sifting::all_intervals))]
    pub fn new(alloc: Global, model: &Model) -> Result<OpenIntervals, NoMemory>
        ensures { IfOk result (IsOpenList (root model.now)) }
    {
        let list = numbers(alloc, model)?;
        Ok(OpenIntervals {
            count: list.len(),
            list,
        })
    }

    /// All intervals of the model again.
    #[tactic(auto, using(crate::proofs::cutting::Sifting::all_intervals))]
    pub fn reopen(&mut self, alloc: Global, model: &Model) -> Result<(), NoMemory>
        ensures { OnOk result (IsOpenList (root model.now) self.new) }
    {
        let list = numbers(alloc, model)?;
        let count = list.len();
        self.list = list;
        self.restore(count);
        Ok(())
    }

    /// The numbers of those that may be open.
    pub fn numbers(&self) -> &[u32] {
        if self.count <= self.list.len() {
            return &self.list[..self.count];
        }
        self.list.as_slice()
    }

    /// How many may be open.
    pub fn count(&self) -> usize
        ensures { result ≡ self.now.count }
    {
        self.count
    }

    /// As many as there were.
    pub fn restore(&mut self, count: usize)
        ensures { self.new ≡ record self.old { count = count } }
    {
        self.count = count;
    }

    /// Leaves out the one at a place.
    fn leave(&mut self, i: usize)
        requires place { i < self.old.count }
        requires within { self.old.count ≤ length self.old.list }
        ensures { Leaves i self.old self.new }
    {
        self.count -= 1;
        self.list.swap(i, self.count);
    }

    /// Leaves out those that are fixed. A guess that cuts one of the others, if there is one.
    pub fn sift(&mut self, model: &Model, look: &Look<'_>) -> Option<Guess>
        requires of { IsRegionOf model.now look.now.region }
        requires open { IsOpenList look.now.region self.old }
        ensures open { IsOpenList look.now.region self.new }
        ensures sifts { Sifts self.old self.new }
        ensures some { IfSome result (CutsRegion look.now.region) }
        ensures none { IfNone result (IsTrue (list_all is_fixed look.now.region.bounds)) }
    {
        // Called for its clause alone.
        let _ = model.intervals();
        let mut last: Option<Guess> = None;
        let mut i = 0;
        'places: while i < self.count {
            let x = Itv(self.list[i]);
            let Some(guess) = cut(x, look.bounds(x)) else {
                self.leave(i);
                continue;
            };
            last = Some(guess);
            i += 1;
        }
        last
    }
}
