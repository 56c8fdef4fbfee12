ghost use Rattle.std.specs.Prelude.{◌≡◌, ◌+◌, ◌<◌, ◌≤◌, ◌^◌, IfSome, IfNone};
ghost use Rattle.sched_model.specs.Data.{Data};

use crate::propagator::Propagator;
use findings::Finding;
use kernel::{NoWitness, Witness};
use region::{CellName, Region};
use sched_base::{Itv, NoMemory, Seq};
use sched_model::Model;

/// The propagators of one kind and then those of another, numbered through.
#[derive(Drop)]
pub struct Both<A, B> {
    first: A,
    second: B,
    /// How many the first are.
    split: u32,
}

impl<A: Propagator, B: Propagator> Both<A, B> {
    /// Both; none exactly where there are too many for numbers of 32 bits.
    pub fn new(first: A, second: B) -> Option<Both<A, B>>
        ensures some { (m : Data) → A.is_of first m → B.is_of second m → IfSome result (λ p. A.is_of p.first m × B.is_of p.second m × (A.size m + B.size m < 2 ^ 32) × (p.split ≡ A.size m)) }
        ensures none { (m : Data) → A.is_of first m → B.is_of second m → IfNone result (2 ^ 32 ≤ A.size m + B.size m) }
    {
        let split = first.count();
        let _ = split.checked_add(second.count())?;
        Some(Both {
            first,
            second,
            split,
        })
    }
}

impl<A: Propagator, B: Propagator> Propagator for Both<A, B> {
    ghost use Rattle.std.specs.Prelude.{◌≡◌, ◌+◌, ◌-◌, ◌<◌, ◌^◌, if◌then◌else◌, nat_lt};
    ghost use Rattle.engine.specs.code.Pairs.{chosen, unwatched_pair};

    ghost is_of = { λ p m. A.is_of p.first m × B.is_of p.second m × (A.size m + B.size m < 2 ^ 32) × (p.split ≡ A.size m) };

    ghost size = { λ m. A.size m + B.size m };

    ghost quiet = { λ m k r best. chosen (nat_lt k (A.size m)) (A.quiet m k r best) (B.quiet m (k - A.size m) r best) };

    ghost watching = { λ m k c. if nat_lt k (A.size m) then A.watching m k c else B.watching m (k - A.size m) c };

    ghost watching_best = { λ m k. if nat_lt k (A.size m) then A.watching_best m k else B.watching_best m (k - A.size m) };

    fn count(&self) -> u32 {
        self.split.saturating_add(self.second.count())
    }

    fn next(
        &mut self,
        k: u32,
        model: &Model,
        region: &Region,
        best: Option<i64>,
    ) -> Result<Option<Finding<Witness<NoWitness>>>, NoMemory> {
        let n = self.split;
        if k < n {
            return self.first.next(k, model, region, best);
        }
        self.second.next(k - n, model, region, best)
    }

    fn can_wait(&mut self, k: u32, model: &Model, region: &Region) -> bool {
        let n = self.split;
        if k < n {
            return self.first.can_wait(k, model, region);
        }
        self.second.can_wait(k - n, model, region)
    }

    fn note_change(&mut self, cell: CellName) {
        self.first.note_change(cell);
        self.second.note_change(cell);
    }

    fn forget_changes(&mut self) {
        self.first.forget_changes();
        self.second.forget_changes();
    }

    fn watched_presences(&self, k: u32) -> &[Itv] {
        let n = self.split;
        if k < n {
            return self.first.watched_presences(k);
        }
        self.second.watched_presences(k - n)
    }

    fn watched_bounds(&self, k: u32) -> &[Itv] {
        let n = self.split;
        if k < n {
            return self.first.watched_bounds(k);
        }
        self.second.watched_bounds(k - n)
    }

    fn watched_orders(&self, k: u32) -> &[Seq] {
        let n = self.split;
        if k < n {
            return self.first.watched_orders(k);
        }
        self.second.watched_orders(k - n)
    }

    fn watches_best(&self, k: u32) -> bool {
        let n = self.split;
        if k < n {
            return self.first.watches_best(k);
        }
        self.second.watches_best(k - n)
    }

    fn level(&self, k: u32) -> u8 {
        let n = self.split;
        if k < n {
            return self.first.level(k);
        }
        self.second.level(k - n)
    }

    fn is_last(&self, k: u32) -> bool {
        let n = self.split;
        if k < n {
            return self.first.is_last(k);
        }
        self.second.is_last(k - n)
    }

    ghost unwatched = { λ m k r q b c of also cells best. unwatched_pair (nat_lt k (A.size m)) (A.watching m k) (B.watching m (k - A.size m)) (A.watching_best m k) (B.watching_best m (k - A.size m)) _ _ _ _ _ _ (A.unwatched m k r q b c of also) (B.unwatched m (k - A.size m) r q b c of also) cells best };
}
