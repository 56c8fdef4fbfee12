use crate::cells::interval_of;
use engine::Propagator;
use findings::Finding;
use kernel::{NoWitness, Witness};
use prop_sets::PropSets;
use region::{CellName, Region};
use sched_base::{Itv, NoMemory, Seq};
use sched_model::Model;
use std::alloc::Global;

/// The propagators of sets of members of sequences without overlap, with their witnesses as a log has
/// them: of the first round.
#[derive(Drop)]
pub struct FromSets(pub PropSets);

impl FromSets {
    ghost use Rattle.std.specs.Prelude.{◌≡◌, false, IfOk};
    ghost use Rattle.prop_sets.specs.code.Tables.{IsFor};

    /// Those of a model.
    pub(crate) fn new(alloc: Global, model: &Model) -> Result<FromSets, NoMemory>
        ensures { IfOk result (λ p. IsFor p.0 model.now × (p.0.later ≡ false)) }
    {
        Ok(FromSets(PropSets::new(alloc, model, false)?))
    }
}

impl Propagator for FromSets {
    ghost use Rattle.std.specs.Prelude.{◌≡◌, false};
    ghost use Rattle.prop_sets.specs.code.Tables.{IsFor};
    ghost use Rattle.prop_sets.specs.code.Tasks.{size_of, quiet, watching, watching_best};
    ghost use Rattle.prop_sets.specs.laws.Unwatched.{unwatched};

    ghost is_of = { λ p m. IsFor p.0 m × (p.0.later ≡ false) };

    ghost size = { size_of };

    ghost quiet = { quiet false };

    ghost watching = { watching };

    ghost watching_best = { watching_best };

    fn count(&self) -> u32 {
        self.0.count()
    }

    fn next(
        &mut self,
        k: u32,
        model: &Model,
        region: &Region,
        best: Option<i64>,
    ) -> Result<Option<Finding<Witness<NoWitness>>>, NoMemory> {
        let Some(Finding { guess, witness }) = self.0.next(k, model, region, best)? else {
            return Ok(None);
        };
        Ok(Some(Finding {
            guess,
            witness: Witness::Seq(witness),
        }))
    }

    fn can_wait(&mut self, k: u32, _: &Model, region: &Region) -> bool {
        self.0.can_wait(k, region)
    }

    fn note_change(&mut self, cell: CellName) {
        if let Some(x) = interval_of(cell) {
            self.0.note_move(x);
        }
    }

    fn forget_changes(&mut self) {
        self.0.forget_moves();
    }

    #[tactic(auto, using(crate::proofs::Watching::sets_presences))]
    fn watched_presences(&self, k: u32) -> &[Itv] {
        self.0.watched_presences(k)
    }

    #[tactic(auto, using(crate::proofs::Watching::sets_bounds))]
    fn watched_bounds(&self, k: u32) -> &[Itv] {
        self.0.watched_bounds(k)
    }

    #[tactic(auto, using(crate::proofs::Watching::sets_orders))]
    fn watched_orders(&self, k: u32) -> &[Seq] {
        let _ = k;
        &[]
    }

    fn watches_best(&self, k: u32) -> bool {
        self.0.watches_best(k)
    }

    fn level(&self, k: u32) -> u8 {
        self.0.level(k)
    }

    fn is_last(&self, _: u32) -> bool {
        false
    }

    ghost unwatched = { unwatched false };
}

/// Those of the later round.
#[derive(Drop)]
pub struct FromLaterSets(pub PropSets);

impl FromLaterSets {
    ghost use Rattle.std.specs.Prelude.{◌≡◌, true, IfOk};
    ghost use Rattle.prop_sets.specs.code.Tables.{IsFor};

    /// Those of a model.
    pub(crate) fn new(alloc: Global, model: &Model) -> Result<FromLaterSets, NoMemory>
        ensures { IfOk result (λ p. IsFor p.0 model.now × (p.0.later ≡ true)) }
    {
        Ok(FromLaterSets(PropSets::new(alloc, model, true)?))
    }
}

impl Propagator for FromLaterSets {
    ghost use Rattle.std.specs.Prelude.{◌≡◌, true};
    ghost use Rattle.prop_sets.specs.code.Tables.{IsFor};
    ghost use Rattle.prop_sets.specs.code.Tasks.{size_of, quiet, watching, watching_best};
    ghost use Rattle.prop_sets.specs.laws.Unwatched.{unwatched};

    ghost is_of = { λ p m. IsFor p.0 m × (p.0.later ≡ true) };

    ghost size = { size_of };

    ghost quiet = { quiet true };

    ghost watching = { watching };

    ghost watching_best = { watching_best };

    fn count(&self) -> u32 {
        self.0.count()
    }

    fn next(
        &mut self,
        k: u32,
        model: &Model,
        region: &Region,
        best: Option<i64>,
    ) -> Result<Option<Finding<Witness<NoWitness>>>, NoMemory> {
        let Some(Finding { guess, witness }) = self.0.next(k, model, region, best)? else {
            return Ok(None);
        };
        Ok(Some(Finding {
            guess,
            witness: Witness::Seq(witness),
        }))
    }

    fn can_wait(&mut self, _: u32, _: &Model, _: &Region) -> bool {
        false
    }

    fn note_change(&mut self, _: CellName) {}

    fn forget_changes(&mut self) {}

    #[tactic(auto, using(crate::proofs::Watching::sets_presences))]
    fn watched_presences(&self, k: u32) -> &[Itv] {
        self.0.watched_presences(k)
    }

    #[tactic(auto, using(crate::proofs::Watching::sets_bounds))]
    fn watched_bounds(&self, k: u32) -> &[Itv] {
        self.0.watched_bounds(k)
    }

    #[tactic(auto, using(crate::proofs::Watching::sets_orders))]
    fn watched_orders(&self, k: u32) -> &[Seq] {
        let _ = k;
        &[]
    }

    fn watches_best(&self, k: u32) -> bool {
        self.0.watches_best(k)
    }

    fn level(&self, k: u32) -> u8 {
        self.0.level(k)
    }

    fn is_last(&self, _: u32) -> bool {
        false
    }

    ghost unwatched = { unwatched true };
}
