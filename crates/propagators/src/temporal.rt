use engine::Propagator;
use findings::Finding;
use kernel::{NoWitness, Witness};
use prop_temporal::PropTemporal;
use region::{CellName, Region};
use sched_base::{Itv, NoMemory, Seq};
use sched_model::Model;
use std::alloc::Global;

/// The propagators of precedences, with their witnesses as a log has them.
#[derive(Drop)]
pub struct FromTemporal(pub PropTemporal);

impl FromTemporal {
    ghost use Rattle.std.specs.Prelude.{IfOk};
    ghost use Rattle.prop_temporal.specs.code.Tables.{IsFor};

    /// Those of a model.
    pub(crate) fn new(alloc: Global, model: &Model) -> Result<FromTemporal, NoMemory>
        ensures { IfOk result (λ p. IsFor p.0 model.now) }
    {
        Ok(FromTemporal(PropTemporal::new(alloc, model)?))
    }
}

impl Propagator for FromTemporal {
    ghost use Rattle.prop_temporal.specs.code.Tables.{IsFor};
    ghost use Rattle.prop_temporal.specs.code.Tasks.{size_of, quiet, watching, watching_best};
    ghost use Rattle.prop_temporal.specs.laws.Unwatched.{unwatched};

    ghost is_of = { λ p m. IsFor p.0 m };

    ghost size = { size_of };

    ghost quiet = { quiet };

    ghost watching = { watching };

    ghost watching_best = { watching_best };

    fn count(&self) -> u32 {
        self.0.count()
    }

    fn next(
        &mut self,
        k: u32,
        model: &Model,
        region: &Region,
        best: Option<i64>,
    ) -> Result<Option<Finding<Witness<NoWitness>>>, NoMemory> {
        let Some(Finding { guess, witness }) = self.0.next(k, model, region, best)? else {
            return Ok(None);
        };
        Ok(Some(Finding {
            guess,
            witness: Witness::Basic(witness),
        }))
    }

    fn can_wait(&mut self, k: u32, model: &Model, region: &Region) -> bool {
        self.0.can_wait(k, model, region)
    }

    fn note_change(&mut self, cell: CellName) {
        self.0.note_change(cell);
    }

    fn forget_changes(&mut self) {
        self.0.forget_changes();
    }

    #[tactic(auto, using(crate::proofs::Watching::presence_equal))]
    fn watched_presences(&self, k: u32) -> &[Itv] {
        self.0.watched_presences(k)
    }

    #[tactic(auto, using(crate::proofs::Watching::bound_equal))]
    fn watched_bounds(&self, k: u32) -> &[Itv] {
        self.0.watched_bounds(k)
    }

    #[tactic(auto, using(crate::proofs::Watching::order_equal))]
    fn watched_orders(&self, k: u32) -> &[Seq] {
        self.0.watched_orders(k)
    }

    fn watches_best(&self, k: u32) -> bool {
        self.0.watches_best(k)
    }

    fn level(&self, k: u32) -> u8 {
        self.0.level(k)
    }

    fn is_last(&self, k: u32) -> bool {
        self.0.is_last(k)
    }

    ghost unwatched = { unwatched };
}
