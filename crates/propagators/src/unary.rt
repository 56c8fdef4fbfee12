use crate::cells::interval_of;
use engine::Propagator;
use findings::Finding;
use kernel::{NoWitness, Witness};
use prop_unary::PropUnary;
use region::{CellName, Region};
use sched_base::{Itv, NoMemory, Seq};
use sched_model::Model;
use std::alloc::Global;

/// The propagators of sequences without overlap and of the orders of sequences, with their witnesses
/// as a log has them.
#[derive(Debug, Drop)]
pub struct FromUnary(pub PropUnary);

impl FromUnary {
    ghost use Rattle.std.specs.Prelude.{IfOk};
    ghost use Rattle.prop_unary.specs.code.Tables.{IsFor};

    /// Those of a model.
    pub(crate) fn new(alloc: Global, model: &Model) -> Result<FromUnary, NoMemory>
        ensures { IfOk result (λ p. IsFor p.0 model.now) }
    {
        Ok(FromUnary(PropUnary::new(alloc, model)?))
    }
}

impl Propagator for FromUnary {
    ghost use Rattle.prop_unary.specs.code.Tables.{IsFor};
    ghost use Rattle.prop_unary.specs.code.Tasks.{size_of, quiet, watching, watching_best};
    ghost use Rattle.prop_unary.specs.laws.Unwatched.{unwatched};

    ghost is_of = { λ p m. IsFor p.0 m };

    ghost size = { size_of };

    ghost quiet = { quiet };

    ghost watching = { watching };

    ghost watching_best = { watching_best };

    fn count(&self) -> u32 {
        self.0.count()
    }

    fn next(
        &mut self,
        k: u32,
        model: &Model,
        region: &Region,
        best: Option<i64>,
    ) -> Result<Option<Finding<Witness<NoWitness>>>, NoMemory> {
        let Some(Finding { guess, witness }) = self.0.next(k, model, region, best) else {
            return Ok(None);
        };
        Ok(Some(Finding {
            guess,
            witness: Witness::Seq(witness),
        }))
    }

    fn can_wait(&mut self, k: u32, model: &Model, region: &Region) -> bool {
        self.0.can_wait(k, model, region)
    }

    fn note_change(&mut self, cell: CellName) {
        if let CellName::Order(_, x, y) = cell {
            self.0.note_turn(x, y);
        }
        if let Some(x) = interval_of(cell) {
            self.0.note_move(x);
        }
    }

    fn forget_changes(&mut self) {
        self.0.forget_moves();
    }

    #[tactic(auto, using(crate::proofs::Watching::presence_each))]
    fn watched_presences(&self, k: u32) -> &[Itv] {
        self.0.watched_presences(k)
    }

    #[tactic(auto, using(crate::proofs::Watching::bound_each))]
    fn watched_bounds(&self, k: u32) -> &[Itv] {
        self.0.watched_bounds(k)
    }

    #[tactic(auto, using(crate::proofs::Watching::order_each))]
    fn watched_orders(&self, k: u32) -> &[Seq] {
        self.0.watched_orders(k)
    }

    fn watches_best(&self, k: u32) -> bool {
        self.0.watches_best(k)
    }

    fn level(&self, k: u32) -> u8 {
        self.0.level(k)
    }

    fn is_last(&self, _: u32) -> bool {
        false
    }

    ghost unwatched = { unwatched };
}
