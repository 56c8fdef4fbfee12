//! The propagators of a model.
ghost use Rattle.std.specs.Prelude.{◌≡◌, ◌<◌, true, length, Some, slice_get, nat_eq, IsTrue, IfOk, IfNone, IfSome};
ghost use Rattle.std.specs.List.{list_any};
ghost use Rattle.sched_base.specs.declared.ids.Itv.{Itv as Itvs};
ghost use Rattle.sched_base.specs.declared.ids.Seq.{Seq as Seqs};
ghost use Rattle.sched_model.specs.Data.{Data, has};
ghost use Rattle.region.specs.declared.types.CellName.{CellName as CellNames};
ghost use Rattle.region.specs.declared.types.CellName.TheVariants as cell;
ghost use Rattle.region.specs.Looks.{IsRegionOf};
ghost use Rattle.findings.specs.Found.{IsFinding};
ghost use Rattle.refute_hier.specs.Hier.{refutes};
ghost use Rattle.prop_hier.specs.code.Tables.{IsFor, watch_of};
ghost use Rattle.prop_hier.specs.code.Tasks.{size_of, quiet, watching, watching_best, is_bound, is_cell_of};

use crate::asking::{Placed, ask_constraint};
use crate::watch::{Watch, watch_each};
use findings::Finding;
use refute_hier::HierWitness;
use region::{CellName, Region};
use sched_base::{Itv, NoMemory, Seq};
use sched_model::Model;
use std::alloc::Global;

/// One propagator for each constraint, which is quiet where the constraint is no span, alternative or
/// synchronization, and no relation of the members of a sequence.
#[derive(Debug, Drop)]
pub struct PropHier {
    /// What each watches.
    watches: Vec<Watch>,
    /// At which of its intervals each found something last: it begins there. Nothing hangs on it.
    places: Vec<usize>,
}

impl std::marker::Model for PropHier {
    ghost use Rattle.std.specs.Prelude.{◌<◌, ◌^◌, length};
    ghost use Rattle.prop_hier.specs.code.Tables.{Table};

    ghost Value = { Table };

    ghost view = { λ p. p.watches.items };

    ghost invariant = { λ p. length p.watches.items < 2 ^ 32 };
}

impl PropHier {
    /// The propagators of a model. Only this call asks for memory, as much as the model's constraints
    /// have parts, or their sequences members.
    pub fn new(alloc: Global, model: &Model) -> Result<PropHier, NoMemory>
        ensures { IfOk result (λ p. IsFor p model.now) }
    {
        let watches = watch_each(alloc, model, model.constraints())?;
        let places = vec![in alloc; 0; watches.len()]?;
        Ok(PropHier { watches, places })
    }

    /// How many there are.
    pub fn count(&self) -> u32
        ensures { (m : Data) → IsFor self.now m → result ≡ size_of m }
    {
        self.watches.len() as u32
    }

    /// What one of them finds; nothing exactly where it is quiet.
    #[inline(never)]
    pub fn next(
        &mut self,
        k: u32,
        model: &Model,
        region: &Region,
        best: Option<i64>,
    ) -> Option<Finding<HierWitness>>
        requires of { IsFor self.old model.now }
        requires below { k < size_of model.now }
        requires region { IsRegionOf model.now region.now.region }
        ensures kept { (m : Data) → IsFor self.old m → IsFor self.new m }
        ensures none { IfNone result (quiet model.now k region.now.region best) }
        ensures some { IfSome result (IsFinding refutes model.now region.now.region best) }
        ensures busy { IfSome result (λ f. quiet model.now k region.now.region best → ⊥) }
    {
        let from = self.places.get(k as usize).copied().unwrap_or(0);
        let intervals = self.watch(k).intervals.as_slice();
        let Placed { found, place } = ask_constraint(model, region, best, k, intervals, from)?;
        if let Some(last) = self.places.get_mut(k as usize) {
            *last = place;
        }
        Some(found)
    }

    /// What it watches.
    fn watch(&self, k: u32) -> &Watch
        requires { (m : Data) × IsFor self.now m × (k < size_of m) }
        ensures { (m : Data) → IsFor self.now m → result.now ≡ watch_of m (slice_get m.constraints k) }
    {
        &self.watches[k as usize]
    }

    /// The intervals whose presence it watches.
    pub fn watched_presences(&self, k: u32) -> &[Itv]
        requires { (m : Data) × IsFor self.now m × (k < size_of m) }
        ensures { (m : Data) → IsFor self.now m → (x : Itvs) → watching m k (cell.Presence x) ≡ has result.now x }
    {
        self.watch(k).intervals.as_slice()
    }

    /// The intervals that have a bound which it watches.
    pub fn watched_bounds(&self, k: u32) -> &[Itv]
        requires { (m : Data) × IsFor self.now m × (k < size_of m) }
        ensures { (m : Data) → IsFor self.now m → (c : CellNames) → is_bound c ≡ true → watching m k c ≡ is_cell_of result.now c }
    {
        let watch = self.watch(k);
        if !watch.sequences.as_slice().is_empty() {
            return &[];
        }
        watch.intervals.as_slice()
    }

    /// The sequences that have an order which it watches.
    pub fn watched_orders(&self, k: u32) -> &[Seq]
        requires { (m : Data) × IsFor self.now m × (k < size_of m) }
        ensures { (m : Data) → IsFor self.now m → (p : Seqs) (x y : Itvs) → watching m k (cell.Order p x y) ≡ list_any (λ q. nat_eq p.0 q.0) result.now }
    {
        self.watch(k).sequences.as_slice()
    }

    /// Whether it watches a cell.
    pub fn watches(&self, k: u32, cell: CellName) -> bool
        requires { (m : Data) × IsFor self.now m × (k < size_of m) }
        ensures { (m : Data) → IsFor self.now m → result ≡ watching m k cell }
    {
        self.watch(k).watches(cell)
    }

    /// Whether it watches the best value.
    pub fn watches_best(&self, k: u32) -> bool
        ensures { (m : Data) → result ≡ watching_best m k }
    {
        let _ = k;
        false
    }

    /// The level on which it is woken.
    pub fn level(&self, k: u32) -> u8 {
        let _ = k;
        0
    }
}
