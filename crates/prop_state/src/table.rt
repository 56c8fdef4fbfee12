//! The propagators of a model.
ghost use Rattle.std.specs.Prelude.{◌≡◌, ◌<◌, ◌≤◌, ◌^◌, length, true, IsTrue, IfOk, IfNone, IfSome};
ghost use Rattle.sched_base.specs.declared.ids.Itv.{Itv as Itvs};
ghost use Rattle.sched_model.specs.Data.{Data, has};
ghost use Rattle.region.specs.declared.types.CellName.{CellName as CellNames};
ghost use Rattle.region.specs.declared.types.CellName.TheVariants as cell;
ghost use Rattle.region.specs.Looks.{IsRegionOf};
ghost use Rattle.findings.specs.Found.{IsFinding};
ghost use Rattle.refute_state.specs.code.Gathered.{demands_of};
ghost use Rattle.refute_state.specs.OnState.{refutes};
ghost use Rattle.prop_state.specs.code.Tasks.{size_of, intervals_at, quiet, watching, watching_best, is_bound, is_bound_of};
ghost use Rattle.prop_state.specs.code.Tables.{AreDemands, AreIntervals, IsFor};
ghost use Rattle.prop_state.specs.code.Known.{IfKnown, AreUnknown};
ghost use Rattle.prop_state.specs.code.Walks.{AreAll, AreAsked};

use crate::demands::{NONE, Named, Noted, note_demands};
use crate::known::{note_fresh, remember};
use crate::pairs::ask_pairs;
use crate::triples::ask_triples;
use findings::{Finding, View};
use refute_state::{StateWitness, demand_at, demands_of};
use region::{Bounds, Region};
use sched_base::{Itv, List, NoMemory};
use sched_model::Model;
use std::alloc::Global;

/// One propagator for each state function.
#[derive(Drop)]
pub struct PropState {
    alloc: Global,
    /// The constraints that are each one's demands.
    demands: Vec<List<u32>>,
    /// Their intervals.
    intervals: Vec<List<Itv>>,
    /// Room for the demands of one, with the numbers of their intervals.
    notes: Vec<Named>,
    /// Room for those of them that are asked again.
    fresh: Vec<u32>,
    others: Vec<Named>,
    /// What was known of each one's intervals when nothing was found of them last: of demands whose
    /// intervals are known so still, nothing is found.
    known: Vec<Option<List<Bounds>>>,
}

impl std::marker::Model for PropState {
    ghost use Rattle.std.specs.Prelude.{◌<◌, ◌^◌, length};
    ghost use Rattle.prop_state.specs.code.Tables.{Table, HasRoom};

    ghost Value = { Table };

    ghost view = { λ p. record { demands = p.demands.items; intervals = p.intervals.items; known = p.known.items } };

    ghost invariant = { λ p. (length p.demands.items < 2 ^ 32) × HasRoom p.demands.items (length p.notes.items) };
}

#[tactic(auto, using(crate::proofs::Making::no_demands, crate::proofs::Making::more_demands, crate::proofs::Making::all_demands))]
fn demands_of_each(alloc: Global, model: &Model, n: u32) -> Result<Vec<List<u32>>, NoMemory>
    ensures { IfOk result (λ v. AreDemands model.now n v.items) }
{
    let mut lists = Vec::new(alloc);
    for k in 0..n {
        lists.push(List::from_vec(demands_of(alloc, model, k)?))?;
    }
    Ok(lists)
}

/// The intervals of the demands of some constraints.
#[tactic(auto, using(crate::proofs::Making::skip_interval, crate::proofs::Making::add_interval))]
fn intervals_at(alloc: Global, model: &Model, cs: &[u32]) -> Result<List<Itv>, NoMemory>
    ensures { IfOk result (λ xs. xs ≡ intervals_at model.now cs.now) }
{
    let mut found = Vec::new(alloc);
    for i in 0..cs.len() {
        let Some(d) = demand_at(model, cs[i]) else {
            continue;
        };
        found.push(d.x)?;
    }
    Ok(List::from_vec(found))
}

fn intervals_of(alloc: Global, model: &Model, k: u32) -> Result<List<Itv>, NoMemory>
    ensures { IfOk result (λ xs. xs ≡ intervals_at model.now (demands_of model.now k)) }
{
    let cs = demands_of(alloc, model, k)?;
    intervals_at(alloc, model, &cs)
}

#[tactic(auto, using(crate::proofs::Making::no_intervals, crate::proofs::Making::more_intervals, crate::proofs::Making::all_intervals))]
fn intervals_of_each(alloc: Global, model: &Model, n: u32) -> Result<Vec<List<Itv>>, NoMemory>
    ensures { IfOk result (λ v. AreIntervals model.now n v.items) }
{
    let mut lists = Vec::new(alloc);
    for k in 0..n {
        lists.push(intervals_of(alloc, model, k)?)?;
    }
    Ok(lists)
}

/// Nothing is remembered of so many.
#[tactic(auto, using(crate::proofs::Remembering::none_known, crate::proofs::Remembering::none_more))]
fn unknown(alloc: Global, n: usize) -> Result<Vec<Option<List<Bounds>>>, NoMemory>
    ensures { IfOk result (λ v. AreUnknown n v.items) }
{
    let mut known = Vec::new(alloc);
    for k in 0..n {
        let _ = k;
        known.push(None)?;
    }
    Ok(known)
}

/// What STATE and STATE3 find of some demands of a state function together with all of them.
fn ask_fresh<'a>(
    model: &Model,
    region: &Region,
    best: Option<i64>,
    k: u32,
    all: &Noted<'a>,
    fresh: &Noted<'a>,
) -> Option<Finding<StateWitness>>
    requires of { IsRegionOf model.now region.now.region }
    requires all { AreAll model.now region.now.region k all.now.cs.now all.now.notes.now }
    requires fresh { AreAll model.now region.now.region k fresh.now.cs.now fresh.now.notes.now }
    ensures none { IfNone result (AreAsked model.now region.now.region best k all.now.cs.now fresh.now.cs.now) }
    ensures some { IfSome result (IsFinding refutes model.now region.now.region best) }
    ensures busy { IfSome result (λ f. quiet model.now k region.now.region best → ⊥) }
{
    if let Some(found) = ask_pairs(model, region, best, k, fresh, all) {
        return Some(found);
    }
    if let Some(found) = ask_pairs(model, region, best, k, all, fresh) {
        return Some(found);
    }
    if let Some(found) = ask_triples(model, region, best, k, fresh, all, all) {
        return Some(found);
    }
    if let Some(found) = ask_triples(model, region, best, k, all, fresh, all) {
        return Some(found);
    }
    ask_triples(model, region, best, k, all, all, fresh)
}

/// What they find of the demands of a state function.
fn ask_demands(
    view: &View<'_>,
    k: u32,
    known: &Option<List<Bounds>>,
    cs: &[u32],
    notes: &mut [Named],
    fresh: &mut Vec<u32>,
    others: &mut Vec<Named>,
) -> Result<Option<Finding<StateWitness>>, NoMemory>
    requires of { IsRegionOf view.now.model.now view.now.region.now.region }
    requires known { IfKnown view.now.model.now k known.now }
    requires demands { cs.now ≡ demands_of view.now.model.now k }
    requires room { length cs.now ≤ length notes.old }
    ensures same { length notes.new ≡ length notes.old }
    ensures noted { IfOk result (λ o. AreAll view.now.model.now view.now.region.now.region k cs.now notes.new) }
    ensures none { IfOk result (λ o. IfNone o (quiet view.now.model.now k view.now.region.now.region view.now.best)) }
    ensures some { IfOk result (λ o. IfSome o (IsFinding refutes view.now.model.now view.now.region.now.region view.now.best)) }
    ensures busy { IfOk result (λ o. IfSome o (λ f. quiet view.now.model.now k view.now.region.now.region view.now.best → ⊥)) }
{
    note_demands(view.model, view.region, k, cs, notes);
    note_fresh(view.model, view.region, k, cs, notes, known, fresh, others)?;
    let all = Noted { cs, notes };
    let changed = Noted {
        cs: fresh,
        notes: others,
    };
    if changed.cs.is_empty() {
        return Ok(None);
    }
    Ok(ask_fresh(view.model, view.region, view.best, k, &all, &changed))
}

impl PropState {
    /// The propagators of a model.
    pub fn new(alloc: Global, model: &Model) -> Result<PropState, NoMemory>
        ensures { IfOk result (λ p. IsFor p model.now) }
    {
        let n = model.states().len() as u32;
        let demands = demands_of_each(alloc, model, n)?;
        let intervals = intervals_of_each(alloc, model, n)?;
        let notes = vec![in alloc; NONE; model.constraints().len()]?;
        let known = unknown(alloc, demands.len())?;
        Ok(PropState {
            alloc,
            demands,
            intervals,
            notes,
            fresh: Vec::new(alloc),
            others: Vec::new(alloc),
            known,
        })
    }

    /// How many there are.
    pub fn count(&self) -> u32
        ensures { (m : Data) → IsFor self.now m → result ≡ size_of m }
    {
        self.demands.len() as u32
    }

    /// What one of them finds; nothing exactly where it is quiet.
    #[inline(never)]
    pub fn next(
        &mut self,
        k: u32,
        model: &Model,
        region: &Region,
        best: Option<i64>,
    ) -> Result<Option<Finding<StateWitness>>, NoMemory>
        requires of { IsFor self.old model.now }
        requires below { k < size_of model.now }
        requires region { IsRegionOf model.now region.now.region }
        ensures kept { IsFor self.new model.now }
        ensures none { IfOk result (λ o. IfNone o (quiet model.now k region.now.region best)) }
        ensures some { IfOk result (λ o. IfSome o (IsFinding refutes model.now region.now.region best)) }
        ensures busy { IfOk result (λ o. IfSome o (λ f. quiet model.now k region.now.region best → ⊥)) }
    {
        let i = k as usize;
        let cs = self.demands[i].as_slice();
        let known = &self.known[i];
        let (notes, fresh, others) = (&mut self.notes, &mut self.fresh, &mut self.others);
        let view = View {
            model,
            region,
            best,
        };
        let Some(found) = ask_demands(&view, k, known, cs, notes, fresh, others)? else {
            let now = remember(self.alloc, region, &self.notes, cs.len())?;
            self.known[i] = Some(now);
            return Ok(None);
        };
        Ok(Some(found))
    }

    /// The intervals whose presence and bounds it watches.
    pub fn watched(&self, k: u32) -> &[Itv]
        requires { (m : Data) × IsFor self.now m × (k < size_of m) }
        ensures presences { (m : Data) → IsFor self.now m → (x : Itvs) → IsTrue (watching m k (cell.Presence x)) → IsTrue (has result.now x) }
        ensures bounds { (m : Data) → IsFor self.now m → (c : CellNames) → is_bound c ≡ true → IsTrue (watching m k c) → IsTrue (is_bound_of result.now c) }
    {
        self.intervals[k as usize].as_slice()
    }

    /// Whether it watches the best value.
    pub fn watches_best(&self, k: u32) -> bool
        ensures { (m : Data) → result ≡ watching_best m k }
    {
        let _ = k;
        false
    }

    /// The level on which it is woken: behind those that look at one interval or two at a time, since
    /// it looks at three demands too.
    pub fn level(&self, k: u32) -> u8 {
        let _ = k;
        1
    }
}
