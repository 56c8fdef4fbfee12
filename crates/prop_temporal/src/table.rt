//! The propagators of a model.
ghost use Rattle.std.specs.Prelude.{◌≡◌, ◌<◌, ◌^◌, ◌∷◌, [], ℕ, length, map, ◌||◌, true, false, Some, IfOk, IfNone, IfSome, OnOk};
ghost use Rattle.sched_base.specs.declared.ids.Itv.{Itv as Interval};
ghost use Rattle.sched_base.specs.declared.ids.Seq.{Seq as Ordered};
ghost use Rattle.sched_model.specs.Data.{Data, has};
ghost use Rattle.region.specs.declared.types.CellName.{CellName as CellNames};
ghost use Rattle.region.specs.declared.types.CellName.TheVariants as cell_of;
ghost use Rattle.region.specs.Looks.{IsRegionOf};
ghost use Rattle.findings.specs.Found.{IsFinding};
ghost use Rattle.refute_basic.specs.Basic.{refutes};
ghost use Rattle.refute_basic.specs.laws.Arc.{ends_of};
ghost use Rattle.refute_basic.specs.Standing.{is_no_overlap};
ghost use Rattle.prop_temporal.specs.code.Tasks.{size_of, quiet, watching, watching_best, is_cell_of, is_bound, is_of_walks, has_sequence};
ghost use Rattle.prop_temporal.specs.code.Heights.{AreTouched};
ghost use Rattle.prop_temporal.specs.code.Tables.{FitEach, AreOptional, AreDisjunctive, IsFor};

use crate::ends::ask_constraint;
use crate::guard::{Guard, Known};
use crate::moves::Moves;
use crate::sources::Sources;
use crate::touching::touching_of;
use crate::walks::Walks;
use crate::ways::{Side, Way, moves_nothing, way_of};
use findings::Finding;
use refute_basic::BasicWitness;
use region::{CellName, Region};
use sched_base::{Itv, List, NoMemory, Seq};
use sched_model::{Constraint, IntervalDef, Model};
use std::alloc::Global;

/// One propagator for all walks (number 0), and one for each constraint after it, which is quiet
/// where the constraint is no precedence.
#[derive(Drop)]
pub struct PropTemporal {
    optionals: Vec<Itv>,
    sequences: Vec<Seq>,
    ends: Vec<List<Itv>>,
    touching: Vec<List<u32>>,
    sources: Sources,
    walks: Walks,
    /// Whether walks are asked for soon. Nothing hangs on it.
    guard: Guard,
    /// Whether no interval may be put off for long.
    narrow: bool,
    /// Which precedences may move a point. Nothing hangs on it.
    moves: Moves,
}

impl std::marker::Model for PropTemporal {
    ghost use Rattle.std.specs.Prelude.{◌<◌, ◌^◌, length};
    ghost use Rattle.prop_temporal.specs.code.Tables.{Table};

    ghost Value = { Table };

    ghost view = { λ p. record { optionals = p.optionals.items; sequences = p.sequences.items; ends = p.ends.items; touching = p.touching.items } };

    ghost invariant = { λ p. length p.ends.items < 2 ^ 31 };
}

/// So many moments are few.
const NARROW: i64 = 10_000;

/// Whether each interval is within few moments, from its earliest start to its latest end.
fn are_narrow(intervals: &[IntervalDef]) -> bool {
    for interval in intervals {
        if interval.end_hi.saturating_sub(interval.start_lo) > NARROW {
            return false;
        }
    }
    true
}

/// The optional intervals.
#[tactic(auto, using(crate::proofs::Making::optional_none, crate::proofs::Making::optional_more, crate::proofs::Making::optional_same, crate::proofs::Making::optional_all))]
fn optional_intervals(alloc: Global, intervals: &[IntervalDef]) -> Result<Vec<Itv>, NoMemory>
    requires { length intervals.now < 2 ^ 32 }
    ensures { IfOk result (λ v. AreOptional intervals.now (length intervals.now) v.items) }
{
    let mut list = Vec::new(alloc);
    for x in 0..intervals.len() as u32 {
        if intervals[x as usize].optional {
            list.push(Itv(x))?;
        }
    }
    Ok(list)
}

fn has_sequence(sequences: &[Seq], p: Seq) -> bool
    ensures { result ≡ has_sequence sequences.now p }
{
    sequences.iter().any(|q| p.0 == q.0)
}

/// Adds the sequence that a constraint keeps from overlapping, if there is one that isn't listed yet.
fn note_sequence(list: &mut Vec<Seq>, constraint: &Constraint) -> Result<(), NoMemory>
    ensures { OnOk result ((p : Ordered) → has_sequence list.new.items p ≡ (has_sequence list.old.items p || is_no_overlap p constraint.now)) }
{
    if let Constraint::NoOverlap { p, .. } = constraint {
        if !has_sequence(list, *p) {
            list.push(*p)?;
        }
    }
    Ok(())
}

/// The sequences without overlap.
#[tactic(auto, using(crate::proofs::Making::disjunctive_none, crate::proofs::Making::disjunctive_more, crate::proofs::Making::disjunctive_all))]
fn disjunctive_sequences(alloc: Global, constraints: &[Constraint]) -> Result<Vec<Seq>, NoMemory>
    ensures { IfOk result (λ v. AreDisjunctive constraints.now v.items) }
{
    let mut list = Vec::new(alloc);
    for constraint in constraints {
        note_sequence(&mut list, constraint)?;
    }
    Ok(list)
}

/// The two intervals of a precedence.
fn ends_of(alloc: Global, constraint: &Constraint) -> Result<List<Itv>, NoMemory>
    ensures { IfOk result (λ xs. xs ≡ ends_of (Some constraint.now)) }
{
    let mut ends = List::new(alloc);
    if let Constraint::Temporal { a, b, .. } = constraint {
        ends.push(*a)?;
        ends.push(*b)?;
    }
    Ok(ends)
}

#[tactic(auto, using(crate::proofs::Making::fit_none, crate::proofs::Making::fit_more, crate::proofs::Making::fit_all))]
fn ends_of_all(alloc: Global, constraints: &[Constraint]) -> Result<Vec<List<Itv>>, NoMemory>
    ensures { IfOk result (λ v. FitEach constraints.now v.items) }
{
    let mut ends = Vec::new(alloc);
    for constraint in constraints {
        ends.push(ends_of(alloc, constraint)?)?;
    }
    Ok(ends)
}

/// Whether the cell is one of these intervals.
fn is_cell_of(intervals: &[Itv], cell: CellName) -> bool
    ensures { result ≡ is_cell_of intervals.now cell }
{
    match cell {
        CellName::Presence(x) => has(intervals, x),
        CellName::StartMin(x) => has(intervals, x),
        CellName::StartMax(x) => has(intervals, x),
        CellName::EndMin(x) => has(intervals, x),
        CellName::EndMax(x) => has(intervals, x),
        CellName::Order(..) => false,
    }
}

/// Whether walks hang on the cell, by the optional intervals and the sequences without overlap.
fn is_of_walks(cell: CellName, optionals: &[Itv], sequences: &[Seq]) -> bool
    ensures { (m : Data) → AreOptional m.intervals (length m.intervals) optionals.now → AreDisjunctive m.constraints sequences.now → result ≡ is_of_walks m cell }
{
    match cell {
        CellName::Presence(x) => has(optionals, x),
        CellName::Order(p, _, _) => has_sequence(sequences, p),
        _ => false,
    }
}

fn has(intervals: &[Itv], x: Itv) -> bool
    ensures { result ≡ has intervals.now x }
{
    intervals.iter().any(|y| x.0 == y.0)
}

/// Whether a precedence moves nothing, whichever way it is read.
fn move_nothing(region: &Region, way: Way, back: Option<Way>) -> bool {
    if !moves_nothing(region, way) {
        return false;
    }
    match back {
        None => true,
        Some(back) => moves_nothing(region, back),
    }
}

/// What CYCLE finds. Where no walk is found the heights that show it serve from then on to tell whether one may
/// have closed.
fn next_walk(
    walks: &mut Walks,
    guard: &mut Guard,
    model: &Model,
    region: &Region,
    best: Option<i64>,
    touching: &[List<u32>],
) -> Result<Option<Finding<BasicWitness>>, NoMemory>
    requires of { IsRegionOf model.now region.now.region }
    requires touching { AreTouched model.now touching.now }
    ensures none { IfOk result (λ o. IfNone o (quiet model.now 0 region.now.region best)) }
    ensures some { IfOk result (λ o. IfSome o (IsFinding refutes model.now region.now.region best)) }
    ensures busy { IfOk result (λ o. IfSome o (λ f. quiet model.now 0 region.now.region best → ⊥)) }
{
    let found = walks.next(model, region, best, touching)?;
    if let Some(heights) = walks.held_heights() {
        guard.settle(heights);
    }
    Ok(found)
}

impl PropTemporal {
    /// The propagators of a model.
    pub fn new(alloc: Global, model: &Model) -> Result<PropTemporal, NoMemory>
        ensures { IfOk result (λ p. IsFor p model.now) }
    {
        let optionals = optional_intervals(alloc, model.intervals())?;
        let sequences = disjunctive_sequences(alloc, model.constraints())?;
        let ends = ends_of_all(alloc, model.constraints())?;
        let touching = touching_of(alloc, model, &ends)?;
        let sources = Sources::new(alloc, model)?;
        Ok(PropTemporal {
            optionals,
            sequences,
            ends,
            touching,
            sources,
            walks: Walks::new(alloc),
            guard: Guard::new(alloc, model.intervals().len())?,
            narrow: are_narrow(model.intervals()),
            moves: Moves::new(alloc, model.constraints().len())?,
        })
    }

    /// How many there are.
    pub fn count(&self) -> u32
        ensures { (m : Data) → IsFor self.now m → result ≡ size_of m }
    {
        1 + self.ends.len() as u32
    }

    /// What one of them finds, or another one from which it follows; nothing exactly where it is quiet.
    pub fn next(
        &mut self,
        k: u32,
        model: &Model,
        region: &Region,
        best: Option<i64>,
    ) -> Result<Option<Finding<BasicWitness>>, NoMemory>
        requires of { IsFor self.old model.now }
        requires below { k < size_of model.now }
        requires region { IsRegionOf model.now region.now.region }
        ensures kept { (m : Data) → IsFor self.old m → IsFor self.new m }
        ensures none { IfOk result (λ o. IfNone o (quiet model.now k region.now.region best)) }
        ensures some { IfOk result (λ o. IfSome o (IsFinding refutes model.now region.now.region best)) }
        ensures busy { IfOk result (λ o. IfSome o (λ f. quiet model.now k region.now.region best → ⊥)) }
    {
        if k == 0 {
            let (walks, guard) = (&mut self.walks, &mut self.guard);
            return next_walk(walks, guard, model, region, best, &self.touching);
        }
        let c = k - 1;
        let ends = self.ends[c as usize].as_slice();
        let Some(found) = ask_constraint(model, region, best, c, ends) else {
            return Ok(None);
        };
        let first = self.sources.first_found(model, region, best, found)?;
        Ok(Some(first))
    }

    /// Whether what it finds now, if it finds anything, can wait until others are quiet: all that it
    /// finds follows from the least sizes alone. It looks at its intervals where a point may have moved
    /// from which it moves its own. Where others still move such a point it is asked all the same, since
    /// it then tells what the first of these find. Nothing hangs on it.
    pub fn can_wait(&mut self, k: u32, model: &Model, region: &Region) -> bool
        ensures kept { (m : Data) → IsFor self.old m → IsFor self.new m }
    {
        if k == 0 {
            return self.guard.is_calm(&Known {
                model,
                region,
                sources: &self.sources,
                touching: &self.touching,
            });
        }
        let c = k - 1;
        let Some(way) = way_of(model, c, 0) else {
            return false;
        };
        let back = way_of(model, c, 1);
        if self.moves.is_due(c) {
            if !move_nothing(region, way, back) {
                return false;
            }
            self.moves.settle(c);
        }
        !self.are_moving(region, way, back)
    }

    /// Whether others still move the points from which a precedence moves its own.
    fn are_moving(&self, region: &Region, way: Way, back: Option<Way>) -> bool {
        if self.sources.are_moving(region, &self.moves, way) {
            return true;
        }
        match back {
            None => false,
            Some(back) => self.sources.are_moving(region, &self.moves, back),
        }
    }

    /// Notes that a cell isn't as it was.
    pub fn note_change(&mut self, cell: CellName)
        ensures kept { (m : Data) → IsFor self.old m → IsFor self.new m }
    {
        match cell {
            CellName::StartMin(x) => self.moves.note(self.sources.movers(x, Side::Earlier)),
            CellName::EndMin(x) => self.moves.note(self.sources.movers(x, Side::Earlier)),
            CellName::StartMax(x) => self.moves.note(self.sources.movers(x, Side::Later)),
            CellName::EndMax(x) => self.moves.note(self.sources.movers(x, Side::Later)),
            CellName::Presence(x) => {
                self.moves.note(self.sources.movers(x, Side::Earlier));
                self.moves.note(self.sources.movers(x, Side::Later));
                self.guard.note_presence(x);
            }
            CellName::Order(p, x, y) => self.guard.note_order(p, x, y),
        }
    }

    /// Cells may have changed that nothing was told of.
    pub fn forget_changes(&mut self)
        ensures kept { (m : Data) → IsFor self.old m → IsFor self.new m }
    {
        self.moves.forget();
    }

    /// The intervals whose presence it watches.
    pub fn watched_presences(&self, k: u32) -> &[Itv]
        requires { (m : Data) × IsFor self.now m × (k < size_of m) }
        ensures { (m : Data) → IsFor self.now m → (x : Interval) → watching m k (cell_of.Presence x) ≡ is_cell_of result.now (cell_of.Presence x) }
    {
        if k == 0 {
            return &self.optionals;
        }
        self.ends[k as usize - 1].as_slice()
    }

    /// The intervals whose bounds it watches.
    pub fn watched_bounds(&self, k: u32) -> &[Itv]
        requires { (m : Data) × IsFor self.now m × (k < size_of m) }
        ensures { (m : Data) → IsFor self.now m → (cell : CellNames) → is_bound cell ≡ true → watching m k cell ≡ is_cell_of result.now cell }
    {
        if k == 0 {
            return &[];
        }
        self.ends[k as usize - 1].as_slice()
    }

    /// The sequences whose orders it watches.
    pub fn watched_orders(&self, k: u32) -> &[Seq]
        requires { (m : Data) × IsFor self.now m × (k < size_of m) }
        ensures { (m : Data) → IsFor self.now m → (p : Ordered) (x y : Interval) → watching m k (cell_of.Order p x y) ≡ has_sequence result.now p }
    {
        if k == 0 {
            return &self.sequences;
        }
        &[]
    }

    /// Whether it watches a cell.
    pub fn watches(&self, k: u32, cell: CellName) -> bool
        requires { (m : Data) × IsFor self.now m × (k < size_of m) }
        ensures { (m : Data) → IsFor self.now m → result ≡ watching m k cell }
    {
        if k == 0 {
            return is_of_walks(cell, &self.optionals, &self.sequences);
        }
        is_cell_of(self.ends[k as usize - 1].as_slice(), cell)
    }

    /// Whether it watches the best value.
    pub fn watches_best(&self, k: u32) -> bool
        ensures { (m : Data) → result ≡ watching_best m k }
    {
        let _ = k;
        false
    }

    /// The level on which it is woken. Precedences that close to a walk too long push each other's
    /// bounds for as many lines as there are moments. So walks are looked for among the first, but
    /// last of all where moments are few, since it takes all orders that are known.
    pub fn level(&self, k: u32) -> u8 {
        if k == 0 && self.narrow { u8::MAX } else { 0 }
    }

    /// Whether it is asked behind all others once it can wait: so are walks, which take all orders that are
    /// known.
    pub fn is_last(&self, k: u32) -> bool {
        k == 0
    }
}
