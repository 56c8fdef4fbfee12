//! The propagators of a model.
ghost use Rattle.std.specs.Prelude.{◌≡◌, ◌<◌, ◌≤◌, ◌^◌, length, true, false, Some, IsTrue, IfOk, IfNone, IfSome, slice_get};
ghost use Rattle.sched_base.specs.declared.ids.Itv.{Itv as Itvs};
ghost use Rattle.sched_model.specs.Data.{Data, has, members_of};
ghost use Rattle.sched_model.specs.Valid.{IsValid};
ghost use Rattle.region.specs.declared.types.CellName.{CellName as CellNames};
ghost use Rattle.region.specs.declared.types.CellName.TheVariants as cell;
ghost use Rattle.region.specs.Looks.{IsRegionOf};
ghost use Rattle.findings.specs.Found.{IsFinding};
ghost use Rattle.findings.specs.code.Tables.{AreLists, members_in};
ghost use Rattle.refute_seq.specs.OnSequence.{refutes};
ghost use Rattle.prop_sets.specs.code.Tasks.{size_of, sequence_in, sequence_at, members_at, quiet, watching, watching_best, is_bound, is_bound_of};
ghost use Rattle.prop_sets.specs.code.Tables.{IsFor};
ghost use Rattle.prop_sets.specs.code.Known.{IsStill, AreUnknown, AreNumbers};

use crate::answering::answer_hinted;
use crate::known::{Numbers, is_remembered, numbers_in, remember};
use crate::orders::{Orders, by_start};
use crate::probe::{Hint, Told};
use crate::probes::AnyProbe;
use crate::sides::{Asked, Spare, ask_rest, ask_side};
use findings::{Finding, View};
use place_sets::MovedPlaces;
use refute_seq::{SeqWitness, members_of};
use region::Region;
use sched_base::{Itv, List, NoMemory, Seq, at};
use sched_model::{Constraint, Model};
use std::alloc::Global;

/// One propagator of a round for each constraint, which is quiet where the constraint isn't one
/// without overlap. The first round asks for OVERLOAD and DETECT, the later one for OVERLOAD, EDGE and
/// NOTEND.
#[derive(Drop)]
pub struct PropSets {
    alloc: Global,
    /// Whether it is the later round.
    later: bool,
    /// The members of each one's sequence.
    members: Vec<List<Itv>>,
    /// Their numbers when nothing was found of them last: nothing is found while they have these.
    known: Vec<Option<List<Numbers>>>,
    /// Their numbers in this call, and memory that each call uses again.
    numbers: Vec<Numbers>,
    orders: Orders,
    spare: Spare,
    /// What was told of each when it was asked whether it can wait, whom DETECT finds something of then,
    /// and which members have moved since. Nothing hangs on it.
    probes: Vec<AnyProbe>,
    hints: Vec<Option<Hint>>,
    moves: MovedPlaces,
}

impl std::marker::Model for PropSets {
    ghost use Rattle.std.specs.Prelude.{◌<◌, ◌^◌, length};
    ghost use Rattle.prop_sets.specs.code.Tables.{Table};
    ghost use Rattle.prop_sets.specs.code.Known.{AreKnown};

    ghost Value = { Table };

    ghost view = { λ p. record { later = p.later; members = p.members.items } };

    ghost invariant = { λ p. (length p.members.items < 2 ^ 32) × AreKnown p.later p.members.items p.known.items };
}

fn sequence_in(constraint: &Constraint) -> Option<Seq>
    ensures { result ≡ sequence_in (Some constraint.now) }
{
    match constraint {
        Constraint::NoOverlap { p, .. } => Some(*p),
        _ => None,
    }
}

/// The sequence of a constraint without overlap.
fn sequence_at(model: &Model, k: u32) -> Option<Seq>
    ensures { result ≡ sequence_at model.now k }
{
    sequence_in(at(model.constraints(), k as usize)?)
}

/// The members of a sequence, where there is one.
fn members_in(alloc: Global, model: &Model, p: Option<Seq>) -> Result<List<Itv>, NoMemory>
    ensures { IfOk result (λ xs. xs ≡ members_in model.now p) }
{
    let mut list = Vec::new(alloc);
    if let Some(p) = p {
        list.extend_from_slice(members_of(model, p))?;
    }
    Ok(List::from_vec(list))
}

#[tactic(auto, using(findings::specs::laws::Tables::no_lists, findings::specs::laws::Tables::more_lists, findings::specs::laws::Tables::all_lists))]
fn members_of_each(alloc: Global, model: &Model, n: u32) -> Result<Vec<List<Itv>>, NoMemory>
    ensures { IfOk result (λ v. AreLists (members_at model.now) n v.items) }
{
    let mut lists = Vec::new(alloc);
    for k in 0..n {
        lists.push(members_in(alloc, model, sequence_at(model, k))?)?;
    }
    Ok(lists)
}

/// The members of a sequence, of which a valid model has few.
fn few_members(model: &Model, p: Seq) -> &[Itv]
    ensures members { result.now ≡ members_of model.now p }
    ensures few { length result.now ≤ 500 }
    ensures valid { IsValid model.now }
{
    // Called for its clause alone.
    let _ = model.sequences();
    members_of(model, p)
}

/// Nothing is remembered of so many.
#[tactic(auto, using(crate::proofs::Remembering::none_known, crate::proofs::Remembering::none_more))]
fn unknown(alloc: Global, n: usize) -> Result<Vec<Option<List<Numbers>>>, NoMemory>
    ensures { IfOk result (λ v. AreUnknown n v.items) }
{
    let mut known = Vec::new(alloc);
    for k in 0..n {
        let _ = k;
        known.push(None)?;
    }
    Ok(known)
}

/// Room to tell what is found of each.
fn probes_of(alloc: Global, members: &[List<Itv>]) -> Result<Vec<AnyProbe>, NoMemory> {
    let mut probes = Vec::new(alloc);
    for k in 0..members.len() {
        probes.push(AnyProbe::new(alloc, members[k].len())?)?;
    }
    Ok(probes)
}

/// What the first round finds of whom it is told that DETECT finds something; the later one doesn't ask
/// for it.
fn ask_told(
    alloc: Global,
    view: &View<'_>,
    later: bool,
    c: u32,
    members: &[Itv],
    hint: Option<Hint>,
    ids: &mut Vec<u32>,
) -> Result<Option<Finding<SeqWitness>>, NoMemory>
    requires of { IsRegionOf view.now.model.now view.now.region.now.region }
    ensures some { IfOk result (λ o. IfSome o (IsFinding refutes view.now.model.now view.now.region.now.region view.now.best)) }
    ensures busy { IfOk result (λ o. IfSome o (λ f. quiet later view.now.model.now c view.now.region.now.region view.now.best → ⊥)) }
{
    if later {
        return Ok(None);
    }
    let Some(hint) = hint else {
        return Ok(None);
    };
    answer_hinted(
        alloc,
        view.model,
        view.region,
        view.best,
        c,
        members,
        hint,
        ids,
    )
}

/// What a round finds of the members of a sequence, whose numbers are given.
#[inline(never)]
#[tactic(auto, using(crate::proofs::Making::is_of))]
fn ask_members(
    alloc: Global,
    view: &View<'_>,
    later: bool,
    c: u32,
    p: Seq,
    numbers: &[Numbers],
    orders: &mut Orders,
    spare: &mut Spare,
) -> Result<Option<Finding<SeqWitness>>, NoMemory>
    requires of { IsRegionOf view.now.model.now view.now.region.now.region }
    requires within { c < length view.now.model.now.constraints }
    requires sequence { sequence_at view.now.model.now c ≡ Some p }
    requires are { AreNumbers view.now.region.now.region (members_of view.now.model.now p) (length (members_of view.now.model.now p)) numbers.now }
    ensures none { IfOk result (λ o. IfNone o (IsStill later view.now.region.now.region (members_of view.now.model.now p))) }
    ensures some { IfOk result (λ o. IfSome o (IsFinding refutes view.now.model.now view.now.region.now.region view.now.best)) }
    ensures busy { IfOk result (λ o. IfSome o (λ f. quiet later view.now.model.now c view.now.region.now.region view.now.best → ⊥)) }
{
    let members = few_members(view.model, p);
    by_start(&mut orders.first, view.region, members, numbers, false)?;
    let first = Asked {
        c,
        p,
        members: &orders.first.members,
        places: &orders.first.places,
        numbers,
    };
    if let Some(found) = ask_side(
        alloc,
        view.model,
        view.region,
        view.best,
        later,
        &first,
        spare,
    )? {
        return Ok(Some(found));
    }
    by_start(&mut orders.second, view.region, members, numbers, true)?;
    let second = Asked {
        c,
        p,
        members: &orders.second.members,
        places: &orders.second.places,
        numbers,
    };
    if let Some(found) = ask_rest(
        alloc,
        view.model,
        view.region,
        view.best,
        later,
        &first,
        &second,
        spare,
    )? {
        return Ok(Some(found));
    }
    Ok(None)
}

fn hint_at(hints: &[Option<Hint>], i: usize) -> Option<Hint> {
    if i < hints.len() { hints[i] } else { None }
}

impl PropSets {
    /// The propagators of a model for one of the rounds.
    pub fn new(alloc: Global, model: &Model, later: bool) -> Result<PropSets, NoMemory>
        ensures made { IfOk result (λ p. IsFor p model.now) }
        ensures round { IfOk result (λ p. p.later ≡ later) }
    {
        let n = model.constraints().len() as u32;
        let members = members_of_each(alloc, model, n)?;
        let known = unknown(alloc, members.len())?;
        let probes = probes_of(alloc, &members)?;
        let hints = vec![in alloc; None; members.len()]?;
        let moves = MovedPlaces::new(alloc, &members)?;
        Ok(PropSets {
            alloc,
            later,
            members,
            known,
            numbers: Vec::new(alloc),
            orders: Orders::new(alloc),
            spare: Spare::new(alloc),
            probes,
            hints,
            moves,
        })
    }

    /// How many there are.
    pub fn count(&self) -> u32
        ensures { (m : Data) → IsFor self.now m → result ≡ size_of m }
    {
        self.members.len() as u32
    }

    /// What one of them finds; nothing exactly where it is quiet.
    pub fn next(
        &mut self,
        k: u32,
        model: &Model,
        region: &Region,
        best: Option<i64>,
    ) -> Result<Option<Finding<SeqWitness>>, NoMemory>
        requires of { IsFor self.old model.now }
        requires below { k < size_of model.now }
        requires region { IsRegionOf model.now region.now.region }
        ensures kept { (m : Data) → IsFor self.old m → IsFor self.new m }
        ensures same { self.new.later ≡ self.old.later }
        ensures none { IfOk result (λ o. IfNone o (quiet self.old.later model.now k region.now.region best)) }
        ensures some { IfOk result (λ o. IfSome o (IsFinding refutes model.now region.now.region best)) }
        ensures busy { IfOk result (λ o. IfSome o (λ f. quiet self.old.later model.now k region.now.region best → ⊥)) }
    {
        // The model is valid by its type.
        let _ = model.sequences();
        let Some(p) = sequence_at(model, k) else {
            return Ok(None);
        };
        let i = k as usize;
        let members = self.members[i].as_slice();
        let (alloc, later) = (self.alloc, self.later);
        let hint = hint_at(&self.hints, i);
        let ids = &mut self.spare.order;
        let view = View {
            model,
            region,
            best,
        };
        if let Some(found) = ask_told(alloc, &view, later, k, members, hint, ids)? {
            return Ok(Some(found));
        }
        numbers_in(region, members, &mut self.numbers)?;
        if is_remembered(&self.known[i], &self.numbers) {
            return Ok(None);
        }
        let (orders, spare) = (&mut self.orders, &mut self.spare);
        let Some(found) = ask_members(alloc, &view, later, k, p, &self.numbers, orders, spare)?
        else {
            remember(self.alloc, &mut self.known, i, &mut self.numbers);
            return Ok(None);
        };
        Ok(Some(found))
    }

    /// Whether the first round finds nothing of it now, as is told by those members alone that have moved
    /// since it was asked last. Nothing hangs on it.
    pub fn can_wait(&mut self, k: u32, region: &Region) -> bool
        ensures kept { (m : Data) → IsFor self.old m → IsFor self.new m }
        ensures same { self.new.later ≡ self.old.later }
    {
        let i = k as usize;
        if self.later
            || i >= self.members.len()
            || i >= self.probes.len()
            || i >= self.hints.len()
        {
            return false;
        }
        let members = self.members[i].as_slice();
        let told = self.probes[i].tell(region, members, i, &mut self.moves);
        self.hints[i] = match told {
            Told::Late(hint) => Some(hint),
            _ => None,
        };
        matches!(told, Told::Still)
    }

    /// Notes that a cell of an interval isn't as it was.
    pub fn note_move(&mut self, x: Itv)
        ensures kept { (m : Data) → IsFor self.old m → IsFor self.new m }
        ensures same { self.new.later ≡ self.old.later }
    {
        self.moves.note(x);
    }

    /// Cells may have changed that nothing was told of.
    pub fn forget_moves(&mut self)
        ensures kept { (m : Data) → IsFor self.old m → IsFor self.new m }
        ensures same { self.new.later ≡ self.old.later }
    {
        self.moves.forget();
    }

    /// The intervals whose presence it watches.
    pub fn watched_presences(&self, k: u32) -> &[Itv]
        requires { (m : Data) × IsFor self.now m × (k < size_of m) }
        ensures { (m : Data) → IsFor self.now m → (x : Itvs) → IsTrue (watching m k (cell.Presence x)) → IsTrue (has result.now x) }
    {
        self.members[k as usize].as_slice()
    }

    /// The intervals whose bounds it watches.
    pub fn watched_bounds(&self, k: u32) -> &[Itv]
        requires { (m : Data) × IsFor self.now m × (k < size_of m) }
        ensures { (m : Data) → IsFor self.now m → (c : CellNames) → is_bound c ≡ true → IsTrue (watching m k c) → IsTrue (is_bound_of result.now c) }
    {
        self.members[k as usize].as_slice()
    }

    /// Whether it watches the best value.
    pub fn watches_best(&self, k: u32) -> bool
        ensures { (m : Data) → result ≡ watching_best m k }
    {
        let _ = k;
        false
    }

    /// The level on which it is woken: the first round with those that look at two members at a time,
    /// the later one behind them.
    pub fn level(&self, k: u32) -> u8 {
        let _ = k;
        if self.later { 1 } else { 0 }
    }
}
