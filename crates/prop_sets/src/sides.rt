//! What is found of a sequence on one side.
ghost use Rattle.std.specs.Prelude.{◌≡◌, ℕ, ◌≤◌, not, true, false, length, IfOk, OnOk, IfNone, IfSome};
ghost use Rattle.region.specs.Looks.{IsRegionOf};
ghost use Rattle.findings.specs.Found.{IsFinding};
ghost use Rattle.refute_seq.specs.OnSequence.{refutes};
ghost use Rattle.prop_sets.specs.code.Tasks.{quiet};
ghost use Rattle.prop_sets.specs.code.Rows.{side_of};
ghost use Rattle.prop_sets.specs.code.Sides.{NoFull, NoEdge, NoDetect, NoNotEnd, IsSideQuiet, IsBegun};
ghost use Rattle.task_sets.specs.Times.{IsSized};
ghost use Rattle.theta_passes.specs.code.Rows.{row_at, times_at, IsNearRow, IsByEst};
ghost use Rattle.theta_passes.specs.code.Late.{IsLow};
ghost use Rattle.theta_passes.specs.code.Over.{NoOverloads};
ghost use Rattle.prop_sets.specs.code.Given.{IsOf, IsRowed};
ghost use Rattle.prop_sets.specs.code.Busy.{IsLateFound};
ghost use Rattle.prop_sets.specs.code.Orders.{ArePlacedNumbers, AreSpanned, IsByStart};

use crate::answering::{answer_detect, answer_edge, answer_not_end, answer_overload};
use crate::known::Numbers;
use crate::numbers::rows_of;
use crate::orders::Keyed;
use crate::passes::{Behind, find_edge, find_late, find_overload};
use crate::reaches::{end_reach, start_reach};
use findings::{Finding, View};
use refute_seq::SeqWitness;
use region::Region;
use sched_base::{Itv, NoMemory, Seq};
use sched_model::Model;
use std::alloc::Global;
use theta_passes::Row;

/// A constraint without overlap: its number, its sequence and the members of this, in an order that
/// the call names, with the places at which their numbers stand.
#[derive(Clone, Copy)]
pub struct Asked<'a> {
    pub c: u32,
    pub p: Seq,
    pub members: &'a [Itv],
    pub places: &'a [Keyed],
    pub numbers: &'a [Numbers],
}

/// Memory for what is asked, which each call uses again.
#[derive(Drop)]
pub struct Spare {
    pub rows: Vec<Row>,
    /// Places that are sorted, and the order of them.
    pub keyed: Vec<Keyed>,
    pub order: Vec<u32>,
}

impl Spare {
    pub fn new(alloc: Global) -> Spare {
        Spare {
            rows: Vec::new(alloc),
            keyed: Vec::new(alloc),
            order: Vec::new(alloc),
        }
    }
}

#[tactic(auto, using(crate::proofs::Asking::rowed))]
fn rows_made(
    rows: &mut Vec<Row>,
    model: &Model,
    region: &Region,
    asked: &Asked<'_>,
    back: bool,
    chosen: bool,
    early: bool,
) -> Result<(), NoMemory>
    requires is { IsOf model.now asked.now.c asked.now.p region.now.region asked.now.members.now }
    requires numbers { ArePlacedNumbers region.now.region asked.now.members.now asked.now.places.now asked.now.numbers.now }
    ensures { OnOk result (IsRowed model.now asked.now.c asked.now.p region.now.region asked.now.members.now back chosen early rows.new.items) }
{
    let _ = model;
    rows_of(
        rows,
        region,
        asked.members,
        asked.places,
        asked.numbers,
        chosen,
        back,
        early,
    )
}

/// Puts the rows of the members.
#[tactic(auto, using(crate::proofs::Asking::few_rowed))]
fn rows_for(
    rows: &mut Vec<Row>,
    model: &Model,
    region: &Region,
    asked: &Asked<'_>,
    back: bool,
    chosen: bool,
    early: bool,
) -> Result<(), NoMemory>
    requires is { IsOf model.now asked.now.c asked.now.p region.now.region asked.now.members.now }
    requires numbers { ArePlacedNumbers region.now.region asked.now.members.now asked.now.places.now asked.now.numbers.now }
    requires few { length asked.now.members.now ≤ 500 }
    requires sorted { IsByStart (side_of back) region.now.region asked.now.members.now }
    ensures rowed { OnOk result (IsRowed model.now asked.now.c asked.now.p region.now.region asked.now.members.now back chosen early rows.new.items) }
    ensures few { OnOk result (length rows.new.items ≤ 500) }
    ensures near { OnOk result ((k : ℕ) → IsNearRow (row_at rows.new.items k)) }
    ensures sized { OnOk result (IsSized (times_at rows.new.items)) }
    ensures sorted { OnOk result (IsByEst rows.new.items) }
    ensures spanned { OnOk result (AreSpanned rows.new.items) }
    ensures low { OnOk result (IsLow rows.new.items) }
{
    rows_made(rows, model, region, asked, back, chosen, early)?;
    Ok(())
}

/// EDGE, by rows of which no set overloads.
#[tactic(auto, using(crate::proofs::Asking::busy_edge, crate::proofs::Asking::no_edge))]
fn edge_of(
    alloc: Global,
    view: &View<'_>,
    back: bool,
    asked: &Asked<'_>,
    rows: &[Row],
    keyed: &mut Vec<Keyed>,
    order: &mut Vec<u32>,
) -> Result<Option<Finding<SeqWitness>>, NoMemory>
    requires is { IsOf view.now.model.now asked.now.c asked.now.p view.now.region.now.region asked.now.members.now }
    requires rowed { IsRowed view.now.model.now asked.now.c asked.now.p view.now.region.now.region asked.now.members.now back true (not back) rows.now }
    requires few { length rows.now ≤ 500 }
    requires near { (k : ℕ) → IsNearRow (row_at rows.now k) }
    requires sized { IsSized (times_at rows.now) }
    requires sorted { IsByEst rows.now }
    requires spanned { AreSpanned rows.now }
    requires overloads { NoOverloads rows.now }
    ensures none { IfOk result (λ o. IfNone o (NoEdge (side_of back) view.now.region.now.region asked.now.members.now)) }
    ensures some { IfOk result (λ o. IfSome o (IsFinding refutes view.now.model.now view.now.region.now.region view.now.best)) }
    ensures busy { IfOk result (λ o. IfSome o (λ f. quiet true view.now.model.now asked.now.c view.now.region.now.region view.now.best → ⊥)) }
{
    if let Some(found) = find_edge(alloc, keyed, order, rows)? {
        let far = start_reach(rows, &found.v, found.place);
        return answer_edge(alloc, view, asked.c, back, asked.members, &found, far);
    }
    Ok(None)
}

/// OVERLOAD and then EDGE on the first side, by the same rows.
#[tactic(auto, using(crate::proofs::Asking::busy_overload))]
fn ask_full_edges(
    alloc: Global,
    model: &Model,
    region: &Region,
    best: Option<i64>,
    asked: &Asked<'_>,
    spare: &mut Spare,
) -> Result<Option<Finding<SeqWitness>>, NoMemory>
    requires is { IsOf model.now asked.now.c asked.now.p region.now.region asked.now.members.now }
    requires numbers { ArePlacedNumbers region.now.region asked.now.members.now asked.now.places.now asked.now.numbers.now }
    requires few { length asked.now.members.now ≤ 500 }
    requires sorted { IsByStart 0 region.now.region asked.now.members.now }
    ensures none { IfOk result (λ o. IfNone o (NoEdge 0 region.now.region asked.now.members.now)) }
    ensures some { IfOk result (λ o. IfSome o (IsFinding refutes model.now region.now.region best)) }
    ensures busy { IfOk result (λ o. IfSome o (λ f. quiet true model.now asked.now.c region.now.region best → ⊥)) }
{
    rows_for(&mut spare.rows, model, region, asked, false, true, true)?;
    let rows = spare.rows.as_slice();
    if let Some(found) = find_overload(alloc, rows)? {
        return answer_overload(alloc, model, region, best, asked.c, asked.members, &found);
    }
    let (keyed, order) = (&mut spare.keyed, &mut spare.order);
    let view = View {
        model,
        region,
        best,
    };
    edge_of(alloc, &view, false, asked, rows, keyed, order)
}

/// EDGE on the other side, where nothing is found on the first: no set overloads on one side alone.
fn ask_edges(
    alloc: Global,
    model: &Model,
    region: &Region,
    best: Option<i64>,
    first: &Asked<'_>,
    second: &Asked<'_>,
    spare: &mut Spare,
) -> Result<Option<Finding<SeqWitness>>, NoMemory>
    requires is { IsOf model.now first.now.c first.now.p region.now.region first.now.members.now }
    requires also { IsOf model.now second.now.c second.now.p region.now.region second.now.members.now }
    requires numbers { ArePlacedNumbers region.now.region second.now.members.now second.now.places.now second.now.numbers.now }
    requires few { length second.now.members.now ≤ 500 }
    requires same { first.now.c ≡ second.now.c }
    requires sorted { IsByStart 1 region.now.region second.now.members.now }
    requires before { NoEdge 0 region.now.region first.now.members.now }
    ensures none { IfOk result (λ o. IfNone o (NoEdge 1 region.now.region second.now.members.now)) }
    ensures some { IfOk result (λ o. IfSome o (IsFinding refutes model.now region.now.region best)) }
    ensures busy { IfOk result (λ o. IfSome o (λ f. quiet true model.now second.now.c region.now.region best → ⊥)) }
{
    rows_for(&mut spare.rows, model, region, second, true, true, false)?;
    let (rows, keyed, order) = (spare.rows.as_slice(), &mut spare.keyed, &mut spare.order);
    let view = View {
        model,
        region,
        best,
    };
    edge_of(alloc, &view, true, second, rows, keyed, order)
}

/// What DETECT finds of a member that is late behind a set.
#[tactic(auto, using(crate::proofs::Asking::busy_detect))]
fn answer_late(
    alloc: Global,
    model: &Model,
    region: &Region,
    best: Option<i64>,
    back: bool,
    asked: &Asked<'_>,
    rows: &[Row],
    found: &Behind,
) -> Result<Option<Finding<SeqWitness>>, NoMemory>
    requires rowed { IsRowed model.now asked.now.c asked.now.p region.now.region asked.now.members.now back false (not back) rows.now }
    requires found { IsLateFound rows.now found.now.place found.now.set.items }
    ensures none { IfOk result (λ o. IfNone o ⊥) }
    ensures some { IfOk result (λ o. IfSome o (IsFinding refutes model.now region.now.region best)) }
    ensures busy { IfOk result (λ o. IfSome o (λ f. quiet false model.now asked.now.c region.now.region best → ⊥)) }
{
    let far = start_reach(rows, &found.set, found.place);
    let view = View {
        model,
        region,
        best,
    };
    answer_detect(alloc, &view, asked.c, back, asked.members, found, far)
}

/// DETECT, by the rows.
#[tactic(auto, using(crate::proofs::Asking::no_detect))]
fn detect_of(
    alloc: Global,
    model: &Model,
    region: &Region,
    best: Option<i64>,
    back: bool,
    asked: &Asked<'_>,
    rows: &[Row],
) -> Result<Option<Finding<SeqWitness>>, NoMemory>
    requires is { IsOf model.now asked.now.c asked.now.p region.now.region asked.now.members.now }
    requires rowed { IsRowed model.now asked.now.c asked.now.p region.now.region asked.now.members.now back false (not back) rows.now }
    requires few { length rows.now ≤ 500 }
    requires near { (k : ℕ) → IsNearRow (row_at rows.now k) }
    requires sized { IsSized (times_at rows.now) }
    requires sorted { IsByEst rows.now }
    requires spanned { AreSpanned rows.now }
    requires low { IsLow rows.now }
    ensures none { IfOk result (λ o. IfNone o (NoDetect (side_of back) region.now.region asked.now.members.now)) }
    ensures some { IfOk result (λ o. IfSome o (IsFinding refutes model.now region.now.region best)) }
    ensures busy { IfOk result (λ o. IfSome o (λ f. quiet false model.now asked.now.c region.now.region best → ⊥)) }
{
    if let Some(found) = find_late(alloc, rows)? {
        return answer_late(alloc, model, region, best, back, asked, rows, &found);
    }
    Ok(None)
}

/// OVERLOAD and then DETECT on the first side, by the same rows: what OVERLOAD reads is the same under
/// the guess that DETECT asks about.
#[tactic(auto, using(crate::proofs::Asking::busy_overload, crate::proofs::Asking::no_full, crate::proofs::Asking::first_quiet))]
fn ask_full_detects(
    alloc: Global,
    model: &Model,
    region: &Region,
    best: Option<i64>,
    asked: &Asked<'_>,
    spare: &mut Spare,
) -> Result<Option<Finding<SeqWitness>>, NoMemory>
    requires is { IsOf model.now asked.now.c asked.now.p region.now.region asked.now.members.now }
    requires numbers { ArePlacedNumbers region.now.region asked.now.members.now asked.now.places.now asked.now.numbers.now }
    requires few { length asked.now.members.now ≤ 500 }
    requires sorted { IsByStart 0 region.now.region asked.now.members.now }
    ensures none { IfOk result (λ o. IfNone o (IsSideQuiet false 0 region.now.region asked.now.members.now)) }
    ensures some { IfOk result (λ o. IfSome o (IsFinding refutes model.now region.now.region best)) }
    ensures busy { IfOk result (λ o. IfSome o (λ f. quiet false model.now asked.now.c region.now.region best → ⊥)) }
{
    rows_for(&mut spare.rows, model, region, asked, false, false, true)?;
    let rows = spare.rows.as_slice();
    if let Some(found) = find_overload(alloc, rows)? {
        return answer_overload(alloc, model, region, best, asked.c, asked.members, &found);
    }
    if let Some(found) = detect_of(alloc, model, region, best, false, asked, rows)? {
        return Ok(Some(found));
    }
    Ok(None)
}

/// DETECT on a side.
fn ask_detects(
    alloc: Global,
    model: &Model,
    region: &Region,
    best: Option<i64>,
    back: bool,
    asked: &Asked<'_>,
    spare: &mut Spare,
) -> Result<Option<Finding<SeqWitness>>, NoMemory>
    requires is { IsOf model.now asked.now.c asked.now.p region.now.region asked.now.members.now }
    requires numbers { ArePlacedNumbers region.now.region asked.now.members.now asked.now.places.now asked.now.numbers.now }
    requires few { length asked.now.members.now ≤ 500 }
    requires sorted { IsByStart (side_of back) region.now.region asked.now.members.now }
    ensures none { IfOk result (λ o. IfNone o (NoDetect (side_of back) region.now.region asked.now.members.now)) }
    ensures some { IfOk result (λ o. IfSome o (IsFinding refutes model.now region.now.region best)) }
    ensures busy { IfOk result (λ o. IfSome o (λ f. quiet false model.now asked.now.c region.now.region best → ⊥)) }
{
    rows_for(&mut spare.rows, model, region, asked, back, false, !back)?;
    detect_of(alloc, model, region, best, back, asked, &spare.rows)
}

/// NOTEND.
#[tactic(auto, using(crate::proofs::Asking::busy_not_end, crate::proofs::Asking::no_not_end))]
fn ask_not_ends(
    alloc: Global,
    model: &Model,
    region: &Region,
    best: Option<i64>,
    back: bool,
    asked: &Asked<'_>,
    spare: &mut Spare,
) -> Result<Option<Finding<SeqWitness>>, NoMemory>
    requires is { IsOf model.now asked.now.c asked.now.p region.now.region asked.now.members.now }
    requires numbers { ArePlacedNumbers region.now.region asked.now.members.now asked.now.places.now asked.now.numbers.now }
    requires few { length asked.now.members.now ≤ 500 }
    requires sorted { IsByStart (side_of back) region.now.region asked.now.members.now }
    ensures none { IfOk result (λ o. IfNone o (NoNotEnd (side_of back) region.now.region asked.now.members.now)) }
    ensures some { IfOk result (λ o. IfSome o (IsFinding refutes model.now region.now.region best)) }
    ensures busy { IfOk result (λ o. IfSome o (λ f. quiet true model.now asked.now.c region.now.region best → ⊥)) }
{
    let rows = &mut spare.rows;
    rows_for(rows, model, region, asked, back, false, back)?;
    if let Some(found) = find_late(alloc, rows)? {
        let far = end_reach(rows, &found.set, found.place);
        let view = View {
            model,
            region,
            best,
        };
        return answer_not_end(alloc, &view, asked.c, back, asked.members, &found, far);
    }
    Ok(None)
}

/// What is found of a constraint before its members are put in the other side's order, by their order
/// on the first side: in the first round OVERLOAD and DETECT, in the later one NOTEND.
pub fn ask_side(
    alloc: Global,
    model: &Model,
    region: &Region,
    best: Option<i64>,
    later: bool,
    first: &Asked<'_>,
    spare: &mut Spare,
) -> Result<Option<Finding<SeqWitness>>, NoMemory>
    requires is { IsOf model.now first.now.c first.now.p region.now.region first.now.members.now }
    requires numbers { ArePlacedNumbers region.now.region first.now.members.now first.now.places.now first.now.numbers.now }
    requires few { length first.now.members.now ≤ 500 }
    requires sorted { IsByStart 0 region.now.region first.now.members.now }
    ensures none { IfOk result (λ o. IfNone o (IsBegun later region.now.region first.now.members.now)) }
    ensures some { IfOk result (λ o. IfSome o (IsFinding refutes model.now region.now.region best)) }
    ensures busy { IfOk result (λ o. IfSome o (λ f. quiet later model.now first.now.c region.now.region best → ⊥)) }
{
    if later {
        return ask_not_ends(alloc, model, region, best, false, first, spare);
    }
    ask_full_detects(alloc, model, region, best, first, spare)
}

/// What is found of it then in the first round: DETECT on the other side.
fn ask_first(
    alloc: Global,
    model: &Model,
    region: &Region,
    best: Option<i64>,
    first: &Asked<'_>,
    second: &Asked<'_>,
    spare: &mut Spare,
) -> Result<Option<Finding<SeqWitness>>, NoMemory>
    requires is { IsOf model.now first.now.c first.now.p region.now.region first.now.members.now }
    requires numbers { ArePlacedNumbers region.now.region first.now.members.now first.now.places.now first.now.numbers.now }
    requires also { IsOf model.now second.now.c second.now.p region.now.region second.now.members.now }
    requires numbers_too { ArePlacedNumbers region.now.region second.now.members.now second.now.places.now second.now.numbers.now }
    requires same { first.now.c ≡ second.now.c }
    requires few { length first.now.members.now ≤ 500 }
    requires few_too { length second.now.members.now ≤ 500 }
    requires sorted { IsByStart 0 region.now.region first.now.members.now }
    requires turned { IsByStart 1 region.now.region second.now.members.now }
    requires before { IsBegun false region.now.region first.now.members.now }
    ensures none { IfOk result (λ o. IfNone o (IsSideQuiet false 0 region.now.region first.now.members.now)) }
    ensures none_turned { IfOk result (λ o. IfNone o (IsSideQuiet false 1 region.now.region second.now.members.now)) }
    ensures some { IfOk result (λ o. IfSome o (IsFinding refutes model.now region.now.region best)) }
    ensures busy { IfOk result (λ o. IfSome o (λ f. quiet false model.now first.now.c region.now.region best → ⊥)) }
{
    if let Some(found) = ask_detects(alloc, model, region, best, true, second, spare)? {
        return Ok(Some(found));
    }
    Ok(None)
}

/// What is found of it then in the later round: first NOTEND on the other side, then EDGE.
#[tactic(auto, using(crate::proofs::Asking::later_quiet))]
fn ask_later(
    alloc: Global,
    model: &Model,
    region: &Region,
    best: Option<i64>,
    first: &Asked<'_>,
    second: &Asked<'_>,
    spare: &mut Spare,
) -> Result<Option<Finding<SeqWitness>>, NoMemory>
    requires is { IsOf model.now first.now.c first.now.p region.now.region first.now.members.now }
    requires numbers { ArePlacedNumbers region.now.region first.now.members.now first.now.places.now first.now.numbers.now }
    requires also { IsOf model.now second.now.c second.now.p region.now.region second.now.members.now }
    requires numbers_too { ArePlacedNumbers region.now.region second.now.members.now second.now.places.now second.now.numbers.now }
    requires same { first.now.c ≡ second.now.c }
    requires few { length first.now.members.now ≤ 500 }
    requires few_too { length second.now.members.now ≤ 500 }
    requires sorted { IsByStart 0 region.now.region first.now.members.now }
    requires turned { IsByStart 1 region.now.region second.now.members.now }
    requires before { IsBegun true region.now.region first.now.members.now }
    ensures none { IfOk result (λ o. IfNone o (IsSideQuiet true 0 region.now.region first.now.members.now)) }
    ensures none_turned { IfOk result (λ o. IfNone o (IsSideQuiet true 1 region.now.region second.now.members.now)) }
    ensures some { IfOk result (λ o. IfSome o (IsFinding refutes model.now region.now.region best)) }
    ensures busy { IfOk result (λ o. IfSome o (λ f. quiet true model.now first.now.c region.now.region best → ⊥)) }
{
    if let Some(found) = ask_not_ends(alloc, model, region, best, true, second, spare)? {
        return Ok(Some(found));
    }
    if let Some(found) = ask_full_edges(alloc, model, region, best, first, spare)? {
        return Ok(Some(found));
    }
    if let Some(found) = ask_edges(alloc, model, region, best, first, second, spare)? {
        return Ok(Some(found));
    }
    Ok(None)
}

/// What is found of it then in one of the rounds, by the members in the order of their earliest
/// starts, and in that of their latest completions.
pub fn ask_rest(
    alloc: Global,
    model: &Model,
    region: &Region,
    best: Option<i64>,
    later: bool,
    first: &Asked<'_>,
    second: &Asked<'_>,
    spare: &mut Spare,
) -> Result<Option<Finding<SeqWitness>>, NoMemory>
    requires is { IsOf model.now first.now.c first.now.p region.now.region first.now.members.now }
    requires numbers { ArePlacedNumbers region.now.region first.now.members.now first.now.places.now first.now.numbers.now }
    requires also { IsOf model.now second.now.c second.now.p region.now.region second.now.members.now }
    requires numbers_too { ArePlacedNumbers region.now.region second.now.members.now second.now.places.now second.now.numbers.now }
    requires same { first.now.c ≡ second.now.c }
    requires few { length first.now.members.now ≤ 500 }
    requires few_too { length second.now.members.now ≤ 500 }
    requires sorted { IsByStart 0 region.now.region first.now.members.now }
    requires turned { IsByStart 1 region.now.region second.now.members.now }
    requires before { IsBegun later region.now.region first.now.members.now }
    ensures none { IfOk result (λ o. IfNone o (IsSideQuiet later 0 region.now.region first.now.members.now)) }
    ensures none_turned { IfOk result (λ o. IfNone o (IsSideQuiet later 1 region.now.region second.now.members.now)) }
    ensures some { IfOk result (λ o. IfSome o (IsFinding refutes model.now region.now.region best)) }
    ensures busy { IfOk result (λ o. IfSome o (λ f. quiet later model.now first.now.c region.now.region best → ⊥)) }
{
    if later {
        return ask_later(alloc, model, region, best, first, second, spare);
    }
    ask_first(alloc, model, region, best, first, second, spare)
}
