//! Findings by sets of members at some places.
ghost use Rattle.std.specs.Prelude.{◌≡◌, ℕ, ◌<◌, ◌≤◌, ◌+◌, Bool, true, false, length, map, IfOk, IfNone, IfSome};
ghost use Rattle.region.specs.Looks.{IsRegionOf};
ghost use Rattle.findings.specs.Found.{IsFinding};
ghost use Rattle.refute_seq.specs.declared.witness.SeqWitness.TheVariants as witness;
ghost use Rattle.refute_seq.specs.OnSequence.{refutes};
ghost use Rattle.prop_sets.specs.code.Tasks.{looks_after, quiet};
ghost use Rattle.prop_sets.specs.code.Rows.{member_at, side_of};
ghost use Rattle.prop_sets.specs.code.Busy.{IsBusy, IsNext, IsNextOf, name_at, ids_of, likely_pushed};

use crate::passes::{Behind, Cut};
use crate::probe::{Hint, WORDS};
use findings::{Finding, Likely, Reaching, View, ask, ask_end, ask_reaching};
use place_sets::PlaceSet;
use refute_seq::{Few, OnSequence, SeqWitness};
use region::Region;
use sched_base::{Itv, NoMemory};
use sched_model::Model;
use std::alloc::Global;

/// What a witness gives that refutes where it is asked, without a guess or under one on a member.
#[tactic(auto, using(crate::proofs::Answered::never_unrefuted, crate::proofs::Answered::never_quiet))]
fn answer(
    model: &Model,
    region: &Region,
    best: Option<i64>,
    c: u32,
    i: Itv,
    w: SeqWitness,
) -> Option<Finding<SeqWitness>>
    requires of { IsRegionOf model.now region.now.region }
    requires busy { IsBusy model.now region.now.region best i w }
    ensures none { IfNone result ⊥ }
    ensures some { IfSome result (IsFinding refutes model.now region.now.region best) }
    ensures busy { (later : Bool) → looks_after later model.now c w ≡ true → IfSome result (λ f. quiet later model.now c region.now.region best → ⊥) }
{
    let guess = ask::<OnSequence>(model, region, best, &w, &[i], &[])?;
    Some(Finding { guess, witness: w })
}

/// The same where the sets tell how far the guess can likely be moved.
#[tactic(auto, using(crate::proofs::Answered::never_unrefuted, crate::proofs::Answered::never_quiet))]
fn answer_reaching(
    model: &Model,
    region: &Region,
    best: Option<i64>,
    c: u32,
    i: Itv,
    far: u64,
    likely: Likely,
    w: SeqWitness,
) -> Option<Finding<SeqWitness>>
    requires of { IsRegionOf model.now region.now.region }
    requires busy { IsBusy model.now region.now.region best i w }
    ensures none { IfNone result ⊥ }
    ensures some { IfSome result (IsFinding refutes model.now region.now.region best) }
    ensures busy { (later : Bool) → looks_after later model.now c w ≡ true → IfSome result (λ f. quiet later model.now c region.now.region best → ⊥) }
{
    let guess = ask_reaching::<OnSequence>(model, region, best, &w, &[i], &[], likely, far)?;
    Some(Finding { guess, witness: w })
}

/// The member at a place.
fn member_at(members: &[Itv], k: u32) -> Itv
    ensures { result ≡ member_at members.now k }
{
    if k as usize >= members.len() {
        return Itv(0);
    }
    members[k as usize]
}

/// The sooner of an id that isn't below a number and the next one, where these are told of the places
/// before one.
fn sooner(members: &[Itv], set: &[u32], from: u32, j: usize, next: u32) -> u32
    requires { j < length set.now }
    ensures { (n : ℕ) → IsNextOf members.now set.now j from n next → IsNextOf members.now set.now (j + 1) from n result }
{
    let id = member_at(members, set[j]).0;
    if from <= id && id < next { id } else { next }
}

/// The least id from one on that a member at one of some places has, where it is below `n`, else this.
#[tactic(auto, using(crate::proofs::Naming::none_next, crate::proofs::Naming::all_next))]
fn next_id(members: &[Itv], set: &[u32], from: u32, n: u32) -> u32
    requires { from ≤ n }
    ensures { IsNext (map (name_at members.now) set.now) from n result }
{
    let mut next = n;
    for j in 0..set.len() {
        next = sooner(members, set, from, j, next);
    }
    next
}

/// The ids of the members at some places, in rising order; they lie below a number.
#[tactic(auto, using(crate::proofs::Naming::first_next, crate::proofs::Naming::next_picked, crate::proofs::Naming::all_picked))]
fn ids_of(alloc: Global, members: &[Itv], set: &[u32], n: u32) -> Result<Few, NoMemory>
    ensures { IfOk result (λ s. s ≡ ids_of members.now set.now n) }
{
    let mut ids = Few::new(alloc);
    let mut x = next_id(members, set, 0, n);
    while x < n {
        ids.push(x)?;
        x = next_id(members, set, x + 1, n);
    }
    Ok(ids)
}

/// How many intervals a model has.
fn intervals_in(model: &Model) -> u32
    ensures { result ≡ length model.now.intervals }
{
    model.intervals().len() as u32
}

/// What a witness names members at some places by.
fn few_ids(alloc: Global, model: &Model, members: &[Itv], set: &[u32]) -> Result<Few, NoMemory>
    ensures { IfOk result (λ s. s ≡ ids_of members.now set.now (length model.now.intervals)) }
{
    ids_of(alloc, members, set, intervals_in(model))
}

/// What a set gives that overloads; in both rounds it is looked for.
pub fn answer_overload(
    alloc: Global,
    model: &Model,
    region: &Region,
    best: Option<i64>,
    c: u32,
    members: &[Itv],
    found: &Behind,
) -> Result<Option<Finding<SeqWitness>>, NoMemory>
    requires of { IsRegionOf model.now region.now.region }
    requires busy { IsBusy model.now region.now.region best (member_at members.now found.now.place) (witness.Overload c (ids_of members.now found.now.set.items (length model.now.intervals))) }
    ensures none { IfOk result (λ o. IfNone o ⊥) }
    ensures some { IfOk result (λ o. IfSome o (IsFinding refutes model.now region.now.region best)) }
    ensures busy { (later : Bool) → IfOk result (λ o. IfSome o (λ f. quiet later model.now c region.now.region best → ⊥)) }
{
    let s = few_ids(alloc, model, members, &found.set)?;
    let i = member_at(members, found.place);
    Ok(answer(model, region, best, c, i, SeqWitness::Overload { c, s }))
}

/// What a set gives that a member must come behind, by how far the guess can likely be moved.
pub fn answer_detect(
    alloc: Global,
    view: &View<'_>,
    c: u32,
    back: bool,
    members: &[Itv],
    found: &Behind,
    far: u64,
) -> Result<Option<Finding<SeqWitness>>, NoMemory>
    requires of { IsRegionOf view.now.model.now view.now.region.now.region }
    requires busy { IsBusy view.now.model.now view.now.region.now.region view.now.best (member_at members.now found.now.place) (witness.Detect c (side_of back) (name_at members.now found.now.place) (ids_of members.now found.now.set.items (length view.now.model.now.intervals))) }
    ensures none { IfOk result (λ o. IfNone o ⊥) }
    ensures some { IfOk result (λ o. IfSome o (IsFinding refutes view.now.model.now view.now.region.now.region view.now.best)) }
    ensures busy { IfOk result (λ o. IfSome o (λ f. quiet false view.now.model.now c view.now.region.now.region view.now.best → ⊥)) }
{
    let s = few_ids(alloc, view.model, members, &found.set)?;
    let i = member_at(members, found.place);
    let w = SeqWitness::Detect {
        c,
        side: side_of(back),
        i: i.0,
        s,
    };
    Ok(answer_reaching(
        view.model,
        view.region,
        view.best,
        c,
        i,
        far,
        likely_pushed(back, i),
        w,
    ))
}

/// The ids of the members that a hint names, in rising order.
fn hinted_ids(
    alloc: Global,
    members: &[Itv],
    set: &PlaceSet<WORDS>,
    ids: &mut Vec<u32>,
) -> Result<Few, NoMemory> {
    ids.clear();
    for k in 0..members.len() {
        if set.contains(k) {
            ids.push(members[k].0)?;
        }
    }
    ids.as_mut_slice().sort_unstable();
    let mut few = Few::new(alloc);
    for k in 0..ids.len() {
        few.push(ids[k])?;
    }
    Ok(few)
}

/// What DETECT finds of a member behind some others, asked about the one guess that it mostly refutes.
#[tactic(auto, using(crate::proofs::Answered::never_told))]
fn answer_behind(
    model: &Model,
    region: &Region,
    best: Option<i64>,
    c: u32,
    back: bool,
    i: Itv,
    s: Few,
    far: u64,
) -> Option<Finding<SeqWitness>>
    requires of { IsRegionOf model.now region.now.region }
    ensures some { IfSome result (IsFinding refutes model.now region.now.region best) }
    ensures busy { IfSome result (λ f. quiet false model.now c region.now.region best → ⊥) }
{
    let w = SeqWitness::Detect {
        c,
        side: side_of(back),
        i: i.0,
        s,
    };
    let test = Reaching::<OnSequence> {
        model,
        region,
        best,
        witness: &w,
        far,
    };
    let guess = ask_end(&test, region, likely_pushed(back, i))?;
    Some(Finding { guess, witness: w })
}

/// What DETECT finds of the member that a hint names, behind those that it names.
pub fn answer_hinted(
    alloc: Global,
    model: &Model,
    region: &Region,
    best: Option<i64>,
    c: u32,
    members: &[Itv],
    hint: Hint,
    ids: &mut Vec<u32>,
) -> Result<Option<Finding<SeqWitness>>, NoMemory>
    requires of { IsRegionOf model.now region.now.region }
    ensures some { IfOk result (λ o. IfSome o (IsFinding refutes model.now region.now.region best)) }
    ensures busy { IfOk result (λ o. IfSome o (λ f. quiet false model.now c region.now.region best → ⊥)) }
{
    if hint.place >= members.len() {
        return Ok(None);
    }
    let s = hinted_ids(alloc, members, &hint.set, ids)?;
    let i = members[hint.place];
    Ok(answer_behind(model, region, best, c, hint.back, i, s, hint.far))
}

/// What a set gives that a member can't come behind all of.
pub fn answer_not_end(
    alloc: Global,
    view: &View<'_>,
    c: u32,
    back: bool,
    members: &[Itv],
    found: &Behind,
    far: u64,
) -> Result<Option<Finding<SeqWitness>>, NoMemory>
    requires of { IsRegionOf view.now.model.now view.now.region.now.region }
    requires busy { IsBusy view.now.model.now view.now.region.now.region view.now.best (member_at members.now found.now.place) (witness.NotEnd c (side_of back) (name_at members.now found.now.place) (ids_of members.now found.now.set.items (length view.now.model.now.intervals))) }
    ensures none { IfOk result (λ o. IfNone o ⊥) }
    ensures some { IfOk result (λ o. IfSome o (IsFinding refutes view.now.model.now view.now.region.now.region view.now.best)) }
    ensures busy { IfOk result (λ o. IfSome o (λ f. quiet true view.now.model.now c view.now.region.now.region view.now.best → ⊥)) }
{
    let s = few_ids(alloc, view.model, members, &found.set)?;
    let i = member_at(members, found.place);
    let w = SeqWitness::NotEnd {
        c,
        side: side_of(back),
        i: i.0,
        s,
    };
    Ok(answer_reaching(
        view.model,
        view.region,
        view.best,
        c,
        i,
        far,
        likely_pushed(!back, i),
        w,
    ))
}

/// What a set gives that a member must come behind all of, by its parts.
pub fn answer_edge(
    alloc: Global,
    view: &View<'_>,
    c: u32,
    back: bool,
    members: &[Itv],
    found: &Cut,
    far: u64,
) -> Result<Option<Finding<SeqWitness>>, NoMemory>
    requires of { IsRegionOf view.now.model.now view.now.region.now.region }
    requires busy { IsBusy view.now.model.now view.now.region.now.region view.now.best (member_at members.now found.now.place) (witness.Edge c (side_of back) (name_at members.now found.now.place) (ids_of members.now found.now.s.items (length view.now.model.now.intervals)) (ids_of members.now found.now.u.items (length view.now.model.now.intervals)) (ids_of members.now found.now.v.items (length view.now.model.now.intervals))) }
    ensures none { IfOk result (λ o. IfNone o ⊥) }
    ensures some { IfOk result (λ o. IfSome o (IsFinding refutes view.now.model.now view.now.region.now.region view.now.best)) }
    ensures busy { IfOk result (λ o. IfSome o (λ f. quiet true view.now.model.now c view.now.region.now.region view.now.best → ⊥)) }
{
    let s = few_ids(alloc, view.model, members, &found.s)?;
    let u = few_ids(alloc, view.model, members, &found.u)?;
    let v = few_ids(alloc, view.model, members, &found.v)?;
    let i = member_at(members, found.place);
    let w = SeqWitness::edge(alloc, c, side_of(back), i.0, s, u, v)?;
    Ok(answer_reaching(
        view.model,
        view.region,
        view.best,
        c,
        i,
        far,
        likely_pushed(back, i),
        w,
    ))
}

/// The side of a row.
fn side_of(back: bool) -> u32
    ensures { result ≡ side_of back }
{
    if back { 1 } else { 0 }
}

/// The guess that a member is pushed later, or sooner.
fn likely_pushed(back: bool, i: Itv) -> Likely
    ensures { result ≡ likely_pushed back i }
{
    if back {
        Likely::EndsSooner(i)
    } else {
        Likely::StartsLater(i)
    }
}
