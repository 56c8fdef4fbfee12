//! What was known of the intervals of demands when nothing was found of them last, and which demands
//! are asked again since it has changed.
ghost use Rattle.std.specs.Prelude.{◌≡◌, ◌≤◌, true, length, Some, IfOk};
ghost use Rattle.region.specs.Cells.{bounds_of};
ghost use Rattle.prop_state.specs.code.Walks.{AreNamed};
ghost use Rattle.prop_state.specs.code.Known.{remembered, AreFresh, Remembers};

use crate::demands::Named;
use region::{Bounds, Presence, Region};
use sched_base::{Itv, List, NoMemory, at};
use sched_model::Model;
use std::alloc::Global;

/// Those of an interval of which nothing is known.
const UNKNOWN: Bounds = Bounds {
    presence: Presence::Maybe,
    smin: 0,
    smax: 0,
    emin: 0,
    emax: 0,
    pmin: 0,
    pmax: 0,
};

/// The bounds of an interval; of one that isn't there nothing is known.
fn bounds_in(region: &Region, x: Itv) -> Bounds
    ensures { result ≡ bounds_of region.now.region x }
{
    let look = region.look(None, None);
    if x.0 as usize >= look.len() {
        return UNKNOWN;
    }
    look.bounds(x)
}

fn is_same_presence(a: Presence, b: Presence) -> bool
    ensures { result ≡ true → a ≡ b }
{
    match a {
        Presence::Absent => b == Presence::Absent,
        Presence::Maybe => b == Presence::Maybe,
        Presence::Present => b == Presence::Present,
    }
}

fn is_same(a: Bounds, b: Bounds) -> bool
    ensures { result ≡ true → a ≡ b }
{
    if !is_same_presence(a.presence, b.presence) {
        return false;
    }
    a.smin == b.smin
        && a.smax == b.smax
        && a.emin == b.emin
        && a.emax == b.emax
        && a.pmin == b.pmin
        && a.pmax == b.pmax
}

/// Whether these are the bounds that are remembered at a place.
fn is_remembered(known: &Option<List<Bounds>>, i: usize, now: Bounds) -> bool
    ensures { result ≡ true → remembered known.now i ≡ Some now }
{
    let Some(list) = known else {
        return false;
    };
    match at(list.as_slice(), i) {
        None => false,
        Some(old) => is_same(*old, now),
    }
}

/// Puts together the demands whose intervals aren't as they are remembered.
#[tactic(auto, using(crate::proofs::Remembering::fresh_none, crate::proofs::Remembering::fresh_known, crate::proofs::Remembering::fresh_more, crate::proofs::Remembering::fresh_all))]
pub fn note_fresh(
    model: &Model,
    region: &Region,
    k: u32,
    cs: &[u32],
    notes: &[Named],
    known: &Option<List<Bounds>>,
    fresh: &mut Vec<u32>,
    others: &mut Vec<Named>,
) -> Result<(), NoMemory>
    requires room { length cs.now ≤ length notes.now }
    requires noted { AreNamed model.now region.now.region k cs.now notes.now }
    ensures { IfOk result (λ u. AreFresh model.now region.now.region k cs.now notes.now known.now (length cs.now) fresh.new.items others.new.items) }
{
    let _ = model;
    let _ = k;
    fresh.clear();
    others.clear();
    for i in 0..cs.len() {
        if is_remembered(known, i, bounds_in(region, notes[i].demand.x)) {
            continue;
        }
        fresh.push(cs[i])?;
        others.push(notes[i])?;
    }
    Ok(())
}

/// The bounds of the first demands.
#[tactic(auto, using(crate::proofs::Remembering::remembers_none, crate::proofs::Remembering::remembers_more))]
pub fn remember(
    alloc: Global,
    region: &Region,
    notes: &[Named],
    n: usize,
) -> Result<List<Bounds>, NoMemory>
    requires { n ≤ length notes.now }
    ensures { IfOk result (λ bs. Remembers region.now.region n notes.now bs) }
{
    let mut list = Vec::with_capacity(alloc, n)?;
    for i in 0..n {
        list.push(bounds_in(region, notes[i].demand.x))?;
    }
    Ok(List::from_vec(list))
}
