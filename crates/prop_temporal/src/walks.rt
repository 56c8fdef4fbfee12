//! What CYCLE finds.
ghost use Rattle.std.specs.Prelude.{◌≡◌, ℕ, List as Seq, get_or, Some, None, ◌<◌, ◌*◌, true, false, length, map, IsTrue, IfOk, IfSome, IfNone, OnOk};
ghost use Rattle.region.specs.Guesses.{admits};
ghost use Rattle.region.specs.Looks.{IsRegionOf, seen_at};
ghost use Rattle.findings.specs.Found.{IsFinding};
ghost use Rattle.refute_basic.specs.declared.arc_name.ArcName.{ArcName as Name};
ghost use Rattle.refute_basic.specs.declared.witness.BasicWitness.TheVariants as basic;
ghost use Rattle.refute_basic.specs.Basic.{refutes};
ghost use Rattle.prop_temporal.specs.code.Tasks.{quiet};
ghost use Rattle.prop_temporal.specs.code.Shown.{AreShown, HasTried, name_at};
ghost use Rattle.refute_basic.specs.laws.Walks.{AllLose};
ghost use Rattle.prop_temporal.specs.code.Heights.{AreTouched, IsReady, OwnKeep, height_in};
ghost use Rattle.prop_temporal.specs.laws.Quieting.{NoWalk, present_at};

use crate::calm::all_fall;
use crate::heights::{hold_with, least_heights};
use crate::shown::Shown;
use cycles::GainSearch;
use findings::Finding;
use refute_basic::{ArcName, BasicWitness};
use region::{Guess, Look, Region};
use sched_base::{Itv, List, NoMemory};
use sched_model::Model;
use std::alloc::Global;

/// Minus the earliest moment of each point: its start, then its end.
fn first_heights(look: &Look<'_>, heights: &mut Vec<i64>) -> Result<(), NoMemory>
    requires { length look.now.region.bounds < 4294967296 }
    ensures { OnOk result (length heights.new.items ≡ 2 * length look.now.region.bounds) }
{
    heights.clear();
    for x in 0..look.len() as u32 {
        heights.push(0i64.saturating_sub(look.est(Itv(x))))?;
        heights.push(0i64.saturating_sub(look.ect(Itv(x))))?;
    }
    Ok(())
}

/// The heights of the last search, or the first ones where there was none.
fn start_heights(look: &Look<'_>, heights: &mut Vec<i64>) -> Result<(), NoMemory>
    requires { length look.now.region.bounds < 4294967296 }
    ensures { OnOk result (length heights.new.items ≡ 2 * length look.now.region.bounds) }
{
    if heights.len() == 2 * look.len() {
        return Ok(());
    }
    first_heights(look, heights)
}

/// Whether the first heights fall along all arcs that the look shows, or else the kept ones; those that do
/// are kept. The first ones mostly do where precedences and orders have pushed all moments that they push,
/// and the kept ones, which are older, hardly ever where these don't.
fn settle(
    model: &Model,
    look: &Look<'_>,
    heights: &mut Vec<i64>,
    first: &mut Vec<i64>,
) -> Result<bool, NoMemory>
    requires of { IsRegionOf model.now look.now.region }
    requires size { length heights.old.items ≡ 2 * length look.now.region.bounds }
    ensures fall { IfOk result (λ b. b ≡ true → AllLose model.now look.now.region (height_in heights.new.items)) }
    ensures size { length heights.new.items ≡ 2 * length look.now.region.bounds }
{
    // Called for its clause alone.
    let _ = model.intervals();
    first_heights(look, first)?;
    if all_fall(model, look, first) {
        std::mem::swap(heights, first);
        return Ok(true);
    }
    Ok(all_fall(model, look, heights))
}

/// The heights that the last search ended with in place of those that it began with.
fn take_heights(search: &GainSearch, heights: &mut Vec<i64>)
    ensures { length heights.new.items ≡ length heights.old.items }
{
    for v in 0..heights.len() {
        heights[v] = search.height(v);
    }
}

fn names_of(alloc: Global, names: &[ArcName], places: &[usize]) -> Result<List<ArcName>, NoMemory>
    requires { (k : ℕ) → k < length places.now → get_or places.now k 0 < length names.now }
    ensures { IfOk result (λ is. is ≡ map (name_at names.now) places.now) }
{
    let mut walk = List::new(alloc);
    for k in places {
        walk.push(names[*k])?;
    }
    Ok(walk)
}

/// A walk along all arcs that the look shows, by which CYCLE refutes it; none exactly where there is
/// none. The heights are those with which the search begins, and those that it ends with where it
/// finds no walk.
fn walk_along(
    alloc: Global,
    search: &mut GainSearch,
    model: &Model,
    look: &Look<'_>,
    shown: &Shown,
    heights: &mut Vec<i64>,
) -> Result<Option<List<ArcName>>, NoMemory>
    requires of { IsRegionOf model.now look.now.region }
    requires shown { AreShown model.now look.now.region shown.now }
    requires tried { HasTried model.now look.now.region (length model.now.constraints) (length look.now.region.bounds) shown.now }
    requires size { length heights.old.items ≡ 2 * length look.now.region.bounds }
    ensures some { IfOk result (λ o. IfSome o (λ is. refutes model.now look.now (basic.Cycle is) ≡ true)) }
    ensures none { IfOk result (λ o. IfNone o ((is : Seq Name) → refutes model.now look.now (basic.Cycle is) ≡ false)) }
    ensures size { length heights.new.items ≡ length heights.old.items }
{
    // Called for its clause alone.
    let _ = model.intervals();
    let Some(places) = search.find(alloc, shown.arcs(), heights)? else {
        take_heights(search, heights);
        return Ok(None);
    };
    Ok(Some(names_of(alloc, shown.names(), places.as_slice())?))
}

/// Whether heights show that no walk gains with interval `x` more, whose constraints these are: it
/// reads the arcs of this interval alone.
fn is_calm_with(
    own: &mut Shown,
    model: &Model,
    look: &Look<'_>,
    x: u32,
    constraints: &[u32],
    heights: &[i64],
) -> Result<bool, NoMemory>
    requires { IsRegionOf model.now look.now.region }
    ensures { IfOk result (λ b. b ≡ true → OwnKeep model.now look.now.region x constraints.now heights.now) }
{
    own.fill_of(model, look, x, constraints)?;
    let pair = least_heights(own.arcs(), heights, x);
    Ok(hold_with(own.arcs(), heights, x, pair))
}

/// The propagator of CYCLE. It keeps the heights of the last search, which mostly serve the next one,
/// and what memory it needs, so that it asks for none where that suffices.
#[derive(Drop)]
pub struct Walks {
    alloc: Global,
    search: GainSearch,
    shown: Shown,
    own: Shown,
    heights: Vec<i64>,
    first: Vec<i64>,
    held: bool,
}

impl std::marker::Model for Walks {
    ghost use Rattle.prop_temporal.specs.code.Heights.{Kept};

    ghost Value = { Kept };

    ghost view = { λ w. record { heights = w.heights.items; held = w.held } };
}

impl Walks {
    pub fn new(alloc: Global) -> Walks {
        Walks {
            alloc,
            search: GainSearch::new(alloc),
            shown: Shown::new(alloc),
            own: Shown::new(alloc),
            heights: Vec::new(alloc),
            first: Vec::new(alloc),
            held: false,
        }
    }

    /// The heights that fall along all arcs of the region that was asked about last, where such are known.
    pub fn held_heights(&self) -> Option<&[i64]> {
        if self.held {
            return Some(self.heights.as_slice());
        }
        None
    }

    /// A walk along all arcs that a look shows.
    fn search_all(
        &mut self,
        model: &Model,
        look: &Look<'_>,
    ) -> Result<Option<List<ArcName>>, NoMemory>
        requires of { IsRegionOf model.now look.now.region }
        requires size { length self.old.heights ≡ 2 * length look.now.region.bounds }
        ensures some { IfOk result (λ o. IfSome o (λ is. refutes model.now look.now (basic.Cycle is) ≡ true)) }
        ensures none { IfOk result (λ o. IfNone o ((is : Seq Name) → refutes model.now look.now (basic.Cycle is) ≡ false)) }
        ensures size { OnOk result (length self.new.heights ≡ length self.old.heights) }
    {
        self.shown.fill(model, look)?;
        walk_along(
            self.alloc,
            &mut self.search,
            model,
            look,
            &self.shown,
            &mut self.heights,
        )
    }

    /// A walk in the region as it stands, between the intervals that are present.
    fn walk_now(
        &mut self,
        model: &Model,
        region: &Region,
        best: Option<i64>,
    ) -> Result<Option<List<ArcName>>, NoMemory>
        requires { IsRegionOf model.now region.now.region }
        ensures some { IfOk result (λ o. IfSome o (λ is. refutes model.now (seen_at region.now.region best None) (basic.Cycle is) ≡ true)) }
        ensures none { IfOk result (λ o. IfNone o (NoWalk model.now region.now.region best None)) }
        ensures ready { OnOk result (IsReady model.now region.now.region self.new) }
    {
        // Called for its clause alone.
        let _ = model.intervals();
        let look = region.look(None, best);
        start_heights(&look, &mut self.heights)?;
        self.held = settle(model, &look, &mut self.heights, &mut self.first)?;
        if self.held {
            return Ok(None);
        }
        let walk = self.search_all(model, &look)?;
        self.held = all_fall(model, &look, &self.heights);
        Ok(walk)
    }

    /// Whether the heights show that there is no walk in the region with an interval more, whose arcs
    /// alone are read for this.
    fn is_calm(
        &mut self,
        model: &Model,
        region: &Region,
        best: Option<i64>,
        n: u32,
        touching: &[List<u32>],
    ) -> Result<bool, NoMemory>
        requires of { IsRegionOf model.now region.now.region }
        requires admitted { IsTrue (admits region.now.region (present_at n)) }
        requires touching { AreTouched model.now touching.now }
        requires within { n < length touching.now }
        requires ready { IsReady model.now region.now.region self.old }
        ensures calm { IfOk result (λ b. b ≡ true → NoWalk model.now region.now.region best (Some (present_at n))) }
        ensures same { self.new ≡ self.old }
    {
        if !self.held {
            return Ok(false);
        }
        let look = region.look(Some(Guess::Present(Itv(n))), best);
        let constraints = touching[n as usize].as_slice();
        let calm = is_calm_with(&mut self.own, model, &look, n, constraints, &self.heights)?;
        Ok(calm)
    }

    /// A walk in the region with an interval more, along all arcs.
    fn search_with(
        &mut self,
        model: &Model,
        region: &Region,
        best: Option<i64>,
        n: u32,
    ) -> Result<Option<List<ArcName>>, NoMemory>
        requires of { IsRegionOf model.now region.now.region }
        requires admitted { IsTrue (admits region.now.region (present_at n)) }
        requires ready { IsReady model.now region.now.region self.old }
        ensures some { IfOk result (λ o. IfSome o (λ is. refutes model.now (seen_at region.now.region best (Some (present_at n))) (basic.Cycle is) ≡ true)) }
        ensures none { IfOk result (λ o. IfNone o (NoWalk model.now region.now.region best (Some (present_at n)))) }
        ensures ready { OnOk result (IsReady model.now region.now.region self.new) }
    {
        // Called for its clause alone.
        let _ = model.intervals();
        let look = region.look(Some(Guess::Present(Itv(n))), best);
        let walk = self.search_all(model, &look)?;
        self.held = all_fall(model, &region.look(None, best), &self.heights);
        Ok(walk)
    }

    /// A walk in the region with an interval more.
    fn walk_with(
        &mut self,
        model: &Model,
        region: &Region,
        best: Option<i64>,
        n: u32,
        touching: &[List<u32>],
    ) -> Result<Option<List<ArcName>>, NoMemory>
        requires of { IsRegionOf model.now region.now.region }
        requires admitted { IsTrue (admits region.now.region (present_at n)) }
        requires touching { AreTouched model.now touching.now }
        requires within { n < length touching.now }
        requires ready { IsReady model.now region.now.region self.old }
        ensures some { IfOk result (λ o. IfSome o (λ is. refutes model.now (seen_at region.now.region best (Some (present_at n))) (basic.Cycle is) ≡ true)) }
        ensures none { IfOk result (λ o. IfNone o (NoWalk model.now region.now.region best (Some (present_at n)))) }
        ensures ready { OnOk result (IsReady model.now region.now.region self.new) }
    {
        if self.is_calm(model, region, best, n, touching)? {
            return Ok(None);
        }
        let walk = self.search_with(model, region, best, n)?;
        Ok(walk)
    }

    /// What CYCLE finds; nothing exactly where it is quiet.
    #[inline(never)]
    pub fn next(
        &mut self,
        model: &Model,
        region: &Region,
        best: Option<i64>,
        touching: &[List<u32>],
    ) -> Result<Option<Finding<BasicWitness>>, NoMemory>
        requires of { IsRegionOf model.now region.now.region }
        requires touching { AreTouched model.now touching.now }
        ensures none { IfOk result (λ o. IfNone o (quiet model.now 0 region.now.region best)) }
        ensures some { IfOk result (λ o. IfSome o (IsFinding refutes model.now region.now.region best)) }
        ensures busy { IfOk result (λ o. IfSome o (λ f. quiet model.now 0 region.now.region best → ⊥)) }
    {
        // Called for its clause alone.
        let _ = model.intervals();
        if let Some(arcs) = self.walk_now(model, region, best)? {
            return Ok(Some(Finding {
                guess: None,
                witness: BasicWitness::Cycle { arcs },
            }));
        }
        for n in 0..touching.len() as u32 {
            let g = Guess::Present(Itv(n));
            if !region.admits(g) {
                continue;
            }
            if let Some(arcs) = self.walk_with(model, region, best, n, touching)? {
                return Ok(Some(Finding {
                    guess: Some(g),
                    witness: BasicWitness::Cycle { arcs },
                }));
            }
        }
        Ok(None)
    }
}
