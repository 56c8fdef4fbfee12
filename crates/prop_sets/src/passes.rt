//! What the passes find of rows, with the sets that show it.
ghost use Rattle.std.specs.Prelude.{◌≡◌, ◌⊎◌, ℕ, ◌<◌, ◌≤◌, ◌∷◌, List, true, false, None, Some, length, IfOk, IfNone, IfSome};
ghost use Rattle.task_sets.specs.Times.{IsSized, has};
ghost use Rattle.theta_passes.specs.code.Rows.{row_at, times_at, is_candidate, is_present, IsNearRow, IsByEst};
ghost use Rattle.theta_passes.specs.code.Over.{NoOverloads, Overfull, OverPass};
ghost use Rattle.theta_passes.specs.code.Edge.{PassOrNone, IsOrder, IsFound};
ghost use Rattle.theta_passes.specs.code.Late.{LatePass, IsLow};
ghost use Rattle.prop_sets.specs.code.Orders.{AreSpanned};
ghost use Rattle.prop_sets.specs.code.Busy.{IsOverFound, IsEdgeFound, IsLateFound};

use crate::orders::{By, Keyed, order_by};
use sched_base::NoMemory;
use std::alloc::Global;
use theta_passes::edge::edge_pass;
use theta_passes::late::late_pass;
use theta_passes::leaves::{start_edge, start_late, start_over, tree_of};
use theta_passes::over::over_pass;
use theta_passes::scan::{edge_scan, late_scan};
use theta_passes::witnesses::{EdgeSets, edge_sets, late_set, over_scan, overload_set};
use theta_passes::{Presence, Row};

/// Of so many members a scan is sooner than a pass over the tree.
const FEW: usize = 128;

/// A member, and a set of others.
#[derive(Debug, Drop)]
pub struct Behind {
    pub place: u32,
    pub set: Vec<u32>,
}

/// A member, and the sets by which it can't end before all of one of them do.
#[derive(Debug, Drop)]
pub struct Cut {
    pub place: u32,
    pub s: Vec<u32>,
    pub u: Vec<u32>,
    pub v: Vec<u32>,
}

/// One of a set that overloads: the member that is asked about, or else one that is present.
#[tactic(auto, using(crate::proofs::Shown::none_seen, crate::proofs::Shown::more_seen, crate::proofs::Shown::one_seen, crate::proofs::Shown::all_seen, crate::proofs::Shown::first_there))]
fn one_of(set: &[u32], k: u32) -> u32
    requires { (x : ℕ) × (xs : List ℕ) × (set.now ≡ x ∷ xs) }
    ensures there { has set.now result ≡ true }
    ensures which { (result ≡ k) ⊎ (has set.now k ≡ false) }
{
    for j in 0..set.len() {
        if set[j] == k {
            return k;
        }
    }
    set[0]
}

/// The same where it may be that no member is asked about.
#[tactic(auto, using(crate::proofs::Shown::first_there))]
fn place_in(set: &[u32], with: Option<u32>) -> u32
    requires { (x : ℕ) × (xs : List ℕ) × (set.now ≡ x ∷ xs) }
    ensures there { has set.now result ≡ true }
    ensures which { IfSome with (λ k. (result ≡ k) ⊎ (has set.now k ≡ false)) }
{
    match with {
        Some(k) => one_of(set, k),
        None => set[0],
    }
}

/// The set of an overload that is found.
#[tactic(auto, using(crate::proofs::Shown::set_of_one, crate::proofs::Shown::over_shown))]
fn shown_overload(alloc: Global, rows: &[Row], with: Option<u32>) -> Result<Behind, NoMemory>
    requires few { length rows.now ≤ 500 }
    requires near { (k : ℕ) → IsNearRow (row_at rows.now k) }
    requires sorted { IsByEst rows.now }
    requires found { Overfull rows.now with }
    ensures { IfOk result (λ b. IsOverFound rows.now b.place b.set.items) }
{
    let set = overload_set(alloc, rows, with)?;
    let place = place_in(&set, with);
    Ok(Behind { place, set })
}

/// Whether of each member it is known that it is present, or that it is absent.
#[tactic(auto, using(crate::proofs::Shown::none_open, crate::proofs::Shown::more_closed, crate::proofs::Shown::all_closed))]
fn are_closed(rows: &[Row]) -> bool
    ensures { result ≡ true → (k : ℕ) → is_candidate rows.now k ≡ is_present rows.now k }
{
    for k in 0..rows.len() {
        if rows[k].presence == Presence::Maybe {
            return false;
        }
    }
    true
}

/// An overload of the present members and perhaps one more, by the pass over the tree.
#[tactic(auto, using(crate::proofs::Shown::are_bounded, crate::proofs::Shown::is_falling))]
fn over_by_tree(alloc: Global, rows: &[Row]) -> Result<Option<Option<u32>>, NoMemory>
    requires few { length rows.now ≤ 500 }
    requires near { (k : ℕ) → IsNearRow (row_at rows.now k) }
    requires sized { IsSized (times_at rows.now) }
    requires sorted { IsByEst rows.now }
    requires spanned { AreSpanned rows.now }
    ensures { IfOk result (OverPass rows.now) }
{
    let (mut keyed, mut order) = (Vec::new(alloc), Vec::new(alloc));
    order_by(&mut keyed, &mut order, rows, By::Falling)?;
    let mut tree = tree_of(alloc, rows)?;
    start_over(&mut tree, rows);
    Ok(over_pass(&mut tree, rows, &order))
}

fn overloaded(alloc: Global, rows: &[Row]) -> Result<Option<Option<u32>>, NoMemory>
    requires few { length rows.now ≤ 500 }
    requires near { (k : ℕ) → IsNearRow (row_at rows.now k) }
    requires sized { IsSized (times_at rows.now) }
    requires sorted { IsByEst rows.now }
    requires spanned { AreSpanned rows.now }
    ensures { IfOk result (OverPass rows.now) }
{
    if rows.len() <= FEW && are_closed(rows) {
        return Ok(over_scan(rows));
    }
    over_by_tree(alloc, rows)
}

/// A set of present members and perhaps one more that overloads, or that there is none.
pub fn find_overload(alloc: Global, rows: &[Row]) -> Result<Option<Behind>, NoMemory>
    requires few { length rows.now ≤ 500 }
    requires near { (k : ℕ) → IsNearRow (row_at rows.now k) }
    requires sized { IsSized (times_at rows.now) }
    requires sorted { IsByEst rows.now }
    requires spanned { AreSpanned rows.now }
    ensures some { IfOk result (λ o. IfSome o (λ b. IsOverFound rows.now b.place b.set.items)) }
    ensures none { IfOk result (λ o. IfNone o (NoOverloads rows.now)) }
{
    let Some(with) = overloaded(alloc, rows)? else {
        return Ok(None);
    };
    let found = shown_overload(alloc, rows, with)?;
    Ok(Some(found))
}

/// The sets of a member that a cut finds.
#[tactic(auto, using(crate::proofs::Shown::edge_shown))]
fn shown_edge(alloc: Global, rows: &[Row], order: &[u32], i: u32) -> Result<Cut, NoMemory>
    requires few { length rows.now ≤ 500 }
    requires near { (k : ℕ) → IsNearRow (row_at rows.now k) }
    requires sorted { IsByEst rows.now }
    requires none { NoOverloads rows.now }
    requires order { IsOrder rows.now order.now }
    requires within { i < length rows.now }
    requires found { IsFound rows.now i }
    ensures { IfOk result (λ c. IsEdgeFound rows.now c.place c.s.items c.u.items c.v.items) }
{
    let EdgeSets {
        set,
        filling,
        pushing,
    } = edge_sets(alloc, rows, order, i)?;
    Ok(Cut {
        place: i,
        s: set,
        u: filling,
        v: pushing,
    })
}

/// A member that some cut finds, by the pass over the tree.
#[tactic(auto, using(crate::proofs::Shown::are_bounded, crate::proofs::Shown::none_alone))]
fn cut_by_tree(alloc: Global, rows: &[Row], order: &[u32]) -> Result<Option<u32>, NoMemory>
    requires few { length rows.now ≤ 500 }
    requires near { (k : ℕ) → IsNearRow (row_at rows.now k) }
    requires sized { IsSized (times_at rows.now) }
    requires sorted { IsByEst rows.now }
    requires spanned { AreSpanned rows.now }
    requires overloads { NoOverloads rows.now }
    requires order { IsOrder rows.now order.now }
    ensures { IfOk result (PassOrNone rows.now) }
{
    let mut tree = tree_of(alloc, rows)?;
    start_edge(&mut tree, rows);
    Ok(edge_pass(&mut tree, rows, order))
}

/// The same, by a scan where there are few members.
#[tactic(auto, using(crate::proofs::Shown::is_cut_order))]
fn cut_member(alloc: Global, rows: &[Row]) -> Result<Option<u32>, NoMemory>
    requires few { length rows.now ≤ 500 }
    requires near { (k : ℕ) → IsNearRow (row_at rows.now k) }
    requires sized { IsSized (times_at rows.now) }
    requires sorted { IsByEst rows.now }
    requires spanned { AreSpanned rows.now }
    requires overloads { NoOverloads rows.now }
    ensures { IfOk result (PassOrNone rows.now) }
{
    if rows.len() <= FEW {
        return Ok(edge_scan(rows));
    }
    let (mut keyed, mut order) = (Vec::new(alloc), Vec::new(alloc));
    order_by(&mut keyed, &mut order, rows, By::FallingPresent)?;
    cut_by_tree(alloc, rows, &order)
}

/// A member that some cut finds, or none finds any.
#[tactic(auto, using(crate::proofs::Shown::is_cut_order, crate::proofs::Shown::found_within))]
pub fn find_edge(
    alloc: Global,
    keyed: &mut Vec<Keyed>,
    order: &mut Vec<u32>,
    rows: &[Row],
) -> Result<Option<Cut>, NoMemory>
    requires few { length rows.now ≤ 500 }
    requires near { (k : ℕ) → IsNearRow (row_at rows.now k) }
    requires sized { IsSized (times_at rows.now) }
    requires sorted { IsByEst rows.now }
    requires spanned { AreSpanned rows.now }
    requires overloads { NoOverloads rows.now }
    ensures some { IfOk result (λ o. IfSome o (λ c. IsEdgeFound rows.now c.place c.s.items c.u.items c.v.items)) }
    ensures none { IfOk result (λ o. IfNone o (PassOrNone rows.now None)) }
{
    let Some(i) = cut_member(alloc, rows)? else {
        return Ok(None);
    };
    order_by(keyed, order, rows, By::FallingPresent)?;
    let found = shown_edge(alloc, rows, order, i)?;
    Ok(Some(found))
}

/// The set behind which a member starts too late.
#[tactic(auto, using(crate::proofs::Shown::late_shown))]
fn shown_late(alloc: Global, rows: &[Row], i: u32) -> Result<Behind, NoMemory>
    requires few { length rows.now ≤ 500 }
    requires near { (k : ℕ) → IsNearRow (row_at rows.now k) }
    requires sorted { IsByEst rows.now }
    requires within { i < length rows.now }
    requires found { LatePass rows.now (Some i) }
    ensures { IfOk result (λ b. IsLateFound rows.now b.place b.set.items) }
{
    let set = late_set(alloc, rows, i)?;
    Ok(Behind { place: i, set })
}

/// A member that is late, by the pass over the tree.
#[tactic(auto, using(crate::proofs::Shown::is_rising))]
fn late_by_tree(alloc: Global, rows: &[Row]) -> Result<Option<u32>, NoMemory>
    requires few { length rows.now ≤ 500 }
    requires near { (k : ℕ) → IsNearRow (row_at rows.now k) }
    requires sized { IsSized (times_at rows.now) }
    requires sorted { IsByEst rows.now }
    requires spanned { AreSpanned rows.now }
    requires low { IsLow rows.now }
    ensures { IfOk result (LatePass rows.now) }
{
    let (mut keyed, mut order) = (Vec::new(alloc), Vec::new(alloc));
    order_by(&mut keyed, &mut order, rows, By::Rising)?;
    let mut tree = tree_of(alloc, rows)?;
    start_late(&mut tree, rows);
    Ok(late_pass(&mut tree, rows, &order))
}

fn late_member(alloc: Global, rows: &[Row]) -> Result<Option<u32>, NoMemory>
    requires few { length rows.now ≤ 500 }
    requires near { (k : ℕ) → IsNearRow (row_at rows.now k) }
    requires sized { IsSized (times_at rows.now) }
    requires sorted { IsByEst rows.now }
    requires spanned { AreSpanned rows.now }
    requires low { IsLow rows.now }
    ensures { IfOk result (LatePass rows.now) }
{
    if rows.len() <= FEW {
        return Ok(late_scan(rows));
    }
    late_by_tree(alloc, rows)
}

/// A member that is late behind a set, or none is.
#[tactic(auto, using(crate::proofs::Shown::late_within))]
pub fn find_late(alloc: Global, rows: &[Row]) -> Result<Option<Behind>, NoMemory>
    requires few { length rows.now ≤ 500 }
    requires near { (k : ℕ) → IsNearRow (row_at rows.now k) }
    requires sized { IsSized (times_at rows.now) }
    requires sorted { IsByEst rows.now }
    requires spanned { AreSpanned rows.now }
    requires low { IsLow rows.now }
    ensures some { IfOk result (λ o. IfSome o (λ b. IsLateFound rows.now b.place b.set.items)) }
    ensures none { IfOk result (λ o. IfNone o (LatePass rows.now None)) }
{
    let Some(i) = late_member(alloc, rows)? else {
        return Ok(None);
    };
    let found = shown_late(alloc, rows, i)?;
    Ok(Some(found))
}
