ghost use Rattle.std.specs.Prelude.{◌≡◌, ◌<◌, ◌≤◌, ◌++◌, ◌∷◌, [], ℕ, length, slice_index_or, if◌then◌else◌, IfOk, OnOk};
ghost use Rattle.region.specs.declared.types.CellName.{CellName as Cell};
ghost use Rattle.engine.specs.code.Watching.{watchers_of};
ghost use Rattle.engine.specs.code.Noted.{Noted, IsPadded, AreListed};

use crate::propagator::Propagator;
use region::CellName;
use sched_base::{Itv, List, NoMemory, Seq};
use sched_model::Model;
use std::alloc::Global;

/// Which propagators watch the presence of which interval, the bounds of which interval, the orders of
/// which sequence, and the best value.
#[derive(Drop)]
pub struct Watchers {
    by_presence: Vec<List<u32>>,
    by_bound: Vec<List<u32>>,
    by_sequence: Vec<List<u32>>,
    by_best: List<u32>,
}

impl std::marker::Model for Watchers {
    ghost use Rattle.engine.specs.code.Watching.{Watching};

    ghost Value = { Watching };

    ghost view = { λ w. record { by_presence = w.by_presence.items; by_bound = w.by_bound.items; by_sequence = w.by_sequence.items; by_best = w.by_best } };
}

/// Adds empty lists until there are more than `n`.
fn pad(alloc: Global, lists: &mut Vec<List<u32>>, n: usize) -> Result<(), NoMemory>
    ensures same { OnOk result (IsPadded lists.old.items lists.new.items) }
    ensures within { OnOk result (n < length lists.new.items) }
{
    while lists.len() <= n {
        lists.push(List::new(alloc))?;
    }
    Ok(())
}

/// Notes a number in one of the lists.
fn note(alloc: Global, lists: &mut Vec<List<u32>>, at: usize, k: u32) -> Result<(), NoMemory>
    ensures { OnOk result (Noted k (λ (n : ℕ). n) (at ∷ []) lists.old.items lists.new.items) }
{
    pad(alloc, lists, at)?;
    lists[at].push(k)?;
    Ok(())
}

fn note_intervals(
    alloc: Global,
    lists: &mut Vec<List<u32>>,
    xs: &[Itv],
    k: u32,
) -> Result<(), NoMemory>
    ensures { OnOk result (Noted k (λ x. x.0) xs.now lists.old.items lists.new.items) }
{
    for x in xs {
        note(alloc, lists, x.0 as usize, k)?;
    }
    Ok(())
}

fn note_sequences(
    alloc: Global,
    lists: &mut Vec<List<u32>>,
    ps: &[Seq],
    k: u32,
) -> Result<(), NoMemory>
    ensures { OnOk result (Noted k (λ p. p.0) ps.now lists.old.items lists.new.items) }
{
    for p in ps {
        note(alloc, lists, p.0 as usize, k)?;
    }
    Ok(())
}

fn push_if(list: &mut List<u32>, yes: bool, k: u32) -> Result<(), NoMemory>
    ensures { OnOk result (list.new ≡ (if yes then list.old ++ k ∷ [] else list.old)) }
{
    if yes {
        list.push(k)?;
    }
    Ok(())
}

fn list_at(lists: &[List<u32>], n: usize) -> &[u32]
    ensures { result.now ≡ slice_index_or lists.now n [] }
{
    match lists.get(n) {
        None => &[],
        Some(list) => list.as_slice(),
    }
}

impl Watchers {
    /// The lists of the propagators, in the length of what they watch.
    pub fn new<P: Propagator>(
        alloc: Global,
        propagators: &P,
        model: &Model,
    ) -> Result<Watchers, NoMemory>
        requires { P.is_of propagators.now model.now }
        ensures { IfOk result (λ w. AreListed (P.size model.now) (P.watching model.now) (P.watching_best model.now) w) }
    {
        let mut by_presence = Vec::new(alloc);
        let mut by_bound = Vec::new(alloc);
        let mut by_sequence = Vec::new(alloc);
        let mut by_best = List::new(alloc);
        for k in 0..propagators.count() {
            note_intervals(alloc, &mut by_presence, propagators.watched_presences(k), k)?;
            note_intervals(alloc, &mut by_bound, propagators.watched_bounds(k), k)?;
            note_sequences(alloc, &mut by_sequence, propagators.watched_orders(k), k)?;
            push_if(&mut by_best, propagators.watches_best(k), k)?;
        }
        Ok(Watchers {
            by_presence,
            by_bound,
            by_sequence,
            by_best,
        })
    }

    /// Who watches a cell, and perhaps others.
    pub fn of(&self, cell: CellName) -> &[u32]
        ensures { result.now ≡ watchers_of self.now cell }
    {
        match cell {
            CellName::Presence(x) => list_at(&self.by_presence, x.0 as usize),
            CellName::StartMin(x) => list_at(&self.by_bound, x.0 as usize),
            CellName::StartMax(x) => list_at(&self.by_bound, x.0 as usize),
            CellName::EndMin(x) => list_at(&self.by_bound, x.0 as usize),
            CellName::EndMax(x) => list_at(&self.by_bound, x.0 as usize),
            CellName::Order(p, _, _) => list_at(&self.by_sequence, p.0 as usize),
        }
    }

    /// Who watches the best value.
    pub fn of_best(&self) -> &[u32]
        ensures { result.now ≡ self.now.by_best }
    {
        self.by_best.as_slice()
    }
}
