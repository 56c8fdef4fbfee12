//! Where the intervals of an expression stand among its nodes.
ghost use Rattle.std.specs.Prelude.{◌≡◌, ◌≤◌, ◌<◌, ◌+◌, ◌^◌, length, true, false, IfOk, OnOk, IsTrue, nat_lt};
ghost use Rattle.std.specs.List.Sorted.{IsNonDecreasingBy, IsPartitionPoint, IsPermutation};
ghost use Rattle.sched_model.specs.Data.{has};
ghost use Rattle.hull_tree.specs.code.Atoms.{AreAtoms, HasAtomsBelow, HasIntervals, IsClear, key_at, key_of};

use crate::nodes::{Node, Span, named};
use crate::put::next_place;
use sched_base::{Itv, NoMemory};
use std::alloc::Global;

/// A node that tells of an interval.
#[derive(Clone, Copy, Debug, PartialEq, Eq)]
pub struct Atom {
    pub interval: Itv,
    pub place: u32,
}

/// Atoms are in the order of their intervals, and those of one interval in that of their places.
pub fn key_at(x: Itv, place: u32) -> u64
    ensures { result ≡ key_at x place }
{
    u64::from(x.0) * 4_294_967_296 + u64::from(place)
}

pub fn key_of(atom: Atom) -> u64
    ensures { result ≡ key_of atom }
{
    key_at(atom.interval, atom.place)
}

fn sort(atoms: &mut [Atom])
    ensures moved { IsPermutation atoms.old atoms.new }
    ensures rising { IsNonDecreasingBy key_of atoms.new }
{
    atoms.sort_unstable_by_key(|a| key_of(*a));
}

/// The atoms in the order of the nodes.
#[tactic(auto, using(crate::proofs::Found::none_yet, crate::proofs::Found::one_more, crate::proofs::Found::no_more))]
fn find_atoms(alloc: Global, nodes: &[Node]) -> Result<Vec<Atom>, NoMemory>
    ensures { IfOk result (λ v. HasAtomsBelow nodes.now (length nodes.now) v.items) }
{
    let mut atoms = Vec::new(alloc);
    for place in 0..next_place(nodes)? {
        if let Some(interval) = named(nodes[place as usize]) {
            atoms.push(Atom { interval, place })?;
        }
    }
    Ok(atoms)
}

/// The atoms of all intervals, found in one pass.
#[tactic(auto, using(crate::proofs::Found::sorted_atoms))]
pub fn atoms_of(alloc: Global, nodes: &[Node]) -> Result<Vec<Atom>, NoMemory>
    ensures { IfOk result (λ v. AreAtoms nodes.now v.items) }
{
    let mut atoms = find_atoms(alloc, nodes)?;
    sort(atoms.as_mut_slice());
    Ok(atoms)
}

/// Puts an interval on a list, unless it is the last one there.
#[tactic(auto, using(sched_model::specs::laws::Members::has_last, crate::proofs::Found::has_still))]
fn note(list: &mut Vec<Itv>, x: Itv) -> Result<(), NoMemory>
    ensures kept { OnOk result ((z : Itv) → IsTrue (has list.old.items z) → IsTrue (has list.new.items z)) }
    ensures noted { OnOk result (IsTrue (has list.new.items x)) }
{
    if let Some(last) = list.as_slice().last() {
        if last.0 == x.0 {
            return Ok(());
        }
    }
    list.push(x)?;
    Ok(())
}

/// The intervals of atoms, each once.
#[tactic(auto, using(crate::proofs::Found::intervals_none, crate::proofs::Found::intervals_more))]
pub fn intervals_of(alloc: Global, atoms: &[Atom]) -> Result<Vec<Itv>, NoMemory>
    ensures { IfOk result (λ v. HasIntervals (length atoms.now) atoms.now v.items) }
{
    let mut list = Vec::new(alloc);
    for atom in atoms {
        note(&mut list, atom.interval)?;
    }
    Ok(list)
}

/// How many atoms have a key below this one. They come first, and are counted by halving.
pub fn count_below(atoms: &[Atom], key: u64) -> usize
    requires { IsNonDecreasingBy key_of atoms.now }
    ensures bound { result ≤ length atoms.now }
    ensures point { IsPartitionPoint (λ a. nat_lt (key_of a) key ≡ true) (λ a. nat_lt (key_of a) key ≡ false) atoms.now result }
{
    atoms.partition_point(|a| key_of(*a) < key)
}

/// Whether an interval has an atom in a span, by a search among all atoms.
#[inline(never)]
#[tactic(auto, using(crate::proofs::Found::clear_end))]
pub fn reaches(atoms: &[Atom], x: Itv, span: Span) -> bool
    requires { IsNonDecreasingBy key_of atoms.now }
    ensures { result ≡ false → IsClear atoms.now x span }
{
    let i = count_below(atoms, key_at(x, span.first));
    if i >= atoms.len() {
        return false;
    }
    key_of(atoms[i]) <= key_at(x, span.last)
}
