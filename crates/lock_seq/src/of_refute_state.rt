//! The refuter of state functions, and their canonical segments.
ghost use Rattle.std.specs.Prelude.{◌≡◌, IsTrue, true, length, ◌<◌, Some, slice_get, IfOk, IfSome, IfNone};
ghost use Rattle.std.specs.List.{list_all};
ghost use Rattle.sched_model.specs.Valid.{IsValid};
ghost use Rattle.sched_model.specs.Data.{Data};
ghost use Rattle.sched_model.specs.declared.types.Assignment.{Assignment};
ghost use Rattle.region.specs.Looks.{IsRegionOf, HasNoneOf, Seen};
ghost use Rattle.region.specs.laws.Pinned.{IsSettledTo};
ghost use Rattle.refute_state.specs.laws.Canonical.{KeepsStates};
ghost use Rattle.refute_state.specs.laws.Making.{DemandsAreGrouped};
ghost use Rattle.refute_state.specs.laws.Longest.{SegmentsAreLongest};
ghost use Rattle.refute_state.specs.OnState.{refutes};
ghost use Rattle.refute_state.specs.Named.{named};
ghost use Rattle.refute_state.specs.code.Canonical.{settled_segments, canonical};
ghost use Rattle.refute_state.specs.laws.Whole.{keeps_state, NoneRefutes};
ghost use Rattle.refute_state.specs.Witness.{is_valid, numbers_of};
ghost use Rattle.refute_state.specs.declared.witness.StateWitness.{StateWitness as Witnesses};
ghost use Rattle.refute_state.specs.code.Gathered.{demands_of};
ghost use Rattle.refute_state.specs.Demands.{demand_at, demand_gap};
ghost use Rattle.refute_state.specs.State.{state_pair};
ghost use Rattle.refute_state.specs.State3.{state_triple};
ghost use Rattle.refute_state.specs.Times.{is_long, is_late};

use refute_state::{Demand, OnState, StateWitness};
use region::{Look, Numbers, Refuter};
use sched_base::{Itv, List, NoMemory};
use sched_model::{Model, Segment, Slot};
use std::alloc::Global;

pub fn refutes(model: &Model, look: &Look<'_>, w: &StateWitness) -> bool
    requires { IsRegionOf model.now look.now.region }
    ensures { result ≡ refutes model.now look.now w.now }
{
    OnState::refutes(model, look, w)
}

/// By the law of the refuter: where it answers yes, no better solution is allowed.
#[tactic(auto, using(refute_state::specs::laws::Sound::sound_law))]
pub fn refutes_soundly(model: &Model, look: &Look<'_>, by: &StateWitness) -> bool
    requires of { IsRegionOf model.now look.now.region }
    requires valid { IsValid model.now }
    ensures { IsTrue result → HasNoneOf model.now (named by.now) look.now }
{
    OnState::refutes(model, look, by)
}

/// A law of `canonical`: with these segments a settled look that nothing refutes keeps each
/// state constraint.
pub fn canonical_segments_keep_states()
    ensures { (m : Data) (l : Seen) (a : Assignment) → IsValid m → IsSettledTo m l.region a → a.segs ≡ settled_segments m l.region → NoneRefutes m l → list_all (keeps_state m a) m.constraints ≡ true }
{}

pub fn valid(w: &StateWitness) -> bool
    ensures { result ≡ is_valid w.now }
{
    w.valid()
}

pub fn count(w: &StateWitness) -> usize
    ensures { result ≡ length (numbers_of w.now) }
{
    w.count()
}

pub fn number(w: &StateWitness, i: usize) -> i64
    requires { i < length (numbers_of w.now) }
    ensures { slice_get (numbers_of w.now) i ≡ Some result }
{
    w.number(i)
}

pub fn from_numbers(alloc: Global, list: &[i64]) -> Result<Option<StateWitness>, NoMemory>
    ensures some { IfOk result (λ o. IfSome o (λ w. (numbers_of w ≡ list.now) × IsTrue (is_valid w))) }
    ensures none { IfOk result (λ o. IfNone o ((w : Witnesses) → IsTrue (is_valid w) → numbers_of w ≡ list.now → ⊥)) }
{
    StateWitness::from_numbers(alloc, list)
}

pub fn canonical(
    alloc: Global,
    model: &Model,
    slots: &[Slot],
) -> Result<List<List<Segment>>, NoMemory>
    ensures segments { IfOk result (λ ss. ss ≡ canonical model.now slots.now) }
    ensures keeps { IfOk result (KeepsStates model.now slots.now) }
{
    refute_state::canonical(alloc, model, slots)
}

pub fn demands_of(alloc: Global, model: &Model, g: u32) -> Result<Vec<u32>, NoMemory>
    ensures { IfOk result (λ cs. cs.items ≡ demands_of model.now g) }
{
    refute_state::demands_of(alloc, model, g)
}

pub fn demand_at(model: &Model, c: u32) -> Option<Demand>
    ensures { result ≡ demand_at model.now c }
{
    refute_state::demand_at(model, c)
}

pub fn demand_gap(model: &Model, a: Demand, b: Demand) -> i64
    ensures { result ≡ demand_gap model.now a b }
{
    refute_state::demand_gap(model, a, b)
}

pub fn state_pair(model: &Model, look: &Look<'_>, a: Demand, b: Demand) -> bool
    ensures { result ≡ state_pair model.now look.now.region a b }
{
    refute_state::state_pair(model, look, a, b)
}

pub fn state_triple(model: &Model, look: &Look<'_>, a: Demand, x: Demand, b: Demand) -> bool
    ensures { result ≡ state_triple model.now look.now.region a x b }
{
    refute_state::state_triple(model, look, a, x, b)
}

pub fn is_long(look: &Look<'_>, x: Itv) -> bool
    ensures { result ≡ is_long look.now.region x }
{
    refute_state::is_long(look, x)
}

pub fn is_late(look: &Look<'_>, x: Itv, d: i64, y: Itv) -> bool
    requires first { x.0 < length look.now.region.bounds }
    requires second { y.0 < length look.now.region.bounds }
    ensures { result ≡ is_late look.now.region x d y }
{
    refute_state::is_late(look, x, d, y)
}

pub fn demands_are_grouped()
    ensures { DemandsAreGrouped }
{
    refute_state::demands_are_grouped();
}

pub fn segments_are_longest()
    ensures { SegmentsAreLongest }
{
    refute_state::segments_are_longest();
}
