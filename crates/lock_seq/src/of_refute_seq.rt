//! The refuter of sequences, and the orders that a settled region leaves.
ghost use Rattle.std.specs.Prelude.{◌≡◌, IsTrue, IfOk, true, length, ◌<◌, Some, slice_get, IfSome, IfNone, [], ◌∷◌, ◌++◌, OnOk, OnErr};
ghost use Rattle.std.specs.List.{list_all};
ghost use Rattle.sched_model.specs.Valid.{IsValid};
ghost use Rattle.sched_model.specs.Data.{Data};
ghost use Rattle.sched_model.specs.declared.types.Assignment.{Assignment};
ghost use Rattle.region.specs.Looks.{IsRegionOf, HasNoneOf, Seen};
ghost use Rattle.region.specs.Cells.{cells_of};
ghost use Rattle.region.specs.laws.Pinned.{IsSettledTo};
ghost use Rattle.refute_seq.specs.OnSequence.{refutes};
ghost use Rattle.refute_seq.specs.Named.{named};
ghost use Rattle.refute_seq.specs.code.Order.{settled_order, settled_orders};
ghost use Rattle.refute_seq.specs.laws.Ordered.{IsSettledLook};
ghost use Rattle.refute_seq.specs.laws.Whole.{keeps_apart};
ghost use Rattle.refute_seq.specs.Standing.{is_away};
ghost use Rattle.refute_seq.specs.Witness.{is_valid, numbers_of};
ghost use Rattle.refute_seq.specs.declared.witness.SeqWitness.{SeqWitness as Witnesses};
ghost use Rattle.refute_seq.specs.declared.witness.SeqWitness.TheVariants as witness;

use refute_seq::{Few, OnSequence, SeqWitness};
use region::{Look, Numbers, Refuter};
use sched_base::{Itv, List, NoMemory, Seq};
use sched_model::Model;
use std::alloc::Global;

pub fn refutes(model: &Model, look: &Look<'_>, w: &SeqWitness) -> bool
    requires { IsRegionOf model.now look.now.region }
    ensures { result ≡ refutes model.now look.now w.now }
{
    OnSequence::refutes(model, look, w)
}

/// By the law of the refuter: where it answers yes, no better solution is allowed.
#[tactic(auto, using(refute_seq::specs::laws::Sound::sound_law))]
pub fn refutes_soundly(model: &Model, look: &Look<'_>, by: &SeqWitness) -> bool
    requires of { IsRegionOf model.now look.now.region }
    requires valid { IsValid model.now }
    ensures { IsTrue result → HasNoneOf model.now (named by.now) look.now }
{
    OnSequence::refutes(model, look, by)
}

pub fn settled_order(
    alloc: Global,
    model: &Model,
    look: &Look<'_>,
    p: Seq,
) -> Result<List<Itv>, NoMemory>
    requires { IsRegionOf model.now look.now.region }
    ensures { IfOk result (λ xs. xs ≡ settled_order look.now.region (cells_of look.now.region p)) }
{
    refute_seq::settled_order(alloc, model, look, p)
}

/// A law of `settled_order`: with these orders a settled look that nothing refutes keeps each
/// sequence without overlap.
pub fn settled_orders_keep_apart()
    ensures { (m : Data) (l : Seen) (a : Assignment) → IsSettledLook m l → IsSettledTo m l.region a → a.orders ≡ settled_orders l.region → list_all (keeps_apart m a) m.constraints ≡ true }
{}

pub fn is_away(look: &Look<'_>, x: Itv) -> bool
    ensures { result ≡ is_away look.now.region x }
{
    refute_seq::is_away(look, x)
}

pub fn valid(w: &SeqWitness) -> bool
    ensures { result ≡ is_valid w.now }
{
    w.valid()
}

pub fn count(w: &SeqWitness) -> usize
    ensures { result ≡ length (numbers_of w.now) }
{
    w.count()
}

pub fn number(w: &SeqWitness, i: usize) -> i64
    requires { i < length (numbers_of w.now) }
    ensures { slice_get (numbers_of w.now) i ≡ Some result }
{
    w.number(i)
}

pub fn from_numbers(alloc: Global, list: &[i64]) -> Result<Option<SeqWitness>, NoMemory>
    ensures some { IfOk result (λ o. IfSome o (λ w. (numbers_of w ≡ list.now) × IsTrue (is_valid w))) }
    ensures none { IfOk result (λ o. IfNone o ((w : Witnesses) → IsTrue (is_valid w) → numbers_of w ≡ list.now → ⊥)) }
{
    SeqWitness::from_numbers(alloc, list)
}

pub fn edge(
    alloc: Global,
    c: u32,
    side: u32,
    i: u32,
    s: Few,
    u: Few,
    v: Few,
) -> Result<SeqWitness, NoMemory>
    ensures { IfOk result (λ w. w ≡ witness.Edge c side i s u v) }
{
    SeqWitness::edge(alloc, c, side, i, s, u, v)
}

pub fn push(few: &mut Few, k: u32) -> Result<(), NoMemory>
    ensures ok { OnOk result (few.new ≡ few.old ++ k ∷ []) }
    ensures err { OnErr result (few.new ≡ few.old) }
{
    few.push(k)
}
