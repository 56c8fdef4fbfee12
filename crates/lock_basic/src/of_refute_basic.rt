//! What needs no more than cells, sizes and values.
ghost use Rattle.std.specs.Prelude.{◌≡◌, IsTrue, false, true, ◌<◌, IfOk, IfSome, IfNone};
ghost use Rattle.sched_model.specs.Data.{Data, gap};
ghost use Rattle.sched_model.specs.Valid.{IsValid};
ghost use Rattle.region.specs.Looks.{Seen, IsRegionOf, HasNoneOf};
ghost use Rattle.refute_basic.specs.Basic.{refutes};
ghost use Rattle.refute_basic.specs.Named.{named};
ghost use Rattle.refute_basic.specs.declared.witness.BasicWitness.{BasicWitness};
ghost use Rattle.refute_basic.specs.Witness.{is_valid, numbers_of};
ghost use Rattle.refute_basic.specs.Listed.{is_derived};
ghost use Rattle.refute_basic.specs.Leaf.{PassesLeaf};
ghost use Rattle.refute_basic.specs.Cycle.{edge_of};
ghost use Rattle.refute_basic.specs.Obj.{never_beats};
ghost use Rattle.region.specs.Cells.{is_settled, settled_slot, is_there};
ghost use Rattle.refute_basic.specs.Standing.{stand};

use refute_basic::{Arc, ArcName, Basic, BasicWitness};
use region::{Bounds, Look, Numbers, Refuter};
use sched_base::{Itv, Mat, NoMemory, Seq};
use sched_model::{Model, Sense, Slot};
use std::alloc::Global;

pub fn refutes(model: &Model, look: &Look<'_>, w: &BasicWitness) -> bool
    requires { IsRegionOf model.now look.now.region }
    ensures { result ≡ refutes model.now look.now w.now }
{
    Basic::refutes(model, look, w)
}

/// Where a witness refutes, the constraints that it names leave nothing better.
#[tactic(auto, using(refute_basic::specs::laws::Sound::sound_law))]
pub fn refutes_soundly(model: &Model, look: &Look<'_>, witness: &BasicWitness) -> bool
    requires of { IsRegionOf model.now look.now.region }
    requires valid { IsValid model.now }
    ensures { IsTrue result → HasNoneOf model.now (named witness.now) look.now }
{
    Basic::refutes(model, look, witness)
}

pub fn from_numbers(alloc: Global, list: &[i64]) -> Result<Option<BasicWitness>, NoMemory>
    ensures some { IfOk result (λ o. IfSome o (λ w. (numbers_of w ≡ list.now) × IsTrue (is_valid w))) }
    ensures none { IfOk result (λ o. IfNone o ((w : BasicWitness) → IsTrue (is_valid w) → numbers_of w ≡ list.now → ⊥)) }
{
    BasicWitness::from_numbers(alloc, list)
}

/// Stands for a law: a settled look that no other kind refutes passes the last.
pub fn settled_unrefuted_passes()
    ensures { (m : Data) (l : Seen) → IsValid m → IsRegionOf m l.region → is_settled l.region ≡ true
        → ((w : BasicWitness) → is_derived w ≡ true → refutes m l w ≡ false) → PassesLeaf m l }
{}

pub fn edge_of(model: &Model, look: &Look<'_>, name: ArcName) -> Option<Arc>
    requires { IsRegionOf model.now look.now.region }
    ensures { result ≡ edge_of model.now look.now.region name }
{
    refute_basic::edge_of(model, look, name)
}

pub fn gap(model: &Model, look: &Look<'_>, p: Seq, matrix: Option<Mat>, x: Itv, y: Itv) -> i64
    requires { IsRegionOf model.now look.now.region }
    ensures { result ≡ gap model.now p matrix x y }
{
    refute_basic::gap(model, look, p, matrix, x, y)
}

pub fn never_beats(sense: Sense, best: i64, r: (i64, i64)) -> bool
    ensures { result ≡ never_beats sense best r }
{
    refute_basic::never_beats(sense, best, r)
}

pub fn settled_slot(c: Bounds) -> Slot
    ensures { result ≡ settled_slot c }
{
    refute_basic::settled_slot(c)
}

pub fn is_there(look: &Look<'_>, x: Itv) -> bool
    ensures { result ≡ is_there look.now.region x }
{
    refute_basic::is_there(look, x)
}

pub fn stand(look: &Look<'_>, p: Seq, x: Itv, y: Itv) -> bool
    ensures { result ≡ stand look.now.region p x y }
{
    refute_basic::stand(look, p, x, y)
}
