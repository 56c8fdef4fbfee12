//! The refuter of cumulative functions, and their profiles.
ghost use Rattle.std.specs.Prelude.{◌≡◌, IsTrue, true, false, length, ◌<◌, Some, slice_get, IfOk, IfSome, IfNone, ◌≤◌, ◌^◌, ◌≤ℤ◌, neg_ℤ, pos, ◌*◌};
ghost use Rattle.std.specs.List.{list_all};
ghost use Rattle.sched_model.specs.Valid.{IsValid};
ghost use Rattle.sched_model.specs.Data.{Data, parts_of};
ghost use Rattle.sched_model.specs.declared.types.Assignment.{Assignment};
ghost use Rattle.region.specs.Looks.{IsRegionOf, HasNoneOf, Seen};
ghost use Rattle.region.specs.laws.Pinned.{IsSettledTo};
ghost use Rattle.refute_cumul.specs.OnCumul.{refutes};
ghost use Rattle.refute_cumul.specs.Named.{named};
ghost use Rattle.refute_cumul.specs.declared.witness.CumulWitness.{CumulWitness as Witnesses};
ghost use Rattle.refute_cumul.specs.laws.Settled.{keeps_bounds};
ghost use Rattle.refute_cumul.specs.Witness.{is_valid, numbers_of};
ghost use Rattle.refute_cumul.specs.code.Profiles.{IsProfileOf, IsFirstAbove, StaysBelow};
ghost use Rattle.refute_cumul.specs.code.Loads.{bounded, limit_of, load, load_of, window_of};
ghost use Rattle.refute_cumul.specs.code.Sides.{HasRoom};

use refute_cumul::{CumulWitness, OnCumul, Profile};
use region::{Look, Numbers, Refuter};
use sched_base::{Cum, NoMemory};
use sched_model::{Model, Part, Window};
use std::alloc::Global;

pub fn refutes(model: &Model, look: &Look<'_>, w: &CumulWitness) -> bool
    requires { IsRegionOf model.now look.now.region }
    ensures { result ≡ refutes model.now look.now w.now }
{
    OnCumul::refutes(model, look, w)
}

/// By the law of the refuter: where it answers yes, no better solution is allowed.
#[tactic(auto, using(refute_cumul::specs::laws::Sound::sound_law))]
pub fn refutes_soundly(model: &Model, look: &Look<'_>, by: &CumulWitness) -> bool
    requires of { IsRegionOf model.now look.now.region }
    requires valid { IsValid model.now }
    ensures { IsTrue result → HasNoneOf model.now (named by.now) look.now }
{
    OnCumul::refutes(model, look, by)
}

/// A law of `OnCumul`: where no witness refutes a settled look, each function keeps its bounds.
pub fn settled_levels_keep_bounds()
    ensures { (m : Data) (l : Seen) (a : Assignment) → IsValid m → IsSettledTo m l.region a → ((w : Witnesses) → refutes m l w ≡ false) → list_all (keeps_bounds m a) m.constraints ≡ true }
{}

pub fn valid(w: &CumulWitness) -> bool
    ensures { result ≡ is_valid w.now }
{
    w.valid()
}

pub fn count(w: &CumulWitness) -> usize
    ensures { result ≡ length (numbers_of w.now) }
{
    w.count()
}

pub fn number(w: &CumulWitness, i: usize) -> i64
    requires { i < length (numbers_of w.now) }
    ensures { slice_get (numbers_of w.now) i ≡ Some result }
{
    w.number(i)
}

pub fn from_numbers(alloc: Global, list: &[i64]) -> Result<Option<CumulWitness>, NoMemory>
    ensures some { IfOk result (λ o. IfSome o (λ w. (numbers_of w ≡ list.now) × IsTrue (is_valid w))) }
    ensures none { IfOk result (λ o. IfNone o ((w : Witnesses) → IsTrue (is_valid w) → numbers_of w ≡ list.now → ⊥)) }
{
    CumulWitness::from_numbers(alloc, list)
}

pub fn new_profile(alloc: Global, room: u32) -> Result<Profile, NoMemory>
    ensures { IfOk result (λ p. p.room ≡ room) }
{
    Profile::new(alloc, room)
}

pub fn fill(profile: &mut Profile, look: &Look<'_>, below: bool, parts: &[Part])
    requires room { length parts.now ≤ profile.old.room }
    ensures filled { IsProfileOf look.now.region below parts.now profile.new }
    ensures room { profile.new.room ≡ profile.old.room }
{
    profile.fill(look, below, parts);
}

pub fn first_above(profile: &Profile, from: i64, to: i64, limit: i128) -> Option<i64>
    ensures some { IfSome result (IsFirstAbove profile.now.levels from to limit) }
    ensures none { IfNone result (StaysBelow profile.now.levels from to limit) }
{
    profile.first_above(from, to, limit)
}

pub fn parts_of(model: &Model, f: Cum) -> &[Part]
    ensures { result.now ≡ parts_of model.now f }
{
    refute_cumul::parts_of(model, f)
}

pub fn bounded(look: &Look<'_>, below: bool, part: Part) -> Part
    ensures { result ≡ bounded look.now.region below part }
{
    refute_cumul::bounded(look, below, part)
}

pub fn limit_of(below: bool, lo: i64, hi: i64) -> i128
    ensures value { result ≡ limit_of below lo hi }
    ensures low { neg_ℤ (pos (2 ^ 63)) ≤ℤ result }
    ensures high { result ≤ℤ pos (2 ^ 63) }
{
    refute_cumul::limit_of(below, lo, hi)
}

pub fn load(look: &Look<'_>, below: bool, parts: &[Part], t: i64) -> i128
    ensures value { result ≡ load look.now.region below parts.now t }
    ensures low { neg_ℤ (pos (2 ^ 63 * length parts.now)) ≤ℤ result }
    ensures high { result ≤ℤ pos (2 ^ 63 * length parts.now) }
{
    refute_cumul::load(look, below, parts, t)
}

pub fn load_of(part: Part, t: i64) -> i128
    ensures value { result ≡ load_of part t }
    ensures low { neg_ℤ (pos (2 ^ 63)) ≤ℤ result }
    ensures high { result ≤ℤ pos (2 ^ 63) }
{
    refute_cumul::load_of(part, t)
}

pub fn window_of(look: &Look<'_>, window: Window) -> (i64, i64)
    ensures { result ≡ window_of look.now.region window }
{
    refute_cumul::window_of(look, window)
}

pub fn most_parts(model: &Model) -> u32
    ensures { HasRoom model.now result }
{
    refute_cumul::most_parts(model)
}
