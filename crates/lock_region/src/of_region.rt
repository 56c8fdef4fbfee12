//! Regions, looks at them, and refuted guesses made weaker.
ghost use Rattle.std.specs.Prelude.{◌≡◌, ◌+◌, ◌≤◌, ◌<◌, ◌++◌, ◌∷◌, [], length, ◌^◌, IfOk, IsOk, OnOk, OnErr, IsTrue, not, IfSome, Some, IfNone};
ghost use Rattle.sched_model.specs.declared.types.Assignment.{Assignment};
ghost use Rattle.sched_model.specs.Data.{Data, same};
ghost use Rattle.sched_model.specs.Domain.{is_in_domain};
ghost use Rattle.sched_model.specs.Words.{passes_if_any};
ghost use Rattle.sched_model.specs.Valid.{is_moment, IsValid};
ghost use Rattle.region.specs.Cells.{Allows, root, is_settled, cell_count, cells_of, settled_slots, bounds_of};
ghost use Rattle.region.specs.Guesses.{admits, splits, refused, with_guess, with_fact, looked_at, guess_holds, guess_cell, fact_cell};
ghost use Rattle.region.specs.Looks.{IsRegionOf, HasMoments, HasNoneOf, is_shifted, lst_of, ect_of, seen_at};
ghost use Rattle.region.specs.code.Spelled.{AreSmall};
ghost use Rattle.region.specs.code.Held.{Regains, IsHeldOf};
ghost use Rattle.region.specs.Narrows.{Leaves, Narrows, Splits, HasPoint};
ghost use Rattle.std.specs.List.{position};
ghost use Rattle.region.specs.Orders.{order_in};
ghost use Rattle.region.specs.Tight.{is_tight, IsTightened};

use region::{Bounds, CellName, Fact, Guess, GuessTest, Look, Numbers, OrderCell, Refuter, Region};
use sched_base::{Itv, NoMemory, Seq};
use sched_model::Model;
use std::alloc::Global;

pub fn root(alloc: Global, model: &Model) -> Result<Region, NoMemory>
    ensures value { IfOk result (λ r. r ≡ record { region = root model.now; saved = []; promised = []; spare = r.spare }) }
    ensures of { IfOk result (IsHeldOf model.now) }
    ensures allows { IfOk result (λ r. (a : Assignment) → IsTrue (is_in_domain model.now a) → Allows r.region a) }
    ensures point { IfOk result (λ r. HasPoint r.region) }
{
    Region::root(alloc, model)
}

pub fn look(region: &Region, guess: Option<Guess>, best: Option<i64>) -> Look<'_>
    requires { IsTrue (passes_if_any (admits region.now.region) guess) }
    ensures value { result ≡ record { region = looked_at guess region.now.region; best = best } }
    ensures allows { Leaves (λ a. passes_if_any (λ g. guess_holds g a) guess) region.now.region result.region }
    ensures of { (m : Data) → IsRegionOf m region.now.region → IsRegionOf m result.region }
{
    region.look(guess, best)
}

pub fn admits(region: &Region, g: Guess) -> bool
    ensures { result ≡ admits region.now.region g }
{
    region.admits(g)
}

pub fn splits(region: &Region, g: Guess) -> bool
    ensures test { result ≡ splits region.now.region g }
    ensures parts { IsTrue result → Splits region.now.region (with_guess g region.now.region) (with_fact g region.now.region) }
{
    region.splits(g)
}

pub fn assume(region: &mut Region, g: Guess) -> Result<CellName, NoMemory>
    requires { IsTrue (splits region.old.region g) }
    ensures cell { IfOk result (λ c. c ≡ guess_cell g) }
    ensures ok { OnOk result (region.new ≡ record region.old { region = with_guess g region.old.region; spare = region.new.spare }) }
    ensures narrows { OnOk result (Narrows (guess_cell g) (guess_holds g) region.old.region region.new.region) }
    ensures of { (m : Data) → IsHeldOf m region.old → IsHeldOf m region.new }
    ensures err { OnErr result (region.new ≡ region.old) }
    ensures spends { region.old.spare ≤ region.new.spare + 1 }

    // What it can't be refused for.
    ensures given { 0 < region.old.spare → IsOk result }
    ensures unsaved { region.old.saved ≡ [] → IsOk result × (region.new.spare ≡ region.old.spare) }
{
    region.assume(g)
}

pub fn learn(region: &mut Region, f: Fact) -> Result<CellName, NoMemory>
    requires { IsTrue (admits region.old.region f.0) }
    ensures cell { IfOk result (λ c. c ≡ fact_cell f.0) }
    ensures ok { OnOk result (region.new ≡ record region.old { region = with_fact f.0 region.old.region; spare = region.new.spare }) }
    ensures narrows { OnOk result (Narrows (fact_cell f.0) (λ a. not (guess_holds f.0 a)) region.old.region region.new.region) }
    ensures of { (m : Data) → IsHeldOf m region.old → IsHeldOf m region.new }
    ensures err { OnErr result (region.new ≡ region.old) }
    ensures spends { region.old.spare ≤ region.new.spare + 1 }

    // What it can't be refused for.
    ensures given { 0 < region.old.spare → IsOk result }
    ensures unsaved { region.old.saved ≡ [] → IsOk result × (region.new.spare ≡ region.old.spare) }
{
    region.learn(f)
}

pub fn save(region: &mut Region) -> Result<(), NoMemory>
    ensures ok { OnOk result (region.new ≡ record region.old {
      saved = region.old.saved ++ region.old.region ∷ [];
      promised = region.old.promised ++ region.old.spare ∷ [];
      spare = region.new.spare;
    }) }
    ensures err { OnErr result (region.new ≡ region.old) }
    ensures of { (m : Data) → IsHeldOf m region.old → IsHeldOf m region.new }
    ensures spends { region.old.spare ≤ region.new.spare + 1 }
    ensures given { 0 < region.old.spare → IsOk result }
{
    region.save()
}

pub fn undo(region: &mut Region)
    requires { 0 < length region.old.saved }
    ensures region { region.old.saved ≡ region.new.saved ++ region.new.region ∷ [] }
    ensures of { (m : Data) → IsHeldOf m region.old → IsHeldOf m region.new }
    ensures spare { Regains region.old region.new }
{
    region.undo();
}

pub fn reserve(region: &mut Region, n: usize) -> Result<(), NoMemory>
    ensures ok { OnOk result (n ≤ region.new.spare) }
    ensures same { region.new ≡ record region.old { spare = region.new.spare } }
    ensures grows { region.old.spare ≤ region.new.spare }
    ensures given { n ≤ region.old.spare → IsOk result }
{
    region.reserve(n)
}

pub fn settled(region: &Region) -> bool
    ensures test { result ≡ is_settled region.now.region }
    ensures once { IsTrue result → (m : Data) (a : Assignment) → IsRegionOf m region.now.region → IsTrue (is_in_domain m a)
        → Allows region.now.region a → a.slots ≡ settled_slots region.now.region }
{
    region.settled()
}

pub fn cells(region: &Region) -> u64
    ensures { result ≡ cell_count region.now.region }
{
    region.cells()
}

pub fn bounds(look: &Look<'_>, x: Itv) -> Bounds
    requires { x.0 < length look.now.region.bounds }
    ensures value { result ≡ bounds_of look.now.region x }
    ensures moments { HasMoments result }
{
    look.bounds(x)
}

pub fn smin(look: &Look<'_>, x: Itv) -> i64
    requires { x.0 < length look.now.region.bounds }
    ensures value { result ≡ (bounds_of look.now.region x).smin }
    ensures moment { IsTrue (is_moment result) }
{
    look.smin(x)
}

pub fn lst(look: &Look<'_>, x: Itv) -> i64
    requires { x.0 < length look.now.region.bounds }
    ensures value { result ≡ lst_of look.now.region x }
    ensures small { IsTrue (is_shifted result) }
{
    look.lst(x)
}

pub fn ect(look: &Look<'_>, x: Itv) -> i64
    requires { x.0 < length look.now.region.bounds }
    ensures value { result ≡ ect_of look.now.region x }
    ensures small { IsTrue (is_shifted result) }
{
    look.ect(x)
}

pub fn order(look: &Look<'_>, p: Seq, a: Itv, b: Itv) -> OrderCell
    ensures { result ≡ order_in (cells_of look.now.region p) a b }
{
    look.order(p, a, b)
}

pub fn place(look: &Look<'_>, p: Seq, x: Itv) -> Option<usize>
    ensures { result ≡ position (same x) (cells_of look.now.region p).members }
{
    look.place(p, x)
}

pub fn refutes<X: Refuter>(
    model: &Model,
    region: &Region,
    best: Option<i64>,
    guess: Option<Guess>,
    w: &X::Witness,
) -> bool
    requires of { IsRegionOf model.now region.now.region }
    requires admitted { IsTrue (passes_if_any (admits region.now.region) guess) }
    ensures { result ≡ X.refuting model.now (seen_at region.now.region best guess) w.now }
{
    region::refutes::<X>(model, region, best, guess, w)
}

pub fn is_tight<X: Refuter>(
    model: &Model,
    region: &Region,
    best: Option<i64>,
    g: Guess,
    w: &X::Witness,
) -> bool
    requires of { IsRegionOf model.now region.now.region }
    requires admitted { IsTrue (admits region.now.region g) }
    ensures { result ≡ is_tight (λ h. X.refuting model.now (seen_at region.now.region best (Some h)) w.now) region.now.region g }
{
    region::is_tight::<X>(model, region, best, g, w)
}

pub fn tighten_by<T: GuessTest>(test: &T, region: &Region, g: Guess) -> Guess
    requires ready { T.is_ready test.now }
    requires of { T.region test.now ≡ region.now.region }
    requires admitted { IsTrue (admits region.now.region g) }
    requires refuted { IsTrue (T.refuting test.now (Some g)) }
    ensures { IsTightened (λ h. T.refuting test.now (Some h)) region.now.region g result }
{
    region::tighten_by(test, region, g)
}

pub fn tighten<X: Refuter>(
    model: &Model,
    region: &Region,
    g: Guess,
    best: Option<i64>,
    w: &X::Witness,
) -> Guess
    requires of { IsRegionOf model.now region.now.region }
    requires admitted { IsTrue (admits region.now.region g) }
    requires refuted { IsTrue (X.refuting model.now (seen_at region.now.region best (Some g)) w.now) }
    ensures { IsTightened (λ h. X.refuting model.now (seen_at region.now.region best (Some h)) w.now) region.now.region g result }
{
    region::tighten::<X>(model, region, g, best, w)
}

pub fn refutes_look<X: Refuter>(model: &Model, look: &Look<'_>, w: &X::Witness) -> bool
    requires { IsRegionOf model.now look.now.region }
    ensures { result ≡ X.refuting model.now look.now w.now }
{
    X::refutes(model, look, w)
}

pub fn from_numbers<N: Numbers>(alloc: Global, list: &[i64]) -> Result<Option<N>, NoMemory>
    ensures some { IfOk result (λ o. IfSome o (λ w. (N.numbers w ≡ list.now) × IsTrue (N.is_valid w))) }
    ensures none { IfOk result (λ o. IfNone o ((w : N) → IsTrue (N.is_valid w) → N.numbers w ≡ list.now → ⊥)) }
{
    N::from_numbers(alloc, list)
}

pub fn test_refutes<T: GuessTest>(test: &T, guess: Option<Guess>) -> bool
    requires ready { T.is_ready test.now }
    requires admitted { IsTrue (passes_if_any (admits (T.region test.now)) guess) }
    ensures { result ≡ T.refuting test.now guess }
{
    test.refutes(guess)
}

/// Laws of every refuter: what refutes is valid, and by it the constraints that it names leave nothing better.
pub fn refutes_soundly<X: Refuter>(model: &Model, look: &Look<'_>, w: &X::Witness) -> bool
    requires of { IsRegionOf model.now look.now.region }
    requires valid { IsValid model.now }
    ensures valid { IsTrue result → IsTrue (X.Witness.is_valid w.now) }
    ensures sound { IsTrue result → HasNoneOf model.now (X.named w.now) look.now }
{
    X::refutes(model, look, w)
}

/// Laws of what a log spells: its numbers are few and small, and tell it from each other.
pub fn spelled<N: Numbers>(v: &N, w: &N) -> bool
    ensures few { IsTrue result → length (N.numbers v.now) < 2 ^ 32 }
    ensures small { IsTrue result → AreSmall (N.numbers v.now) }
    ensures told_apart { IsTrue result → IsTrue (N.is_valid w.now) → N.numbers v.now ≡ N.numbers w.now → v.now ≡ w.now }
{
    v.valid()
}
