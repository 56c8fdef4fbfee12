//! A refuted guess made as weak as its witness allows.
ghost use Rattle.std.specs.Prelude.{◌≡◌, ◌≤◌, ◌<◌, ◌+◌, ◌≤ℤ◌, ◌+ℤ◌, ◌-ℤ◌, pos, IsTrue, IfSome, Some};
ghost use Rattle.sched_model.specs.Words.{passes_if_any};
ghost use Rattle.region.specs.Guesses.{admits};
ghost use Rattle.region.specs.Looks.{IsRegionOf, seen_at};
ghost use Rattle.region.specs.Tight.{is_tight, weaker, moved, steps, IsTightened};

use crate::guess_test::{GuessTest, RowTest};
use crate::refuter::Refuter;
use crate::region::Region;
use crate::types::Guess;
use sched_model::Model;

/// Whether the witness refutes the region under the guess.
pub fn refutes<X: Refuter>(
    model: &Model,
    region: &Region,
    best: Option<i64>,
    guess: Option<Guess>,
    w: &X::Witness,
) -> bool
    requires of { IsRegionOf model.now region.now.region }
    requires admitted { IsTrue (passes_if_any (admits region.now.region) guess) }
    ensures { result ≡ X.refuting model.now (seen_at region.now.region best guess) w.now }
{
    X::refutes(model, &region.look(guess, best), w)
}

/// How many moments lie between the guess and one that says nothing.
fn steps(region: &Region, g: Guess) -> u64
    requires { IsTrue (admits region.now.region g) }
    ensures { result ≡ steps region.now.region g }
{
    let look = region.look(None, None);
    match g {
        Guess::StartLe(x, t) => look.smax(x).abs_diff(t),
        Guess::StartGe(x, t) => t.abs_diff(look.smin(x)),
        Guess::EndLe(x, t) => look.emax(x).abs_diff(t),
        Guess::EndGe(x, t) => t.abs_diff(look.emin(x)),
        _ => 1,
    }
}

fn forward(t: i64, k: u64, end: i64) -> i64
    requires { (t +ℤ pos k) ≤ℤ end }
    ensures { result ≡ t +ℤ pos k }
{
    (i128::from(t) + i128::from(k)) as i64
}

fn backward(t: i64, k: u64, end: i64) -> i64
    requires { end ≤ℤ (t -ℤ pos k) }
    ensures { result ≡ t -ℤ pos k }
{
    (i128::from(t) - i128::from(k)) as i64
}

/// The guess of the same form that allows `k` moments more.
fn moved(region: &Region, g: Guess, k: u64) -> Guess
    requires admitted { IsTrue (admits region.now.region g) }
    requires within { k < steps region.now.region g }
    ensures value { result ≡ moved g k }
    ensures admitted { IsTrue (admits region.now.region result) }
{
    let look = region.look(None, None);
    match g {
        Guess::StartLe(x, t) => Guess::StartLe(x, forward(t, k, look.smax(x))),
        Guess::StartGe(x, t) => Guess::StartGe(x, backward(t, k, look.smin(x))),
        Guess::EndLe(x, t) => Guess::EndLe(x, forward(t, k, look.emax(x))),
        Guess::EndGe(x, t) => Guess::EndGe(x, backward(t, k, look.emin(x))),
        _ => g,
    }
}

/// The next weaker guess, where it still says something of the region.
fn weaker(region: &Region, g: Guess) -> Option<Guess>
    requires { IsTrue (admits region.now.region g) }
    ensures value { result ≡ weaker region.now.region g }
    ensures admitted { IfSome result (λ h. IsTrue (admits region.now.region h)) }
{
    if steps(region, g) <= 1 {
        return None;
    }
    Some(moved(region, g, 1))
}

/// Whether the witness doesn't refute the region under the next weaker guess, or that says nothing.
pub fn is_tight<X: Refuter>(
    model: &Model,
    region: &Region,
    best: Option<i64>,
    g: Guess,
    w: &X::Witness,
) -> bool
    requires of { IsRegionOf model.now region.now.region }
    requires admitted { IsTrue (admits region.now.region g) }
    ensures { result ≡ is_tight (λ h. X.refuting model.now (seen_at region.now.region best (Some h)) w.now) region.now.region g }
{
    match weaker(region, g) {
        None => true,
        Some(h) => !refutes::<X>(model, region, best, Some(h), w),
    }
}

/// A number between the two: the wanted one where it is, else the middle.
fn between(lo: u64, hi: u64, wanted: u64) -> u64
    requires { lo + 1 < hi }
    ensures above { lo < result }
    ensures below { result < hi }
{
    if lo < wanted && wanted < hi {
        return wanted;
    }
    lo + (hi - lo) / 2
}

/// A guess of the form of a refuted one that allows as much or more, is refuted too and is tight. The
/// reach of the test is tried first, and then the moment behind it; where these don't decide, halving
/// goes on between a refuted moment and the end of the cell. A guess on a presence or an order is
/// answered as it is.
pub fn tighten_by<T: GuessTest>(test: &T, region: &Region, g: Guess) -> Guess
    requires ready { T.is_ready test.now }
    requires of { T.region test.now ≡ region.now.region }
    requires admitted { IsTrue (admits region.now.region g) }
    requires refuted { IsTrue (T.refuting test.now (Some g)) }
    ensures { IsTightened (λ h. T.refuting test.now (Some h)) region.now.region g result }
{
    let mut lo = 0;
    let mut hi = steps(region, g);
    let far = test.reach(g).unwrap_or(hi);
    let mut wanted = far.max(1);
    while hi - lo > 1 {
        let mid = between(lo, hi, wanted);
        if test.refutes(Some(moved(region, g, mid))) {
            lo = mid;
        } else {
            hi = mid;
        }
        wanted = if mid == far { far + 1 } else { lo };
    }
    moved(region, g, lo)
}

/// The same by the row of a witness.
pub fn tighten<X: Refuter>(
    model: &Model,
    region: &Region,
    g: Guess,
    best: Option<i64>,
    w: &X::Witness,
) -> Guess
    requires of { IsRegionOf model.now region.now.region }
    requires admitted { IsTrue (admits region.now.region g) }
    requires refuted { IsTrue (X.refuting model.now (seen_at region.now.region best (Some g)) w.now) }
    ensures { IsTightened (λ h. X.refuting model.now (seen_at region.now.region best (Some h)) w.now) region.now.region g result }
{
    let test = RowTest::<X> {
        model,
        region,
        best,
        witness: w,
    };
    tighten_by(&test, region, g)
}
