//! What a bound of a cumulative function gives on one of its sides.
ghost use Rattle.std.specs.Prelude.{◌≡◌, ◌≤◌, ◌<ℤ◌, ◌+ℤ◌, pos, ℤ, true, length, None, Some, IsTrue, IfSome, IfNone, slice_get};
ghost use Rattle.std.specs.List.{filter};
ghost use Rattle.sched_model.specs.Words.{passes_if_any};
ghost use Rattle.sched_model.specs.Data.{parts_of, has};
ghost use Rattle.region.specs.Guesses.{admits, topic, looked_at};
ghost use Rattle.region.specs.Looks.{seen_at};
ghost use Rattle.region.specs.Tight.{IsTightened};
ghost use Rattle.findings.specs.Found.{IsFinding};
ghost use Rattle.findings.specs.code.Search.{is_on};
ghost use Rattle.refute_cumul.specs.declared.witness.CumulWitness.TheVariants.{Point};
ghost use Rattle.refute_cumul.specs.OnCumul.{refutes};
ghost use Rattle.refute_cumul.specs.laws.Loads.{side};
ghost use Rattle.refute_cumul.specs.Listed.{names_of};
ghost use Rattle.refute_cumul.specs.code.Loads.{is_from};
ghost use Rattle.refute_cumul.specs.code.Sides.{is_high};
ghost use Rattle.prop_cumul.specs.code.Tables.{is_of};
ghost use Rattle.prop_cumul.specs.code.Calm.{IsCalm};
ghost use Rattle.prop_cumul.specs.code.Asking.{IsTested, IsReady, NeverHigh, IsQuietUnder, IsQuietOn, IsBusy};
ghost use Rattle.findings.specs.laws.EndGuesses.{IsAnEnd};
ghost use Rattle.prop_cumul.specs.laws.Asking.{TellsExtra, IsRefutedUnder};

use crate::added::Raised;
use crate::calm::{Calm, is_calm_on};
use crate::extra::first_raised;
use findings::Finding;
use refute_cumul::{Bound, CumulWitness, OnCumul, Profile, limit_of, side, window_of};
use region::{Guess, GuessTest, Region, tighten_by};
use sched_base::Itv;
use sched_model::{Model, Part};

/// One side of the bound of constraint `c`: with `below` the lower one. The profile is that of its
/// function in the region.
#[derive(Drop)]
pub struct Side<'a> {
    pub model: &'a Model,
    pub region: &'a Region,
    pub best: Option<i64>,
    pub c: u32,
    pub bound: Bound,
    pub below: bool,
    pub profile: &'a Profile,
}

/// A moment at which the bound is passed under a guess, of which these parts tell what it adds.
fn moment_under(at: &Side<'_>, parts: &[Part], guess: Option<Guess>) -> Option<Raised>
    requires ready { IsReady at.now.model.now at.now.region.now.region at.now.c at.now.bound at.now.below at.now.profile.now }
    requires admitted { IsTrue (passes_if_any (admits at.now.region.now.region) guess) }
    requires few { length parts.now ≤ 100000 }
    requires tells { TellsExtra at.now.model.now at.now.region.now.region (looked_at guess at.now.region.now.region) at.now.bound at.now.below parts.now }
    ensures some { IfSome result (λ r. is_high at.now.model.now (looked_at guess at.now.region.now.region) at.now.bound at.now.below r.t ≡ true) }
    ensures none { IfNone result (NeverHigh at.now.model.now (looked_at guess at.now.region.now.region) at.now.bound at.now.below) }
{
    let plain = at.region.look(None, None);
    let under = at.region.look(guess, None);
    let span = window_of(&under, at.bound.window);
    let limit = limit_of(at.below, at.bound.lo, at.bound.hi);
    first_raised(at.profile, &plain, &under, at.below, parts, span, limit)
}

/// How far a guess may move at least so that its interval still stands at a moment, or still doesn't.
fn reach_of(guess: Guess, t: i64) -> Option<u64> {
    let reach = match guess {
        Guess::StartLe(_, s) => t.checked_sub(s)?,
        Guess::EndLe(_, s) => t.checked_sub(s)?,
        Guess::StartGe(_, s) => s.checked_sub(t)?.checked_sub(1)?,
        Guess::EndGe(_, s) => s.checked_sub(t)?.checked_sub(1)?,
        _ => return None,
    };
    u64::try_from(reach).ok()
}

/// Whether a guess is on this interval.
fn is_on(x: Itv, guess: Guess) -> bool
    ensures { result ≡ is_on x (topic guess) }
{
    match guess {
        Guess::Present(y) => y.0 == x.0,
        Guess::Absent(y) => y.0 == x.0,
        Guess::StartLe(y, _) => y.0 == x.0,
        Guess::StartGe(y, _) => y.0 == x.0,
        Guess::EndLe(y, _) => y.0 == x.0,
        Guess::EndGe(y, _) => y.0 == x.0,
        Guess::Before(..) => false,
    }
}

/// Whether a moment is one of those from the first until before the second.
fn is_from(span: (i64, i64), t: i64) -> bool
    ensures { result ≡ is_from span.0 span.1 t }
{
    span.0 <= t && t < span.1
}

/// The moment behind one that is before another.
fn behind(t: i64, end: i64) -> i64
    requires { t <ℤ end }
    ensures { result ≡ t +ℤ pos 1 }
{
    let _ = end;
    t + 1
}

/// Whether the bound is passed at a moment under a guess, of which these parts tell what it adds.
fn is_high_at(at: &Side<'_>, parts: &[Part], guess: Option<Guess>, t: i64) -> bool
    requires ready { IsReady at.now.model.now at.now.region.now.region at.now.c at.now.bound at.now.below at.now.profile.now }
    requires admitted { IsTrue (passes_if_any (admits at.now.region.now.region) guess) }
    requires few { length parts.now ≤ 100000 }
    requires tells { TellsExtra at.now.model.now at.now.region.now.region (looked_at guess at.now.region.now.region) at.now.bound at.now.below parts.now }
    ensures { result ≡ is_high at.now.model.now (looked_at guess at.now.region.now.region) at.now.bound at.now.below t }
{
    let plain = at.region.look(None, None);
    let under = at.region.look(guess, None);
    let window = window_of(&under, at.bound.window);
    if !is_from(window, t) {
        return false;
    }
    let limit = limit_of(at.below, at.bound.lo, at.bound.hi);
    let one = (t, behind(t, window.1));
    let found = first_raised(at.profile, &plain, &under, at.below, parts, one, limit);
    found.is_some()
}

/// The test by the row of a witness at a moment, from which it can be told how far a guess may move. Of
/// guesses on an interval the profile tells it, with what its parts add; of others the row itself.
#[derive(Drop)]
struct PointTest<'a> {
    at: &'a Side<'a>,
    x: Itv,
    parts: &'a [Part],
    witness: CumulWitness,
    t: i64,
}

impl<'a> PointTest<'a> {
    /// What the profile tells.
    fn is_high_under(&self, g: Guess) -> bool
        requires tested { IsTested self.now.at.now.model.now self.now.at.now.region.now.region self.now.at.now.c self.now.at.now.bound self.now.at.now.below self.now.at.now.profile.now self.now.x self.now.parts.now self.now.t self.now.witness }
        requires admitted { IsTrue (admits self.now.at.now.region.now.region g) }
        requires on { is_on self.now.x (topic g) ≡ true }
        ensures { result ≡ refutes self.now.at.now.model.now (seen_at self.now.at.now.region.now.region self.now.at.now.best (Some g)) self.now.witness }
    {
        is_high_at(self.at, self.parts, Some(g), self.t)
    }
}

impl<'a> GuessTest for PointTest<'a> {
    ghost use Rattle.region.specs.Looks.{seen_at};
    ghost use Rattle.refute_cumul.specs.OnCumul.{refutes};
    ghost use Rattle.prop_cumul.specs.code.Asking.{IsTested};

    ghost region = { λ t. t.at.now.region.now.region };

    ghost is_ready = { λ t. IsTested t.at.now.model.now t.at.now.region.now.region t.at.now.c t.at.now.bound t.at.now.below t.at.now.profile.now t.x t.parts.now t.t t.witness };

    ghost refuting = { λ t guess. refutes t.at.now.model.now (seen_at t.at.now.region.now.region t.at.now.best guess) t.witness };

    fn refutes(&self, guess: Option<Guess>) -> bool {
        if let Some(g) = guess {
            if is_on(self.x, g) {
                return self.is_high_under(g);
            }
        }
        let Side {
            model,
            region,
            best,
            ..
        } = *self.at;
        region::refutes::<OnCumul>(model, region, best, guess, &self.witness)
    }

    fn reach(&self, guess: Guess) -> Option<u64> {
        reach_of(guess, self.t)
    }
}

/// Whether a guess lets its interval start or end no later than a moment: the later the moment at
/// which the bound is passed, the further it moves.
fn is_early(guess: Guess) -> bool {
    matches!(guess, Guess::StartLe(..) | Guess::EndLe(..))
}

/// Of a run of moments that begins with one at which the bound is passed under a guess, one that moves
/// the guess further, if the bound is passed there too.
fn best_moment(at: &Side<'_>, parts: &[Part], g: Guess, raised: Raised) -> i64
    requires ready { IsReady at.now.model.now at.now.region.now.region at.now.c at.now.bound at.now.below at.now.profile.now }
    requires admitted { IsTrue (admits at.now.region.now.region g) }
    requires few { length parts.now ≤ 100000 }
    requires tells { TellsExtra at.now.model.now at.now.region.now.region (looked_at (Some g) at.now.region.now.region) at.now.bound at.now.below parts.now }
    requires high { is_high at.now.model.now (looked_at (Some g) at.now.region.now.region) at.now.bound at.now.below raised.t ≡ true }
    ensures { is_high at.now.model.now (looked_at (Some g) at.now.region.now.region) at.now.bound at.now.below result ≡ true }
{
    if !is_early(g) || raised.end <= raised.t {
        return raised.t;
    }
    let t = raised.end - 1;
    if is_high_at(at, parts, Some(g), t) {
        return t;
    }
    raised.t
}

/// The witness at a moment.
fn point_at(at: &Side<'_>, t: i64) -> CumulWitness
    ensures { result ≡ Point at.now.c t (side at.now.below) }
{
    CumulWitness::Point {
        c: at.c,
        t,
        u: side(at.below),
    }
}

/// The finding at a moment at which the bound is passed under a guess on an interval with these parts.
fn found_at(at: &Side<'_>, x: Itv, parts: &[Part], g: Guess, t: i64) -> Finding<CumulWitness>
    requires ready { IsReady at.now.model.now at.now.region.now.region at.now.c at.now.bound at.now.below at.now.profile.now }
    requires admitted { IsTrue (admits at.now.region.now.region g) }
    requires parts { parts.now ≡ filter (is_of x) (parts_of at.now.model.now at.now.bound.f) }
    requires few { length parts.now ≤ 100000 }
    requires high { is_high at.now.model.now (looked_at (Some g) at.now.region.now.region) at.now.bound at.now.below t ≡ true }
    ensures { IsFinding refutes at.now.model.now at.now.region.now.region at.now.best result }
{
    let witness = point_at(at, t);
    let test = PointTest {
        at,
        x,
        parts,
        witness,
        t,
    };
    Finding {
        guess: Some(tighten_by(&test, at.region, g)),
        witness,
    }
}

/// What the bound gives under a guess on an interval with these parts.
fn ask_under(at: &Side<'_>, x: Itv, parts: &[Part], g: Guess) -> Option<Finding<CumulWitness>>
    requires ready { IsReady at.now.model.now at.now.region.now.region at.now.c at.now.bound at.now.below at.now.profile.now }
    requires admitted { IsTrue (admits at.now.region.now.region g) }
    requires on { is_on x (topic g) ≡ true }
    requires parts { parts.now ≡ filter (is_of x) (parts_of at.now.model.now at.now.bound.f) }
    requires few { length parts.now ≤ 100000 }
    ensures none { IfNone result (NeverHigh at.now.model.now (looked_at (Some g) at.now.region.now.region) at.now.bound at.now.below) }
    ensures some { IfSome result (IsFinding refutes at.now.model.now at.now.region.now.region at.now.best) }
    ensures busy { IfSome result (λ f. IsRefutedUnder at.now.model.now at.now.region.now.region at.now.best at.now.c (Some g)) }
{
    let raised = moment_under(at, parts, Some(g))?;
    let t = best_moment(at, parts, g, raised);
    Some(found_at(at, x, parts, g, t))
}

/// What it gives under a guess at the end of a cell of an interval with these parts, if that is open.
fn ask_end(at: &Side<'_>, x: Itv, parts: &[Part], g: Guess) -> Option<Finding<CumulWitness>>
    requires ready { IsReady at.now.model.now at.now.region.now.region at.now.c at.now.bound at.now.below at.now.profile.now }
    requires parts { parts.now ≡ filter (is_of x) (parts_of at.now.model.now at.now.bound.f) }
    requires few { length parts.now ≤ 100000 }
    requires named { has (names_of at.now.model.now (slice_get at.now.model.now.constraints at.now.c)) x ≡ true }
    requires end { IsAnEnd at.now.region.now.region x g }
    ensures none { IfNone result (IsQuietUnder at.now.model.now at.now.region.now.region at.now.bound at.now.below g) }
    ensures some { IfSome result (IsFinding refutes at.now.model.now at.now.region.now.region at.now.best) }
    ensures busy { IfSome result (λ f. IsBusy at.now.model.now at.now.region.now.region at.now.best at.now.c) }
{
    if !at.region.admits(g) {
        return None;
    }
    ask_under(at, x, parts, g)
}

/// What it gives of an interval with these parts: presences come first, then the guesses that leave
/// the fewest moments at the ends of its window. Nothing is asked where there is room enough around it.
pub fn ask_interval(
    at: &Side<'_>,
    calm: Option<Calm>,
    x: Itv,
    parts: &[Part],
) -> Option<Finding<CumulWitness>>
    requires ready { IsReady at.now.model.now at.now.region.now.region at.now.c at.now.bound at.now.below at.now.profile.now }
    requires calm { IfSome calm (IsCalm at.now.bound at.now.below at.now.profile.now.levels) }
    requires parts { parts.now ≡ filter (is_of x) (parts_of at.now.model.now at.now.bound.f) }
    requires few { length parts.now ≤ 100000 }
    requires named { has (names_of at.now.model.now (slice_get at.now.model.now.constraints at.now.c)) x ≡ true }
    ensures none { IfNone result (IsQuietOn at.now.model.now at.now.region.now.region at.now.bound at.now.below x) }
    ensures some { IfSome result (IsFinding refutes at.now.model.now at.now.region.now.region at.now.best) }
    ensures busy { IfSome result (λ f. IsBusy at.now.model.now at.now.region.now.region at.now.best at.now.c) }
{
    let look = at.region.look(None, None);
    if x.0 as usize >= look.len() {
        return None;
    }
    if is_calm_on(at, calm, x, parts) {
        return None;
    }
    let c = look.bounds(x);
    let guesses = [
        Guess::Present(x),
        Guess::Absent(x),
        Guess::StartLe(x, c.smin),
        Guess::EndGe(x, c.emax),
        Guess::StartGe(x, c.smax),
        Guess::EndLe(x, c.emin),
    ];
    for g in &guesses {
        if let Some(f) = ask_end(at, x, parts, *g) {
            return Some(f);
        }
    }
    None
}

/// What it gives of the region as it stands.
pub fn ask_plain(at: &Side<'_>) -> Option<Finding<CumulWitness>>
    requires ready { IsReady at.now.model.now at.now.region.now.region at.now.c at.now.bound at.now.below at.now.profile.now }
    ensures none { IfNone result (NeverHigh at.now.model.now at.now.region.now.region at.now.bound at.now.below) }
    ensures some { IfSome result (IsFinding refutes at.now.model.now at.now.region.now.region at.now.best) }
    ensures busy { IfSome result (λ f. IsBusy at.now.model.now at.now.region.now.region at.now.best at.now.c) }
{
    let raised = moment_under(at, &[], None)?;
    Some(Finding {
        guess: None,
        witness: point_at(at, raised.t),
    })
}
