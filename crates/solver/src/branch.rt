ghost use Rattle.std.specs.Prelude.{◌≡◌, ◌<◌, ◌^◌, ◌≤ℤ◌, ◌<ℤ◌, ◌-ℤ◌, pos, true, length, IsTrue, IfSome, IfNone};
ghost use Rattle.sched_model.specs.Valid.{is_moment};
ghost use Rattle.region.specs.declared.types.Presence.TheVariants as presence;
ghost use Rattle.region.specs.Cells.{bounds_of, is_fixed};
ghost use Rattle.region.specs.Looks.{HasMoments};
ghost use Rattle.solver.specs.Cuts.{IsCut, IsMiddle};
ghost use Rattle.solver.specs.code.Searching.{Cuts, is_ordered};

use region::{Bounds, Guess, Look, Presence};
use sched_base::Itv;

/// Half of the sum, rounded down.
pub fn middle(lo: i64, hi: i64) -> i64
    requires lo { IsTrue (is_moment lo) }
    requires hi { IsTrue (is_moment hi) }
    ensures middle { IsMiddle lo hi result }
    ensures moment { IsTrue (is_moment result) }
{
    (lo + hi).div_euclid(2)
}

fn cut_start(x: Itv, c: Bounds) -> Guess
    requires present { c.presence ≡ presence.Present }
    requires moments { HasMoments c }
    requires wide { c.smin <ℤ c.smax }
    ensures { Cuts x c result }
{
    Guess::StartLe(x, middle(c.smin, c.smax))
}

fn cut_end(x: Itv, c: Bounds) -> Guess
    requires present { c.presence ≡ presence.Present }
    requires moments { HasMoments c }
    requires wide { c.emin <ℤ c.emax }
    ensures { Cuts x c result }
{
    Guess::EndLe(x, middle(c.emin, c.emax))
}

fn cut_bounds(x: Itv, c: Bounds) -> Option<Guess>
    requires present { c.presence ≡ presence.Present }
    requires moments { HasMoments c }
    requires ordered { IsTrue (is_ordered c) }
    ensures some { IfSome result (λ g. Cuts x c g) }
    ensures none { IfNone result (IsTrue (is_fixed c)) }
{
    if c.smin < c.smax {
        return Some(cut_start(x, c));
    }
    if c.emin < c.emax {
        return Some(cut_end(x, c));
    }
    None
}

/// A guess that cuts what is open of an interval: its presence, or else its start, or else its end, at
/// the middle.
pub fn cut(x: Itv, c: Bounds) -> Option<Guess>
    requires moments { HasMoments c }
    requires ordered { IsTrue (is_ordered c) }
    ensures some { IfSome result (λ g. Cuts x c g) }
    ensures none { IfNone result (IsTrue (is_fixed c)) }
{
    match c.presence {
        Presence::Absent => None,
        Presence::Maybe => Some(Guess::Present(x)),
        Presence::Present => cut_bounds(x, c),
    }
}

/// The middle of what is open of a start.
fn middle_start(look: &Look<'_>, x: Itv) -> Option<i64>
    ensures { IfSome result (IsMiddle (bounds_of look.now.region x).smin (bounds_of look.now.region x).smax) }
{
    if x.0 as usize >= look.len() {
        return None;
    }
    let c = look.bounds(x);
    Some(middle(c.smin, c.smax))
}

/// The middle of what is open of an end.
fn middle_end(look: &Look<'_>, x: Itv) -> Option<i64>
    ensures { IfSome result (IsMiddle (bounds_of look.now.region x).emin (bounds_of look.now.region x).emax) }
{
    if x.0 as usize >= look.len() {
        return None;
    }
    let c = look.bounds(x);
    Some(middle(c.emin, c.emax))
}

/// The moment after the middle of what is open of a start.
fn next_start(look: &Look<'_>, x: Itv) -> Option<i64>
    ensures { IfSome result (λ t. IsMiddle (bounds_of look.now.region x).smin (bounds_of look.now.region x).smax (t -ℤ pos 1)) }
{
    if x.0 as usize >= look.len() {
        return None;
    }
    let c = look.bounds(x);
    Some(middle(c.smin, c.smax) + 1)
}

/// The moment after the middle of what is open of an end.
fn next_end(look: &Look<'_>, x: Itv) -> Option<i64>
    ensures { IfSome result (λ t. IsMiddle (bounds_of look.now.region x).emin (bounds_of look.now.region x).emax (t -ℤ pos 1)) }
{
    if x.0 as usize >= look.len() {
        return None;
    }
    let c = look.bounds(x);
    Some(middle(c.emin, c.emax) + 1)
}

/// Whether a guess on a bound cuts it at the middle.
pub fn is_cut(look: &Look<'_>, guess: Guess) -> bool
    ensures { IsTrue result → IsCut look.now.region guess }
{
    match guess {
        Guess::StartLe(x, t) => middle_start(look, x) == Some(t),
        Guess::StartGe(x, t) => next_start(look, x) == Some(t),
        Guess::EndLe(x, t) => middle_end(look, x) == Some(t),
        Guess::EndGe(x, t) => next_end(look, x) == Some(t),
        Guess::Present(_) | Guess::Absent(_) | Guess::Before(..) => true,
    }
}
