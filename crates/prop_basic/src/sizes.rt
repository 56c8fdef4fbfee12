//! What SIZE of an interval finds.
ghost use Rattle.std.specs.Prelude.{◌≡◌, ◌&&◌, ◌∷◌, [], true, ◌-ℤ◌, int_le, IsTrue, IfNone, IfSome};
ghost use Rattle.sched_model.specs.Valid.{is_moment};
ghost use Rattle.region.specs.Looks.{IsRegionOf, HasMoments};
ghost use Rattle.findings.specs.Found.{IsFinding};
ghost use Rattle.refute_basic.specs.declared.witness.BasicWitness.TheVariants as basic;
ghost use Rattle.refute_basic.specs.Basic.{refutes};
ghost use Rattle.prop_basic.specs.code.Tasks.{IsSilent};
ghost use Rattle.prop_basic.specs.code.Fit.{are_fit, has_moments, is_size};

use findings::{Finding, Likely, ask_likely};
use refute_basic::{Basic, BasicWitness};
use region::{Bounds, Region};
use sched_base::Itv;
use sched_model::Model;

/// Whether the end is known too late for the earliest start: the greatest size moves the start.
fn moves_start(c: Bounds) -> bool {
    c.emin.saturating_sub(c.pmax) > c.smin
}

/// Whether the latest start is too early for the latest end: the greatest size moves the end.
fn moves_end(c: Bounds) -> bool {
    c.smax.saturating_add(c.pmax) < c.emax
}

/// Whether the least size leaves room between the earliest start and the latest end, and the greatest
/// one reaches from the latest start to the earliest end.
fn has_room(c: Bounds) -> bool {
    c.smin.saturating_add(c.pmin) <= c.emax && c.smax.saturating_add(c.pmax) >= c.emin
}

/// The bound that SIZE moves: by the greatest size where it moves one, else by the least.
fn likely_end(region: &Region, x: Itv) -> Likely {
    let look = region.look(None, None);
    if x.0 as usize >= look.len() {
        return Likely::EndsLater(x);
    }
    let c = look.bounds(x);
    if moves_start(c) {
        return Likely::StartsLater(x);
    }
    if moves_end(c) {
        return Likely::EndsSooner(x);
    }
    if c.smin.saturating_add(c.pmin) > c.emin {
        return Likely::EndsLater(x);
    }
    Likely::StartsSooner(x)
}

fn is_between(size: i64, least: i64, greatest: i64) -> bool
    ensures { result ≡ (int_le least size && int_le size greatest) }
{
    least <= size && size <= greatest
}

fn distance(start: i64, end: i64) -> i64
    requires first { IsTrue (is_moment start) }
    requires second { IsTrue (is_moment end) }
    ensures { result ≡ end -ℤ start }
{
    end - start
}

/// Whether the distance of two moments is a size.
fn is_size(c: Bounds, start: i64, end: i64) -> bool
    requires first { IsTrue (is_moment start) }
    requires second { IsTrue (is_moment end) }
    ensures { result ≡ is_size c start end }
{
    is_between(distance(start, end), c.pmin, c.pmax)
}

/// Whether there are a start and an end.
fn has_moments(c: Bounds) -> bool
    ensures { result ≡ has_moments c }
{
    c.smin <= c.smax && c.emin <= c.emax
}

/// Whether the distances of the two earliest and of the two latest moments are sizes.
fn are_fit(c: Bounds) -> bool
    requires { HasMoments c }
    ensures { result ≡ are_fit c }
{
    has_moments(c) && is_size(c, c.smin, c.emin) && is_size(c, c.smax, c.emax)
}

/// Whether the bounds show at once that SIZE finds nothing.
#[tactic(auto, using(crate::specs::laws::Fit::fit_silent))]
fn is_surely_silent(model: &Model, region: &Region, best: Option<i64>, x: u32) -> bool
    ensures { result ≡ true → IsSilent model.now region.now.region best (basic.Size x) }
{
    let _ = model;
    let _ = best;
    let look = region.look(None, None);
    if x as usize >= look.len() {
        return false;
    }
    are_fit(look.bounds(Itv(x)))
}

/// What SIZE of an interval finds. Mostly its bounds show at once that it finds nothing.
pub fn ask_size(
    model: &Model,
    region: &Region,
    best: Option<i64>,
    x: u32,
) -> Option<Finding<BasicWitness>>
    requires of { IsRegionOf model.now region.now.region }
    ensures none { IfNone result (IsSilent model.now region.now.region best (basic.Size x)) }
    ensures some { IfSome result (IsFinding refutes model.now region.now.region best) }
    ensures busy { IfSome result (λ f. IsSilent model.now region.now.region best (basic.Size x) → ⊥) }
{
    if is_surely_silent(model, region, best, x) {
        return None;
    }
    let witness = BasicWitness::Size { x };
    let x = Itv(x);
    let likely = likely_end(region, x);
    let guess = ask_likely::<Basic>(model, region, best, &witness, &[x], &[], likely)?;
    Some(Finding { guess, witness })
}

/// Whether SIZE of an interval finds at most what the least size asks of its earliest end and of its
/// latest start.
pub fn can_size_wait(region: &Region, x: u32) -> bool {
    let look = region.look(None, None);
    if x as usize >= look.len() {
        return true;
    }
    let c = look.bounds(Itv(x));
    has_room(c) && !moves_start(c) && !moves_end(c)
}
