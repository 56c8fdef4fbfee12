ghost use Rattle.std.specs.Prelude.{◌≡◌, ◌-ℤ◌, pos, None, slice_get, IfNone, IfSome, IsTrue};
ghost use Rattle.std.specs.Int.{int_max, int_min};
ghost use Rattle.sched_model.specs.Valid.{is_moment};
ghost use Rattle.region.specs.Looks.{HasMoments, IsRegionOf};
ghost use Rattle.look_hull.specs.LookHull.{unless_empty, unless_absent, start_look, end_look, size_look, presence_look, interval_look};
ghost use Rattle.look_hull.specs.code.Known.{KnownAs};

use region::{Bounds, Look, Presence, earliest_end, latest_start};
use sched_base::Itv;
use sched_model::Model;

/// The range, if it isn't empty, and else another.
fn unless_empty(r: (i64, i64), instead: (i64, i64)) -> (i64, i64)
    ensures { result ≡ unless_empty r instead }
{
    if r.0 <= r.1 { r } else { instead }
}

/// The range of a number that is `d` where the interval is absent.
fn unless_absent(presence: Presence, d: i64, r: (i64, i64)) -> (i64, i64)
    ensures { result ≡ unless_absent presence d r }
{
    match presence {
        Presence::Present => r,
        Presence::Absent => (d, d),
        Presence::Maybe => (r.0.min(d), r.1.max(d)),
    }
}

/// The greatest size that the declared one, the latest end and the earliest start leave.
fn greatest_size(pmax: i64, emax: i64, smin: i64) -> i64
    requires end { IsTrue (is_moment emax) }
    requires start { IsTrue (is_moment smin) }
    ensures { result ≡ int_min pmax (emax -ℤ smin) }
{
    let longest = emax - smin;
    if longest < pmax { longest } else { pmax }
}

/// The least size that the declared one, the earliest end and the latest start leave.
fn least_size(pmin: i64, emin: i64, smax: i64) -> i64
    requires end { IsTrue (is_moment emin) }
    requires start { IsTrue (is_moment smax) }
    ensures { result ≡ int_max pmin (emin -ℤ smax) }
{
    let shortest = emin - smax;
    if shortest < pmin { pmin } else { shortest }
}

fn start_ends(c: Bounds) -> (i64, i64)
    requires { HasMoments c }
    ensures { result ≡ start_look c }
{
    let last = latest_start(c.smax, c.emax, c.pmin);
    unless_empty((c.smin, last), (c.smin, c.smax))
}

fn end_ends(c: Bounds) -> (i64, i64)
    requires { HasMoments c }
    ensures { result ≡ end_look c }
{
    let first = earliest_end(c.emin, c.smin, c.pmin);
    unless_empty((first, c.emax), (c.emin, c.emax))
}

fn size_ends(c: Bounds) -> (i64, i64)
    requires { HasMoments c }
    ensures { result ≡ size_look c }
{
    let least = least_size(c.pmin, c.emin, c.smax);
    let greatest = greatest_size(c.pmax, c.emax, c.smin);
    unless_empty((least, greatest), (c.pmin, c.pmax))
}

/// What is known of an interval that is listed.
#[tactic(auto, using(crate::proofs::Known::listed_within, crate::proofs::Known::listed_past))]
fn known(model: &Model, look: &Look<'_>, x: Itv) -> Option<Bounds>
    requires { IsRegionOf model.now look.now.region }
    ensures none { IfNone result (slice_get model.now.intervals x.0 ≡ None) }
    ensures some { IfSome result (λ c. KnownAs model.now look.now.region x c) }
{
    if x.0 as usize >= look.len() {
        return None;
    }
    Some(look.bounds(x))
}

/// The range of the start of an interval, `d` where it is absent.
#[tactic(auto, using(crate::proofs::Known::look_unlisted, crate::proofs::Known::look_listed))]
pub fn start_of(model: &Model, look: &Look<'_>, x: Itv, d: i64) -> (i64, i64)
    requires { IsRegionOf model.now look.now.region }
    ensures { result ≡ interval_look model.now look.now.region start_look x d }
{
    match known(model, look, x) {
        None => (d, d),
        Some(c) => unless_absent(c.presence, d, start_ends(c)),
    }
}

/// The range of the end of an interval, `d` where it is absent.
#[tactic(auto, using(crate::proofs::Known::look_unlisted, crate::proofs::Known::look_listed))]
pub fn end_of(model: &Model, look: &Look<'_>, x: Itv, d: i64) -> (i64, i64)
    requires { IsRegionOf model.now look.now.region }
    ensures { result ≡ interval_look model.now look.now.region end_look x d }
{
    match known(model, look, x) {
        None => (d, d),
        Some(c) => unless_absent(c.presence, d, end_ends(c)),
    }
}

/// The range of the size of an interval, `d` where it is absent.
#[tactic(auto, using(crate::proofs::Known::look_unlisted, crate::proofs::Known::look_listed))]
pub fn size_of(model: &Model, look: &Look<'_>, x: Itv, d: i64) -> (i64, i64)
    requires { IsRegionOf model.now look.now.region }
    ensures { result ≡ interval_look model.now look.now.region size_look x d }
{
    match known(model, look, x) {
        None => (d, d),
        Some(c) => unless_absent(c.presence, d, size_ends(c)),
    }
}

/// The range of 1 where an interval is present and 0 where it is absent.
#[tactic(auto, using(crate::proofs::Known::look_unlisted, crate::proofs::Known::look_listed))]
pub fn presence_of(model: &Model, look: &Look<'_>, x: Itv) -> (i64, i64)
    requires { IsRegionOf model.now look.now.region }
    ensures { result ≡ interval_look model.now look.now.region presence_look x (pos 0) }
{
    match known(model, look, x) {
        None => (0, 0),
        Some(c) => unless_absent(c.presence, 0, (1, 1)),
    }
}
