ghost use Rattle.std.specs.Prelude.{◌≡◌, ◌^◌, ◌*ℤ◌, ◌≤ℤ◌, neg_ℤ, pos};
ghost use Rattle.region.specs.Cells.{bounds_of};
ghost use Rattle.region.specs.Looks.{HasMoments};
ghost use Rattle.refute_energy.specs.Energy.{is_bar, bar_of, is_bar_at, bar_at};
ghost use Rattle.refute_energy.specs.code.Bars.{Shows, IsNear};

use refute_seq::is_there;
use region::{Bounds, Look, Presence};
use sched_base::{Itv, at};
use sched_model::{Part, Shape};

/// A present interval on a resource: it starts at `est` at the earliest, completes by `lct`, and takes at
/// least `energy`, units of the resource by time.
#[derive(Clone, Copy, Debug)]
pub struct Bar {
    pub est: i64,
    pub lct: i64,
    pub energy: i128,
}

const UNKNOWN: Bounds = Bounds {
    presence: Presence::Maybe,
    smin: 0,
    smax: 0,
    emin: 0,
    emax: 0,
    pmin: 0,
    pmax: 0,
};

const NOTHING: Bar = Bar {
    est: 0,
    lct: 0,
    energy: 0,
};

/// What the look knows of an interval: nothing where there is no such interval.
fn known(look: &Look<'_>, x: Itv) -> Bounds
    ensures value { result ≡ bounds_of look.now.region x }
    ensures moments { HasMoments result }
{
    if x.0 as usize >= look.len() {
        return UNKNOWN;
    }
    look.bounds(x)
}

fn product(h: i64, size: i64) -> i128
    ensures { result ≡ h *ℤ size }
{
    i128::from(h) * i128::from(size)
}

/// The energy of a height for some time: it fits, whatever the height.
fn energy(h: i64, size: i64) -> i128
    requires from { neg_ℤ (pos 1000000000) ≤ℤ size }
    requires to { size ≤ℤ pos 1000000000 }
    ensures value { result ≡ h *ℤ size }
    ensures low { neg_ℤ (pos (2 ^ 94)) ≤ℤ result }
    ensures high { result ≤ℤ pos (2 ^ 94) }
{
    product(h, size)
}

fn of_shape(look: &Look<'_>, shape: Shape) -> Bar
    ensures shows { Shows (bar_of look.now.region shape) result }
    ensures near { IsNear result }
{
    match shape {
        Shape::PulseOf { a, h } => {
            let c = known(look, a);
            Bar {
                est: c.smin,
                lct: c.emax,
                energy: energy(h, c.pmin),
            }
        }
        _ => NOTHING,
    }
}

/// The bar of the part at a place; where there is none, that of no energy.
pub fn bar_at(look: &Look<'_>, parts: &[Part], k: u32) -> Bar
    ensures shows { Shows (bar_at look.now.region parts.now k) result }
    ensures near { IsNear result }
{
    match at(parts, k as usize) {
        None => NOTHING,
        Some(i) => of_shape(look, i.shape),
    }
}

fn is_bar(look: &Look<'_>, shape: Shape) -> bool
    ensures { result ≡ is_bar look.now.region shape }
{
    match shape {
        Shape::PulseOf { a, h: _ } => is_there(look, a),
        _ => false,
    }
}

/// Whether the part at a place is the pulse of an interval that is there.
pub fn is_bar_at(look: &Look<'_>, parts: &[Part], k: u32) -> bool
    ensures { result ≡ is_bar_at look.now.region parts.now k }
{
    match at(parts, k as usize) {
        None => false,
        Some(i) => is_bar(look, i.shape),
    }
}
