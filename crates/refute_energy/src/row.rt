ghost use Rattle.std.specs.Prelude.{◌≡◌, ◌<◌, ◌≤◌, ◌^◌, ◌*ℤ◌, ◌-ℤ◌, ◌≤ℤ◌, neg_ℤ, pos, not, ◌∷◌, length, map, int_lt};
ghost use Rattle.std.specs.List.{list_all};
ghost use Rattle.refute_energy.specs.Energy.{is_bar_at, bar_at, is_above, overflows, is_capacity, energy_row};
ghost use Rattle.refute_energy.specs.code.Bars.{IsInRange};

use crate::bars::{Bar, is_bar_at};
use crate::numbers::rises_from;
use crate::sums::set_bar;
use refute_cumul::parts_of;
use region::Look;
use sched_base::at;
use sched_model::{Constraint, Model, Part, Window};

fn are_bars(look: &Look<'_>, parts: &[Part], set: &[u32]) -> bool
    ensures { result ≡ list_all (is_bar_at look.now.region parts.now) set.now }
{
    set.iter().all(|k| is_bar_at(look, parts, *k))
}

/// What a capacity offers for some time. It fits, whatever the capacity.
#[tactic(auto, using(crate::specs::laws::Wide::wide_low, crate::specs::laws::Wide::wide_high))]
pub fn offered(hi: i64, time: i64) -> i128
    requires from { neg_ℤ (pos 2000000000) ≤ℤ time }
    requires to { time ≤ℤ pos 2000000000 }
    ensures { result ≡ hi *ℤ time }
{
    i128::from(hi) * i128::from(time)
}

/// The time from the start of a bar until its completion.
fn time_of(bar: Bar) -> i64
    requires est { IsInRange bar.est }
    requires lct { IsInRange bar.lct }
    ensures value { result ≡ bar.lct -ℤ bar.est }
    ensures from { neg_ℤ (pos 2000000000) ≤ℤ result }
    ensures to { result ≤ℤ pos 2000000000 }
{
    bar.lct - bar.est
}

/// Whether a capacity offers less than a bar needs, from its start until its completion.
fn is_short(hi: i64, bar: Bar) -> bool
    requires est { IsInRange bar.est }
    requires lct { IsInRange bar.lct }
    ensures { result ≡ int_lt (hi *ℤ (bar.lct -ℤ bar.est)) bar.energy }
{
    offered(hi, time_of(bar)) < bar.energy
}

/// Whether a set needs more than is offered in its window.
#[tactic(auto, using(crate::proofs::Gathering::above_is))]
fn is_above(look: &Look<'_>, parts: &[Part], hi: i64, first: u32, rest: &[u32]) -> bool
    requires few { length rest.now < 2 ^ 32 }
    ensures { result ≡ is_above hi (map (bar_at look.now.region parts.now) (first ∷ rest.now)) }
{
    is_short(hi, set_bar(look, parts, first, rest))
}

fn overflows(look: &Look<'_>, parts: &[Part], hi: i64, set: &[u32]) -> bool
    requires few { length set.now < 2 ^ 32 }
    ensures { result ≡ overflows look.now.region parts.now hi set.now }
{
    match set {
        [] => false,
        [first, rest @ ..] => {
            rises_from(*first, rest)
                && are_bars(look, parts, set)
                && is_above(look, parts, hi, *first, rest)
        }
    }
}

fn are_added(parts: &[Part]) -> bool
    ensures { result ≡ list_all (λ i. not i.minus) parts.now }
{
    parts.iter().all(|i| !i.minus)
}

/// Whether a bound is a capacity of a function with these parts: it isn't negative, and none of them is
/// subtracted.
pub fn is_capacity(hi: i64, parts: &[Part]) -> bool
    ensures { result ≡ is_capacity hi parts.now }
{
    0 <= hi && are_added(parts)
}

/// Whether ENERGY refutes the look.
pub fn energy_row(model: &Model, look: &Look<'_>, c: u32, set: &[u32]) -> bool
    requires few { length set.now < 2 ^ 32 }
    ensures { result ≡ energy_row model.now look.now c set.now }
{
    match at(model.constraints(), c as usize) {
        Some(
            Constraint::CumulIn {
                f,
                window: Window::Always,
                lo: _,
                hi,
            },
        ) => {
            let parts = parts_of(model, *f);
            is_capacity(*hi, parts) && overflows(look, parts, *hi, set)
        }
        _ => false,
    }
}
