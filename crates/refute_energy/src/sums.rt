//! A set of bars as one.
ghost use Rattle.std.specs.Prelude.{◌≡◌, ◌<◌, ◌^◌, ◌+ℤ◌, ◌-ℤ◌, ◌≤ℤ◌, neg_ℤ, pos, ◌∷◌, map, length};
ghost use Rattle.std.specs.Int.{int_min, int_max};
ghost use Rattle.refute_energy.specs.Energy.{bar_at};
ghost use Rattle.refute_energy.specs.code.Bars.{ShowsSet, IsInRange, IsNear};

use crate::bars::{Bar, bar_at};
use region::Look;
use sched_model::Part;

/// Two bars as one: from the earlier start until the later completion, with the energy of both.
fn joined(a: Bar, b: Bar) -> Bar
    requires low { neg_ℤ (pos (2 ^ 126)) ≤ℤ a.energy }
    requires high { a.energy ≤ℤ pos (2 ^ 126) }
    requires near { IsNear b }
    ensures est { result.est ≡ int_min a.est b.est }
    ensures lct { result.lct ≡ int_max a.lct b.lct }
    ensures energy { result.energy ≡ a.energy +ℤ b.energy }
{
    Bar {
        est: a.est.min(b.est),
        lct: a.lct.max(b.lct),
        energy: a.energy + b.energy,
    }
}

/// The bars of a set as one: from its earliest start until its latest completion, with all its energy.
#[tactic(auto, using(crate::proofs::Gathering::gathered_first, crate::proofs::Gathering::gathered_more, crate::proofs::Gathering::gathered_all, crate::proofs::Gathering::low_enough, crate::proofs::Gathering::high_enough))]
pub fn set_bar(look: &Look<'_>, parts: &[Part], first: u32, rest: &[u32]) -> Bar
    requires few { length rest.now < 2 ^ 32 }
    ensures shows { ShowsSet (map (bar_at look.now.region parts.now) (first ∷ rest.now)) result }
    ensures est { IsInRange result.est }
    ensures lct { IsInRange result.lct }
{
    let mut whole = bar_at(look, parts, first);
    for n in rest {
        whole = joined(whole, bar_at(look, parts, *n));
    }
    whole
}
