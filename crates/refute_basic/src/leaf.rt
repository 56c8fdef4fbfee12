ghost use Rattle.std.specs.Prelude.{◌≡◌, ◌<◌, ◌^◌, ◌-ℤ◌, length, IsTrue};
ghost use Rattle.sched_model.specs.Valid.{is_moment};
ghost use Rattle.region.specs.Cells.{is_settled};
ghost use Rattle.region.specs.Looks.{HasMoments, IsRegionOf};
ghost use Rattle.refute_basic.specs.Leaf.{has_size, all_sized, is_unsized_at, fails_at, is_no_better, leaf_row};

use crate::settled::{Settled, fails, value_settled};
use region::{Bounds, Look, Presence};
use sched_base::{Itv, at};
use sched_model::{Model, beats, is_between};

fn size_of(s: i64, e: i64) -> i64
    requires start { IsTrue (is_moment s) }
    requires end { IsTrue (is_moment e) }
    ensures { result ≡ e -ℤ s }
{
    e - s
}

/// Whether the size is in its range where the interval is present.
pub fn has_size(c: Bounds) -> bool
    requires { HasMoments c }
    ensures { result ≡ has_size c }
{
    match c.presence {
        Presence::Present => is_between(c.pmin, c.pmax, size_of(c.smin, c.emin)),
        Presence::Absent => true,
        Presence::Maybe => true,
    }
}

fn all_sized(look: &Look<'_>) -> bool
    requires { length look.now.region.bounds < 2 ^ 32 }
    ensures { result ≡ all_sized look.now.region }
{
    for n in 0..look.len() as u32 {
        if !has_size(look.bounds(Itv(n))) {
            return false;
        }
    }
    true
}

/// Whether the size of an interval is out of its range.
#[tactic(auto, using(crate::proofs::Slots::none_past, crate::proofs::Slots::one_within))]
pub fn is_unsized_at(look: &Look<'_>, u: u32) -> bool
    ensures { result ≡ is_unsized_at look.now.region u }
{
    if u as usize >= look.len() {
        return false;
    }
    !has_size(look.bounds(Itv(u)))
}

/// Whether a constraint is a precedence or an expression, and fails at the settled values.
pub fn fails_at(model: &Model, look: &Look<'_>, u: u32) -> bool
    requires of { IsRegionOf model.now look.now.region }
    requires settled { IsTrue (is_settled look.now.region) }
    requires sized { IsTrue (all_sized look.now.region) }
    ensures { result ≡ fails_at model.now look.now.region u }
{
    let settled = Settled { model, look };
    match at(model.constraints(), u as usize) {
        None => false,
        Some(c) => fails(&settled, c),
    }
}

/// Whether the objective isn't better than the best value at the settled values.
pub fn is_no_better(model: &Model, look: &Look<'_>) -> bool
    requires of { IsRegionOf model.now look.now.region }
    requires settled { IsTrue (is_settled look.now.region) }
    requires sized { IsTrue (all_sized look.now.region) }
    ensures { result ≡ is_no_better model.now look.now }
{
    let Some(best) = look.best() else {
        return false;
    };
    let Some(o) = model.objective() else {
        return false;
    };
    let settled = Settled { model, look };
    !beats(o.sense, value_settled(&settled, &o.expr), best)
}

/// Whether the size of each interval is in its range.
fn sized(model: &Model, look: &Look<'_>) -> bool
    requires { IsRegionOf model.now look.now.region }
    ensures { result ≡ all_sized look.now.region }
{
    // Called for its clause alone.
    let _ = model.intervals();
    all_sized(look)
}

/// Whether LEAF refutes the look.
pub fn leaf(model: &Model, look: &Look<'_>, k: u32, u: u32) -> bool
    requires { IsRegionOf model.now look.now.region }
    ensures { result ≡ leaf_row model.now look.now k u }
{
    if !look.settled() {
        return false;
    }
    match k {
        0 => is_unsized_at(look, u),
        1 => sized(model, look) && fails_at(model, look, u),
        2 => u == 0 && sized(model, look) && is_no_better(model, look),
        _ => false,
    }
}
