ghost use Rattle.std.specs.Prelude.{◌≡◌};
ghost use Rattle.sched_model.specs.Data.{parts_of};
ghost use Rattle.refute_cumul.specs.Levels.{is_surely_in};
ghost use Rattle.refute_cumul.specs.code.Loads.{is_over};
ghost use Rattle.refute_cumul.specs.Point.{leaves, point_row};

use crate::levels::{is_from, limit_of, load, window_of};
use region::Look;
use sched_base::{Cum, at};
use sched_model::{Constraint, Model, Part, Window};

/// The parts of a cumulative function, and none of one that isn't there.
pub fn parts_of(model: &Model, f: Cum) -> &[Part]
    ensures { result.now ≡ parts_of model.now f }
{
    match model.cumuls().get(f.0 as usize) {
        None => &[],
        Some(d) => d.parts.as_slice(),
    }
}

/// Whether the load passes its limit.
pub fn is_over(look: &Look<'_>, parts: &[Part], lo: i64, hi: i64, below: bool, t: i64) -> bool
    ensures { result ≡ is_over look.now.region parts.now lo hi below t }
{
    limit_of(below, lo, hi) < load(look, below, parts, t)
}

/// Whether the least level is above the upper bound (`u` 0), or the greatest below the lower (1).
fn leaves(look: &Look<'_>, parts: &[Part], lo: i64, hi: i64, u: u32, t: i64) -> bool
    ensures { result ≡ leaves look.now.region parts.now lo hi u t }
{
    if u == 0 {
        return is_over(look, parts, lo, hi, false, t);
    }
    if u == 1 {
        return is_over(look, parts, lo, hi, true, t);
    }
    false
}

#[tactic(auto, using(crate::specs::laws::Loads::window_is))]
fn is_surely_in(look: &Look<'_>, window: Window, t: i64) -> bool
    ensures { result ≡ is_surely_in look.now.region window t }
{
    is_from(window_of(look, window), t)
}

/// Whether POINT refutes the look, in a time that grows with the parts of the function.
pub fn point(model: &Model, look: &Look<'_>, c: u32, t: i64, u: u32) -> bool
    ensures { result ≡ point_row model.now look.now c t u }
{
    match at(model.constraints(), c as usize) {
        Some(Constraint::CumulIn { f, window, lo, hi }) => {
            is_surely_in(look, *window, t) && leaves(look, parts_of(model, *f), *lo, *hi, u, t)
        }
        _ => false,
    }
}
