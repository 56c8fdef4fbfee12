ghost use Rattle.std.specs.Prelude.{◌≡◌, ◌<◌, ◌+ℤ◌, int_lt, length};
ghost use Rattle.sched_model.specs.Data.{gap};
ghost use Rattle.region.specs.Looks.{IsRegionOf, ect_of, lst_of};
ghost use Rattle.refute_seq.specs.Standing.{are_next, is_aside};
ghost use Rattle.refute_seq.specs.Pair.{pair_case, pair_row};

use crate::told::is_away;
use refute_basic::{gap, members_of, precedes, stand};
use region::Look;
use sched_base::{Itv, Mat, Seq, at};
use sched_model::{Constraint, Model};

/// Whether a moment with a distance is later than another moment.
fn is_late(first: i64, d: i64, second: i64) -> bool
    ensures { result ≡ int_lt second (first +ℤ d) }
{
    i128::from(second) < i128::from(first) + i128::from(d)
}

fn is_aside(look: &Look<'_>, p: Seq, x: Itv, y: Itv, z: Itv) -> bool
    ensures { result ≡ is_aside look.now.region p x y z }
{
    z.0 == x.0
        || z.0 == y.0
        || is_away(look, z)
        || precedes(look, p, z, x)
        || precedes(look, p, y, z)
}

/// Whether no member can stand between two.
fn are_next(model: &Model, look: &Look<'_>, p: Seq, x: Itv, y: Itv) -> bool
    ensures { result ≡ are_next model.now look.now.region p x y }
{
    members_of(model, p)
        .iter()
        .all(|z| is_aside(look, p, x, y, *z))
}

/// Whether one interval ends after another starts.
fn overlap(look: &Look<'_>, a: Itv, b: Itv) -> bool
    requires first { a.0 < length look.now.region.bounds }
    requires second { b.0 < length look.now.region.bounds }
    ensures { result ≡ int_lt (lst_of look.now.region b) (ect_of look.now.region a) }
{
    look.lst(b) < look.ect(a)
}

/// Whether one interval ends too late for the distance to another.
fn is_too_near(model: &Model, look: &Look<'_>, p: Seq, matrix: Option<Mat>, a: Itv, b: Itv) -> bool
    requires of { IsRegionOf model.now look.now.region }
    requires first { a.0 < length look.now.region.bounds }
    requires second { b.0 < length look.now.region.bounds }
    ensures { result ≡ int_lt (lst_of look.now.region b) (ect_of look.now.region a +ℤ gap model.now p matrix a b) }
{
    is_late(look.ect(a), gap(model, look, p, matrix, a, b), look.lst(b))
}

#[tactic(auto, using(refute_basic::specs::laws::Told::first_within, refute_basic::specs::laws::Told::second_within))]
fn pair_case(
    model: &Model,
    look: &Look<'_>,
    k: u32,
    a: Itv,
    b: Itv,
    p: Seq,
    matrix: Option<Mat>,
    direct: bool,
) -> bool
    requires { IsRegionOf model.now look.now.region }
    ensures { result ≡ pair_case model.now look.now.region k a b p matrix direct }
{
    if !stand(look, p, a, b) {
        return false;
    }
    match k {
        0 => overlap(look, a, b),
        1 => {
            matrix.is_some()
                && is_too_near(model, look, p, matrix, a, b)
                && (!direct || are_next(model, look, p, a, b))
        }
        _ => false,
    }
}

/// Whether PAIR refutes the look: in constant time, but where distances bind neighbours alone it reads
/// each member once.
pub fn pair(model: &Model, look: &Look<'_>, c: u32, a: u32, b: u32, k: u32) -> bool
    requires { IsRegionOf model.now look.now.region }
    ensures { result ≡ pair_row model.now look.now c a b k }
{
    match at(model.constraints(), c as usize) {
        Some(Constraint::NoOverlap { p, matrix, direct }) => {
            pair_case(model, look, k, Itv(a), Itv(b), *p, *matrix, *direct)
        }
        _ => false,
    }
}

/// By how many moments the first case of PAIR refutes the look.
pub fn pair_excess(look: &Look<'_>, a: u32, b: u32, k: u32) -> Option<u64> {
    if k != 0 || a as usize >= look.len() || b as usize >= look.len() {
        return None;
    }
    u64::try_from(look.ect(Itv(a)).saturating_sub(look.lst(Itv(b)))).ok()
}
