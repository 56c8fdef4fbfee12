ghost use Rattle.std.specs.Prelude.{◌≡◌, ◌<◌, ◌+ℤ◌, ◌-ℤ◌, length, int_lt};
ghost use Rattle.refute_basic.specs.Arc.{earliest, latest, is_too_late, arc_row};

use crate::standing::is_there;
use region::Look;
use sched_base::{Itv, at};
use sched_model::{Constraint, End, Model};

fn earliest(look: &Look<'_>, end: End, x: Itv) -> i64
    requires { x.0 < length look.now.region.bounds }
    ensures { result ≡ earliest look.now.region end x }
{
    match end {
        End::Start => look.est(x),
        End::Finish => look.ect(x),
    }
}

fn latest(look: &Look<'_>, end: End, x: Itv) -> i64
    requires { x.0 < length look.now.region.bounds }
    ensures { result ≡ latest look.now.region end x }
{
    match end {
        End::Start => look.lst(x),
        End::Finish => look.lct(x),
    }
}

fn is_late(first: i64, z: i64, second: i64) -> bool
    ensures { result ≡ int_lt second (first +ℤ z) }
{
    i128::from(second) < i128::from(first) + i128::from(z)
}

fn is_late_back(second: i64, z: i64, first: i64) -> bool
    ensures { result ≡ int_lt first (second -ℤ z) }
{
    i128::from(first) < i128::from(second) - i128::from(z)
}

#[tactic(auto, using(region::specs::laws::Present::there_within))]
fn is_too_late(look: &Look<'_>, d: u32, c: &Constraint) -> bool
    ensures { result ≡ is_too_late look.now.region d c.now }
{
    match c {
        Constraint::Temporal {
            from,
            to,
            equal,
            a,
            b,
            z,
        } => {
            if !is_there(look, *a) {
                return false;
            }
            if !is_there(look, *b) {
                return false;
            }
            if d == 0 {
                return is_late(earliest(look, *from, *a), *z, latest(look, *to, *b));
            }
            if d != 1 {
                return false;
            }
            if !*equal {
                return false;
            }
            is_late_back(earliest(look, *to, *b), *z, latest(look, *from, *a))
        }
        _ => false,
    }
}

/// Whether ARC refutes the look.
pub fn arc(model: &Model, look: &Look<'_>, c: u32, d: u32) -> bool
    ensures { result ≡ arc_row model.now look.now c d }
{
    match at(model.constraints(), c as usize) {
        None => false,
        Some(constraint) => is_too_late(look, d, constraint),
    }
}

/// By how much the first moment and the distance pass the second.
fn missed(first: i64, z: i64, second: i64) -> Option<u64> {
    u64::try_from(i128::from(first) + i128::from(z) - i128::from(second)).ok()
}

/// By how much a precedence is missed.
fn lateness(look: &Look<'_>, d: u32, c: &Constraint) -> Option<u64> {
    let Constraint::Temporal {
        from,
        to,
        a,
        b,
        z,
        ..
    } = c
    else {
        return None;
    };
    if !is_there(look, *a) || !is_there(look, *b) {
        return None;
    }
    if d == 0 {
        return missed(earliest(look, *from, *a), *z, latest(look, *to, *b));
    }
    missed(
        earliest(look, *to, *b),
        z.checked_neg()?,
        latest(look, *from, *a),
    )
}

/// By how many moments ARC refutes the look.
pub fn arc_excess(model: &Model, look: &Look<'_>, c: u32, d: u32) -> Option<u64> {
    lateness(look, d, at(model.constraints(), c as usize)?)
}
