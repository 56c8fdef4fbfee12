//! The values of criteria, read off their rank.
ghost use Rattle.std.specs.Prelude.{◌≡◌, ◌+◌, ◌/◌, ◌%◌, ◌<◌, ◌+ℤ◌, pos, true, Some, is_some, drop, length, map, slice_index_or, nat_abs};
ghost use Rattle.std.specs.Int.{int_gap};
ghost use Rattle.base_laws.specs.Digits.{digits};
ghost use Rattle.sched_model.specs.Words.{all_of};
ghost use Rattle.sched_model.specs.Hull.{hull_of};
ghost use Rattle.sched_model.specs.Rank.{width, ranges_of, values_at, criteria_of, unranked, unranked_in, IsRanked};
ghost use Rattle.sched_model.specs.code.Ranks.{weight_of, count_of};

use crate::hulls::hull;
use crate::model::Model;
use crate::types::{Expr, Objective};

const LIMIT: u128 = 1 << 62;

/// How many numbers a range has.
#[tactic(auto, using(crate::proofs::Weights::width_is, crate::proofs::Weights::width_one))]
fn width(r: (i64, i64)) -> u128
    ensures value { result ≡ width r }
    ensures few { result < 18446744073709551617 }
{
    if r.1 < r.0 {
        return 1;
    }
    (i128::from(r.1) - i128::from(r.0)) as u128 + 1
}

/// The weight of a criterion behind which these stand; none where one of them has no hull, or where
/// the weight is above 2^62.
#[tactic(auto, using(crate::proofs::Weights::weight_begins, crate::proofs::Weights::weight_turn, crate::proofs::Weights::weight_over, crate::proofs::Weights::weight_none, crate::proofs::Weights::weight_end))]
pub fn weight(model: &Model, es: &[Expr]) -> Option<i64>
    ensures { result ≡ weight_of model.now es.now }
{
    let mut so_far: u128 = 1;
    for i in 0..es.len() {
        let r = hull(model, &es[i])?;
        let next = so_far * width(r);
        if next > LIMIT {
            return None;
        }
        so_far = next;
    }
    Some(so_far as i64)
}

/// The number of a range at a place that goes round in it.
#[tactic(auto, using(crate::proofs::Digits::place_below, crate::proofs::Digits::place_fits))]
fn in_range(r: (i64, i64), offset: u128, weight: i64) -> i64
    requires { 0 < nat_abs weight }
    ensures { result ≡ r.0 +ℤ pos (offset / nat_abs weight % width r) }
{
    let width = width(r);
    let place = offset / u128::from(weight.unsigned_abs()) % width;
    (i128::from(r.0) + place as i128) as i64
}

/// How far `v` is above `low`, 0 below it.
#[tactic(auto, using(crate::proofs::Digits::not_above, crate::proofs::Digits::above_by))]
fn above(low: i64, v: i64) -> u128
    ensures { result ≡ int_gap low v }
{
    if v < low {
        return 0;
    }
    (i128::from(v) - i128::from(low)) as u128
}

/// The value of criterion `i` of which `v` is the rank, where `low` is the least rank.
fn value_of_rank(model: &Model, criteria: &[Expr], low: i64, v: i64, i: usize) -> i64
    requires there { i < length criteria.now }
    requires weights { is_some (weight_of model.now (drop (i + 1) criteria.now)) ≡ true }
    requires hulls { is_some (all_of (map (hull_of model.now) criteria.now)) ≡ true }
    ensures { result ≡ slice_index_or (values_at (ranges_of model.now criteria.now) (digits (map width (ranges_of model.now criteria.now)) (int_gap low v))) i (pos 0) }
{
    let Some(r) = hull(model, &criteria[i]) else {
        unreachable!()
    };
    let Some(weight) = weight(model, &criteria[i + 1..]) else {
        unreachable!()
    };
    in_range(r, above(low, v), weight)
}

/// The value of criterion `i` of an objective, where `v` is the value of its expression.
#[tactic(auto, using(crate::proofs::Digits::plain_value, crate::proofs::Digits::more_there, crate::proofs::Digits::weight_there, crate::proofs::Digits::value_there, crate::proofs::Digits::hull_is_there))]
fn criterion_value(model: &Model, o: &Objective, v: i64, i: usize) -> i64
    requires ranked { IsRanked model.now o.now }
    requires hull { is_some (hull_of model.now o.now.expr) ≡ true }
    requires below { i < length (criteria_of o.now) }
    ensures { result ≡ slice_index_or (unranked model.now o.now v) i (pos 0) }
{
    if o.criteria.is_empty() {
        return v;
    }
    let Some(h) = hull(model, &o.expr) else {
        unreachable!()
    };
    value_of_rank(model, o.criteria.as_slice(), h.0, v, i)
}

/// How many criteria the objective has: one where it is one expression, 0 without an objective.
pub fn criteria_count(model: &Model) -> u32
    ensures { result ≡ count_of model.now.objective }
{
    match model.objective() {
        None => 0,
        Some(o) => {
            if o.criteria.is_empty() {
                return 1;
            }
            o.criteria.len() as u32
        }
    }
}

/// The value of criterion `i` of the objective, where `v` is the value of the objective's expression:
/// `v` itself of an objective without criteria. So of the value of an assignment these are the
/// values that the criteria have there.
#[tactic(auto, using(crate::proofs::Digits::counted_there, crate::proofs::Digits::unranked_there, crate::proofs::walks::Elements::objective_hull, crate::proofs::Digits::objective_ranked, crate::proofs::Digits::objective_there))]
pub fn unrank(model: &Model, v: i64, i: u32) -> i64
    requires below { i < count_of model.now.objective }
    ensures { result ≡ slice_index_or (unranked_in model.now v) i (pos 0) }
{
    let Some(o) = model.objective() else {
        unreachable!()
    };
    criterion_value(model, o, v, i as usize)
}
