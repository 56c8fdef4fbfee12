//! Several criteria as one number: their rank (the weighted sum that keeps the order of the first
//! criterion that differs; Ehrgott 2005, section 5.1).
ghost use Rattle.std.specs.Prelude.{◌≡◌, ◌<◌, [], ◌∷◌, IfOk, length, option_map};
ghost use Rattle.sched_model.specs.declared.types.Expr.{roll-Expr};
ghost use Rattle.sched_model.specs.declared.types.Expr.TheOpen.{Expr-F as expr};
ghost use Rattle.sched_model.specs.Rank.{rank_within};
ghost use Rattle.sched_model.specs.code.Ranks.{front_weight, weights_of, times_lit, by_weights};

use crate::hulls::hull;
use crate::model::Model;
use crate::rank::weight;
use crate::types::Expr;
use sched_base::{List, NoMemory};
use std::alloc::Global;

/// The weight of the first of some criteria; none where one of them has no hull, or where the weight
/// is above 2^62.
fn front_weight(model: &Model, es: &[Expr]) -> Option<i64>
    requires { 0 < length es.now }
    ensures { result ≡ front_weight model.now es.now }
{
    let _ = hull(model, &es[0])?;
    weight(model, &es[1..])
}

/// The weight of each criterion, if all have one.
fn weights(alloc: Global, model: &Model, es: &[Expr]) -> Result<Option<Vec<i64>>, NoMemory>
    ensures { IfOk result (λ o. option_map (λ ws. ws.items) o ≡ weights_of model.now es.now) }
{
    let mut found = Vec::new(alloc);
    for i in 0..es.len() {
        let Some(w) = front_weight(model, &es[i..]) else {
            return Ok(None);
        };
        found.push(w)?;
    }
    Ok(Some(found))
}

fn times(alloc: Global, e: Expr, w: i64) -> Result<Expr, NoMemory>
    ensures { IfOk result (λ p. p ≡ times_lit e w) }
{
    let mut factors = List::new(alloc);
    factors.push(e)?;
    factors.push(Expr::Lit(w))?;
    Ok(Expr::Product(factors))
}

/// The sum of the criteria, each by its weight.
fn weigh(alloc: Global, criteria: List<Expr>, weights: &[i64]) -> Result<Expr, NoMemory>
    requires { length weights.now ≡ length criteria }
    ensures { IfOk result (λ e. e ≡ roll-Expr (expr.Sum (by_weights weights.now criteria))) }
{
    let mut parts = List::new(alloc);
    let mut at = 0;
    for e in criteria.into_vec() {
        parts.push(times(alloc, e, weights[at])?)?;
        at += 1;
    }
    Ok(Expr::Sum(parts))
}

/// The rank of criteria; none where a criterion has no hull, or the rank has none, as where a weight
/// is too great.
pub fn make_rank(
    alloc: Global,
    model: &Model,
    criteria: List<Expr>,
) -> Result<Option<Expr>, NoMemory>
    ensures { IfOk result (λ o. o ≡ rank_within model.now criteria) }
{
    let Some(found) = weights(alloc, model, criteria.as_slice())? else {
        return Ok(None);
    };
    let rank = weigh(alloc, criteria, found.as_slice())?;
    if hull(model, &rank).is_none() {
        return Ok(None);
    }
    Ok(Some(rank))
}
