ghost use Rattle.std.specs.Prelude.{◌≡◌, is_some, map, true, IsTrue};
ghost use Rattle.sched_model.specs.declared.types.Assignment.{Assignment};
ghost use Rattle.sched_model.specs.Domain.{is_in_domain};
ghost use Rattle.sched_model.specs.Value.{value_of};
ghost use Rattle.sched_model.specs.laws.Within.{Within};
ghost use Rattle.region.specs.Cells.{Allows};
ghost use Rattle.sched_model.specs.Ranges.{greatest_range, least_range, total_range};
ghost use Rattle.sched_model.specs.Hull.{hull_of};
ghost use Rattle.region.specs.Looks.{IsRegionOf};
ghost use Rattle.look_hull.specs.LookHull.{look_hull, and_range, or_range};
ghost use Rattle.look_hull.specs.code.Saturated.{saturated, saturated_look, saturated_negation, saturated_product};

use crate::intervals::{end_of, presence_of, size_of, start_of};
use crate::truths::{
    compare_range, implies_range, not_range, surely_false, surely_true, truth_range,
};
use region::Look;
use sched_model::ranges::{greater, lesser, nearest, times};
use sched_model::{Expr, Model};

/// The ends, each as the nearest number of 64 bits.
fn saturated(r: (i128, i128)) -> (i64, i64)
    ensures { result ≡ saturated r }
{
    (nearest(r.0), nearest(r.1))
}

/// The range of the negation, each end as the nearest number of 64 bits.
fn negated(r: (i64, i64)) -> (i64, i64)
    ensures { result ≡ saturated_negation r }
{
    (0i64.saturating_sub(r.1), 0i64.saturating_sub(r.0))
}

/// The least and the greatest value that an expression can have by the cells of the look: interval
/// arithmetic with presence, exact. It holds the value under each assignment of the domain that the
/// region allows, and lies in the hull of before the search. It reads each node of the expression
/// once.
pub fn look_hull(model: &Model, look: &Look<'_>, e: &Expr) -> (i64, i64)
    requires of { IsRegionOf model.now look.now.region }
    requires hull { is_some (hull_of model.now e.now) ≡ true }
    ensures value { result ≡ look_hull model.now look.now.region e.now }
    ensures within { (a : Assignment) → IsTrue (is_in_domain model.now a) → Allows look.now.region a → Within result (value_of a e.now) }
{
    // Called for its clause alone.
    let _ = model.intervals();
    ends_of(model, look, e)
}

/// The look hull by arithmetic that saturates.
#[cycle(hull)]
fn ends_of(model: &Model, look: &Look<'_>, e: &Expr) -> (i64, i64)
    requires { IsRegionOf model.now look.now.region }
    ensures { result ≡ saturated_look model.now look.now.region e.now }
{
    match e {
        Expr::Lit(n) => (*n, *n),
        Expr::StartOf(x, d) => start_of(model, look, *x, *d),
        Expr::EndOf(x, d) => end_of(model, look, *x, *d),
        Expr::SizeOf(x, d) => size_of(model, look, *x, *d),
        Expr::LengthOf(x, d) => size_of(model, look, *x, *d),
        Expr::PresenceOf(x) => presence_of(model, look, *x),
        Expr::Neg(part) => negated(ends_of(model, look, part.get())),
        Expr::Sum(parts) => sum_of(model, look, parts.as_slice()),
        Expr::Product(parts) => product_of(model, look, parts.as_slice()),
        Expr::Max(parts) => greatest_of(model, look, parts.as_slice()),
        Expr::Min(parts) => least_of(model, look, parts.as_slice()),
        Expr::Compare(op, a, b) => {
            let first = ends_of(model, look, a.get());
            let second = ends_of(model, look, b.get());
            compare_range(*op, first, second)
        }
        Expr::Not(part) => not_range(ends_of(model, look, part.get())),
        Expr::And(parts) => all_of(model, look, parts.as_slice()),
        Expr::Or(parts) => some_of(model, look, parts.as_slice()),
        Expr::Implies(a, b) => {
            let first = ends_of(model, look, a.get());
            let second = ends_of(model, look, b.get());
            implies_range(first, second)
        }
    }
}

#[cycle(hull)]
fn sum_of(model: &Model, look: &Look<'_>, parts: &[Expr]) -> (i64, i64)
    requires { IsRegionOf model.now look.now.region }
    ensures { result ≡ saturated (total_range (map (saturated_look model.now look.now.region) parts.now)) }
{
    let mut lo: i128 = 0;
    let mut hi: i128 = 0;
    for part in parts {
        let (l, h) = ends_of(model, look, part);
        lo += i128::from(l);
        hi += i128::from(h);
    }
    saturated((lo, hi))
}

#[cycle(hull)]
fn product_of(model: &Model, look: &Look<'_>, parts: &[Expr]) -> (i64, i64)
    requires { IsRegionOf model.now look.now.region }
    ensures { result ≡ saturated (saturated_product (map (saturated_look model.now look.now.region) parts.now)) }
{
    let mut so_far: (i128, i128) = (1, 1);
    for part in parts {
        let ends = ends_of(model, look, part);
        so_far = times(so_far, ends);
    }
    saturated(so_far)
}

#[cycle(hull)]
fn greatest_of(model: &Model, look: &Look<'_>, parts: &[Expr]) -> (i64, i64)
    requires { IsRegionOf model.now look.now.region }
    ensures { result ≡ greatest_range (map (saturated_look model.now look.now.region) parts.now) }
{
    let mut so_far = None;
    for part in parts {
        let ends = ends_of(model, look, part);
        so_far = Some(greater(so_far, ends));
    }
    match so_far {
        None => (0, 0),
        Some(ends) => ends,
    }
}

#[cycle(hull)]
fn least_of(model: &Model, look: &Look<'_>, parts: &[Expr]) -> (i64, i64)
    requires { IsRegionOf model.now look.now.region }
    ensures { result ≡ least_range (map (saturated_look model.now look.now.region) parts.now) }
{
    let mut so_far = None;
    for part in parts {
        let ends = ends_of(model, look, part);
        so_far = Some(lesser(so_far, ends));
    }
    match so_far {
        None => (0, 0),
        Some(ends) => ends,
    }
}

#[cycle(hull)]
fn all_of(model: &Model, look: &Look<'_>, parts: &[Expr]) -> (i64, i64)
    requires { IsRegionOf model.now look.now.region }
    ensures { result ≡ and_range (map (saturated_look model.now look.now.region) parts.now) }
{
    let mut always = true;
    let mut never = false;
    for part in parts {
        let ends = ends_of(model, look, part);
        always = always && surely_true(ends);
        never = never || surely_false(ends);
    }
    truth_range(always, never)
}

#[cycle(hull)]
fn some_of(model: &Model, look: &Look<'_>, parts: &[Expr]) -> (i64, i64)
    requires { IsRegionOf model.now look.now.region }
    ensures { result ≡ or_range (map (saturated_look model.now look.now.region) parts.now) }
{
    let mut always = false;
    let mut never = true;
    for part in parts {
        let ends = ends_of(model, look, part);
        always = always || surely_true(ends);
        never = never && surely_false(ends);
    }
    truth_range(always, never)
}
