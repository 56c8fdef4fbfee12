ghost use Rattle.std.specs.Prelude.{◌≡◌, map, fold};
ghost use Rattle.cpo_elab.specs.declared.factors.Factor.TheVariants as factor;
ghost use Rattle.cpo_elab.specs.Factors.{beside, times, all_beside, linked, factor_of};

use cpo_text::{Link, Logic};

/// What an expression is as a factor of a product.
#[derive(Clone, Copy, Debug, PartialEq, Eq)]
pub enum Factor {
    /// It names no interval.
    Free,
    /// It names one, and no product in it has two factors that do.
    Named,
    /// Some product in it has two factors that name an interval.
    Crowded,
}

fn beside(x: Factor, y: Factor) -> Factor
    ensures { result ≡ beside x y }
{
    match (x, y) {
        (Factor::Free, y) => y,
        (Factor::Crowded, _) => Factor::Crowded,
        (Factor::Named, Factor::Crowded) => Factor::Crowded,
        (Factor::Named, _) => Factor::Named,
    }
}

fn times(x: Factor, y: Factor) -> Factor
    ensures { result ≡ times x y }
{
    match (x, y) {
        (Factor::Free, y) => y,
        (x, Factor::Free) => x,
        (_, _) => Factor::Crowded,
    }
}

/// What an expression is as a factor, by its parts.
#[cycle(factor_of)]
pub fn factor_of(e: &Logic) -> Factor
    ensures { result ≡ factor_of e.now }
{
    match e {
        Logic::Lit(_) => Factor::Free,
        Logic::Group(part) => factor_of(part.get()),
        Logic::PresenceOf(_) => Factor::Named,
        Logic::Measured(_, _, _) => Factor::Named,
        Logic::Gathered(_, parts) => all_beside(parts.as_slice()),
        Logic::Linked(Link::Times, parts) => product(parts.as_slice()),
        Logic::Linked(Link::And, parts) => all_beside(parts.as_slice()),
        Logic::Linked(Link::Or, parts) => all_beside(parts.as_slice()),
        Logic::Neg(part) => factor_of(part.get()),
        Logic::Sum(parts) => all_beside(parts.as_slice()),
        Logic::Compare(_, a, b) => {
            let a = factor_of(a.get());
            let b = factor_of(b.get());
            beside(a, b)
        }
        Logic::Not(part) => factor_of(part.get()),
        Logic::Implies(a, b) => {
            let a = factor_of(a.get());
            let b = factor_of(b.get());
            beside(a, b)
        }
    }
}

#[cycle(factor_of)]
fn all_beside(parts: &[Logic]) -> Factor
    ensures { result ≡ all_beside (map factor_of parts.now) }
{
    let mut so_far = Factor::Free;
    for part in parts {
        so_far = beside(so_far, factor_of(part));
    }
    so_far
}

#[cycle(factor_of)]
fn product(parts: &[Logic]) -> Factor
    ensures { result ≡ fold times factor.Free (map factor_of parts.now) }
{
    let mut so_far = Factor::Free;
    for part in parts {
        so_far = times(so_far, factor_of(part));
    }
    so_far
}
