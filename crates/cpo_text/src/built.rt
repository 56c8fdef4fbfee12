//! Nodes of expressions that are made of the operands that were read.
ghost use Rattle.std.specs.Prelude.{◌≡◌, ◌<◌, [], ◌∷◌, length, Some, IfOk, IfErr};
ghost use Rattle.cpo_text.specs.code.Levels.{node, linked, neg, total, group, compare, negation, implies};
ghost use Rattle.cpo_text.specs.code.Onward.{grouped_on};
ghost use Rattle.cpo_text.specs.code.Gives.{ahead, GivesOne};
ghost use Rattle.cpo_text.specs.declared.fault.Fault.TheVariants.{NoMemory as Memory};

use crate::expression::{Comparison, Link, Logic};
use crate::fault::Fault;
use crate::parts::sign;
use crate::place::Place;
use sched_base::{Boxed, List, NoMemory};
use std::alloc::Global;

/// A list of one operand.
pub fn alone(alloc: Global, first: Logic) -> Result<List<Logic>, NoMemory>
    ensures { IfOk result (λ es. es ≡ first ∷ []) }
{
    let mut operands = List::new(alloc);
    operands.push(first)?;
    Ok(operands)
}

/// One operand is itself.
pub fn linked(link: Link, operands: List<Logic>) -> Result<Logic, Fault>
    requires { 0 < length operands }
    ensures ok { IfOk result (λ e. node (linked link) operands ≡ e ∷ []) }
    ensures err { IfErr result (λ e. e ≡ Memory) }
{
    if operands.len() > 1 {
        return Ok(Logic::Linked(link, operands));
    }
    match operands.into_vec().pop() {
        Some(one) => Ok(one),
        None => Err(Fault::NoMemory),
    }
}

pub fn total(operands: List<Logic>) -> Result<Logic, Fault>
    requires { 0 < length operands }
    ensures ok { IfOk result (λ e. node total operands ≡ e ∷ []) }
    ensures err { IfErr result (λ e. e ≡ Memory) }
{
    if operands.len() > 1 {
        return Ok(Logic::Sum(operands));
    }
    match operands.into_vec().pop() {
        Some(one) => Ok(one),
        None => Err(Fault::NoMemory),
    }
}

pub fn negated(alloc: Global, product: Logic) -> Result<Logic, NoMemory>
    ensures { IfOk result (λ e. e ≡ neg product) }
{
    Ok(Logic::Neg(Boxed::new(alloc, product)?))
}

pub fn negation(alloc: Global, inner: Logic) -> Result<Logic, NoMemory>
    ensures { IfOk result (λ e. e ≡ negation inner) }
{
    Ok(Logic::Not(Boxed::new(alloc, inner)?))
}

pub fn compared(
    alloc: Global,
    comparison: Comparison,
    left: Logic,
    right: Logic,
) -> Result<Logic, NoMemory>
    ensures { IfOk result (λ e. e ≡ compare comparison left right) }
{
    let left = Boxed::new(alloc, left)?;
    let right = Boxed::new(alloc, right)?;
    Ok(Logic::Compare(comparison, left, right))
}

pub fn implied(alloc: Global, left: Logic, right: Logic) -> Result<Logic, NoMemory>
    ensures { IfOk result (λ e. e ≡ implies left right) }
{
    let left = Boxed::new(alloc, left)?;
    let right = Boxed::new(alloc, right)?;
    Ok(Logic::Implies(left, right))
}

#[inline(always)]
pub fn group(alloc: Global, inner: Logic) -> Result<Logic, NoMemory>
    ensures { IfOk result (λ e. e ≡ group inner) }
{
    Ok(Logic::Group(Boxed::new(alloc, inner)?))
}

/// What stands in round brackets, from the closing one on.
pub fn bracketed(alloc: Global, inner: Logic, place: Place<'_>) -> Result<(Logic, Place<'_>), Fault>
    ensures { GivesOne result (grouped_on (Some (inner ∷ [], ahead place.entry))) }
{
    let rest = sign(b")", place)?;
    Ok((group(alloc, inner)?, rest))
}
