//! Atoms that have no expression in them.
ghost use Rattle.cpo_text.specs.code.Levels.{measured_at, presence_at, gathered_none, gathered_some};
ghost use Rattle.cpo_text.specs.code.Gives.{ahead, GivesOne};

use crate::expression::{Gather, Logic, Measure};
use crate::fault::Fault;
use crate::grammar::enclosed;
use crate::parts::{copy, int_behind, name, sign};
use crate::place::Place;
use sched_base::List;
use std::alloc::Global;

/// A start, an end, a size or a length, behind its word.
#[tactic(auto, unfolding(crate::specs::code::Levels::measured_at))]
pub fn measured(
    alloc: Global,
    measure: Measure,
    place: Place<'_>,
) -> Result<(Logic, Place<'_>), Fault>
    ensures { GivesOne result (measured_at measure (ahead place.entry)) }
{
    let (interval, rest) = name(sign(b"(", place)?)?;
    let (absent, rest) = int_behind(b",", rest)?;
    let rest = sign(b")", rest)?;
    let interval = copy(alloc, interval)?;
    Ok((Logic::Measured(measure, interval, absent), rest))
}

/// The presence of an interval, behind its word.
pub fn presence(alloc: Global, place: Place<'_>) -> Result<(Logic, Place<'_>), Fault>
    ensures { GivesOne result (presence_at (ahead place.entry)) }
{
    let (interval, rest) = enclosed(alloc, place)?;
    Ok((Logic::PresenceOf(interval), rest))
}

/// What is made of these expressions, from the closing bracket on.
pub fn gathered_some(
    gather: Gather,
    operands: List<Logic>,
    place: Place<'_>,
) -> Result<(Logic, Place<'_>), Fault>
    ensures { GivesOne result (gathered_some gather operands (ahead place.entry)) }
{
    let rest = sign(b")", sign(b"]", place)?)?;
    Ok((Logic::Gathered(gather, operands), rest))
}

/// What is made of no expressions: a sum only.
pub fn gathered_none(
    alloc: Global,
    gather: Gather,
    place: Place<'_>,
) -> Result<(Logic, Place<'_>), Fault>
    ensures { GivesOne result (gathered_none gather (ahead place.entry)) }
{
    match gather {
        Gather::Sum => {
            let rest = sign(b")", place)?;
            Ok((Logic::Gathered(Gather::Sum, List::new(alloc)), rest))
        }
        Gather::Max | Gather::Min => Err(Fault::Outside),
    }
}
