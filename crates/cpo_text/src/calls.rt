//! Definitions and constraints that are calls, each from behind the call's word.
ghost use Rattle.cpo_text.specs.code.Rules.{name_at};
ghost use Rattle.cpo_text.specs.code.Calls.{flag_at, types_given_at, types_at, sequence_at, matrix_at, state_function_at, step_function_at, parts_at, alternative_at, over_at, direct_at, spaced_at, spacing_at, no_overlap_at, pair_at, extreme_at, ordered_at, flags_at, aligned_at, state_at, always_equal_at, always_no_state_at};
ghost use Rattle.cpo_text.specs.code.Gives.{ahead, Gives};

use crate::fault::Fault;
use crate::lists::{ints, names, rows, steps};
use crate::parts::{behind, copy, ended, int, int_behind, name, owned_before, sign, size};
use crate::place::Place;
use crate::tree::{Constrained, Definition, Extreme, Hierarchy, Int, Order, Over, Spaced};
use sched_base::List;
use std::alloc::Global;

/// A name, its bytes copied.
fn owned(alloc: Global, place: Place<'_>) -> Result<(List<u8>, Place<'_>), Fault>
    ensures { Gives result (name_at (ahead place.entry)) }
{
    let (bytes, rest) = name(place)?;
    Ok((copy(alloc, bytes)?, rest))
}

/// A number that is 0 or 1.
#[tactic(auto, unfolding(crate::specs::code::Calls::flag_at))]
fn flag(place: Place<'_>) -> Result<(bool, Place<'_>), Fault>
    ensures { Gives result (flag_at (ahead place.entry)) }
{
    let (size, rest) = size(place)?;
    match size {
        Some(0) => Ok((false, rest)),
        Some(1) => Ok((true, rest)),
        _ => Err(Fault::Outside),
    }
}

/// The types of a sequence's members, behind their word.
#[tactic(auto, unfolding(crate::specs::code::Calls::types_given_at))]
fn types_given(alloc: Global, place: Place<'_>) -> Result<(List<Int>, Place<'_>), Fault>
    ensures { Gives result (types_given_at (ahead place.entry)) }
{
    let (word, rest) = name(place)?;
    if word != b"types".as_slice() {
        return Err(Fault::Outside);
    }
    ints(alloc, sign(b"=", rest)?)
}

/// The types behind a comma, or nothing.
#[tactic(auto, unfolding(crate::specs::code::Calls::types_at))]
fn types(alloc: Global, place: Place<'_>) -> Result<(Option<List<Int>>, Place<'_>), Fault>
    ensures { Gives result (types_at (ahead place.entry)) }
{
    match behind(b",", place) {
        Some(rest) => {
            let (types, rest) = types_given(alloc, rest)?;
            Ok((Some(types), rest))
        }
        None => Ok((None, place)),
    }
}

#[tactic(auto, unfolding(crate::specs::code::Calls::sequence_at))]
pub fn sequence(alloc: Global, place: Place<'_>) -> Result<(Definition, Place<'_>), Fault>
    ensures { Gives result (sequence_at (ahead place.entry)) }
{
    let (members, rest) = names(alloc, sign(b"(", place)?)?;
    let (types, rest) = types(alloc, rest)?;
    ended(Definition::SequenceVar(members, types), b")", rest)
}

#[tactic(auto, unfolding(crate::specs::code::Calls::matrix_at))]
pub fn matrix(alloc: Global, place: Place<'_>) -> Result<(Definition, Place<'_>), Fault>
    ensures { Gives result (matrix_at (ahead place.entry)) }
{
    let (rows, rest) = rows(alloc, sign(b"(", place)?)?;
    ended(Definition::TransitionMatrix(rows), b")", rest)
}

#[tactic(auto, unfolding(crate::specs::code::Calls::state_function_at, crate::specs::code::Rules::name_before))]
pub fn state_function(alloc: Global, place: Place<'_>) -> Result<(Definition, Place<'_>), Fault>
    ensures { Gives result (state_function_at (ahead place.entry)) }
{
    let open = sign(b"(", place)?;
    if let Some(rest) = behind(b")", open) {
        return Ok((Definition::StateFunction(None), rest));
    }
    let (matrix, rest) = owned_before(alloc, b")", open)?;
    Ok((Definition::StateFunction(Some(matrix)), rest))
}

/// The pairs of a step function, one at least.
#[tactic(auto, unfolding(crate::specs::code::Calls::step_function_at))]
pub fn step_function(alloc: Global, place: Place<'_>) -> Result<(Definition, Place<'_>), Fault>
    ensures { Gives result (step_function_at (ahead place.entry)) }
{
    let (pairs, rest) = steps(alloc, sign(b"(", place)?)?;
    if pairs.is_empty() {
        return Err(Fault::Outside);
    }
    ended(Definition::StepFunction(pairs), b")", rest)
}

/// An interval and its parts.
#[tactic(auto, unfolding(crate::specs::code::Calls::parts_at, crate::specs::code::Rules::name_before))]
pub fn parts(
    alloc: Global,
    hierarchy: Hierarchy,
    place: Place<'_>,
) -> Result<(Constrained, Place<'_>), Fault>
    ensures { Gives result (parts_at hierarchy (ahead place.entry)) }
{
    let (whole, rest) = owned_before(alloc, b",", sign(b"(", place)?)?;
    let (parts, rest) = names(alloc, rest)?;
    ended(Constrained::Parts(hierarchy, whole, parts), b")", rest)
}

/// An interval, its parts and, where it is written, how many of them are chosen.
#[tactic(auto, unfolding(crate::specs::code::Calls::alternative_at, crate::specs::code::Rules::name_before))]
pub fn alternative(alloc: Global, place: Place<'_>) -> Result<(Constrained, Place<'_>), Fault>
    ensures { Gives result (alternative_at (ahead place.entry)) }
{
    let (whole, rest) = owned_before(alloc, b",", sign(b"(", place)?)?;
    let (parts, rest) = names(alloc, rest)?;
    let (count, rest) = int_behind(b",", rest)?;
    ended(Constrained::Alternative(whole, parts, count), b")", rest)
}

/// The name of a sequence, or the members of one without a name.
#[tactic(auto, unfolding(crate::specs::code::Calls::over_at))]
fn over(alloc: Global, place: Place<'_>) -> Result<(Over, Place<'_>), Fault>
    ensures { Gives result (over_at (ahead place.entry)) }
{
    if behind(b"[", place).is_some() {
        let (members, rest) = names(alloc, place)?;
        return Ok((Over::Listed(members), rest));
    }
    let (sequence, rest) = owned(alloc, place)?;
    Ok((Over::Named(sequence), rest))
}

/// The direct flag behind a comma, or nothing.
#[tactic(auto, unfolding(crate::specs::code::Calls::direct_at))]
fn direct(place: Place<'_>) -> Result<(Option<bool>, Place<'_>), Fault>
    ensures { Gives result (direct_at (ahead place.entry)) }
{
    match behind(b",", place) {
        Some(rest) => {
            let (flag, rest) = flag(rest)?;
            Ok((Some(flag), rest))
        }
        None => Ok((None, place)),
    }
}

#[tactic(auto, unfolding(crate::specs::code::Calls::spaced_at))]
fn spaced(alloc: Global, place: Place<'_>) -> Result<(Spaced, Place<'_>), Fault>
    ensures { Gives result (spaced_at (ahead place.entry)) }
{
    let (matrix, rest) = name(place)?;
    let (direct, rest) = direct(rest)?;
    let matrix = copy(alloc, matrix)?;
    Ok((Spaced { matrix, direct }, rest))
}

/// The matrix and its flag behind a comma, or nothing.
#[tactic(auto, unfolding(crate::specs::code::Calls::spacing_at))]
fn spacing(alloc: Global, place: Place<'_>) -> Result<(Option<Spaced>, Place<'_>), Fault>
    ensures { Gives result (spacing_at (ahead place.entry)) }
{
    match behind(b",", place) {
        Some(rest) => {
            let (spaced, rest) = spaced(alloc, rest)?;
            Ok((Some(spaced), rest))
        }
        None => Ok((None, place)),
    }
}

#[tactic(auto, unfolding(crate::specs::code::Calls::no_overlap_at))]
pub fn no_overlap(alloc: Global, place: Place<'_>) -> Result<(Constrained, Place<'_>), Fault>
    ensures { Gives result (no_overlap_at (ahead place.entry)) }
{
    let (over, rest) = over(alloc, sign(b"(", place)?)?;
    let (spacing, rest) = spacing(alloc, rest)?;
    ended(Constrained::NoOverlap(over, spacing), b")", rest)
}

/// Two names in round brackets.
#[tactic(auto, unfolding(crate::specs::code::Calls::pair_at, crate::specs::code::Rules::name_before))]
pub fn pair(alloc: Global, place: Place<'_>) -> Result<((List<u8>, List<u8>), Place<'_>), Fault>
    ensures { Gives result (pair_at (ahead place.entry)) }
{
    let (first, rest) = owned_before(alloc, b",", sign(b"(", place)?)?;
    let (second, rest) = owned_before(alloc, b")", rest)?;
    Ok(((first, second), rest))
}

/// A sequence and its first or last member.
#[tactic(auto, unfolding(crate::specs::code::Calls::extreme_at))]
pub fn extreme(
    alloc: Global,
    extreme: Extreme,
    place: Place<'_>,
) -> Result<(Constrained, Place<'_>), Fault>
    ensures { Gives result (extreme_at extreme (ahead place.entry)) }
{
    let ((sequence, member), rest) = pair(alloc, place)?;
    Ok((Constrained::Extreme(extreme, sequence, member), rest))
}

/// A sequence and two members, one before the other.
#[tactic(auto, unfolding(crate::specs::code::Calls::ordered_at, crate::specs::code::Rules::name_before))]
pub fn ordered(
    alloc: Global,
    order: Order,
    place: Place<'_>,
) -> Result<(Constrained, Place<'_>), Fault>
    ensures { Gives result (ordered_at order (ahead place.entry)) }
{
    let (sequence, rest) = owned_before(alloc, b",", sign(b"(", place)?)?;
    let (first, rest) = owned_before(alloc, b",", rest)?;
    let (second, rest) = owned_before(alloc, b")", rest)?;
    Ok((Constrained::Ordered(order, sequence, first, second), rest))
}

/// Two flags.
#[tactic(auto, unfolding(crate::specs::code::Calls::flags_at))]
fn flags(place: Place<'_>) -> Result<((bool, bool), Place<'_>), Fault>
    ensures { Gives result (flags_at (ahead place.entry)) }
{
    let (start, rest) = flag(place)?;
    let (end, rest) = flag(sign(b",", rest)?)?;
    Ok(((start, end), rest))
}

/// Two flags behind a comma, or nothing.
#[tactic(auto, unfolding(crate::specs::code::Calls::aligned_at))]
fn aligned(place: Place<'_>) -> Result<(Option<(bool, bool)>, Place<'_>), Fault>
    ensures { Gives result (aligned_at (ahead place.entry)) }
{
    match behind(b",", place) {
        Some(rest) => {
            let (flags, rest) = flags(rest)?;
            Ok((Some(flags), rest))
        }
        None => Ok((None, place)),
    }
}

/// A state and whether the ends are aligned, up to the closing bracket.
#[tactic(auto, unfolding(crate::specs::code::Calls::state_at))]
fn state(place: Place<'_>) -> Result<((Int, Option<(bool, bool)>), Place<'_>), Fault>
    ensures { Gives result (state_at (ahead place.entry)) }
{
    let (state, rest) = int(place)?;
    let (aligned, rest) = aligned(rest)?;
    ended((state, aligned), b")", rest)
}

#[tactic(auto, unfolding(crate::specs::code::Calls::always_equal_at, crate::specs::code::Calls::state_at, crate::specs::code::Rules::name_before))]
pub fn always_equal(alloc: Global, place: Place<'_>) -> Result<(Constrained, Place<'_>), Fault>
    ensures { Gives result (always_equal_at (ahead place.entry)) }
{
    let (function, rest) = owned_before(alloc, b",", sign(b"(", place)?)?;
    let (interval, rest) = owned_before(alloc, b",", rest)?;
    let ((state, aligned), rest) = state(rest)?;
    Ok((
        Constrained::AlwaysEqual(function, interval, state, aligned),
        rest,
    ))
}

#[tactic(auto, unfolding(crate::specs::code::Calls::always_no_state_at))]
pub fn always_no_state(alloc: Global, place: Place<'_>) -> Result<(Constrained, Place<'_>), Fault>
    ensures { Gives result (always_no_state_at (ahead place.entry)) }
{
    let ((function, interval), rest) = pair(alloc, place)?;
    Ok((Constrained::AlwaysNoState(function, interval), rest))
}
