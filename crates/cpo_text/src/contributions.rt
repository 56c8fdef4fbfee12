//! Cumulative expressions. The fuel bounds how many parts one has: a text within its limit never
//! uses it up.
ghost use Rattle.std.specs.Prelude.{◌≡◌, option_map};
ghost use Rattle.cpo_text.specs.code.Rules.{find_word, sign_in};
ghost use Rattle.cpo_text.specs.code.Contributions.{height_at, ints_before, pulse_from, pulse_at, step_at, contribution_at, part_at, joints, added_at, cumul_from, cumul_at, bounds, bounded_at, moments_at, window_at, always_in_at};
ghost use Rattle.cpo_text.specs.code.Gives.{ahead, Gives};

use crate::call_words::{PartWord, part_word};
use crate::cumul::{Cpart, Cumul, Signed};
use crate::fault::Fault;
use crate::parts::{
    behind, copy, int, int_before, name, name_before, next_name, owned_before, sign,
};
use crate::place::Place;
use crate::tree::{Bound, Constrained, Int, Moments};
use crate::word::Word;
use sched_base::List;
use std::alloc::Global;

/// The name of an interval and a height, up to the closing bracket.
#[tactic(auto, unfolding(crate::specs::code::Contributions::height_at))]
fn named_height(alloc: Global, place: Place<'_>) -> Result<((List<u8>, Int), Place<'_>), Fault>
    ensures { Gives result (height_at (ahead place.entry)) }
{
    let (interval, rest) = name_before(b",", place)?;
    let (height, rest) = int_before(b")", rest)?;
    Ok(((copy(alloc, interval)?, height), rest))
}

/// Two numbers, the second with a sign behind it.
#[tactic(auto, unfolding(crate::specs::code::Contributions::ints_before))]
fn ints_before<'a>(end: &[u8], place: Place<'a>) -> Result<((Int, Int), Place<'a>), Fault>
    ensures { Gives result (ints_before end.now (ahead place.entry)) }
{
    let (one, rest) = int_before(b",", place)?;
    let (other, rest) = int_before(end, rest)?;
    Ok(((one, other), rest))
}

/// The moments and the height of a pulse, behind its bracket.
#[tactic(auto, unfolding(crate::specs::code::Contributions::pulse_from, crate::specs::code::Contributions::ints_before))]
fn pulse_from(place: Place<'_>) -> Result<(Cpart, Place<'_>), Fault>
    ensures { Gives result (pulse_from (ahead place.entry)) }
{
    let (from, rest) = int_before(b",", place)?;
    let ((to, height), rest) = ints_before(b")", rest)?;
    Ok((Cpart::Pulse(from, to, height), rest))
}

/// A pulse is of an interval where a name follows its bracket.
#[tactic(auto, unfolding(crate::specs::code::Contributions::pulse_at, crate::specs::code::Contributions::height_at))]
fn pulse(alloc: Global, place: Place<'_>) -> Result<(Cpart, Place<'_>), Fault>
    ensures { Gives result (pulse_at (ahead place.entry)) }
{
    match next_name(place) {
        None => pulse_from(place),
        Some(_) => {
            let ((interval, height), rest) = named_height(alloc, place)?;
            Ok((Cpart::PulseOf(interval, height), rest))
        }
    }
}

#[tactic(auto, unfolding(crate::specs::code::Contributions::step_at, crate::specs::code::Contributions::ints_before))]
fn step(place: Place<'_>) -> Result<(Cpart, Place<'_>), Fault>
    ensures { Gives result (step_at (ahead place.entry)) }
{
    let ((moment, height), rest) = ints_before(b")", place)?;
    Ok((Cpart::Step(moment, height), rest))
}

/// What stands behind the bracket of a part.
#[tactic(auto, unfolding(crate::specs::code::Contributions::contribution_at, crate::specs::code::Contributions::height_at))]
fn contribution(
    alloc: Global,
    word: PartWord,
    place: Place<'_>,
) -> Result<(Cpart, Place<'_>), Fault>
    ensures { Gives result (contribution_at word (ahead place.entry)) }
{
    match word {
        PartWord::Pulse => pulse(alloc, place),
        PartWord::Step => step(place),
        PartWord::StepAtStart => {
            let ((interval, height), rest) = named_height(alloc, place)?;
            Ok((Cpart::StepAtStart(interval, height), rest))
        }
        PartWord::StepAtEnd => {
            let ((interval, height), rest) = named_height(alloc, place)?;
            Ok((Cpart::StepAtEnd(interval, height), rest))
        }
    }
}

/// A part without its sign. A name with no bracket behind it is that of a function.
#[tactic(auto, unfolding(crate::specs::code::Contributions::part_at))]
fn part(alloc: Global, place: Place<'_>) -> Result<(Cpart, Place<'_>), Fault>
    ensures { Gives result (part_at (ahead place.entry)) }
{
    let (word, rest) = name(place)?;
    match behind(b"(", rest) {
        None => Ok((Cpart::Named(copy(alloc, word)?), rest)),
        Some(open) => match part_word(word) {
            None => Err(Fault::Outside),
            Some(word) => contribution(alloc, word, open),
        },
    }
}

/// Whether a sign between parts is a minus.
fn joint_of(sign: &[u8]) -> Option<bool>
    ensures { result ≡ find_word joints sign.now }
{
    if sign == b"+".as_slice() {
        return Some(false);
    }
    if sign == b"-".as_slice() {
        return Some(true);
    }
    None
}

/// The sign before a later part, if it comes next, and the place behind it.
#[tactic(auto, unfolding(crate::specs::code::Gives::ahead))]
fn joint(place: Place<'_>) -> Option<(bool, Place<'_>)>
    ensures { option_map (λ x. (x.0, ahead x.1)) result ≡ sign_in joints (ahead place.entry) }
{
    let (token, rest) = place.next()?;
    match token.word {
        Word::Sign(bytes) => {
            let minus = joint_of(bytes)?;
            Some((minus, rest.onto()))
        }
        _ => None,
    }
}

/// The parts behind the first, each with its sign.
fn added(alloc: Global, fuel: u32, place: Place<'_>) -> Result<(List<Signed>, Place<'_>), Fault>
    ensures { Gives result (added_at fuel (ahead place.entry)) }
{
    let mut parts = List::new(alloc);
    let mut left = fuel;
    let mut here = place;
    while left > 0 {
        left -= 1;
        match joint(here) {
            None => return Ok((parts, here)),
            Some((minus, next)) => {
                let (part, rest) = part(alloc, next)?;
                parts.push(Signed { minus, part })?;
                here = rest;
            }
        }
    }
    Err(Fault::Outside)
}

/// A cumulative expression behind the sign of its first part.
#[tactic(auto, unfolding(crate::specs::code::Contributions::cumul_from))]
fn cumul_from(
    alloc: Global,
    fuel: u32,
    minus: bool,
    place: Place<'_>,
) -> Result<(Cumul, Place<'_>), Fault>
    ensures { Gives result (cumul_from fuel minus (ahead place.entry)) }
{
    let (part, rest) = part(alloc, place)?;
    let (more, rest) = added(alloc, fuel, rest)?;
    let first = Signed { minus, part };
    Ok((Cumul { first, more }, rest))
}

#[tactic(auto, unfolding(crate::specs::code::Contributions::cumul_at))]
pub fn cumul(alloc: Global, fuel: u32, place: Place<'_>) -> Result<(Cumul, Place<'_>), Fault>
    ensures { Gives result (cumul_at fuel (ahead place.entry)) }
{
    match behind(b"-", place) {
        Some(rest) => cumul_from(alloc, fuel, true, rest),
        None => cumul_from(alloc, fuel, false, place),
    }
}

fn bound_of(sign: &[u8]) -> Option<Bound>
    ensures { result ≡ find_word bounds sign.now }
{
    if sign == b"<=".as_slice() {
        return Some(Bound::AtMost);
    }
    if sign == b">=".as_slice() {
        return Some(Bound::AtLeast);
    }
    None
}

/// The sign of a bound, if it comes next, and the place behind it.
#[tactic(auto, unfolding(crate::specs::code::Gives::ahead))]
fn bound(place: Place<'_>) -> Option<(Bound, Place<'_>)>
    ensures { option_map (λ x. (x.0, ahead x.1)) result ≡ sign_in bounds (ahead place.entry) }
{
    let (token, rest) = place.next()?;
    match token.word {
        Word::Sign(bytes) => {
            let bound = bound_of(bytes)?;
            Some((bound, rest.onto()))
        }
        _ => None,
    }
}

/// A cumulative expression with its bound.
#[tactic(auto, unfolding(crate::specs::code::Contributions::bounded_at))]
pub fn bounded(
    alloc: Global,
    fuel: u32,
    place: Place<'_>,
) -> Result<(Constrained, Place<'_>), Fault>
    ensures { Gives result (bounded_at fuel (ahead place.entry)) }
{
    let (cumul, rest) = cumul(alloc, fuel, place)?;
    match bound(rest) {
        None => Err(Fault::Outside),
        Some((bound, next)) => {
            let (value, rest) = int(next)?;
            Ok((Constrained::Bounded(cumul, bound, value), rest))
        }
    }
}

/// The window of `alwaysIn`, with the comma behind it: an interval where a name follows.
#[tactic(auto, unfolding(crate::specs::code::Contributions::moments_at, crate::specs::code::Contributions::ints_before))]
fn moments(alloc: Global, place: Place<'_>) -> Result<(Moments, Place<'_>), Fault>
    ensures { Gives result (moments_at (ahead place.entry)) }
{
    match next_name(place) {
        Some(_) => {
            let (interval, rest) = owned_before(alloc, b",", place)?;
            Ok((Moments::During(interval), rest))
        }
        None => {
            let ((from, to), rest) = ints_before(b",", place)?;
            Ok((Moments::From(from, to), rest))
        }
    }
}

/// The window and the bounds of `alwaysIn`, from the comma on.
#[tactic(auto, unfolding(crate::specs::code::Contributions::window_at))]
fn window(alloc: Global, place: Place<'_>) -> Result<((Moments, (Int, Int)), Place<'_>), Fault>
    ensures { Gives result (window_at (ahead place.entry)) }
{
    let (moments, rest) = moments(alloc, sign(b",", place)?)?;
    let (bounds, rest) = ints_before(b")", rest)?;
    Ok(((moments, bounds), rest))
}

#[tactic(auto, unfolding(crate::specs::code::Contributions::always_in_at, crate::specs::code::Contributions::window_at, crate::specs::code::Contributions::ints_before))]
pub fn always_in(
    alloc: Global,
    fuel: u32,
    place: Place<'_>,
) -> Result<(Constrained, Place<'_>), Fault>
    ensures { Gives result (always_in_at fuel (ahead place.entry)) }
{
    let (cumul, rest) = cumul(alloc, fuel, sign(b"(", place)?)?;
    let ((moments, (least, most)), rest) = window(alloc, rest)?;
    Ok((Constrained::AlwaysIn(cumul, moments, least, most), rest))
}
