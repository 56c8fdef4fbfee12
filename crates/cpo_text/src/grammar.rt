ghost use Rattle.std.specs.Prelude.{◌≡◌, []};
ghost use Rattle.cpo_text.specs.Spelling.{ivarg_sort};
ghost use Rattle.cpo_text.specs.code.Rules.{given_at, ivarg_of, ivarg_at, has_sort, ivargs_at, interval_at, between_at, enclosed_at};
ghost use Rattle.cpo_text.specs.code.Gives.{ahead, Gives};

use crate::fault::Fault;
use crate::parts::{behind, copy, ended, int_behind, name, name_before, owned_before, range, sign};
use crate::place::Place;
use crate::tree::{Constrained, Definition, Ivarg, Range, Temporal};
use sched_base::List;
use std::alloc::Global;

#[tactic(auto, unfolding(crate::specs::code::Rules::given_at))]
fn given(place: Place<'_>) -> Result<(Range, Place<'_>), Fault>
    ensures { Gives result (given_at (ahead place.entry)) }
{
    range(sign(b"=", place)?)
}

/// The argument that this word begins.
#[tactic(auto, unfolding(crate::specs::code::Rules::ivarg_of))]
fn ivarg_of<'a>(word: &[u8], place: Place<'a>) -> Result<(Ivarg, Place<'a>), Fault>
    ensures { Gives result (ivarg_of word.now (ahead place.entry)) }
{
    if word == b"optional".as_slice() {
        return Ok((Ivarg::Optional, place));
    }
    if word == b"start".as_slice() {
        let (range, rest) = given(place)?;
        return Ok((Ivarg::Start(range), rest));
    }
    if word == b"end".as_slice() {
        let (range, rest) = given(place)?;
        return Ok((Ivarg::End(range), rest));
    }
    if word == b"size".as_slice() {
        let (range, rest) = given(place)?;
        return Ok((Ivarg::Size(range), rest));
    }
    Err(Fault::Outside)
}

#[tactic(auto, unfolding(crate::specs::code::Rules::ivarg_at))]
fn ivarg(place: Place<'_>) -> Result<(Ivarg, Place<'_>), Fault>
    ensures { Gives result (ivarg_at (ahead place.entry)) }
{
    let (word, rest) = name(place)?;
    ivarg_of(word, rest)
}

fn sort(arg: Ivarg) -> u8
    ensures { result ≡ ivarg_sort arg }
{
    match arg {
        Ivarg::Optional => 0,
        Ivarg::Start(_) => 1,
        Ivarg::End(_) => 2,
        Ivarg::Size(_) => 3,
    }
}

/// Whether an argument of the same kind is among some.
fn has_sort(arg: Ivarg, args: &[Ivarg]) -> bool
    ensures { result ≡ has_sort arg args.now }
{
    args.iter().any(|other| sort(*other) == sort(arg))
}

/// One or more arguments, each of a kind of its own.
fn ivargs(alloc: Global, place: Place<'_>) -> Result<(List<Ivarg>, Place<'_>), Fault>
    ensures { Gives result (ivargs_at [] (ahead place.entry)) }
{
    let mut args = List::new(alloc);
    let mut here = place;
    loop {
        let (arg, rest) = ivarg(here)?;
        if has_sort(arg, args.as_slice()) {
            return Err(Fault::Outside);
        }
        args.push(arg)?;
        match behind(b",", rest) {
            Some(next) => here = next,
            None => return Ok((args, rest)),
        }
    }
}

#[tactic(auto, unfolding(crate::specs::code::Rules::interval_at))]
pub fn interval(alloc: Global, place: Place<'_>) -> Result<(Definition, Place<'_>), Fault>
    ensures { Gives result (interval_at (ahead place.entry)) }
{
    let open = sign(b"(", place)?;
    if let Some(rest) = behind(b")", open) {
        return Ok((Definition::IntervalVar(List::new(alloc)), rest));
    }
    let (args, rest) = ivargs(alloc, open)?;
    ended(Definition::IntervalVar(args), b")", rest)
}

#[tactic(auto, unfolding(crate::specs::code::Rules::between_at, crate::specs::code::Rules::name_before))]
pub fn between(
    alloc: Global,
    temporal: Temporal,
    place: Place<'_>,
) -> Result<(Constrained, Place<'_>), Fault>
    ensures { Gives result (between_at temporal (ahead place.entry)) }
{
    let (first, rest) = name_before(b",", sign(b"(", place)?)?;
    let (second, rest) = name(rest)?;
    let (delay, rest) = int_behind(b",", rest)?;
    let rest = sign(b")", rest)?;
    let first = copy(alloc, first)?;
    let second = copy(alloc, second)?;
    Ok((Constrained::Between(temporal, first, second, delay), rest))
}

/// A name in round brackets.
#[tactic(auto, unfolding(crate::specs::code::Rules::enclosed_at, crate::specs::code::Rules::name_before))]
pub fn enclosed(alloc: Global, place: Place<'_>) -> Result<(List<u8>, Place<'_>), Fault>
    ensures { Gives result (enclosed_at (ahead place.entry)) }
{
    owned_before(alloc, b")", sign(b"(", place)?)
}
