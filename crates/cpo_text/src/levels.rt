//! Expressions, level by level. The fuel bounds how often rules call rules: a text that passes the
//! early tests never uses it up. Most expressions begin with an atom: it is read at once, and not
//! down through the levels, which would look at each token again and again.
ghost use Rattle.std.specs.Prelude.{◌≡◌, ◌≤◌, ◌-◌, [], ◌∷◌, Some};
ghost use Rattle.cpo_text.specs.code.Places.{said_word};
ghost use Rattle.cpo_text.specs.code.Levels.{read, inner, in_front, gathered_at, gathered_behind, call_of, grouped_at};
ghost use Rattle.cpo_text.specs.code.Onward.{linked_on, total_on, compared_on, implied_on, all_on, grouped_on};
ghost use Rattle.cpo_text.specs.code.Levels.Task.{logic as logic_task, chain as chain_task, unit as unit_task, sum as sum_task, term as term_task, atom as atom_task, more as more_task, terms as terms_task, items as items_task};
ghost use Rattle.cpo_text.specs.code.Gives.{ahead, Gives, GivesOne};

use crate::atoms::{gathered_none, gathered_some, measured, presence};
use crate::built::{alone, bracketed, compared, group, implied, linked, negated, negation, total};
use crate::expression::{Gather, Link, Logic};
use crate::fault::Fault;
use crate::level_words::{comparison, gather_of, measure_of, plain, sign_of};
use crate::parts::{behind, sign};
use crate::place::Place;
use crate::word::Word;
use sched_base::List;
use std::alloc::Global;

#[cycle(levels)]
#[tactic(auto, unfolding(crate::specs::code::Levels::gathered_at))]
fn gathered(
    alloc: Global,
    fuel: u32,
    gather: Gather,
    place: Place<'_>,
) -> Result<(Logic, Place<'_>), Fault>
    ensures { GivesOne result (gathered_at gather (read fuel items_task) (ahead place.entry)) }
{
    let open = sign(b"[", sign(b"(", place)?)?;
    if let Some(rest) = behind(b"]", open) {
        return gathered_none(alloc, gather, rest);
    }
    let (operands, rest) = items(alloc, fuel, open)?;
    gathered_some(gather, operands, rest)
}

/// What a call word begins.
#[cycle(levels)]
#[inline(never)]
#[tactic(auto, unfolding(crate::specs::code::Levels::call_of))]
fn call<'a>(
    alloc: Global,
    fuel: u32,
    word: &[u8],
    place: Place<'a>,
) -> Result<(Logic, Place<'a>), Fault>
    ensures { GivesOne result (call_of word.now (read fuel items_task) (ahead place.entry)) }
{
    if word == b"presenceOf".as_slice() {
        return presence(alloc, place);
    }
    if let Some(measure) = measure_of(word) {
        return measured(alloc, measure, place);
    }
    match gather_of(word) {
        Some(gather) => gathered(alloc, fuel, gather, place),
        None => Err(Fault::Outside),
    }
}

/// The atom that this word begins.
#[cycle(levels)]
fn atom_of<'a>(
    alloc: Global,
    fuel: u32,
    word: Word<'_>,
    place: Place<'a>,
) -> Result<(Logic, Place<'a>), Fault>
    ensures { GivesOne result (read fuel atom_task (said_word word.entry ∷ ahead place.entry)) }
{
    if fuel == 0 {
        return Err(Fault::Outside);
    }
    match word {
        Word::Number(value) => Ok((Logic::Lit(value), place)),
        Word::Name(word) => call(alloc, fuel - 1, word, place),
        Word::Sign(bytes) => {
            if b"(".as_slice() == bytes {
                return grouped(alloc, fuel - 1, place);
            }
            Err(Fault::Outside)
        }
        Word::Quoted => Err(Fault::Outside),
    }
}

#[cycle(levels)]
#[tactic(auto, unfolding(crate::specs::code::Gives::ahead))]
fn atom(alloc: Global, fuel: u32, place: Place<'_>) -> Result<(Logic, Place<'_>), Fault>
    ensures { GivesOne result (read fuel atom_task (ahead place.entry)) }
{
    if fuel == 0 {
        return Err(Fault::Outside);
    }
    match place.next() {
        Some((token, rest)) => atom_of(alloc, fuel, token.word, rest.onto()),
        None => Err(Fault::Outside),
    }
}

/// An operand of a link.
#[cycle(levels)]
fn operand(
    alloc: Global,
    fuel: u32,
    link: Link,
    place: Place<'_>,
) -> Result<(Logic, Place<'_>), Fault>
    ensures { GivesOne result (read fuel (inner link) (ahead place.entry)) }
{
    match link {
        Link::Times => atom(alloc, fuel, place),
        Link::And => unit(alloc, fuel, place),
        Link::Or => chain(alloc, fuel, Link::And, place),
    }
}

/// The operands of a link, the first of which is read.
#[cycle(levels)]
fn operands(
    alloc: Global,
    fuel: u32,
    link: Link,
    first: Logic,
    place: Place<'_>,
) -> Result<(List<Logic>, Place<'_>), Fault>
    ensures { Gives result (in_front (first ∷ []) (read fuel (more_task link) (ahead place.entry))) }
{
    let mut operands = alone(alloc, first)?;
    let mut left = fuel;
    let mut here = place;
    while left > 0 {
        left -= 1;
        match behind(sign_of(link), here) {
            None => return Ok((operands, here)),
            Some(next) => {
                let (one, rest) = operand(alloc, left, link, next)?;
                operands.push(one)?;
                here = rest;
            }
        }
    }
    Err(Fault::Outside)
}

/// The first operand of a link, alone or with others behind it.
#[cycle(levels)]
fn linked_on(
    alloc: Global,
    fuel: u32,
    link: Link,
    first: Logic,
    place: Place<'_>,
) -> Result<(Logic, Place<'_>), Fault>
    ensures { GivesOne result (linked_on fuel link (Some (first ∷ [], ahead place.entry))) }
{
    if fuel == 0 {
        return Err(Fault::Outside);
    }
    match behind(sign_of(link), place) {
        None => Ok((first, place)),
        Some(_) => {
            let (operands, rest) = operands(alloc, fuel, link, first, place)?;
            Ok((linked(link, operands)?, rest))
        }
    }
}

/// One operand of a link, or more.
#[cycle(levels)]
fn chain(
    alloc: Global,
    fuel: u32,
    link: Link,
    place: Place<'_>,
) -> Result<(Logic, Place<'_>), Fault>
    ensures { GivesOne result (read fuel (chain_task link) (ahead place.entry)) }
{
    if fuel == 0 {
        return Err(Fault::Outside);
    }
    let (first, rest) = operand(alloc, fuel - 1, link, place)?;
    linked_on(alloc, fuel - 1, link, first, rest)
}

/// A product, or one under a minus.
#[cycle(levels)]
fn term(alloc: Global, fuel: u32, place: Place<'_>) -> Result<(Logic, Place<'_>), Fault>
    ensures { GivesOne result (read fuel term_task (ahead place.entry)) }
{
    if fuel == 0 {
        return Err(Fault::Outside);
    }
    match behind(b"-", place) {
        Some(rest) => {
            let (product, rest) = chain(alloc, fuel - 1, Link::Times, rest)?;
            Ok((negated(alloc, product)?, rest))
        }
        None => chain(alloc, fuel - 1, Link::Times, place),
    }
}

/// The operands of a sum, the first of which is read.
#[cycle(levels)]
fn terms(
    alloc: Global,
    fuel: u32,
    first: Logic,
    place: Place<'_>,
) -> Result<(List<Logic>, Place<'_>), Fault>
    ensures { Gives result (in_front (first ∷ []) (read fuel terms_task (ahead place.entry))) }
{
    let mut operands = alone(alloc, first)?;
    let mut left = fuel;
    let mut here = place;
    while left > 0 {
        left -= 1;
        if let Some(next) = behind(b"+", here) {
            let (one, rest) = chain(alloc, left, Link::Times, next)?;
            operands.push(one)?;
            here = rest;
            continue;
        }
        match behind(b"-", here) {
            None => return Ok((operands, here)),
            Some(next) => {
                let (one, rest) = chain(alloc, left, Link::Times, next)?;
                let negated = negated(alloc, one)?;
                operands.push(negated)?;
                here = rest;
            }
        }
    }
    Err(Fault::Outside)
}

/// The first operand of a sum with those behind it.
#[cycle(levels)]
fn summed(
    alloc: Global,
    fuel: u32,
    first: Logic,
    place: Place<'_>,
) -> Result<(Logic, Place<'_>), Fault>
    ensures { GivesOne result (total_on fuel (Some (first ∷ [], ahead place.entry))) }
{
    let (operands, rest) = terms(alloc, fuel, first, place)?;
    Ok((total(operands)?, rest))
}

/// The first operand of a sum, alone or with others behind it.
#[cycle(levels)]
fn total_on(
    alloc: Global,
    fuel: u32,
    first: Logic,
    place: Place<'_>,
) -> Result<(Logic, Place<'_>), Fault>
    ensures { GivesOne result (total_on fuel (Some (first ∷ [], ahead place.entry))) }
{
    if fuel == 0 {
        return Err(Fault::Outside);
    }
    if let Some(_) = behind(b"+", place) {
        return summed(alloc, fuel, first, place);
    }
    match behind(b"-", place) {
        None => Ok((first, place)),
        Some(_) => summed(alloc, fuel, first, place),
    }
}

#[cycle(levels)]
fn sum(alloc: Global, fuel: u32, place: Place<'_>) -> Result<(Logic, Place<'_>), Fault>
    ensures { GivesOne result (read fuel sum_task (ahead place.entry)) }
{
    if fuel == 0 {
        return Err(Fault::Outside);
    }
    let (first, rest) = term(alloc, fuel - 1, place)?;
    total_on(alloc, fuel - 1, first, rest)
}

/// A sum, alone or compared with the one behind it.
#[cycle(levels)]
fn compared_on(
    alloc: Global,
    fuel: u32,
    left: Logic,
    place: Place<'_>,
) -> Result<(Logic, Place<'_>), Fault>
    ensures { GivesOne result (compared_on fuel (Some (left ∷ [], ahead place.entry))) }
{
    match comparison(place) {
        None => Ok((left, place)),
        Some((comparison, next)) => {
            let (right, rest) = sum(alloc, fuel, next)?;
            Ok((compared(alloc, comparison, left, right)?, rest))
        }
    }
}

/// A negation, a comparison, or a sum alone.
#[cycle(levels)]
fn unit(alloc: Global, fuel: u32, place: Place<'_>) -> Result<(Logic, Place<'_>), Fault>
    ensures { GivesOne result (read fuel unit_task (ahead place.entry)) }
{
    if fuel == 0 {
        return Err(Fault::Outside);
    }
    if let Some(rest) = behind(b"!", place) {
        let (inner, rest) = unit(alloc, fuel - 1, rest)?;
        return Ok((negation(alloc, inner)?, rest));
    }
    let (left, rest) = sum(alloc, fuel - 1, place)?;
    compared_on(alloc, fuel - 1, left, rest)
}

/// What is not an implication, alone or with what it implies behind it.
#[cycle(levels)]
fn implied_on(
    alloc: Global,
    fuel: u32,
    left: Logic,
    place: Place<'_>,
) -> Result<(Logic, Place<'_>), Fault>
    ensures { GivesOne result (implied_on fuel (Some (left ∷ [], ahead place.entry))) }
{
    match behind(b"=>", place) {
        None => Ok((left, place)),
        Some(next) => {
            let (right, rest) = logic(alloc, fuel, next)?;
            Ok((implied(alloc, left, right)?, rest))
        }
    }
}

/// An expression, down through the levels.
#[cycle(levels)]
fn leveled(alloc: Global, fuel: u32, place: Place<'_>) -> Result<(Logic, Place<'_>), Fault>
    ensures { GivesOne result (read fuel logic_task (ahead place.entry)) }
{
    if fuel == 0 {
        return Err(Fault::Outside);
    }
    let (left, rest) = chain(alloc, fuel - 1, Link::Or, place)?;
    implied_on(alloc, fuel - 1, left, rest)
}

/// An expression whose first atom is read, up through the levels.
#[cycle(levels)]
#[inline(never)]
#[tactic(auto, unfolding(crate::specs::code::Onward::all_on))]
fn all_on(
    alloc: Global,
    fuel: u32,
    first: Logic,
    place: Place<'_>,
) -> Result<(Logic, Place<'_>), Fault>
    requires { 8 ≤ fuel }
    ensures { GivesOne result (all_on fuel (Some (first ∷ [], ahead place.entry))) }
{
    let (one, rest) = linked_on(alloc, fuel - 7, Link::Times, first, place)?;
    let (one, rest) = total_on(alloc, fuel - 5, one, rest)?;
    let (one, rest) = compared_on(alloc, fuel - 4, one, rest)?;
    let (one, rest) = linked_on(alloc, fuel - 3, Link::And, one, rest)?;
    let (one, rest) = linked_on(alloc, fuel - 2, Link::Or, one, rest)?;
    implied_on(alloc, fuel - 1, one, rest)
}

/// What stands behind a round bracket, the first atom in which is read, up through the levels.
#[cycle(levels)]
#[inline(never)]
fn group_on(
    alloc: Global,
    fuel: u32,
    first: Logic,
    place: Place<'_>,
) -> Result<(Logic, Place<'_>), Fault>
    requires { 8 ≤ fuel }
    ensures { GivesOne result (grouped_on (all_on fuel (Some (first ∷ [], ahead place.entry)))) }
{
    let (inner, rest) = all_on(alloc, fuel, first, place)?;
    bracketed(alloc, inner, rest)
}

/// What stands behind a round bracket, the first atom in which is read. Nothing goes on at the
/// closing bracket.
#[cycle(levels)]
#[tactic(auto, using(crate::proofs::operands::Onwards::closed))]
fn closed(
    alloc: Global,
    fuel: u32,
    first: Logic,
    place: Place<'_>,
) -> Result<(Logic, Place<'_>), Fault>
    requires { 8 ≤ fuel }
    ensures { GivesOne result (grouped_on (all_on fuel (Some (first ∷ [], ahead place.entry)))) }
{
    match behind(b")", place) {
        Some(rest) => Ok((group(alloc, first)?, rest)),
        None => group_on(alloc, fuel, first, place),
    }
}

/// What stands behind a round bracket and begins with the atom that this word begins.
#[cycle(levels)]
#[tactic(auto, unfolding(crate::specs::code::Onward::all_on))]
fn opened<'a>(
    alloc: Global,
    fuel: u32,
    word: Word<'_>,
    place: Place<'a>,
) -> Result<(Logic, Place<'a>), Fault>
    requires { 8 ≤ fuel }
    ensures { GivesOne result (grouped_on (all_on fuel (read (fuel - 7) atom_task (said_word word.entry ∷ ahead place.entry)))) }
{
    let (first, rest) = atom_of(alloc, fuel - 7, word, place)?;
    closed(alloc, fuel, first, rest)
}

/// What stands behind a round bracket, down through the levels.
#[cycle(levels)]
#[inline(never)]
#[tactic(auto, unfolding(crate::specs::code::Levels::grouped_at))]
fn leveled_group(alloc: Global, fuel: u32, place: Place<'_>) -> Result<(Logic, Place<'_>), Fault>
    ensures { GivesOne result (grouped_at (read fuel logic_task) (ahead place.entry)) }
{
    let (inner, rest) = leveled(alloc, fuel, place)?;
    bracketed(alloc, inner, rest)
}

/// What stands behind a round bracket.
#[cycle(levels)]
fn grouped(alloc: Global, fuel: u32, place: Place<'_>) -> Result<(Logic, Place<'_>), Fault>
    ensures { GivesOne result (grouped_at (read fuel logic_task) (ahead place.entry)) }
{
    if fuel < 8 {
        return leveled_group(alloc, fuel, place);
    }
    match plain(place) {
        None => leveled_group(alloc, fuel, place),
        Some((token, rest)) => opened(alloc, fuel, token.word, rest),
    }
}

/// An expression that begins with the atom that this word begins.
#[cycle(levels)]
#[tactic(auto, unfolding(crate::specs::code::Onward::all_on))]
fn begun<'a>(
    alloc: Global,
    fuel: u32,
    word: Word<'_>,
    place: Place<'a>,
) -> Result<(Logic, Place<'a>), Fault>
    requires { 8 ≤ fuel }
    ensures { GivesOne result (all_on fuel (read (fuel - 7) atom_task (said_word word.entry ∷ ahead place.entry))) }
{
    let (first, rest) = atom_of(alloc, fuel - 7, word, place)?;
    all_on(alloc, fuel, first, rest)
}

/// An expression.
#[cycle(levels)]
pub fn logic(alloc: Global, fuel: u32, place: Place<'_>) -> Result<(Logic, Place<'_>), Fault>
    ensures { GivesOne result (read fuel logic_task (ahead place.entry)) }
{
    if fuel < 8 {
        return leveled(alloc, fuel, place);
    }
    match plain(place) {
        None => leveled(alloc, fuel, place),
        Some((token, rest)) => begun(alloc, fuel, token.word, rest),
    }
}

/// One or more expressions.
#[cycle(levels)]
pub fn items(alloc: Global, fuel: u32, place: Place<'_>) -> Result<(List<Logic>, Place<'_>), Fault>
    ensures { Gives result (read fuel items_task (ahead place.entry)) }
{
    let mut items = List::new(alloc);
    let mut left = fuel;
    let mut here = place;
    while left > 0 {
        left -= 1;
        let (one, rest) = logic(alloc, left, here)?;
        items.push(one)?;
        match behind(b",", rest) {
            None => return Ok((items, rest)),
            Some(next) => here = next,
        }
    }
    Err(Fault::Outside)
}
