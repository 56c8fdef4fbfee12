ghost use Rattle.std.specs.Prelude.{◌≡◌, option_map, codes};
ghost use Rattle.cpo_text.specs.code.Rules.{name_before};
ghost use Rattle.cpo_text.specs.code.Statements.{enough, logic_at, holds_at, criteria_at, rank_at, aim_at, defined_at, definition_at, constraint_at, forbid_at, called_at, named_at, clause_at, body_at, statement_at};
ghost use Rattle.cpo_text.specs.code.Gives.{ahead, Gives};

use crate::call_words::{
    ConstraintWord, DefinitionWord, begins_cumul, constraint_word, definition_word, forbidden_of,
    is_call, sense_of,
};
use crate::calls::{
    alternative, always_equal, always_no_state, extreme, matrix, no_overlap, ordered, pair, parts,
    sequence, state_function, step_function,
};
use crate::contributions::{always_in, bounded, cumul};
use crate::expression::Logic;
use crate::fault::Fault;
use crate::grammar::{between, interval};
use crate::levels::{items, logic};
use crate::parts::{behind, behind_word, copy, ended, next_name, sign};
use crate::place::Place;
use crate::tree::{Constrained, Definition, Forbidden, Sense, Statement};
use sched_base::List;
use std::alloc::Global;

/// Fuel that no text within its limit uses up.
#[tactic(auto, unfolding(crate::specs::code::Statements::enough))]
fn fuel() -> u32
    ensures { result ≡ enough }
{
    335_544_340
}

#[tactic(auto, using(crate::proofs::listing::Ones::gives_one), unfolding(crate::specs::code::Statements::logic_at))]
fn expression(alloc: Global, place: Place<'_>) -> Result<(Logic, Place<'_>), Fault>
    ensures { Gives result (logic_at enough (ahead place.entry)) }
{
    logic(alloc, fuel(), place)
}

/// An expression that has to hold.
#[tactic(auto, unfolding(crate::specs::code::Statements::holds_at))]
fn holds(alloc: Global, place: Place<'_>) -> Result<(Statement, Place<'_>), Fault>
    ensures { Gives result (holds_at enough (ahead place.entry)) }
{
    let (logic, rest) = expression(alloc, place)?;
    Ok((Statement::Constrain(Constrained::Holds(logic)), rest))
}

/// One expression or more, behind the word of an objective that has several.
#[tactic(auto, unfolding(crate::specs::code::Statements::criteria_at))]
fn criteria(alloc: Global, place: Place<'_>) -> Result<(List<Logic>, Place<'_>), Fault>
    ensures { Gives result (criteria_at enough (ahead place.entry)) }
{
    let open = sign(b"[", sign(b"(", place)?)?;
    let (criteria, rest) = items(alloc, fuel(), open)?;
    ended(criteria, b")", sign(b"]", rest)?)
}

/// An objective that has several expressions, behind their word.
#[tactic(auto, unfolding(crate::specs::code::Statements::rank_at))]
fn rank(alloc: Global, sense: Sense, place: Place<'_>) -> Result<(Statement, Place<'_>), Fault>
    ensures { Gives result (rank_at enough sense (ahead place.entry)) }
{
    let (criteria, rest) = criteria(alloc, place)?;
    ended(Statement::Rank(sense, criteria), b")", rest)
}

#[tactic(auto, unfolding(crate::specs::code::Statements::aim_at))]
fn aim(alloc: Global, sense: Sense, place: Place<'_>) -> Result<(Statement, Place<'_>), Fault>
    ensures { Gives result (aim_at enough sense (ahead place.entry)) }
{
    let open = sign(b"(", place)?;
    if let Some(rest) = behind_word(b"staticLex", open) {
        return rank(alloc, sense, rest);
    }
    let (logic, rest) = expression(alloc, open)?;
    ended(Statement::Aim(sense, logic), b")", rest)
}

/// What stands behind the word of a definition.
#[tactic(auto, unfolding(crate::specs::code::Statements::defined_at))]
fn defined(
    alloc: Global,
    word: DefinitionWord,
    place: Place<'_>,
) -> Result<(Definition, Place<'_>), Fault>
    ensures { Gives result (defined_at word (ahead place.entry)) }
{
    match word {
        DefinitionWord::IntervalVar => interval(alloc, place),
        DefinitionWord::SequenceVar => sequence(alloc, place),
        DefinitionWord::TransitionMatrix => matrix(alloc, place),
        DefinitionWord::StateFunction => state_function(alloc, place),
        DefinitionWord::StepFunction => step_function(alloc, place),
    }
}

/// A call that defines, or else a cumulative expression.
#[tactic(auto, unfolding(crate::specs::code::Statements::definition_at))]
fn definition(alloc: Global, place: Place<'_>) -> Result<(Definition, Place<'_>), Fault>
    ensures { Gives result (definition_at enough (ahead place.entry)) }
{
    if let Some((word, rest)) = definition_word(place) {
        return defined(alloc, word, rest);
    }
    let (cumul, rest) = cumul(alloc, fuel(), place)?;
    Ok((Definition::Cumulative(cumul), rest))
}

/// What stands behind the word of a constraint.
#[tactic(auto, unfolding(crate::specs::code::Statements::constraint_at))]
fn constraint(
    alloc: Global,
    word: ConstraintWord,
    place: Place<'_>,
) -> Result<(Constrained, Place<'_>), Fault>
    ensures { Gives result (constraint_at enough word (ahead place.entry)) }
{
    match word {
        ConstraintWord::Between(temporal) => between(alloc, temporal, place),
        ConstraintWord::Parts(hierarchy) => parts(alloc, hierarchy, place),
        ConstraintWord::Alternative => alternative(alloc, place),
        ConstraintWord::NoOverlap => no_overlap(alloc, place),
        ConstraintWord::Extreme(end) => extreme(alloc, end, place),
        ConstraintWord::Ordered(order) => ordered(alloc, order, place),
        ConstraintWord::AlwaysIn => always_in(alloc, fuel(), place),
        ConstraintWord::AlwaysEqual => always_equal(alloc, place),
        ConstraintWord::AlwaysNoState => always_no_state(alloc, place),
    }
}

/// An interval and a step function, behind the word of a calendar's sentence.
#[tactic(auto, unfolding(crate::specs::code::Statements::forbid_at))]
fn forbid(alloc: Global, word: Forbidden, place: Place<'_>) -> Result<(Statement, Place<'_>), Fault>
    ensures { Gives result (forbid_at word (ahead place.entry)) }
{
    let ((interval, function), rest) = pair(alloc, place)?;
    Ok((Statement::Forbid(word, interval, function), rest))
}

/// The constraint, calendar's sentence or objective that this call word begins.
#[tactic(auto, unfolding(crate::specs::code::Statements::called_at))]
fn called<'a>(alloc: Global, word: &[u8], place: Place<'a>) -> Result<(Statement, Place<'a>), Fault>
    ensures { Gives result (called_at enough word.now (ahead place.entry)) }
{
    if let Some(word) = constraint_word(word) {
        let (constraint, rest) = constraint(alloc, word, place)?;
        return Ok((Statement::Constrain(constraint), rest));
    }
    if let Some(sense) = sense_of(word) {
        return aim(alloc, sense, place);
    }
    match forbidden_of(word) {
        Some(word) => forbid(alloc, word, place),
        None => Err(Fault::Outside),
    }
}

/// What begins at a place with a call word, behind which the rest stands.
#[tactic(auto, unfolding(crate::specs::code::Statements::named_at))]
fn named<'a>(
    alloc: Global,
    place: Place<'a>,
    word: &[u8],
    rest: Place<'a>,
) -> Result<(Statement, Place<'a>), Fault>
    ensures { Gives result (named_at enough (ahead place.entry) word.now (ahead rest.entry)) }
{
    if is_call(word) {
        return holds(alloc, place);
    }
    called(alloc, word, rest)
}

/// A constraint or an objective, without its semicolon.
#[tactic(auto, unfolding(crate::specs::code::Statements::clause_at))]
fn clause(alloc: Global, place: Place<'_>) -> Result<(Statement, Place<'_>), Fault>
    ensures { Gives result (clause_at enough (ahead place.entry)) }
{
    if begins_cumul(place) {
        let (constraint, rest) = bounded(alloc, fuel(), place)?;
        return Ok((Statement::Constrain(constraint), rest));
    }
    match next_name(place) {
        Some((word, rest)) => named(alloc, place, word, rest),
        None => holds(alloc, place),
    }
}

/// The name that is defined, if one is, and the place behind its sign.
#[tactic(auto, unfolding(crate::specs::code::Rules::name_before))]
fn defined_name(place: Place<'_>) -> Option<(&[u8], Place<'_>)>
    ensures { option_map (λ x. (x.0.now, ahead x.1)) result ≡ name_before (codes "=") (ahead place.entry) }
{
    let (name, rest) = next_name(place)?;
    let rest = behind(b"=", rest)?;
    Some((name, rest))
}

/// A statement without its semicolon.
#[tactic(auto, unfolding(crate::specs::code::Statements::body_at))]
fn body(alloc: Global, place: Place<'_>) -> Result<(Statement, Place<'_>), Fault>
    ensures { Gives result (body_at enough (ahead place.entry)) }
{
    match defined_name(place) {
        Some((name, rest)) => {
            let name = copy(alloc, name)?;
            let (definition, rest) = definition(alloc, rest)?;
            Ok((Statement::Define(name, definition), rest))
        }
        None => clause(alloc, place),
    }
}

/// A statement with its semicolon. Reading stops at the first token that leaves the grammar.
#[tactic(auto, unfolding(crate::specs::code::Statements::statement_at))]
pub fn statement(alloc: Global, place: Place<'_>) -> Result<(Statement, Place<'_>), Fault>
    ensures { Gives result (statement_at enough (ahead place.entry)) }
{
    if let Some(rest) = behind(b";", place) {
        return Ok((Statement::Empty, rest));
    }
    let (statement, rest) = body(alloc, place)?;
    ended(statement, b";", rest)
}
