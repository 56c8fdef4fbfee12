//! The words that begin calls. None is reserved: each is known by the bracket that follows it.
ghost use Rattle.std.specs.Prelude.{◌≡◌, option_map};
ghost use Rattle.cpo_text.specs.code.Rules.{find_word};
ghost use Rattle.cpo_text.specs.code.CallWords.{contributions, definitions, precedences, gatherings, always, senses, prohibitions, constraint_of, is_call, definition_word_at, begins_part, begins_cumul};
ghost use Rattle.cpo_text.specs.code.Gives.{ahead};

use crate::level_words::{gather_of, measure_of};
use crate::parts::{behind, next_name};
use crate::place::Place;
use crate::tree::{Extreme, Forbidden, Hierarchy, Order, Sense, Temporal};

/// The word of a part of a cumulative expression.
#[derive(Clone, Copy)]
pub enum PartWord {
    Pulse,
    Step,
    StepAtStart,
    StepAtEnd,
}

/// The word of a definition.
#[derive(Clone, Copy)]
pub enum DefinitionWord {
    IntervalVar,
    SequenceVar,
    TransitionMatrix,
    StateFunction,
    StepFunction,
}

/// The word of a constraint.
#[derive(Clone, Copy)]
pub enum ConstraintWord {
    Between(Temporal),
    Parts(Hierarchy),
    Alternative,
    NoOverlap,
    Extreme(Extreme),
    Ordered(Order),
    AlwaysIn,
    AlwaysEqual,
    AlwaysNoState,
}

pub fn part_word(word: &[u8]) -> Option<PartWord>
    ensures { result ≡ find_word contributions word.now }
{
    if word == b"pulse".as_slice() {
        return Some(PartWord::Pulse);
    }
    if word == b"step".as_slice() {
        return Some(PartWord::Step);
    }
    if word == b"stepAtStart".as_slice() {
        return Some(PartWord::StepAtStart);
    }
    if word == b"stepAtEnd".as_slice() {
        return Some(PartWord::StepAtEnd);
    }
    None
}

fn definition_of(word: &[u8]) -> Option<DefinitionWord>
    ensures { result ≡ find_word definitions word.now }
{
    if word == b"intervalVar".as_slice() {
        return Some(DefinitionWord::IntervalVar);
    }
    if word == b"sequenceVar".as_slice() {
        return Some(DefinitionWord::SequenceVar);
    }
    if word == b"transitionMatrix".as_slice() {
        return Some(DefinitionWord::TransitionMatrix);
    }
    if word == b"stateFunction".as_slice() {
        return Some(DefinitionWord::StateFunction);
    }
    if word == b"stepFunction".as_slice() {
        return Some(DefinitionWord::StepFunction);
    }
    None
}

fn precedence_of(word: &[u8]) -> Option<ConstraintWord>
    ensures { result ≡ find_word precedences word.now }
{
    if word == b"startBeforeStart".as_slice() {
        return Some(ConstraintWord::Between(Temporal::StartBeforeStart));
    }
    if word == b"startBeforeEnd".as_slice() {
        return Some(ConstraintWord::Between(Temporal::StartBeforeEnd));
    }
    if word == b"endBeforeStart".as_slice() {
        return Some(ConstraintWord::Between(Temporal::EndBeforeStart));
    }
    if word == b"endBeforeEnd".as_slice() {
        return Some(ConstraintWord::Between(Temporal::EndBeforeEnd));
    }
    if word == b"startAtStart".as_slice() {
        return Some(ConstraintWord::Between(Temporal::StartAtStart));
    }
    if word == b"startAtEnd".as_slice() {
        return Some(ConstraintWord::Between(Temporal::StartAtEnd));
    }
    if word == b"endAtStart".as_slice() {
        return Some(ConstraintWord::Between(Temporal::EndAtStart));
    }
    if word == b"endAtEnd".as_slice() {
        return Some(ConstraintWord::Between(Temporal::EndAtEnd));
    }
    None
}

/// The word of a constraint on parts or on a sequence.
fn gathering_of(word: &[u8]) -> Option<ConstraintWord>
    ensures { result ≡ find_word gatherings word.now }
{
    if word == b"span".as_slice() {
        return Some(ConstraintWord::Parts(Hierarchy::Span));
    }
    if word == b"alternative".as_slice() {
        return Some(ConstraintWord::Alternative);
    }
    if word == b"synchronize".as_slice() {
        return Some(ConstraintWord::Parts(Hierarchy::Synchronize));
    }
    if word == b"noOverlap".as_slice() {
        return Some(ConstraintWord::NoOverlap);
    }
    if word == b"first".as_slice() {
        return Some(ConstraintWord::Extreme(Extreme::First));
    }
    if word == b"last".as_slice() {
        return Some(ConstraintWord::Extreme(Extreme::Last));
    }
    if word == b"before".as_slice() {
        return Some(ConstraintWord::Ordered(Order::Before));
    }
    if word == b"prev".as_slice() {
        return Some(ConstraintWord::Ordered(Order::Prev));
    }
    None
}

/// The word of a constraint on a function.
fn always_of(word: &[u8]) -> Option<ConstraintWord>
    ensures { result ≡ find_word always word.now }
{
    if word == b"alwaysIn".as_slice() {
        return Some(ConstraintWord::AlwaysIn);
    }
    if word == b"alwaysEqual".as_slice() {
        return Some(ConstraintWord::AlwaysEqual);
    }
    if word == b"alwaysNoState".as_slice() {
        return Some(ConstraintWord::AlwaysNoState);
    }
    None
}

#[tactic(auto, unfolding(crate::specs::code::CallWords::constraint_of))]
pub fn constraint_word(word: &[u8]) -> Option<ConstraintWord>
    ensures { result ≡ constraint_of word.now }
{
    if let Some(precedence) = precedence_of(word) {
        return Some(precedence);
    }
    if let Some(gathering) = gathering_of(word) {
        return Some(gathering);
    }
    always_of(word)
}

pub fn sense_of(word: &[u8]) -> Option<Sense>
    ensures { result ≡ find_word senses word.now }
{
    if word == b"minimize".as_slice() {
        return Some(Sense::Minimize);
    }
    if word == b"maximize".as_slice() {
        return Some(Sense::Maximize);
    }
    None
}

pub fn forbidden_of(word: &[u8]) -> Option<Forbidden>
    ensures { result ≡ find_word prohibitions word.now }
{
    if word == b"forbidStart".as_slice() {
        return Some(Forbidden::Start);
    }
    if word == b"forbidExtent".as_slice() {
        return Some(Forbidden::Extent);
    }
    None
}

/// Whether a word begins calls in expressions.
pub fn is_call(word: &[u8]) -> bool
    ensures { result ≡ is_call word.now }
{
    word == b"presenceOf".as_slice() || measure_of(word).is_some() || gather_of(word).is_some()
}

/// The word of a definition, if one comes next with a bracket behind it, and the place of that
/// bracket.
#[tactic(auto, unfolding(crate::specs::code::CallWords::definition_word_at))]
pub fn definition_word(place: Place<'_>) -> Option<(DefinitionWord, Place<'_>)>
    ensures { option_map (λ x. (x.0, ahead x.1)) result ≡ definition_word_at (ahead place.entry) }
{
    let (word, rest) = next_name(place)?;
    behind(b"(", rest)?;
    let word = definition_of(word)?;
    Some((word, rest))
}

/// Whether a part of a cumulative expression begins here: a name with no bracket behind it, or the
/// word of a part with one.
#[tactic(auto, unfolding(crate::specs::code::CallWords::begins_part))]
fn begins_part(place: Place<'_>) -> bool
    ensures { result ≡ begins_part (ahead place.entry) }
{
    match next_name(place) {
        None => false,
        Some((word, rest)) => match behind(b"(", rest) {
            None => true,
            Some(_) => part_word(word).is_some(),
        },
    }
}

/// Whether a cumulative expression begins here, and not an expression or another call.
#[tactic(auto, unfolding(crate::specs::code::CallWords::begins_cumul))]
pub fn begins_cumul(place: Place<'_>) -> bool
    ensures { result ≡ begins_cumul (ahead place.entry) }
{
    match behind(b"-", place) {
        None => begins_part(place),
        Some(rest) => begins_part(rest),
    }
}
