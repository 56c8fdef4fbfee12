ghost use Rattle.std.specs.Prelude.{◌≡◌, ◌≤◌, ◌+◌, ℤ, pos, neg_ℤ, ◌≤ℤ◌, ◌+ℤ◌, int_lt, if◌then◌else◌};
ghost use Rattle.std.specs.List.{list_any};
ghost use Rattle.std.specs.Str.{bytes_eq};
ghost use Rattle.cpo_text.specs.Runs.{is_left_out, is_nesting, is_large, turn};
ghost use Rattle.cpo_text.specs.code.Places.{said_word, left};
ghost use Rattle.cpo_text.specs.code.Surveys.{unsurveyed, noted, surveyed, after_run, early_of};

use crate::parts::is_sign;
use crate::place::Place;
use crate::refusal::Cause;
use crate::word::Word;

/// The most brackets that may be open at a place of a statement.
const MOST_OPEN: i64 = 200;

/// The most `!` and `=>` that a statement may have.
const MOST_NESTINGS: u32 = 200;

/// The words that the language leaves out.
const LEFT_OUT: [&[u8]; 18] = [
    b"intensity",
    b"granularity",
    b"forbidEnd",
    b"heightAtStart",
    b"heightAtEnd",
    b"alwaysConstant",
    b"isomorphism",
    b"sameSequence",
    b"sameCommonSubsequence",
    b"typeOfNext",
    b"typeOfPrev",
    b"intVar",
    b"internals",
    b"parameters",
    b"search",
    b"startingPoint",
    b"kpis",
    b"KPIs",
];

/// What was seen in the words of a statement: how many brackets are open behind them (negative
/// where more were closed), and whether too many were open before.
#[derive(Clone, Copy)]
pub struct Survey {
    left_out: bool,
    deep: bool,
    depth: i64,
    nestings: u32,
    pub large: bool,
}

fn is_one_of(name: &[u8], words: &[&[u8]]) -> bool
    ensures { result ≡ list_any (λ w. bytes_eq name.now w.now) words.now }
{
    words.iter().any(|word| name == *word)
}

fn is_left_out(word: Word<'_>) -> bool
    ensures { result ≡ is_left_out (said_word word.entry) }
{
    match word {
        Word::Name(bytes) => is_one_of(bytes, &LEFT_OUT),
        _ => false,
    }
}

fn is_large(word: Word<'_>) -> bool
    ensures { result ≡ is_large (said_word word.entry) }
{
    matches!(word, Word::Number(None))
}

/// What a word adds to the brackets that are open.
fn turn(word: Word<'_>) -> i64
    ensures is { result ≡ turn (said_word word.entry) }
    ensures low { neg_ℤ (pos 1) ≤ℤ result }
    ensures high { result ≤ℤ pos 1 }
{
    if is_sign(b"(", word) || is_sign(b"[", word) {
        return 1;
    }
    if is_sign(b")", word) || is_sign(b"]", word) {
        return -1;
    }
    0
}

fn is_deep(depth: i64) -> bool
    ensures { result ≡ int_lt (pos 200) depth }
{
    depth > MOST_OPEN
}

/// The brackets that are open behind a word.
fn turned(depth: i64, word: Word<'_>) -> i64
    requires low { neg_ℤ (pos 16777216) ≤ℤ depth }
    requires high { depth ≤ℤ pos 16777216 }
    ensures is { result ≡ depth +ℤ turn (said_word word.entry) }
    ensures low { (depth +ℤ neg_ℤ (pos 1)) ≤ℤ result }
    ensures high { result ≤ℤ (depth +ℤ pos 1) }
{
    depth + turn(word)
}

/// How many `!` and `=>` a word is: one or none.
fn nesting(word: Word<'_>) -> u32
    ensures is { result ≡ (if is_nesting (said_word word.entry) then 1 else 0) }
    ensures most { result ≤ 1 }
{
    if is_sign(b"!", word) || is_sign(b"=>", word) {
        1
    } else {
        0
    }
}

impl Survey {
    /// The survey with one word more.
    fn noted(self, word: Word<'_>) -> Survey
        requires low { neg_ℤ (pos 16777216) ≤ℤ self.depth }
        requires high { self.depth ≤ℤ pos 16777216 }
        requires few { self.nestings ≤ 16777216 }
        ensures is { result ≡ noted self (said_word word.entry) }
        ensures low { (self.depth +ℤ neg_ℤ (pos 1)) ≤ℤ result.depth }
        ensures high { result.depth ≤ℤ (self.depth +ℤ pos 1) }
        ensures few { result.nestings ≤ self.nestings + 1 }
    {
        Survey {
            left_out: self.left_out | is_left_out(word),
            deep: self.deep | is_deep(self.depth),
            depth: turned(self.depth, word),
            nestings: self.nestings + nesting(word),
            large: self.large | is_large(word),
        }
    }

    /// The number that the words deserve before the grammar is asked.
    pub fn early(self) -> Option<u32>
        ensures { result ≡ early_of self }
    {
        if self.left_out {
            return Some(Cause::LeftOut as u32);
        }
        if self.deep || is_deep(self.depth) || self.nestings > MOST_NESTINGS {
            return Some(Cause::LimitPassed as u32);
        }
        None
    }
}

/// A survey of the tokens up to and with the next semicolon, and the place behind them.
pub fn survey_run(place: Place<'_>) -> (Survey, Place<'_>)
    ensures survey { result.0 ≡ surveyed unsurveyed (left place.entry) }
    ensures behind { left result.1 ≡ after_run (left place.entry) }
{
    let mut survey = Survey {
        left_out: false,
        deep: false,
        depth: 0,
        nestings: 0,
        large: false,
    };
    let mut here = place;
    while let Some((token, rest)) = here.next() {
        survey = survey.noted(token.word);
        if is_sign(b";", token.word) {
            return (survey, rest);
        }
        here = rest;
    }
    (survey, here)
}
