ghost use Rattle.textline.specs.Lines.{words_of};
ghost use Rattle.read_schedule.specs.Schedules.{AreNumbers, IsCount, IsVerdict};
ghost use Rattle.read_schedule.specs.code.Reads.{Decides, IsNumber, AreNumbersAlone, FindsComma, IsCountAlone, TakesHeader};

use crate::lines::Lines;
use memchr::memchr;
use sched_base::NUMBER_LIMIT;
use sched_model::is_small;
use textline::{Words, read_count, read_number};

/// The most criteria that an objective has.
const MOST_CRITERIA: u32 = 8;

/// Whether a word is a number of magnitude at most 2^62.
fn is_number(word: &[u8]) -> bool
    ensures { Decides (IsNumber word.now) result }
{
    match read_number(word) {
        None => false,
        Some(z) => is_small(z),
    }
}

/// The place of the first comma.
fn find_comma(bytes: &[u8]) -> Option<usize>
    ensures { FindsComma bytes.now result }
{
    memchr(b',', bytes)
}

/// Whether a word is a number for each criterion, with commas between them.
#[tactic(auto, using(crate::proofs::spelling::Values::alike_first, crate::proofs::spelling::Values::comma_there, crate::proofs::spelling::Values::then_last, crate::proofs::spelling::Values::then_too_many))]
fn are_numbers(word: &[u8]) -> bool
    ensures { Decides (AreNumbers 8 word.now) result }
{
    let mut rest = word;
    let mut left = MOST_CRITERIA;
    while left > 0 {
        left -= 1;
        let Some(at) = find_comma(rest) else {
            return is_number(rest);
        };
        let (first, _) = rest.split_at(at);
        if !is_number(first) {
            return false;
        }
        let (_, behind) = rest.split_at(at + 1);
        rest = behind;
    }
    false
}

fn are_numbers_alone(words: &mut Words<'_>) -> bool
    ensures { Decides (AreNumbersAlone words.old) result }
{
    let Some(word) = words.next() else {
        return false;
    };
    if !are_numbers(word) {
        return false;
    }
    words.is_done()
}

fn is_verdict(line: &[u8]) -> bool
    ensures { Decides (IsVerdict (words_of line.now)) result }
{
    let mut words = Words::of(line);
    if words.take(b"feasible") {
        return words.is_done();
    }
    if words.take(b"optimal") {
        return are_numbers_alone(&mut words);
    }
    if words.take(b"unfinished") {
        return are_numbers_alone(&mut words);
    }
    false
}

fn is_node_count(words: &mut Words<'_>) -> bool
    ensures { Decides (IsCountAlone words.old) result }
{
    let Some(word) = words.next() else {
        return false;
    };
    let Some(n) = read_count(word) else {
        return false;
    };
    if n > NUMBER_LIMIT as u64 {
        return false;
    }
    words.is_done()
}

fn is_count(line: &[u8]) -> bool
    ensures { Decides (IsCount (words_of line.now)) result }
{
    let mut words = Words::of(line);
    if !words.take(b"nodes") {
        return false;
    }
    is_node_count(&mut words)
}

/// Takes a header, if the text begins with its first line, and tells how many lines it has; none
/// where the second doesn't stand behind the first. What its numbers say is compared with nothing.
pub fn take_header(lines: &mut Lines<'_>) -> Option<usize>
    ensures { TakesHeader lines.old lines.new result }
{
    let before = lines.rest();
    let Some(first) = lines.next() else {
        return Some(0);
    };
    if !is_verdict(first) {
        *lines = Lines::of(before);
        return Some(0);
    }
    let Some(second) = lines.next() else {
        return None;
    };
    if !is_count(second) {
        return None;
    }
    Some(2)
}
