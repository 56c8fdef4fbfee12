ghost use Rattle.std.specs.Prelude.{◌≡◌, IsTrue, ◌↔◌};
ghost use Rattle.sched_model.specs.Valid.{is_small};
ghost use Rattle.kernel.specs.Fit.{is_count, is_id};
ghost use Rattle.logtext.specs.code.Reads.{Takes, count_words, id_words, moment_words, bound_words, is_fit_bound, pair_words, is_fit_pair};

use sched_base::{Itv, Seq};
use sched_model::is_small;
use textline::{Words, read_count, read_number};

/// Whether a word is this one.
pub fn is(word: &[u8], other: &[u8]) -> bool
    ensures { IsTrue result ↔ (word.now ≡ other.now) }
{
    word == other
}

/// Takes a count of 32 bits.
pub fn take_count(words: &mut Words<'_>) -> Option<u32>
    ensures { Takes count_words is_count words.old words.new result }
{
    let word = words.next()?;
    let Some(n) = read_count(word) else {
        return None;
    };
    if n < 1 << 32 {
        return Some(n as u32);
    }
    None
}

/// Takes the number of an interval.
pub fn take_id(words: &mut Words<'_>) -> Option<Itv>
    ensures { Takes id_words is_id words.old words.new result }
{
    let Some(n) = take_count(words) else {
        return None;
    };
    Some(Itv(n))
}

/// Takes a moment of magnitude at most 2^62.
pub fn take_moment(words: &mut Words<'_>) -> Option<i64>
    ensures { Takes moment_words is_small words.old words.new result }
{
    let word = words.next()?;
    let Some(t) = read_number(word) else {
        return None;
    };
    if is_small(t) {
        return Some(t);
    }
    None
}

/// Takes the number of an interval and a moment.
pub fn take_bound(words: &mut Words<'_>) -> Option<(Itv, i64)>
    ensures { Takes bound_words is_fit_bound words.old words.new result }
{
    let Some(x) = take_id(words) else {
        return None;
    };
    let Some(t) = take_moment(words) else {
        return None;
    };
    Some((x, t))
}

/// Takes the numbers of a sequence and of two intervals.
pub fn take_pair(words: &mut Words<'_>) -> Option<(Seq, Itv, Itv)>
    ensures { Takes pair_words is_fit_pair words.old words.new result }
{
    let Some(p) = take_count(words) else {
        return None;
    };
    let Some(x) = take_id(words) else {
        return None;
    };
    let Some(y) = take_id(words) else {
        return None;
    };
    Some((Seq(p), x, y))
}
