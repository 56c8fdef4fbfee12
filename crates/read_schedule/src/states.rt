ghost use Rattle.std.specs.Prelude.{◌≡◌, ◌<◌, true, IfOk, length, flat_map};
ghost use Rattle.sched_model.specs.Domain.{are_segments, is_in_domain};
ghost use Rattle.sched_model.specs.Valid.{IsValid};
ghost use Rattle.sched_text.specs.Answers.{segment_words};
ghost use Rattle.sched_text.specs.laws.Lines.{is_spelled_segment};
ghost use Rattle.std.specs.List.{list_all};
ghost use Rattle.textline.specs.Lines.{words_of};
ghost use Rattle.read_schedule.specs.code.Reads.{ReadsBeside, TakesSegment, TriesAll, TriesRow, are_spelled, state_at};
ghost use Rattle.read_schedule.specs.code.Rows.{state_row};

use crate::assignment::try_segments;
use crate::lines::Lines;
use crate::stop::PartStop;
use crate::words::take_number;
use sched_base::List;
use sched_model::{Assignment, Model, Segment};
use std::alloc::Global;
use textline::Words;

/// Takes the numbers of a segment.
fn take_segment(words: &mut Words<'_>) -> Option<Segment>
    ensures { TakesSegment words.old words.new result }
{
    let Some(p) = take_number(words) else {
        return None;
    };
    let Some(q) = take_number(words) else {
        return None;
    };
    let Some(v) = take_number(words) else {
        return None;
    };
    Some(Segment { p, q, v })
}

/// The segments whose numbers all the words are.
fn read_segments(alloc: Global, words: &mut Words<'_>) -> Result<List<Segment>, PartStop>
    ensures { TriesAll (flat_map segment_words) are_spelled words.old result }
{
    let mut segments = List::new(alloc);
    while !words.is_done() {
        let Some(segment) = take_segment(words) else {
            return Err(PartStop::Line(0));
        };
        segments.push(segment)?;
    }
    Ok(segments)
}

/// The segments in the words of a state function's line.
fn read_words(
    alloc: Global,
    model: &Model,
    i: usize,
    line: &[u8],
) -> Result<List<Segment>, PartStop>
    requires { i < length model.now.states }
    ensures { TriesAll (state_row i (state_at model.now i)) are_spelled (words_of line.now) result }
{
    let mut words = Words::of(line);
    if !words.take(b"state") {
        return Err(PartStop::Line(0));
    }
    if !words.take(model.states()[i].name.as_slice()) {
        return Err(PartStop::Line(0));
    }
    read_segments(alloc, &mut words)
}

/// The segments in the next line.
fn next_segments(
    alloc: Global,
    model: &Model,
    i: usize,
    a: Assignment,
    lines: &mut Lines<'_>,
) -> Result<(Assignment, List<Segment>), PartStop>
    requires valid { IsValid model.now }
    requires domain { is_in_domain model.now a ≡ true }
    requires within { i < length model.now.states }
    ensures same { IfOk result (λ p. p.0 ≡ a) }
    ensures row { TriesRow (state_row i (state_at model.now i)) (are_segments model.now (state_at model.now i)) lines.old lines.new result }
{
    let Some(line) = lines.next() else {
        return Err(PartStop::Line(0));
    };
    let segments = read_words(alloc, model, i, line)?;
    let (a, segments, fits) = try_segments(model, a, i, segments);
    if fits {
        return Ok((a, segments));
    }
    Err(PartStop::Line(0))
}

/// Reads the lines of the state functions.
pub fn read_states(
    alloc: Global,
    model: &Model,
    a: Assignment,
    lines: &mut Lines<'_>,
) -> Result<(Assignment, List<List<Segment>>), PartStop>
    requires { is_in_domain model.now a ≡ true }
    ensures { ReadsBeside state_row (are_segments model.now) model.now.states a lines.old lines.new result }
{
    let mut a = a;
    let mut segs = List::new(alloc);
    for i in 0..model.states().len() {
        match next_segments(alloc, model, i, a, lines) {
            Ok((back, segments)) => {
                a = back;
                segs.push(segments)?;
            }
            Err(PartStop::Line(_)) => return Err(PartStop::Line(i)),
            Err(PartStop::NoMemory) => return Err(PartStop::NoMemory),
        }
    }
    Ok((a, segs))
}
