//! What the tests share: lines of a log by their text, and assignments as they spell them.
use kernel::{Line, NoExtra, NoWitness, Witness};
use logtext::{Entry, LogReader};
use refute_basic::BasicWitness;
use region::Guess;
use sched_model::Assignment;
use std::alloc::Global;

/// The line that a text spells; none where it spells no line that steps.
pub fn line(alloc: Global, text: &str) -> Option<Line<NoWitness>> {
    match LogReader::new(alloc).read_entry::<NoExtra>(alloc, text.as_bytes(), 0) {
        Ok(Some((Entry::Step(line), _))) => Some(line),
        _ => None,
    }
}

/// The assignment of a line with a solution; none for another line.
pub fn assignment(alloc: Global, text: &str) -> Option<Assignment> {
    match line(alloc, text) {
        Some(Line::Sol(a)) => Some(a),
        _ => None,
    }
}

/// The guess of a line, where it has one.
pub fn guess_of(line: &Line<NoWitness>) -> Option<Guess> {
    match line {
        Line::Derive(g, _) => Some(*g),
        Line::Fail(_) => None,
        Line::Split(g) => Some(*g),
        Line::Sol(_) => None,
        Line::Restart => None,
    }
}

/// The witness of a line, where it has one of a basic kind.
pub fn witness_of(line: &Line<NoWitness>) -> Option<&BasicWitness> {
    match line {
        Line::Derive(_, Witness::Basic(w)) => Some(w),
        Line::Derive(_, _) => None,
        Line::Fail(Witness::Basic(w)) => Some(w),
        Line::Fail(_) => None,
        Line::Split(_) => None,
        Line::Sol(_) => None,
        Line::Restart => None,
    }
}
