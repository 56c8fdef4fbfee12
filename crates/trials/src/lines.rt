//! The lines of the cases, one after another.
use crate::asks::ask;
use crate::case::Case;
use crate::text::{Text, cut};
use sched_base::NoMemory;
use std::alloc::Global;

/// A line: its word, and its text.
#[derive(Clone, Copy)]
struct Line<'a> {
    word: &'a str,
    text: Text<'a>,
}

/// The first line of a text, with the lines below it that belong to it, and the others.
fn first_line<'a>(rest: &'a str) -> (Line<'a>, &'a str) {
    let (line, rest) = cut(rest, "\n");
    let (word, raw) = cut(line, " ");
    match word.strip_suffix(":") {
        None => (
            Line {
                word,
                text: Text::of(raw),
            },
            rest,
        ),
        Some(word) => {
            let (raw, rest) = cut(rest, "\n.\n");
            let text = Text { raw, lines: true };
            (Line { word, text }, rest)
        }
    }
}

/// What a line that asks sets before: the word and the text behind `run`.
fn set_before<'a>(case: Case<'a>, line: Line<'a>) -> Case<'a> {
    if line.word != "run" || line.text.raw.is_empty() {
        return case;
    }
    let (word, raw) = cut(line.text.raw, " ");
    case.with(word, Text::of(raw)).unwrap_or(case)
}

/// The case behind a line, which sets something or asks.
fn go_on<'a>(
    alloc: Global,
    case: Case<'a>,
    line: Line<'a>,
    out: &mut String,
) -> Result<Case<'a>, NoMemory> {
    if line.word.is_empty() || line.word.starts_with("#") {
        return Ok(case);
    }
    match case.with(line.word, line.text) {
        Some(case) => Ok(case),
        None => {
            let case = set_before(case, line).next();
            ask(alloc, &case, line.word, line.text, out)?;
            Ok(case)
        }
    }
}

/// Carries out the cases of a text, and puts what comes of them.
pub fn read_cases(alloc: Global, text: &str, out: &mut String) -> Result<(), NoMemory> {
    let mut case = Case::new("");
    let mut rest = text;
    for _ in 0..text.len() {
        if rest.is_empty() {
            break;
        }
        let (line, below) = first_line(rest);
        rest = below;
        case = go_on(alloc, case, line, out)?;
    }
    Ok(())
}
