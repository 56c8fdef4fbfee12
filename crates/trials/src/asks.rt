//! What the lines of a case ask. Each is one more row of the case.
//!
//! | Word | What it asks |
//! |---|---|
//! | `run` | a run; a word and a text behind it are set before |
//! | `read` | the statements of a text: the number of each, 0 for a tree, and its place |
//! | `line` | whether the witness of this line of a log refutes the first region of the model, under its guess |
//! | `command` | which command these words are |
use crate::case::Case;
use crate::desk::words_of;
use crate::refuted::{Shown, line_shows};
use crate::runs::run_case;
use crate::show::put_row;
use crate::text::{Text, bytes_of};
use command_line::{WordsFault, read_command};
use cpo_text::{Form, ReadFault, Reading, read_text};
use sched_base::NoMemory;
use std::alloc::Global;

fn put_statements(out: &mut String, statements: &[Reading]) -> Result<(), NoMemory> {
    out.push_str("statements")?;
    for reading in statements {
        let at = reading.at;
        let number = match reading.form {
            Form::Tree(_) => 0,
            Form::Number(n) => n,
        };
        write!(out, " {number}@{at}")?;
    }
    Ok(())
}

fn put_reading(alloc: Global, text: &[u8], out: &mut String) -> Result<(), NoMemory> {
    match read_text(alloc, text) {
        Ok(tree) => put_statements(out, tree.statements.as_slice()),
        Err(ReadFault::Refused(r)) => {
            let number = r.number;
            let statement = r.statement;
            let at = r.at;
            write!(out, "refused {number} statement {statement} at {at}")?;
            Ok(())
        }
        Err(ReadFault::NoMemory) => Err(NoMemory),
    }
}

fn read(alloc: Global, text: Text<'_>, out: &mut String) -> Result<(), NoMemory> {
    let bytes = bytes_of(alloc, text)?;
    put_reading(alloc, bytes.as_slice(), out)
}

fn put_shown(alloc: Global, model: &[u8], line: &[u8], out: &mut String) -> Result<(), NoMemory> {
    let told = match line_shows(alloc, model, line)? {
        Shown::Refutes => "refutes",
        Shown::RefutesNot => "refutes not",
        Shown::NoLine => "no line",
        Shown::NoModel => "no model",
    };
    out.push_str(told)?;
    Ok(())
}

fn line(alloc: Global, case: &Case<'_>, text: &str, out: &mut String) -> Result<(), NoMemory> {
    let model = bytes_of(alloc, case.files.model)?;
    let line = bytes_of(
        alloc,
        Text {
            raw: text,
            lines: true,
        },
    )?;
    put_shown(alloc, model.as_slice(), line.as_slice(), out)
}

fn put_command(alloc: Global, words: &[String], out: &mut String) -> Result<(), NoMemory> {
    match read_command(alloc, words) {
        Ok(command) => {
            write!(out, "{command:?}")?;
            Ok(())
        }
        Err(WordsFault::Usage) => {
            out.push_str("none")?;
            Ok(())
        }
        Err(WordsFault::NoMemory) => Err(NoMemory),
    }
}

fn command(alloc: Global, words: &str, out: &mut String) -> Result<(), NoMemory> {
    let words = words_of(alloc, words)?;
    put_command(alloc, words.as_slice(), out)
}

/// Puts a row with what is asked of texts alone.
fn ask_text(
    alloc: Global,
    case: &Case<'_>,
    word: &str,
    text: Text<'_>,
    out: &mut String,
) -> Result<(), NoMemory> {
    put_row(out, case)?;
    match word {
        "read" => read(alloc, text, out)?,
        "line" => line(alloc, case, text.raw, out)?,
        "command" => command(alloc, text.raw, out)?,
        _ => out.push_str("what is this?")?,
    }
    out.push_str("\n")?;
    Ok(())
}

/// Puts what a line asks.
pub fn ask(
    alloc: Global,
    case: &Case<'_>,
    word: &str,
    text: Text<'_>,
    out: &mut String,
) -> Result<(), NoMemory> {
    if word == "run" {
        run_case(alloc, case, out)
    } else {
        ask_text(alloc, case, word, text, out)
    }
}
