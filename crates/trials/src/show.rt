//! What is printed of a run: its status, and the parts of what it leaves behind that a case shows.
//!
//! | Part | What it is |
//! |---|---|
//! | `out`, `err`, `log`, `logs` | standard output, standard error, the log, and the names of the logs that were created |
//! | `head`, `anew` | the first line of the log, and after how many nodes it begins anew, each time that it does |
//! | `verdict` | standard output up to the number of nodes |
//! | `first=N`, `last=N` | its first or its last lines |
//! | `tail=N` | its last bytes |
//! | `lines`, `entries` | how many lines it has, and how many the log has |
//!
//! Before them stands the status. Where `searched` is the first part, 0 and 20 are told as one, and
//! where it is `ran`, all are.
use crate::case::Case;
use crate::desk::Told;
use crate::text::{cut, number};
use sched_base::NoMemory;

/// Puts the lines of a text, each behind a mark. A backslash stands where a line feed is missing.
fn put_lines(out: &mut String, mark: &str, text: &str) -> Result<(), NoMemory> {
    if text.is_empty() {
        return Ok(());
    }
    let (text, end) = match text.strip_suffix("\n") {
        Some(text) => (text, ""),
        None => (text, "\\"),
    };
    for (n, line) in text.split('\n').enumerate() {
        if n > 0 {
            out.push_str("\n")?;
        }
        out.push_str(mark)?;
        out.push_str(line)?;
    }
    out.push_str(end)?;
    out.push_str("\n")?;
    Ok(())
}

fn put_bytes(out: &mut String, mark: &str, bytes: &[u8]) -> Result<(), NoMemory> {
    match std::str::from_utf8(bytes) {
        Ok(text) => put_lines(out, mark, text),
        Err(_) => put_lines(out, mark, "(no UTF-8)"),
    }
}

/// The place behind the n-th line feed, and the end where there are fewer.
fn behind_lines(text: &[u8], n: u64) -> usize {
    let mut seen = 0;
    for (i, b) in text.iter().enumerate() {
        if seen == n {
            return i;
        }
        if *b == b'\n' {
            seen = seen.wrapping_add(1);
        }
    }
    text.len()
}

fn lines_in(text: &[u8]) -> u64 {
    text.iter().filter(|b| **b == b'\n').count() as u64
}

fn front(text: &[u8], n: usize) -> &[u8] {
    match text.split_at_checked(n) {
        Some((front, _)) => front,
        None => text,
    }
}

fn back(text: &[u8], n: usize) -> &[u8] {
    match text.split_at_checked(n) {
        Some((_, back)) => back,
        None => b"",
    }
}

fn first_lines(text: &[u8], n: u64) -> &[u8] {
    front(text, behind_lines(text, n))
}

fn last_lines(text: &[u8], n: u64) -> &[u8] {
    back(text, behind_lines(text, lines_in(text).saturating_sub(n)))
}

/// The first line, and of the second what stands before its number.
fn verdict(text: &[u8]) -> &[u8] {
    let from = behind_lines(text, 1);
    let word = back(text, from).iter().position(|b| *b == b' ');
    match word {
        Some(at) => front(text, from.saturating_add(at).saturating_add(1)),
        None => text,
    }
}

fn put_part(out: &mut String, told: &Told, part: &str) -> Result<(), NoMemory> {
    let (part, n) = cut(part, "=");
    let text = told.out.as_slice();
    match part {
        "out" => put_bytes(out, "| ", text),
        "err" => put_bytes(out, "! ", told.err.as_slice()),
        "log" => put_bytes(out, "> ", told.log.as_slice()),
        "logs" => put_bytes(out, "log ", told.logs.as_slice()),
        "head" => put_bytes(out, "> ", first_lines(told.log.as_slice(), 1)),
        "anew" => put_anew(out, told.log.as_slice()),
        "verdict" => put_bytes(out, "| ", verdict(text)),
        "first" => put_bytes(out, "| ", first_lines(text, number(n))),
        "last" => put_bytes(out, "| ", last_lines(text, number(n))),
        "tail" => put_bytes(
            out,
            "| ",
            back(text, text.len().saturating_sub(number(n) as usize)),
        ),
        "lines" => put_count(out, lines_in(text)),
        "entries" => put_count(out, lines_in(told.log.as_slice())),
        "searched" => Ok(()),
        "ran" => Ok(()),
        _ => put_lines(out, "what is this: ", part),
    }
}

fn put_count(out: &mut String, count: u64) -> Result<(), NoMemory> {
    writeln!(out, "{count} lines")?;
    Ok(())
}

/// Whether a line of a log ends a node.
fn ends_node(line: &str) -> bool {
    line == "v" || line.starts_with("v ") || line.starts_with("f ") || line.starts_with("s ")
}

fn put_anew(out: &mut String, log: &[u8]) -> Result<(), NoMemory> {
    out.push_str("anew")?;
    let mut nodes = 0_u64;
    for line in std::str::from_utf8(log).unwrap_or("").split('\n') {
        if line == "restart" {
            write!(out, " {nodes}")?;
        } else if ends_node(line) {
            nodes = nodes.wrapping_add(1);
        }
    }
    out.push_str("\n")?;
    Ok(())
}

fn put_status(out: &mut String, status: u8, show: &str) -> Result<(), NoMemory> {
    if show.starts_with("ran") {
        out.push_str("ran\n")?;
    } else if show.starts_with("searched") && (status == 0 || status == 20) {
        out.push_str("searched\n")?;
    } else {
        writeln!(out, "status {status}")?;
    }
    Ok(())
}

/// Puts the name and the row of a case.
pub fn put_row(out: &mut String, case: &Case<'_>) -> Result<(), NoMemory> {
    let name = case.name;
    let row = case.row;
    write!(out, "{name} {row}: ")?;
    Ok(())
}

/// Puts what a case shows of what a run left behind.
pub fn put_told(out: &mut String, case: &Case<'_>, told: &Told) -> Result<(), NoMemory> {
    put_status(out, told.status, case.parts.show)?;
    for part in case.parts.show.split(' ') {
        put_part(out, told, part)?;
    }
    Ok(())
}
