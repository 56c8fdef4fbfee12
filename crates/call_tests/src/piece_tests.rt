//! Logs that are fed in pieces, cut anywhere.
use kernel::NoExtra;
use log_lines::{LineFault, LineReader};
use logtext::{EntryFault, LogReader};
use sched_base::NoMemory;
use std::alloc::Global;
use std::fmt::Write;
use std::test::Fail;

/// Feeds a piece of at most 65,536 bytes, behind few others.
fn feed(lines: &mut LineReader<NoExtra>, piece: &[u8]) -> Result<(), NoMemory> {
    if piece.len() > 65_536 || lines.count() > 100_000_000 {
        return Err(NoMemory);
    }
    lines.feed(piece)
}

/// Takes the lines that are whole, and spells them. Whether the last answer was that none is.
fn spell_lines(
    alloc: Global,
    lines: &mut LineReader<NoExtra>,
    spelled: &mut String,
) -> Result<bool, NoMemory> {
    for _ in 0..100 {
        match lines.next(alloc) {
            Ok(Some(entry)) => {
                if writeln!(spelled, "{entry:?}").is_err() {
                    return Err(NoMemory);
                }
            }
            Ok(None) => return Ok(true),
            Err(LineFault::Bad { line: _, at: _ }) => {
                spelled.push_str("bad")?;
                return Ok(false);
            }
            Err(LineFault::NoMemory) => return Err(NoMemory),
        }
    }
    Ok(false)
}

fn read_pieces(
    alloc: Global,
    lines: &mut LineReader<NoExtra>,
    log: &[u8],
    size: usize,
    spelled: &mut String,
) -> Result<(), NoMemory> {
    if size == 0 {
        return Ok(());
    }
    for piece in log.chunks(size) {
        feed(lines, piece)?;
        if !spell_lines(alloc, lines, spelled)? {
            return Ok(());
        }
    }
    Ok(())
}

fn spell_pieces(
    alloc: Global,
    log: &[u8],
    size: usize,
    spelled: &mut String,
) -> Result<(), NoMemory> {
    let mut lines = LineReader::new(alloc);
    read_pieces(alloc, &mut lines, log, size, spelled)
}

/// What is read of a log that is fed in pieces of so many bytes.
fn read_in_pieces(alloc: Global, log: &[u8], size: usize) -> Result<String, NoMemory> {
    let mut spelled = String::new(alloc);
    spell_pieces(alloc, log, size, &mut spelled)?;
    Ok(spelled)
}

/// Spells the line at a place, and answers the place behind it, where there is one.
fn spell_line(
    alloc: Global,
    reader: &mut LogReader,
    log: &[u8],
    from: usize,
    spelled: &mut String,
) -> Result<Option<usize>, NoMemory> {
    if from > log.len() {
        return Ok(None);
    }
    match reader.read_entry::<NoExtra>(alloc, log, from) {
        Ok(Some((entry, to))) => {
            if writeln!(spelled, "{entry:?}").is_err() {
                return Err(NoMemory);
            }
            Ok(Some(to))
        }
        Ok(None) => Ok(None),
        Err(EntryFault::Bad) => {
            spelled.push_str("bad")?;
            Ok(None)
        }
        Err(EntryFault::NoMemory) => Err(NoMemory),
    }
}

fn spell_whole(alloc: Global, log: &[u8], spelled: &mut String) -> Result<(), NoMemory> {
    let mut reader = LogReader::new(alloc);
    let mut from = 0;
    for _ in 0..100 {
        match spell_line(alloc, &mut reader, log, from, spelled)? {
            Some(to) => from = to,
            None => return Ok(()),
        }
    }
    Ok(())
}

/// What is read of a log at once.
fn read_whole(alloc: Global, log: &[u8]) -> Result<String, NoMemory> {
    let mut spelled = String::new(alloc);
    spell_whole(alloc, log, &mut spelled)?;
    Ok(spelled)
}

fn is_read_by(alloc: Global, log: &[u8], size: usize, whole: &str) -> Result<bool, NoMemory> {
    let spelled = read_in_pieces(alloc, log, size)?;
    Ok(spelled.as_str() == whole)
}

fn differs_from(alloc: Global, log: &[u8], whole: &str) -> Result<bool, NoMemory> {
    for size in [1, 2, 3, 7, 64] {
        if !is_read_by(alloc, log, size, whole)? {
            return Ok(true);
        }
    }
    Ok(false)
}

/// Whether by some size of pieces something else is read than at once.
fn differs(alloc: Global, log: &[u8]) -> Result<bool, NoMemory> {
    let whole = read_whole(alloc, log)?;
    differs_from(alloc, log, whole.as_str())
}

const LOGS: [&str; 13] = [
    "",
    "schedlog 1\nf OVERLOAD 0 3 0 1 2\nend\n",
    "schedlog 1\nf OVERLOAD 0 2 0 1\nend\n",
    "schedlog 1\nf OVERLOAD 0 3 0 1 2\n",
    "schedlog 1\nd SL 2 6 EDGE 0 0 2 2 0 1 2 0 1 2 0 1\nend\n",
    "schedlog 1\nd SL 2 5 EDGE 0 0 2 2 0 1 2 0 1 2 0 1\nend\n",
    "schedlog 1\nf CYCLE 4 0 0 0 0 1 1 0 0 0 1 0 0 1 0 0 0\nend\n",
    "schedlog 1\nf LEAF 0 0\nend\n",
    "schedlog 1\ns B 0 0 1\ns B 0 1 2\ns B 0 2 0\nf TRIPLE 0 0 1 2\nend\n",
    "schedlog 1\nd SL 2 6 EDGE 0 0 2 2 0 1 2 0 1 2 0 1\nend\n\n",
    "schedlog 1\nf LEAF 0 0\nen",
    "schedlog 1\nf LEAF 00 0\nend\n",
    "\nschedlog 1\n",
];

fn first_different(alloc: Global) -> Result<Option<usize>, NoMemory> {
    for (n, log) in LOGS.iter().enumerate() {
        if differs(alloc, log.as_bytes())? {
            return Ok(Some(n));
        }
    }
    Ok(None)
}

#[test]
fn reads_pieces_as_a_whole(rt: HostRuntime) -> Result<(), Fail> {
    let alloc = rt.alloc();
    assert_eq!(rt; first_different(alloc)?, None);
    assert!(rt; is_read_by(alloc, b"schedlog 1\nend\nend", 2, "Head(One)\nFinish\n")?);
    Ok(())
}

/// What is told of the next line.
#[derive(Clone, Copy, PartialEq, Eq)]
enum Next {
    Whole,
    Waits,
    /// The number of the line, and its first byte.
    Bad(u64, u128),
    NoMemory,
}

fn next_line(alloc: Global, lines: &mut LineReader<NoExtra>) -> Next {
    match lines.next(alloc) {
        Ok(Some(_)) => Next::Whole,
        Ok(None) => Next::Waits,
        Err(LineFault::Bad { line, at }) => Next::Bad(line, at),
        Err(LineFault::NoMemory) => Next::NoMemory,
    }
}

fn is_bad(alloc: Global, lines: &mut LineReader<NoExtra>, line: u64, at: u128) -> bool {
    next_line(alloc, lines) == Next::Bad(line, at)
}

fn waits(alloc: Global, lines: &mut LineReader<NoExtra>) -> bool {
    next_line(alloc, lines) == Next::Waits
}

fn takes(alloc: Global, lines: &mut LineReader<NoExtra>) -> bool {
    next_line(alloc, lines) == Next::Whole
}

fn stays_bad_on(alloc: Global, lines: &mut LineReader<NoExtra>) -> Result<bool, NoMemory> {
    feed(lines, b"schedlog 1\nen")?;
    let waits = takes(alloc, lines) && lines.place() == 11 && waits(alloc, lines);
    feed(lines, b"d \nend\n")?;
    let bad = is_bad(alloc, lines, 2, 11) && is_bad(alloc, lines, 2, 11);
    feed(lines, b"end\n")?;
    Ok(waits && bad && is_bad(alloc, lines, 2, 11) && lines.count() == 24 && !lines.is_empty())
}

/// Behind a bad line there is none, whatever else is fed, and its number and place stay.
fn stays_bad(alloc: Global) -> Result<bool, NoMemory> {
    let mut lines = LineReader::new(alloc);
    stays_bad_on(alloc, &mut lines)
}

fn passes_limit_on(
    alloc: Global,
    lines: &mut LineReader<NoExtra>,
    piece: &[u8],
) -> Result<bool, NoMemory> {
    for _ in 0..255 {
        feed(lines, piece)?;
        if !waits(alloc, lines) {
            return Ok(false);
        }
    }
    let (_, most) = piece.split_at_checked(1).unwrap_or((piece, piece));
    feed(lines, most)?;
    let waits = waits(alloc, lines);
    feed(lines, b"1")?;
    Ok(waits && is_bad(alloc, lines, 1, 0))
}

fn passes_limit_by(alloc: Global, piece: &[u8]) -> Result<bool, NoMemory> {
    let mut lines = LineReader::new(alloc);
    passes_limit_on(alloc, &mut lines, piece)
}

/// A line without a line feed is bad as soon as it has 16,777,216 bytes.
fn passes_limit(alloc: Global) -> Result<bool, NoMemory> {
    let piece = vec![in alloc; b'1'; 65_536]?;
    passes_limit_by(alloc, piece.as_slice())
}

#[test]
fn stays_bad_behind_a_bad_line(rt: HostRuntime) -> Result<(), Fail> {
    assert!(rt; stays_bad(rt.alloc())?);
    assert!(rt; passes_limit(rt.alloc())?);
    Ok(())
}
