//! Texts as a case writes them. `\n`, `\r`, `\t` and `\s` are a line feed, a carriage return, a tab and a
//! space, and `\xHH` is the byte of two hexadecimal digits. `\*N UNIT\.` is the unit N times; in it `\#`
//! is which time it is, from 1 on, in four digits.
use sched_base::NoMemory;
use std::alloc::Global;

/// A text behind a word, or one of whole lines, the last of which has its line feed left out here.
#[derive(Clone, Copy)]
pub struct Text<'a> {
    pub raw: &'a str,
    pub lines: bool,
}

impl<'a> Text<'a> {
    /// The text behind a word.
    pub fn of(raw: &'a str) -> Text<'a> {
        Text { raw, lines: false }
    }
}

/// What stands before the first mark, and what behind it; all and nothing where there is none.
pub fn cut<'a>(text: &'a str, mark: &str) -> (&'a str, &'a str) {
    text.split_once(mark).unwrap_or((text, ""))
}

/// The number that a word is, and 0 for any other.
pub fn number(word: &str) -> u64 {
    word.parse::<u64>().unwrap_or(0)
}

/// The last digit of a number.
fn digit(n: u64) -> u8 {
    b'0' + (n % 10) as u8
}

fn push_count(bytes: &mut Vec<u8>, count: u64) -> Result<(), NoMemory> {
    bytes.push(digit(count / 1_000))?;
    bytes.push(digit(count / 100))?;
    bytes.push(digit(count / 10))?;
    bytes.push(digit(count))?;
    Ok(())
}

/// The byte of two hexadecimal digits, and what stands behind them.
fn coded(piece: &str) -> (u8, &str) {
    match piece.split_at_checked(2) {
        Some((digits, rest)) => (u8::from_str_radix(digits, 16).unwrap_or(b'?'), rest),
        None => (b'?', ""),
    }
}

/// Puts what stands behind a backslash.
fn push_escaped(bytes: &mut Vec<u8>, piece: &str, count: u64) -> Result<(), NoMemory> {
    let (mark, rest) = piece.split_at_checked(1).unwrap_or(("", piece));
    let rest = match mark {
        "#" => {
            push_count(bytes, count)?;
            rest
        }
        "x" => {
            let (byte, rest) = coded(rest);
            bytes.push(byte)?;
            rest
        }
        _ => {
            bytes.push(match mark {
                "n" => b'\n',
                "r" => b'\r',
                "t" => b'\t',
                "s" => b' ',
                _ => b'?',
            })?;
            rest
        }
    };
    bytes.extend_from_slice(rest.as_bytes())?;
    Ok(())
}

/// Puts a text without repeated units.
fn push_plain(bytes: &mut Vec<u8>, raw: &str, count: u64) -> Result<(), NoMemory> {
    for (n, piece) in raw.split('\\').enumerate() {
        if n == 0 {
            bytes.extend_from_slice(piece.as_bytes())?;
        } else {
            push_escaped(bytes, piece, count)?;
        }
    }
    Ok(())
}

fn push_repeated(bytes: &mut Vec<u8>, times: u64, unit: &str) -> Result<(), NoMemory> {
    for n in 0..times {
        push_plain(bytes, unit, n.wrapping_add(1))?;
    }
    Ok(())
}

/// Puts a piece that begins with a repeated unit.
fn push_unit(bytes: &mut Vec<u8>, piece: &str) -> Result<(), NoMemory> {
    let (times, rest) = cut(piece, " ");
    let (unit, rest) = cut(rest, "\\.");
    push_repeated(bytes, number(times), unit)?;
    push_plain(bytes, rest, 0)
}

/// Puts pieces that each begin with a repeated unit.
fn push_units(bytes: &mut Vec<u8>, units: &str) -> Result<(), NoMemory> {
    let mut rest = units;
    for _ in 0..units.len() {
        if rest.is_empty() {
            break;
        }
        let (piece, others) = cut(rest, "\\*");
        push_unit(bytes, piece)?;
        rest = others;
    }
    Ok(())
}

fn push_text(bytes: &mut Vec<u8>, text: Text<'_>) -> Result<(), NoMemory> {
    let (plain, units) = cut(text.raw, "\\*");
    push_plain(bytes, plain, 0)?;
    push_units(bytes, units)?;
    if text.lines {
        bytes.push(b'\n')?;
    }
    Ok(())
}

/// The bytes that a text stands for.
pub fn bytes_of(alloc: Global, text: Text<'_>) -> Result<Vec<u8>, NoMemory> {
    let mut bytes = Vec::new(alloc);
    push_text(&mut bytes, text)?;
    Ok(bytes)
}
