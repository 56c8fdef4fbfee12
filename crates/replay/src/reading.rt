ghost use Rattle.std.specs.Prelude.{◌≡◌, ◌+◌, ◌<◌, ◌≤◌, ◌^◌, ℕ, true, length, IfOk, IfErr};
ghost use Rattle.sched_base.specs.State.{State, Bytes, is_opened};
ghost use Rattle.sched_base.specs.Calls.{Moved};
ghost use Rattle.logtext.specs.Judgement.{log_limit};
ghost use Rattle.replay.specs.code.Pieces.{Fails, FeedsPiece, FindsLine, GoesOn, IsReading, Holds};

use log_lines::{LineFault, LineReader};
use logtext::Entry;
use region::Refuter;
use sched_base::{Desk, Inlet, ReadError};
use std::alloc::Global;

/// So many bytes of a log are looked at for lines.
const LOG_BYTES: usize = 4_611_686_018_427_387_904;

/// What stands where the next line should.
pub enum NextLine<W> {
    /// A line, which is taken.
    Line(Entry<W>),
    /// No spelling of a line, or too long a line.
    Wrong,
    /// The log ends before the line does.
    Missing,
    /// The bytes up to the limit end before the line does.
    Beyond,
}

/// Reads one piece of at most `most` bytes by way of a buffer, and feeds it. It answers how many
/// bytes they were.
fn feed_piece<X: Refuter, D: Desk>(
    desk: &mut D,
    most: usize,
    buffer: &mut [u8],
    lines: &mut LineReader<X>,
) -> Result<usize, ReadError>
    requires room { 0 < most }
    requires buffer { 0 < length buffer.old }
    requires small { length buffer.old ≤ 65536 }
    requires opened { is_opened Inlet.Log (D.state desk.old) ≡ true }
    requires limit { lines.old.count + most ≤ 2 ^ 63 }
    ensures fed { IfOk result (λ n. FeedsPiece n (D.state desk.old) (D.state desk.new) lines.old lines.new) }
    ensures few { IfOk result (λ n. n ≤ most) }
    ensures count { IfOk result (λ n. lines.new.count ≡ lines.old.count + n) }
    ensures moved { Moved Inlet.Log (D.state desk.old) (D.state desk.new) }
    ensures fails { IfErr result (λ e. Fails most e (D.state desk.old) (D.state desk.new)) }
{
    let size = most.min(buffer.len());
    let piece = &mut buffer[..size];
    let n = desk.read(Inlet::Log, piece)?;
    match lines.feed(&piece[..n]) {
        Ok(()) => Ok(n),
        Err(_) => Err(ReadError::NoMemory),
    }
}

/// The next line. It reads a further piece only where what was read holds no further whole line.
pub fn next_line<X: Refuter, D: Desk>(
    alloc: Global,
    desk: &mut D,
    buffer: &mut [u8],
    lines: &mut LineReader<X>,
) -> Result<NextLine<X::Witness>, ReadError>
    requires buffer { 0 < length buffer.old }
    requires small { length buffer.old ≤ 65536 }
    requires opened { is_opened Inlet.Log (D.state desk.old) ≡ true }
    requires limit { lines.old.count ≤ log_limit }
    ensures finds { (start : State) (fed : Bytes) (place : ℕ) → IsReading start (D.state desk.old) fed place → Holds lines.old fed place → FindsLine X.Witness.numbers X.Witness.is_valid start (D.state desk.new) fed place result lines.new }
    ensures opened { IfOk result (λ _. is_opened Inlet.Log (D.state desk.new) ≡ true) }
    ensures limit { IfOk result (λ _. lines.new.count ≤ log_limit) }
{
    'pieces: loop {
        match lines.next(alloc) {
            Ok(Some(entry)) => return Ok(NextLine::Line(entry)),
            Ok(None) => {}
            Err(LineFault::Bad { line: _, at: _ }) => return Ok(NextLine::Wrong),
            Err(LineFault::NoMemory) => return Err(ReadError::NoMemory),
        }
        let count = lines.count();
        if count >= LOG_BYTES {
            return Ok(NextLine::Beyond);
        }
        let n = feed_piece(desk, LOG_BYTES - count, buffer, lines)?;
        if n == 0 {
            return Ok(NextLine::Missing);
        }
    }
}

/// Whether anything stands behind the lines that were taken.
pub fn goes_on<X: Refuter, D: Desk>(
    desk: &mut D,
    buffer: &mut [u8],
    lines: &mut LineReader<X>,
) -> Result<bool, ReadError>
    requires buffer { 0 < length buffer.old }
    requires small { length buffer.old ≤ 65536 }
    requires opened { is_opened Inlet.Log (D.state desk.old) ≡ true }
    requires limit { lines.old.count ≤ log_limit }
    ensures { (start : State) (fed : Bytes) (place : ℕ) → IsReading start (D.state desk.old) fed place → Holds lines.old fed place → GoesOn start (D.state desk.new) fed place result }
{
    if !lines.is_empty() {
        return Ok(true);
    }
    let n = feed_piece(desk, 1, buffer, lines)?;
    if n == 0 {
        return Ok(false);
    }
    Ok(true)
}
