ghost use Rattle.std.specs.Prelude.{◌≡◌, ◌≤◌, length, take};
ghost use Rattle.logtext.specs.Entries.{line_limit};
ghost use Rattle.logtext.specs.Reading.{ReadsEntry};
ghost use Rattle.logtext.specs.code.Reads.{FindsFeed};

use crate::entry::{Entry, EntryFault};
use crate::line::read_words;
use memchr::memchr;
use region::{Numbers, Refuter};
use std::alloc::Global;
use textline::Words;

/// The most bytes of a line, its line feed counted.
const LINE_LIMIT: usize = 16_777_216;

/// The bytes in which the next line's line feed has to stand.
fn nearest(rest: &[u8]) -> &[u8]
    ensures { result.now ≡ take line_limit rest.now }
{
    if rest.len() <= LINE_LIMIT {
        return rest;
    }
    let (near, _) = rest.split_at(LINE_LIMIT);
    near
}

/// The place of the first line feed.
fn find_feed(bytes: &[u8]) -> Option<usize>
    ensures { FindsFeed bytes.now result }
{
    memchr(b'\n', bytes)
}

/// Reads the line at the front of some bytes, and tells how many it has.
fn read_front<W: Numbers>(
    alloc: Global,
    rest: &[u8],
    numbers: &mut Vec<i64>,
) -> Result<Option<(Entry<W>, usize)>, EntryFault>
    ensures { ReadsEntry W.numbers W.is_valid rest.now 0 result }
{
    let Some(end) = find_feed(nearest(rest)) else {
        if rest.len() < LINE_LIMIT {
            return Ok(None);
        }
        return Err(EntryFault::Bad);
    };
    let (line, _) = rest.split_at(end);
    let mut words = Words::of(line);
    match read_words(alloc, &mut words, numbers) {
        Ok(entry) => Ok(Some((entry, end + 1))),
        Err(fault) => Err(fault),
    }
}

/// Reads the lines of a log. It lends each line the room in which the numbers of a witness are
/// gathered, so that a line takes no memory but for what it keeps.
#[derive(Drop)]
pub struct LogReader {
    numbers: Vec<i64>,
}

impl LogReader {
    /// A reader with no room yet: the first line with a witness takes some.
    pub fn new(alloc: Global) -> LogReader {
        LogReader {
            numbers: Vec::new(alloc),
        }
    }

    /// Reads the line that begins at `from`, and tells the place behind its line feed. None where
    /// the bytes from there hold no line feed and are not yet too long for a line.
    pub fn read_entry<X: Refuter>(
        &mut self,
        alloc: Global,
        bytes: &[u8],
        from: usize,
    ) -> Result<Option<(Entry<X::Witness>, usize)>, EntryFault>
        requires { from ≤ length bytes.now }
        ensures { ReadsEntry X.Witness.numbers X.Witness.is_valid bytes.now from result }
    {
        let (_, rest) = bytes.split_at(from);
        match read_front(alloc, rest, &mut self.numbers) {
            Ok(Some((entry, len))) => Ok(Some((entry, from + len))),
            Ok(None) => Ok(None),
            Err(fault) => Err(fault),
        }
    }
}
