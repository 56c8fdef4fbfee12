ghost use Rattle.std.specs.Prelude.{◌≡◌, ◌+◌, ◌≤◌, ◌^◌, ◌==◌, ◌↔◌, true, not, IsTrue, [], length, take, drop, OnOk, OnErr, vec_len};
ghost use Rattle.std.specs.List.{list_all};
ghost use Rattle.logtext.specs.Reading.{HasNoWholeLine};
ghost use Rattle.log_lines.specs.code.Pieces.{nothing_fed, fed_more, next_place, bad_line, ReadsNext};

use crate::fault::LineFault;
use logtext::{Entry, EntryFault, LogReader};
use memchr::memchr;
use region::Refuter;
use sched_base::NoMemory;
use std::alloc::Global;
use std::marker::PhantomData;

/// The most bytes of a line, its line feed counted.
const LINE_LIMIT: usize = 16_777_216;

/// Drops the first bytes.
fn drop_front(bytes: &mut Vec<u8>, n: usize)
    requires { n ≤ vec_len bytes.old }
    ensures { bytes.new.items ≡ drop n bytes.old.items }
{
    let len = bytes.len();
    bytes.copy_within(n..len, 0);
    bytes.truncate(len - n);
}

/// Whether a line whose first bytes were searched for a line feed before is known to go on.
fn goes_on(rest: &[u8], searched: usize) -> bool
    requires within { searched ≤ length rest.now }
    requires plain { IsTrue (list_all (λ b. not (b == 10)) (take searched rest.now)) }
    ensures { result ≡ true → HasNoWholeLine rest.now }
{
    if searched == 0 || rest.len() >= LINE_LIMIT {
        return false;
    }
    let (_, new) = rest.split_at(searched);
    memchr(b'\n', new).is_none()
}

/// Reads the lines of a log that is fed to it piece by piece, as if its text were there at once: a
/// line may begin in one piece and end in another. It holds what was fed since the last line that
/// it gave. Who takes lines until there is none, and only then feeds the next piece, has it hold no
/// more than one line and one piece; each byte is then copied once into the buffer, moved once more
/// at most, and looked at twice at most for a line feed.
#[derive(Drop)]
pub struct LineReader<X: Refuter> {
    reader: LogReader,
    held: Vec<u8>,
    at: usize,
    searched: usize,
    count: usize,
    taken: u64,
    is_bad: bool,
    refuter: PhantomData<X>,
}

impl<X: Refuter> std::marker::Model for LineReader<X> {
    ghost use Rattle.std.specs.Prelude.{drop};
    ghost use Rattle.log_lines.specs.code.Pieces.{Fed, IsHeld};

    ghost Value = { Fed };

    ghost view = { λ r. record { count = r.count; taken = r.taken; rest = drop r.at r.held.items; is_bad = r.is_bad } };

    ghost invariant = { λ r. IsHeld r.held.items r.at r.searched r.count r.taken };
}

impl<X: Refuter> LineReader<X> {
    /// A reader that was fed nothing, which takes no memory.
    pub fn new(alloc: Global) -> LineReader<X>
        ensures { result ≡ nothing_fed }
    {
        LineReader {
            reader: LogReader::new(alloc),
            held: Vec::new(alloc),
            at: 0,
            searched: 0,
            count: 0,
            taken: 0,
            is_bad: false,
            refuter: PhantomData,
        }
    }

    /// How many bytes were fed in all.
    pub fn count(&self) -> usize
        ensures { result ≡ self.now.count }
    {
        self.count
    }

    /// The place behind the last line that was taken, where the next one begins.
    pub fn place(&self) -> usize
        ensures { result ≡ next_place self.now }
    {
        self.count - (self.held.len() - self.at)
    }

    /// The next line, which is bad: its number, and its first byte.
    fn bad(&self) -> LineFault
        ensures { result ≡ bad_line self.now }
    {
        LineFault::Bad {
            line: self.taken + 1,
            at: self.place() as u128,
        }
    }

    /// Whether lines have taken all that was fed.
    pub fn is_empty(&self) -> bool
        ensures { IsTrue result ↔ (self.now.rest ≡ []) }
    {
        self.at == self.held.len()
    }

    /// Puts a piece behind what was fed before. A piece has at most 65,536 bytes, and all of them
    /// together have at most 2^63. Where memory is refused, nothing was fed.
    pub fn feed(&mut self, piece: &[u8]) -> Result<(), NoMemory>
        requires piece { length piece.now ≤ 65536 }
        requires all { self.old.count + length piece.now ≤ 2 ^ 63 }
        ensures ok { OnOk result (self.new ≡ fed_more piece.now self.old) }
        ensures err { OnErr result (self.new ≡ self.old) }
    {
        if self.at > 0 {
            drop_front(&mut self.held, self.at);
            self.at = 0;
        }
        self.held.extend_from_slice(piece)?;
        self.count += piece.len();
        Ok(())
    }

    /// The next line. None where what was fed holds no further whole line, nor 16,777,216 bytes of
    /// one. `Bad` where the line is no spelling or too long, with its number and its first byte, and
    /// the same from then on. Only a line that is given is taken, so after a want of memory it can be
    /// asked for again.
    pub fn next(&mut self, alloc: Global) -> Result<Option<Entry<X::Witness>>, LineFault>
        ensures { ReadsNext X.Witness.numbers X.Witness.is_valid result self.old self.new }
    {
        if self.is_bad {
            return Err(self.bad());
        }
        let (_, rest) = self.held.split_at(self.at);
        if goes_on(rest, self.searched) {
            self.searched = self.held.len() - self.at;
            return Ok(None);
        }
        match self
            .reader
            .read_entry::<X>(alloc, self.held.as_slice(), self.at)
        {
            Ok(Some((entry, to))) => {
                self.at = to;
                self.searched = 0;
                self.taken += 1;
                Ok(Some(entry))
            }
            Ok(None) => {
                self.searched = self.held.len() - self.at;
                Ok(None)
            }
            Err(EntryFault::Bad) => {
                self.is_bad = true;
                Err(self.bad())
            }
            Err(EntryFault::NoMemory) => Err(LineFault::NoMemory),
        }
    }
}
