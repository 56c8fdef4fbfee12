//! The lines of a log that comes in pieces.
ghost use Rattle.std.specs.Prelude.{◌≡◌, ◌↔◌, IsTrue, [], ◌+◌, ◌≤◌, ◌^◌, length, OnOk, OnErr};
ghost use Rattle.log_lines.specs.code.Pieces.{nothing_fed, fed_more, next_place, ReadsNext};

use log_lines::{LineFault, LineReader};
use logtext::Entry;
use region::Refuter;
use sched_base::NoMemory;
use std::alloc::Global;

pub fn new_reader<X: Refuter>(alloc: Global) -> LineReader<X>
    ensures { result ≡ nothing_fed }
{
    LineReader::new(alloc)
}

pub fn count<X: Refuter>(lines: &LineReader<X>) -> usize
    ensures { result ≡ lines.now.count }
{
    lines.count()
}

pub fn place<X: Refuter>(lines: &LineReader<X>) -> usize
    ensures { result ≡ next_place lines.now }
{
    lines.place()
}

pub fn is_empty<X: Refuter>(lines: &LineReader<X>) -> bool
    ensures { IsTrue result ↔ (lines.now.rest ≡ []) }
{
    lines.is_empty()
}

pub fn feed<X: Refuter>(lines: &mut LineReader<X>, piece: &[u8]) -> Result<(), NoMemory>
    requires piece { length piece.now ≤ 65536 }
    requires all { lines.old.count + length piece.now ≤ 2 ^ 63 }
    ensures ok { OnOk result (lines.new ≡ fed_more piece.now lines.old) }
    ensures err { OnErr result (lines.new ≡ lines.old) }
{
    lines.feed(piece)
}

pub fn next<X: Refuter>(
    lines: &mut LineReader<X>,
    alloc: Global,
) -> Result<Option<Entry<X::Witness>>, LineFault>
    ensures { ReadsNext X.Witness.numbers X.Witness.is_valid result lines.old lines.new }
{
    lines.next(alloc)
}
