//! How the lines of a log are written and read.
ghost use Rattle.std.specs.Prelude.{◌≡◌, [], true, IsTrue, OnOk, ◌≤◌, length};
ghost use Rattle.sched_base.specs.declared.desk.Port.TheVariants.{Log};
ghost use Rattle.gatherer.specs.code.Gathering.{Gathers};
ghost use Rattle.kernel.specs.Fit.{is_fit};
ghost use Rattle.logtext.specs.Spelling.{head_text, line_text, end_text};
ghost use Rattle.logtext.specs.Reading.{ReadsEntry};
ghost use Rattle.logtext.specs.code.Promises.{SpellingsAreTold, SpellingsEndOnce};

use kernel::Line;
use logtext::{Entry, EntryFault, LogReader, LogWriter, Version};
use region::{Numbers, Refuter};
use sched_base::{Desk, Failed};
use std::alloc::Global;

pub fn new_writer() -> LogWriter
    ensures { result ≡ [] }
{
    LogWriter::new()
}

pub fn write_head<D: Desk>(
    writer: &mut LogWriter,
    version: Version,
    desk: &mut D,
) -> Result<(), Failed>
    requires { (D.state desk.old).created ≡ true }
    ensures { Gathers Log (head_text version) result writer.old writer.new (D.state desk.old) (D.state desk.new) }
{
    writer.write_head(version, desk)
}

pub fn write_line<W: Numbers, D: Desk>(
    writer: &mut LogWriter,
    line: &Line<W>,
    desk: &mut D,
) -> Result<(), Failed>
    requires created { (D.state desk.old).created ≡ true }
    requires fit { IsTrue (is_fit W.is_valid line.now) }
    ensures { Gathers Log (line_text W.numbers line.now) result writer.old writer.new (D.state desk.old) (D.state desk.new) }
{
    writer.write_line(line, desk)
}

pub fn write_end<D: Desk>(writer: &mut LogWriter, desk: &mut D) -> Result<(), Failed>
    requires { (D.state desk.old).created ≡ true }
    ensures gathers { Gathers Log end_text result writer.old writer.new (D.state desk.old) (D.state desk.new) }
    ensures none { OnOk result (writer.new ≡ []) }
{
    writer.write_end(desk)
}

pub fn read_entry<X: Refuter>(
    reader: &mut LogReader,
    alloc: Global,
    bytes: &[u8],
    from: usize,
) -> Result<Option<(Entry<X::Witness>, usize)>, EntryFault>
    requires { from ≤ length bytes.now }
    ensures { ReadsEntry X.Witness.numbers X.Witness.is_valid bytes.now from result }
{
    reader.read_entry::<X>(alloc, bytes, from)
}

pub fn spelling_is_determined<X: Refuter>()
    ensures told { SpellingsAreTold X.Witness.numbers X.Witness.is_valid }
    ensures ends { SpellingsEndOnce X.Witness.numbers X.Witness.is_valid }
{
    logtext::spelling_is_determined::<X>();
}
