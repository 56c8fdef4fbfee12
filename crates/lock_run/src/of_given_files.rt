//! What the files of a run hold, and how a refusal is told.
ghost use Rattle.std.specs.Prelude.{◌≡◌, ◌++◌, OnOk};
ghost use Rattle.std.specs.Fmt.{decimal};
ghost use Rattle.given_files.specs.Files.{WithinModel, WithinSchedule};
ghost use Rattle.given_files.specs.code.Reading.{OnlyReads, Reads};
ghost use Rattle.given_files.specs.code.Testing.{OnlyTests, TestsFile};
ghost use Rattle.given_files.specs.code.Telling.{IsTold};
ghost use Rattle.given_files.specs.Told.{Reports};

use given_files::GivenStop;
use sched_base::{Desk, NoMemory};
use sched_model::{Assignment, Model};
use std::alloc::Global;

pub fn read_file<D: Desk>(alloc: Global, desk: &mut D, name: &str) -> Result<Model, GivenStop>
    ensures only { OnlyReads (D.state desk.old) (D.state desk.new) }
    ensures within { WithinModel name.now (D.state desk.old) (D.state desk.new) }
    ensures reads { Reads name.now result (D.state desk.old) (D.state desk.new) }
{
    given_files::read_file(alloc, desk, name)
}

pub fn test_file<D: Desk>(
    alloc: Global,
    desk: &mut D,
    model: &Model,
    schedule: &str,
) -> Result<Assignment, GivenStop>
    ensures only { OnlyTests (D.state desk.old) (D.state desk.new) }
    ensures within { WithinSchedule schedule.now (D.state desk.old) (D.state desk.new) }
    ensures tests { TestsFile model.now schedule.now result (D.state desk.old) (D.state desk.new) }
{
    given_files::test_file(alloc, desk, model, schedule)
}

pub fn tell<D: Desk>(alloc: Global, desk: &mut D, stop: GivenStop) -> GivenStop
    ensures { IsTold stop result (D.state desk.old) (D.state desk.new) }
{
    given_files::tell(alloc, desk, stop)
}

pub fn report<D: Desk>(desk: &mut D, line: &[u8])
    ensures { Reports line.now (D.state desk.old) (D.state desk.new) }
{
    given_files::report(desk, line);
}

pub fn push_told(bytes: &mut Vec<u8>, before: &[u8], n: u64) -> Result<(), NoMemory>
    ensures { OnOk result (bytes.new.items ≡ bytes.old.items ++ (before.now ++ decimal n)) }
{
    given_files::push_told(bytes, before, n)
}
