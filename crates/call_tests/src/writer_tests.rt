//! Lines as they are spelled, and how a log is begun, ended and cut off.
ghost use Rattle.std.specs.Prelude.{IfOk, IsTrue};
ghost use Rattle.kernel.specs.Fit.{is_fit, is_fit_assignment};
ghost use Rattle.refute_basic.specs.Witness.{is_valid};

use kernel::{Line, Witness};
use logtext::{LogWriter, Version};
use refute_basic::{ArcName, BasicWitness};
use region::Guess;
use sched_base::{Desk, Failed, Itv, List, MemDesk, NoMemory, Seq};
use sched_model::{Assignment, Segment, Slot};
use std::alloc::Global;
use std::test::Fail;

const FAR: i64 = 4_611_686_018_427_387_904;

const LAST: u32 = 4_294_967_295;

const LEAF: BasicWitness = BasicWitness::Leaf { k: LAST, u: LAST };

fn desk(alloc: Global, failing: &[u32]) -> Result<MemDesk, NoMemory> {
    let calls = List::from_vec(Vec::from_slice(alloc, failing)?);
    MemDesk::new(alloc, List::new(alloc), calls)
}

fn write_on(line: &Line<BasicWitness>, desk: &mut MemDesk) -> Result<(), Failed>
    requires { IsTrue (is_fit is_valid line.now) }
{
    desk.create_log("l")?;
    let mut log = LogWriter::new();
    log.write_line(line, desk)?;
    log.write_end(desk)
}

/// Whether this is written of a line and the last line.
fn writes(alloc: Global, line: &Line<BasicWitness>, want: &[u8]) -> Result<bool, NoMemory>
    requires { IsTrue (is_fit is_valid line.now) }
{
    let mut desk = desk(alloc, &[])?;
    Ok(write_on(line, &mut desk).is_ok() && desk.log_bytes() == want)
}

fn assignment(alloc: Global) -> Result<Assignment, NoMemory>
    ensures { IfOk result (λ a. IsTrue (is_fit_assignment a)) }
{
    let slots = [Slot::Absent, Slot::Present { s: -FAR, e: FAR }];
    let segment = Segment {
        p: -FAR,
        q: FAR,
        v: 0,
    };
    let mut orders = List::new(alloc);
    orders.push(List::from_vec(Vec::from_slice(alloc, &[Itv(LAST), Itv(0)])?))?;
    let mut segs = List::new(alloc);
    segs.push(List::from_vec(Vec::from_slice(alloc, &[segment])?))?;
    Ok(Assignment {
        slots: List::from_vec(Vec::from_slice(alloc, &slots)?),
        orders,
        segs,
    })
}

/// Whether this is written of a line that is let go of.
fn spells(alloc: Global, line: Line<BasicWitness>, want: &[u8]) -> Result<bool, NoMemory>
    requires { IsTrue (is_fit is_valid line) }
{
    writes(alloc, &line, want)
}

#[test]
fn spells_steps(rt: HostRuntime) -> Result<(), Fail> {
    let alloc = rt.alloc();
    let derive = Line::Derive(Guess::StartLe(Itv(LAST), -FAR), Witness::Basic(LEAF));
    let text = b"d SL 4294967295 -4611686018427387904 LEAF 4294967295 4294967295\nend\n";
    assert!(rt; spells(alloc, derive, text)?);
    let text = b"f EXTRA 3 5 4294967295 4294967295\nend\n";
    assert!(rt; spells(alloc, Line::Fail(Witness::Extra(LEAF)), text)?);
    Ok(())
}

#[test]
fn spells_splits(rt: HostRuntime) -> Result<(), Fail> {
    let alloc = rt.alloc();
    let split = Line::Split(Guess::EndGe(Itv(LAST), FAR));
    assert!(rt; spells(alloc, split, b"s EG 4294967295 4611686018427387904\nend\n")?);
    let order = Line::Split(Guess::Before(Seq(LAST), Itv(0), Itv(7)));
    assert!(rt; spells(alloc, order, b"s B 4294967295 0 7\nend\n")?);
    Ok(())
}

/// A walk of one arc.
fn walk(alloc: Global) -> Result<BasicWitness, NoMemory>
    ensures { IfOk result (λ w. IsTrue (is_valid w)) }
{
    let name = ArcName {
        kind: 2,
        x: LAST,
        y: 0,
        z: 7,
    };
    let mut arcs = List::new(alloc);
    arcs.push(name)?;
    Ok(BasicWitness::Cycle { arcs })
}

#[test]
fn spells_walks(rt: HostRuntime) -> Result<(), Fail> {
    let alloc = rt.alloc();
    let line = Line::Fail(Witness::Basic(walk(alloc)?));
    assert!(rt; spells(alloc, line, b"f CYCLE 1 2 4294967295 0 7\nend\n")?);
    Ok(())
}

#[test]
fn spells_extra_walks(rt: HostRuntime) -> Result<(), Fail> {
    let alloc = rt.alloc();
    let line = Line::Fail(Witness::Extra(walk(alloc)?));
    assert!(rt; spells(alloc, line, b"f EXTRA 6 2 1 2 4294967295 0 7\nend\n")?);
    Ok(())
}

#[test]
fn spells_solutions(rt: HostRuntime) -> Result<(), Fail> {
    let alloc = rt.alloc();
    let line = Line::Sol(assignment(alloc)?);
    let text =
        b"v a p -4611686018427387904 4611686018427387904 o 2 4294967295 0 g 1 -4611686018427387904 4611686018427387904 0\nend\n";
    assert!(rt; spells(alloc, line, text)?);
    Ok(())
}

fn write_whole(desk: &mut MemDesk) -> Result<(), Failed> {
    desk.create_log("l")?;
    let mut log = LogWriter::new();
    log.write_head(Version::One, desk)?;
    log.write_line::<BasicWitness, MemDesk>(&Line::Split(Guess::Absent(Itv(7))), desk)?;
    log.write_end(desk)
}

fn writes_whole(alloc: Global) -> Result<bool, NoMemory> {
    let mut desk = desk(alloc, &[])?;
    let written = write_whole(&mut desk).is_ok();
    Ok(written && desk.log_bytes() == b"schedlog 1\ns A 7\nend\n".as_slice())
}

#[test]
fn begins_and_ends(rt: HostRuntime) -> Result<(), Fail> {
    assert!(rt; writes_whole(rt.alloc())?);
    Ok(())
}

/// How many heads are written before one isn't.
fn heads(desk: &mut MemDesk) -> usize {
    if desk.create_log("l").is_err() {
        return 0;
    }
    let mut log = LogWriter::new();
    for n in 0..2_000 {
        if log.write_head(Version::One, desk).is_err() {
            return n;
        }
    }
    2_000
}

fn keeps_front(alloc: Global) -> Result<bool, NoMemory> {
    let mut desk = desk(alloc, &[2])?;
    let heads = heads(&mut desk);
    let text = desk.log_bytes();
    Ok(heads == 1_488 && text.len() == 744 * 11 && text.starts_with(b"schedlog 1\nschedlog 1\n"))
}

/// The first flush is written, and the second fails.
#[test]
fn keeps_what_was_written(rt: HostRuntime) -> Result<(), Fail> {
    assert!(rt; keeps_front(rt.alloc())?);
    Ok(())
}
