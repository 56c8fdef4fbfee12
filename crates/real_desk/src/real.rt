ghost use Rattle.std.specs.Prelude.{◌≡◌, ◌≤◌, length, is_some, IfOk};

use sched_base::{Desk, Failed, Inlet, Port};
use std::fs;
use std::io::{ErrorKind, Read, Write};
use std::rt::Files;

/// The desk over real files and two writers, the trusted edge of a program: it tells nothing of
/// what they hold. A write that takes nothing of a piece counts as a fault, and so does each file
/// that is to be opened or created where the desk has no files.
#[derive(Drop)]
pub struct RealDesk<R: Files + Drop, O: Write + Drop, E: Write + Drop> {
    files: Option<R>,
    out: O,
    err: E,
    model: Option<R::File>,
    log: Option<R::File>,
    schedule: Option<R::File>,
    logged: Option<R::File>,
    faults: u64,
}

/// How often in a row a read or a write is tried that a signal interrupts.
const TRIES: u32 = 1_000;

/// Writes a part of a piece.
fn write_some<W: Write>(writer: &mut W, bytes: &[u8]) -> Result<usize, Failed>
    ensures { IfOk result (λ n. n ≤ length bytes.now) }
{
    for _ in 0..TRIES {
        match writer.write(bytes) {
            Ok(n) => return Ok(n),
            Err(e) if e.kind() == ErrorKind::Interrupted => {}
            Err(_) => return Err(Failed),
        }
    }
    Err(Failed)
}

/// Writes all of a piece.
fn write_whole<W: Write>(writer: &mut W, bytes: &[u8]) -> Result<(), Failed> {
    let mut left = bytes;
    while !left.is_empty() {
        let n = write_some(writer, left)?;
        if n == 0 {
            return Err(Failed);
        }
        left = &left[n..];
    }
    Ok(())
}

fn opened<R: Files>(files: &Option<R>, name: &str) -> Result<R::File, Failed> {
    let Some(files) = files else {
        return Err(Failed);
    };
    match fs::open(files, name) {
        Ok(file) => Ok(file),
        Err(_) => Err(Failed),
    }
}

fn created<R: Files>(files: &Option<R>, name: &str) -> Result<R::File, Failed> {
    let Some(files) = files else {
        return Err(Failed);
    };
    match fs::create(files, name) {
        Ok(file) => Ok(file),
        Err(_) => Err(Failed),
    }
}

/// Reads into the front of a piece.
fn read_some<F: Read>(file: &mut F, into: &mut [u8]) -> Result<usize, Failed>
    ensures within { IfOk result (λ n. n ≤ length into.old) }
    ensures same { length into.new ≡ length into.old }
{
    for _ in 0..TRIES {
        match file.read(into) {
            Ok(n) => return Ok(n),
            Err(e) if e.kind() == ErrorKind::Interrupted => {}
            Err(_) => return Err(Failed),
        }
    }
    Err(Failed)
}

fn read_from<F: Read>(file: &mut Option<F>, into: &mut [u8]) -> Result<usize, Failed>
    ensures within { IfOk result (λ n. n ≤ length into.old) }
    ensures same { length into.new ≡ length into.old }
    ensures still { is_some file.new ≡ is_some file.old }
{
    match file {
        None => Err(Failed),
        Some(file) => read_some(file, into),
    }
}

impl<R: Files + Drop, O: Write + Drop, E: Write + Drop> RealDesk<R, O, E> {
    ghost use Rattle.std.specs.Prelude.{◌≡◌, false, is_some};
    ghost use Rattle.real_desk.specs.code.Real.{real_state};

    /// A desk over these files, or over none, and over the two writers as standard output and error.
    /// Nothing is opened, no log is created, and no fault is counted.
    pub fn new(files: Option<R>, out: O, err: E) -> RealDesk<R, O, E>
        ensures { real_state (is_some result.model) (is_some result.log) (is_some result.schedule) (is_some result.logged) result.faults ≡ real_state false false false false 0 }
    {
        RealDesk {
            files,
            out,
            err,
            model: None,
            log: None,
            schedule: None,
            logged: None,
            faults: 0,
        }
    }
}

impl<R: Files + Drop, O: Write + Drop, E: Write + Drop> Desk for RealDesk<R, O, E> {
    ghost use Rattle.std.specs.Prelude.{is_some};
    ghost use Rattle.real_desk.specs.code.Real.{real_state};

    ghost state = { λ d. real_state (is_some d.model) (is_some d.log) (is_some d.schedule) (is_some d.logged) d.faults };

    fn open_in(&mut self, slot: Inlet, name: &str) -> Result<(), Failed> {
        match opened(&self.files, name) {
            Err(_) => {
                self.faults = self.faults.saturating_add(1);
                Err(Failed)
            }
            Ok(file) => {
                match slot {
                    Inlet::Model => self.model = Some(file),
                    Inlet::Log => self.log = Some(file),
                    Inlet::Schedule => self.schedule = Some(file),
                }
                Ok(())
            }
        }
    }

    fn read(&mut self, slot: Inlet, into: &mut [u8]) -> Result<usize, Failed> {
        let answer = match slot {
            Inlet::Model => read_from(&mut self.model, into),
            Inlet::Log => read_from(&mut self.log, into),
            Inlet::Schedule => read_from(&mut self.schedule, into),
        };
        if answer.is_err() {
            self.faults = self.faults.saturating_add(1);
        }
        answer
    }

    fn create_log(&mut self, name: &str) -> Result<(), Failed> {
        match created(&self.files, name) {
            Err(_) => {
                self.faults = self.faults.saturating_add(1);
                Err(Failed)
            }
            Ok(file) => {
                self.logged = Some(file);
                Ok(())
            }
        }
    }

    fn write(&mut self, to: Port, bytes: &[u8]) -> Result<(), Failed> {
        let answer = match to {
            Port::Out => write_whole(&mut self.out, bytes),
            Port::Err => write_whole(&mut self.err, bytes),
            Port::Log => match &mut self.logged {
                None => Err(Failed),
                Some(file) => write_whole(file, bytes),
            },
        };
        if answer.is_err() {
            self.faults = self.faults.saturating_add(1);
        }
        answer
    }

    ghost calm_tells = { λ d e. Prim.cc };
}
