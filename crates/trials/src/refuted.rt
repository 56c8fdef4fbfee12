//! What a line of a log shows of the first region of a model.
use cpo_elab::read_model;
use kernel::{Kernel, Line, StepFault};
use logtext::{Entry, EntryFault, LogExtra, LogReader, LogWitness};
use sched_base::NoMemory;
use sched_model::Model;
use std::alloc::Global;

/// What is told of a line.
#[derive(Clone, Copy)]
pub enum Shown {
    Refutes,
    RefutesNot,
    NoLine,
    NoModel,
}

/// Why a line isn't the first one of a log.
fn fault_of(
    alloc: Global,
    model: &Model,
    line: Line<LogWitness>,
) -> Result<Option<StepFault>, NoMemory> {
    let mut kernel = Kernel::<LogExtra>::new(alloc, model)?;
    Ok(kernel.step(alloc, model, line).err())
}

/// Whether the witness of a line refutes, under the guess of the line where it has one.
fn shown_of(alloc: Global, model: &Model, line: Line<LogWitness>) -> Result<Shown, NoMemory> {
    match fault_of(alloc, model, line)? {
        None => Ok(Shown::Refutes),
        Some(StepFault::NotTight) => Ok(Shown::Refutes),
        Some(StepFault::NoMemory) => Err(NoMemory),
        Some(_) => Ok(Shown::RefutesNot),
    }
}

fn shown_by(alloc: Global, model: &Model, text: &[u8]) -> Result<Shown, NoMemory> {
    match LogReader::new(alloc).read_entry::<LogExtra>(alloc, text, 0) {
        Ok(Some((Entry::Step(line), _))) => shown_of(alloc, model, line),
        Ok(_) => Ok(Shown::NoLine),
        Err(EntryFault::Bad) => Ok(Shown::NoLine),
        Err(EntryFault::NoMemory) => Err(NoMemory),
    }
}

/// What a line shows of a model.
pub fn line_shows(alloc: Global, model: &[u8], line: &[u8]) -> Result<Shown, NoMemory> {
    match read_model(alloc, model) {
        Ok(model) => shown_by(alloc, &model, line),
        Err(_) => Ok(Shown::NoModel),
    }
}
