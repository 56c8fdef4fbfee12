ghost use Rattle.std.specs.Prelude.{◌≡◌, IfOk};

use sched_base::{List, NoMemory};
use sched_model::{CumulDef, IntervalDef, MatrixDef, Name, SequenceDef, StateDef};
use std::alloc::Global;

/// A copy of a list of plain things.
pub fn copy_list<T: Copy>(alloc: Global, items: &[T]) -> Result<List<T>, NoMemory>
    ensures { IfOk result (λ xs. xs ≡ items.now) }
{
    let mut found = Vec::new(alloc);
    for item in items {
        found.push(*item)?;
    }
    Ok(List::from_vec(found))
}

fn copy_name(alloc: Global, name: &Option<Name>) -> Result<Option<Name>, NoMemory>
    ensures { IfOk result (λ n. n ≡ name.now) }
{
    match name {
        None => Ok(None),
        Some(name) => Ok(Some(copy_list(alloc, name.as_slice())?)),
    }
}

fn copy_types(alloc: Global, types: &Option<List<u32>>) -> Result<Option<List<u32>>, NoMemory>
    ensures { IfOk result (λ n. n ≡ types.now) }
{
    match types {
        None => Ok(None),
        Some(types) => Ok(Some(copy_list(alloc, types.as_slice())?)),
    }
}

fn copy_interval(alloc: Global, def: &IntervalDef) -> Result<IntervalDef, NoMemory>
    ensures { IfOk result (λ d. d ≡ def.now) }
{
    Ok(IntervalDef {
        name: copy_list(alloc, def.name.as_slice())?,
        optional: def.optional,
        start_lo: def.start_lo,
        start_hi: def.start_hi,
        end_lo: def.end_lo,
        end_hi: def.end_hi,
        size_lo: def.size_lo,
        size_hi: def.size_hi,
    })
}

fn copy_matrix(alloc: Global, def: &MatrixDef) -> Result<MatrixDef, NoMemory>
    ensures { IfOk result (λ d. d ≡ def.now) }
{
    Ok(MatrixDef {
        name: copy_list(alloc, def.name.as_slice())?,
        size: def.size,
        cells: copy_list(alloc, def.cells.as_slice())?,
    })
}

fn copy_sequence(alloc: Global, def: &SequenceDef) -> Result<SequenceDef, NoMemory>
    ensures { IfOk result (λ d. d ≡ def.now) }
{
    Ok(SequenceDef {
        name: copy_name(alloc, &def.name)?,
        members: copy_list(alloc, def.members.as_slice())?,
        types: copy_types(alloc, &def.types)?,
    })
}

fn copy_cumul(alloc: Global, def: &CumulDef) -> Result<CumulDef, NoMemory>
    ensures { IfOk result (λ d. d ≡ def.now) }
{
    Ok(CumulDef {
        name: copy_name(alloc, &def.name)?,
        parts: copy_list(alloc, def.parts.as_slice())?,
    })
}

fn copy_state(alloc: Global, def: &StateDef) -> Result<StateDef, NoMemory>
    ensures { IfOk result (λ d. d ≡ def.now) }
{
    Ok(StateDef {
        name: copy_list(alloc, def.name.as_slice())?,
        matrix: def.matrix,
    })
}

pub fn copy_intervals(alloc: Global, defs: &[IntervalDef]) -> Result<List<IntervalDef>, NoMemory>
    ensures { IfOk result (λ ds. ds ≡ defs.now) }
{
    let mut found = Vec::new(alloc);
    for def in defs {
        found.push(copy_interval(alloc, def)?)?;
    }
    Ok(List::from_vec(found))
}

pub fn copy_matrices(alloc: Global, defs: &[MatrixDef]) -> Result<List<MatrixDef>, NoMemory>
    ensures { IfOk result (λ ds. ds ≡ defs.now) }
{
    let mut found = Vec::new(alloc);
    for def in defs {
        found.push(copy_matrix(alloc, def)?)?;
    }
    Ok(List::from_vec(found))
}

pub fn copy_sequences(alloc: Global, defs: &[SequenceDef]) -> Result<List<SequenceDef>, NoMemory>
    ensures { IfOk result (λ ds. ds ≡ defs.now) }
{
    let mut found = Vec::new(alloc);
    for def in defs {
        found.push(copy_sequence(alloc, def)?)?;
    }
    Ok(List::from_vec(found))
}

pub fn copy_cumuls(alloc: Global, defs: &[CumulDef]) -> Result<List<CumulDef>, NoMemory>
    ensures { IfOk result (λ ds. ds ≡ defs.now) }
{
    let mut found = Vec::new(alloc);
    for def in defs {
        found.push(copy_cumul(alloc, def)?)?;
    }
    Ok(List::from_vec(found))
}

pub fn copy_states(alloc: Global, defs: &[StateDef]) -> Result<List<StateDef>, NoMemory>
    ensures { IfOk result (λ ds. ds ≡ defs.now) }
{
    let mut found = Vec::new(alloc);
    for def in defs {
        found.push(copy_state(alloc, def)?)?;
    }
    Ok(List::from_vec(found))
}
