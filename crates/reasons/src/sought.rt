ghost use Rattle.std.specs.Prelude.{◌≡◌, ◌≤◌, ◌<◌, length, take, true, IfOk, IfSome};
ghost use Rattle.reasons.specs.Explained.{FrontHas, IsStatementOf};

use crate::places::front;
use cpo_elab::read_model;
use cpo_text::{ReadFault, Reading, read_text};
use sched_base::NoMemory;
use sched_model::Model;
use std::alloc::Global;

/// From the first byte of a statement to the one behind what belongs to it.
#[derive(Clone, Copy, Debug)]
pub struct Part {
    pub from: usize,
    pub to: usize,
}

fn count_in(model: &Model) -> usize
    ensures { result ≡ length model.now.constraints }
{
    model.constraints().len()
}

/// How many constraints the model has that a text deserves.
fn constraints_in(alloc: Global, text: &[u8]) -> Result<Option<usize>, NoMemory>
    ensures { IfOk result (λ o. IfSome o (FrontHas text.now)) }
{
    match read_model(alloc, text) {
        Ok(model) => {
            let n = count_in(&model);
            drop(model);
            Ok(Some(n))
        }
        Err(ReadFault::Refused(_)) => Ok(None),
        Err(ReadFault::NoMemory) => Err(NoMemory),
    }
}

/// Where the k-th statement begins, or the end of the text.
fn begin_of(text: &[u8], statements: &[Reading], k: usize) -> usize {
    match statements.get(k) {
        Some(reading) => usize::try_from(reading.at).unwrap_or(text.len()),
        None => text.len(),
    }
}

/// The last statement in front of which there are at most `c` constraints.
fn furthest(
    alloc: Global,
    text: &[u8],
    statements: &[Reading],
    c: usize,
) -> Result<usize, NoMemory> {
    let mut low = 0;
    let mut high = statements.len();
    while high.saturating_sub(low) > 1 {
        let middle = low + (high - low) / 2;
        let at = begin_of(text, statements, middle);
        match constraints_in(alloc, front(text, at))? {
            Some(n) if n <= c => low = middle,
            _ => high = middle,
        }
    }
    Ok(low)
}

/// The part, if it is the statement that makes this constraint.
fn tested(alloc: Global, text: &[u8], part: Part, c: usize) -> Result<Option<Part>, NoMemory>
    ensures { IfOk result (λ o. IfSome o (IsStatementOf text.now c)) }
{
    let Some(before) = constraints_in(alloc, front(text, part.from))? else {
        return Ok(None);
    };
    let Some(behind) = constraints_in(alloc, front(text, part.to))? else {
        return Ok(None);
    };
    if before <= c && c < behind {
        return Ok(Some(part));
    }
    Ok(None)
}

/// The statement that makes this constraint of the model: the model of the text in front of it has at
/// most so many, and with it it has more.
pub fn statement_of(alloc: Global, text: &[u8], c: usize) -> Result<Option<Part>, NoMemory>
    ensures { IfOk result (λ o. IfSome o (IsStatementOf text.now c)) }
{
    match read_text(alloc, text) {
        Ok(tree) => {
            let k = furthest(alloc, text, tree.statements.as_slice(), c)?;
            let from = begin_of(text, tree.statements.as_slice(), k);
            let to = begin_of(text, tree.statements.as_slice(), k.saturating_add(1));
            tested(alloc, text, Part { from, to }, c)
        }
        Err(ReadFault::Refused(_)) => Ok(None),
        Err(ReadFault::NoMemory) => Err(NoMemory),
    }
}
