//! Whether the front of a statement can be finished: it is tried in some thousands of ways.
ghost use Rattle.std.specs.Prelude.{◌≡◌, ◌++◌, true, IfOk};
ghost use Rattle.reasons.specs.Explained.{CanBegin, IsOneStatement, is_one};

use cpo_text::{Form, ReadFault, Reading, read_text};
use sched_base::NoMemory;
use std::alloc::Global;

/// What is put behind the front, before the bracket that was opened last is closed.
const INNER: [&[u8]; 40] = [
    b"",
    b"1",
    b"a",
    b",1",
    b",a",
    b"=intervalVar()",
    b",1,1",
    b",1,1,1",
    b",1,1,1,1",
    b"[a]",
    b",[a]",
    b"a,[a]",
    b"a,a",
    b"a,a,a",
    b"a,1",
    b"a,1,1",
    b",a,1",
    b",a,a",
    b",a,1,1",
    b",a,1,1,1",
    b"1,1",
    b"1,1,1",
    b"=1",
    b"..1",
    b"[1]",
    b"[1,1]",
    b"[[1]]",
    b"[[1,1]]",
    b",[1,1]",
    b"=[1]",
    b",types=[1]",
    b"optional",
    b"()",
    b"(a)",
    b"(a,1)",
    b"(a,a)",
    b"(a,[a])",
    b"([[1]])",
    b"([[1,1]])",
    b"(a,a,a)",
];

/// What is put behind that bracket, before the others are closed.
const OUTER: [&[u8]; 12] = [
    b"",
    b",1",
    b",a",
    b",1,1",
    b",[a]",
    b",1,1,1",
    b",1,1,1,1",
    b",a,1,1",
    b"<=1",
    b",a,a",
    b",types=[1]",
    b"*1",
];

/// What is put behind all brackets.
const LAST: [&[u8]; 5] = [b"", b"<=1", b"=intervalVar()", b"(a,1)<=1", b"(a,[a])"];

fn is_one(statements: &[Reading]) -> bool
    ensures { result ≡ is_one statements.now }
{
    match statements {
        [one] => matches!(one.form, Form::Tree(_)),
        _ => false,
    }
}

/// Whether the text is one statement.
fn is_statement(alloc: Global, text: &[u8]) -> Result<bool, NoMemory>
    ensures { IfOk result (λ b. b ≡ true → IsOneStatement text.now) }
{
    match read_text(alloc, text) {
        Ok(tree) => Ok(is_one(tree.statements.as_slice())),
        Err(ReadFault::Refused(_)) => Ok(false),
        Err(ReadFault::NoMemory) => Err(NoMemory),
    }
}

/// The brackets that close those which are open, the one opened last first.
fn closing(alloc: Global, front: &[u8]) -> Result<Vec<u8>, NoMemory> {
    let mut open = Vec::new(alloc);
    for b in front {
        match b {
            b'(' => open.push(b')')?,
            b'[' => open.push(b']')?,
            b')' | b']' => {
                let _ = open.pop();
            }
            _ => {}
        }
    }
    let mut closing = Vec::new(alloc);
    while let Some(b) = open.pop() {
        closing.push(b)?;
    }
    Ok(closing)
}

/// What is put behind a front.
fn ending(
    alloc: Global,
    closing: &[u8],
    inner: &[u8],
    outer: &[u8],
    last: &[u8],
) -> Result<Vec<u8>, NoMemory> {
    let mut more = Vec::new(alloc);
    more.extend_from_slice(b" ")?;
    more.extend_from_slice(inner)?;
    if let Some((first, others)) = closing.split_first() {
        more.push(*first)?;
        more.extend_from_slice(outer)?;
        more.extend_from_slice(others)?;
    }
    more.extend_from_slice(last)?;
    more.extend_from_slice(b";")?;
    Ok(more)
}

/// Whether the front is finished by these bytes.
fn is_finished(alloc: Global, front: &[u8], more: &[u8]) -> Result<bool, NoMemory>
    ensures { IfOk result (λ b. b ≡ true → CanBegin front.now) }
{
    let mut text = Vec::new(alloc);
    text.extend_from_slice(front)?;
    text.extend_from_slice(more)?;
    is_statement(alloc, text.as_slice())
}

/// Whether one of the ways with these pieces finishes the front.
fn finishes_with(
    alloc: Global,
    front: &[u8],
    closing: &[u8],
    inner: &[u8],
    last: &[u8],
) -> Result<bool, NoMemory>
    ensures { IfOk result (λ b. b ≡ true → CanBegin front.now) }
{
    for outer in OUTER {
        let more = ending(alloc, closing, inner, outer, last)?;
        if is_finished(alloc, front, more.as_slice())? {
            return Ok(true);
        }
        if closing.is_empty() {
            return Ok(false);
        }
    }
    Ok(false)
}

fn finishes_by(alloc: Global, front: &[u8], closing: &[u8], last: &[u8]) -> Result<bool, NoMemory>
    ensures { IfOk result (λ b. b ≡ true → CanBegin front.now) }
{
    for inner in INNER {
        if finishes_with(alloc, front, closing, inner, last)? {
            return Ok(true);
        }
    }
    Ok(false)
}

/// Whether a way is found to finish the front of a statement.
pub fn can_begin(alloc: Global, front: &[u8]) -> Result<bool, NoMemory>
    ensures { IfOk result (λ b. b ≡ true → CanBegin front.now) }
{
    let closing = closing(alloc, front)?;
    for last in LAST {
        if finishes_by(alloc, front, closing.as_slice(), last)? {
            return Ok(true);
        }
    }
    Ok(false)
}
