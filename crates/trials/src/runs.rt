//! The runs of a case.
use crate::case::Case;
use crate::desk::{Run, Told, printed, tell};
use crate::show::{put_row, put_told};
use crate::text::{bytes_of, number};
use sched_base::NoMemory;
use std::alloc::Global;

/// Whether what `check` printed is the verdict and the count that the run did.
fn agrees(solved: &[u8], checked: &[u8]) -> bool {
    let Some(told) = checked.strip_prefix(b"accepted ") else {
        return false;
    };
    let Some(told) = told.strip_suffix(b"end\n") else {
        return false;
    };
    solved.starts_with(told)
}

/// Whether `check` accepts the log of a run with the same verdict and count.
fn is_checked(alloc: Global, asked: &Run<'_>, told: &Told) -> Result<bool, NoMemory> {
    let checked = tell(
        alloc,
        &Run {
            words: "check m l",
            log: told.log.as_slice(),
            fails: "",
            ..*asked
        },
    )?;
    Ok(checked.status == 0 && agrees(told.out.as_slice(), checked.out.as_slice()))
}

fn put_checked(
    alloc: Global,
    asked: &Run<'_>,
    told: &Told,
    out: &mut String,
) -> Result<(), NoMemory> {
    if is_checked(alloc, asked, told)? {
        out.push_str("checked\n")?;
    } else {
        out.push_str("check finds something else\n")?;
    }
    Ok(())
}

fn put_again(
    alloc: Global,
    asked: &Run<'_>,
    told: &Told,
    most: usize,
    out: &mut String,
) -> Result<(), NoMemory> {
    let again = tell(alloc, &Run { most, ..*asked })?;
    if again.is_same(told) {
        out.push_str("again\n")?;
    } else {
        out.push_str("not again\n")?;
    }
    Ok(())
}

/// Puts what comes of a run more for each number of bytes.
fn put_agains(
    alloc: Global,
    case: &Case<'_>,
    asked: &Run<'_>,
    told: &Told,
    out: &mut String,
) -> Result<(), NoMemory> {
    for most in case.calls.again.split(' ') {
        let most = number(most) as usize;
        let most = if most == 0 { usize::MAX } else { most };
        put_again(alloc, asked, told, most, out)?;
    }
    Ok(())
}

/// Puts what the run left behind, and what comes of further runs.
fn put_run(
    alloc: Global,
    case: &Case<'_>,
    asked: &Run<'_>,
    told: &Told,
    out: &mut String,
) -> Result<(), NoMemory> {
    put_told(out, case, told)?;
    if case.parts.check == "on" {
        put_checked(alloc, asked, told, out)?;
    }
    if case.calls.again.is_empty() {
        return Ok(());
    }
    put_agains(alloc, case, asked, told, out)
}

fn run_once(
    alloc: Global,
    case: &Case<'_>,
    asked: &Run<'_>,
    out: &mut String,
) -> Result<(), NoMemory> {
    let told = tell(alloc, asked)?;
    put_run(alloc, case, asked, &told, out)
}

fn run_failing(
    alloc: Global,
    case: &Case<'_>,
    asked: &Run<'_>,
    call: u64,
    out: &mut String,
) -> Result<(), NoMemory> {
    let fails = format!(in alloc; "{call}")?;
    write!(out, "call {call}: ")?;
    run_once(
        alloc,
        case,
        &Run {
            fails: fails.as_str(),
            ..*asked
        },
        out,
    )
}

fn run_each(
    alloc: Global,
    case: &Case<'_>,
    asked: &Run<'_>,
    out: &mut String,
) -> Result<(), NoMemory> {
    put_row(out, case)?;
    if case.calls.each.is_empty() {
        return run_once(alloc, case, asked, out);
    }
    out.push_str("each\n")?;
    for call in 0..number(case.calls.each) {
        run_failing(alloc, case, asked, call, out)?;
    }
    Ok(())
}

fn run_on(
    alloc: Global,
    case: &Case<'_>,
    model: &[u8],
    log: &[u8],
    out: &mut String,
) -> Result<(), NoMemory> {
    let asked = Run {
        fails: case.calls.fails,
        ..Run::calm(case.calls.words, model, log)
    };
    run_each(alloc, case, &asked, out)
}

/// The model, or what words print of it.
fn model_of(alloc: Global, case: &Case<'_>) -> Result<Vec<u8>, NoMemory> {
    let given = bytes_of(alloc, case.files.model)?;
    if case.files.through.is_empty() {
        return Ok(given);
    }
    printed(alloc, &Run::calm(case.files.through, given.as_slice(), b""))
}

/// The log or schedule, or what words print of the model and of it.
fn log_of(alloc: Global, case: &Case<'_>, model: &[u8]) -> Result<Vec<u8>, NoMemory> {
    let given = bytes_of(alloc, case.files.log)?;
    if case.files.plan.is_empty() {
        return Ok(given);
    }
    printed(alloc, &Run::calm(case.files.plan, model, given.as_slice()))
}

/// Makes the runs of a case.
pub fn run_case(alloc: Global, case: &Case<'_>, out: &mut String) -> Result<(), NoMemory> {
    let model = model_of(alloc, case)?;
    let log = log_of(alloc, case, model.as_slice())?;
    run_on(alloc, case, model.as_slice(), log.as_slice(), out)
}
