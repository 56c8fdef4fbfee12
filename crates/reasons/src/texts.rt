ghost use Rattle.std.specs.Prelude.{◌≡◌, ◌++◌, ◌∷◌, [], OnOk, IfOk};
ghost use Rattle.std.specs.Fmt.{decimal};
ghost use Rattle.given_files.specs.Told.{refusal_line, unfit_line};
ghost use Rattle.reasons.specs.Texts.{place_line, statement_lines, word_lines, model_text, part_lines, schedule_text, right_text};

use crate::places::{behind, column_of, front, line_of, statement_text};
use crate::sought::Part;
use crate::words::Word;
use cpo_text::Refusal;
use given_files::{ScheduleRefusal, push_told};
use sched_base::NoMemory;
use std::alloc::Global;

fn push_place(bytes: &mut Vec<u8>, text: &[u8], at: usize) -> Result<(), NoMemory>
    ensures { OnOk result (bytes.new.items ≡ bytes.old.items ++ place_line text.now at) }
{
    push_told(bytes, b"line ", line_of(text, at))?;
    push_told(bytes, b" column ", column_of(text, at))?;
    bytes.extend_from_slice(b"\n")?;
    Ok(())
}

fn push_statement(bytes: &mut Vec<u8>, text: &[u8], at: usize) -> Result<(), NoMemory>
    ensures { OnOk result (bytes.new.items ≡ bytes.old.items ++ statement_lines text.now at) }
{
    push_place(bytes, text, at)?;
    bytes.extend_from_slice(statement_text(behind(text, at)))?;
    bytes.extend_from_slice(b"\n")?;
    Ok(())
}

fn push_word(
    bytes: &mut Vec<u8>,
    text: &[u8],
    at: usize,
    stuck: Option<Word>,
) -> Result<(), NoMemory>
    ensures { OnOk result (bytes.new.items ≡ bytes.old.items ++ word_lines text.now at stuck) }
{
    let Some(word) = stuck else {
        return Ok(());
    };
    let rest = behind(behind(text, at), word.from);
    bytes.extend_from_slice(b"stuck at ")?;
    bytes.extend_from_slice(front(rest, word.to.saturating_sub(word.from)))?;
    bytes.extend_from_slice(b"\n")?;
    let Some(place) = at.checked_add(word.from) else {
        return Err(NoMemory);
    };
    push_place(bytes, text, place)
}

fn push_refusal(bytes: &mut Vec<u8>, r: Refusal) -> Result<(), NoMemory>
    ensures { OnOk result (bytes.new.items ≡ bytes.old.items ++ refusal_line r) }
{
    push_told(bytes, b"model refused ", u64::from(r.number))?;
    push_told(bytes, b" statement ", u64::from(r.statement))?;
    push_told(bytes, b" at ", r.at)?;
    bytes.extend_from_slice(b"\n")?;
    Ok(())
}

/// What is told of a model that is refused. A place that isn't one of memory is taken for want of it; no
/// text is so long.
pub fn model_bytes(
    alloc: Global,
    text: &[u8],
    r: Refusal,
    stuck: Option<Word>,
) -> Result<Vec<u8>, NoMemory>
    ensures { IfOk result (λ v. v.items ≡ model_text text.now r stuck) }
{
    let Ok(at) = usize::try_from(r.at) else {
        return Err(NoMemory);
    };
    let mut bytes = Vec::new(alloc);
    push_refusal(&mut bytes, r)?;
    push_statement(&mut bytes, text, at)?;
    push_word(&mut bytes, text, at, stuck)?;
    bytes.extend_from_slice(b"end\n")?;
    Ok(bytes)
}

/// A line that ends with a number.
fn push_line(bytes: &mut Vec<u8>, before: &[u8], n: u64) -> Result<(), NoMemory>
    ensures { OnOk result (bytes.new.items ≡ bytes.old.items ++ (before.now ++ decimal n ++ 10 ∷ [])) }
{
    push_told(bytes, before, n)?;
    bytes.extend_from_slice(b"\n")?;
    Ok(())
}

fn push_unfit(bytes: &mut Vec<u8>, r: ScheduleRefusal) -> Result<(), NoMemory>
    ensures { OnOk result (bytes.new.items ≡ bytes.old.items ++ unfit_line r) }
{
    match r {
        ScheduleRefusal::TooLong => {
            bytes.extend_from_slice(b"schedule refused line 0\n")?;
            Ok(())
        }
        ScheduleRefusal::Line(k) => push_line(bytes, b"schedule refused line ", u64::from(k)),
        ScheduleRefusal::Constraint(c) => {
            push_line(bytes, b"schedule refused constraint ", u64::from(c))
        }
    }
}

fn push_part(bytes: &mut Vec<u8>, text: &[u8], part: Option<Part>) -> Result<(), NoMemory>
    ensures { OnOk result (bytes.new.items ≡ bytes.old.items ++ part_lines text.now part) }
{
    match part {
        None => Ok(()),
        Some(part) => push_statement(bytes, text, part.from),
    }
}

/// What is told of a schedule that is refused.
pub fn schedule_bytes(
    alloc: Global,
    text: &[u8],
    r: ScheduleRefusal,
    part: Option<Part>,
) -> Result<Vec<u8>, NoMemory>
    ensures { IfOk result (λ v. v.items ≡ schedule_text text.now r part) }
{
    let mut bytes = Vec::new(alloc);
    push_unfit(&mut bytes, r)?;
    push_part(&mut bytes, text, part)?;
    bytes.extend_from_slice(b"end\n")?;
    Ok(bytes)
}

/// What is told where nothing is refused.
pub fn right_bytes(alloc: Global) -> Result<Vec<u8>, NoMemory>
    ensures { IfOk result (λ v. v.items ≡ right_text) }
{
    let mut bytes = Vec::new(alloc);
    bytes.extend_from_slice(b"right\nend\n")?;
    Ok(bytes)
}
