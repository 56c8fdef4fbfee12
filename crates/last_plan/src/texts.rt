ghost use Rattle.std.specs.Prelude.{◌≡◌, ◌++◌, ◌∷◌, [], codes, flat_map, OnOk, IfOk};
ghost use Rattle.std.specs.Fmt.{decimal};
ghost use Rattle.textline.specs.Lines.{line};
ghost use Rattle.last_plan.specs.Texts.{count_text, kind_line, found_line, lines_lines, value_word};

use crate::counts::{Counts, FoundAt};
use crate::plans::Plan;
use given_files::push_told;
use itoa::Buffer;
use sched_base::NoMemory;
use sched_model::Model;
use sched_text::push_values;
use std::alloc::Global;

/// Where a line begins, and the end of what is told of it.
pub fn push_place(bytes: &mut Vec<u8>, at: u128) -> Result<(), NoMemory>
    ensures { OnOk result (bytes.new.items ≡ bytes.old.items ++ (codes " at " ++ decimal at ++ 10 ∷ [])) }
{
    let mut buffer = Buffer::new();
    bytes.extend_from_slice(b" at ")?;
    bytes.extend_from_slice(buffer.format(at).as_bytes())?;
    bytes.extend_from_slice(b"\n")?;
    Ok(())
}

/// A count, behind what it is of.
fn push_line(bytes: &mut Vec<u8>, before: &[u8], n: u64) -> Result<(), NoMemory>
    ensures { OnOk result (bytes.new.items ≡ bytes.old.items ++ (before.now ++ decimal n ++ 10 ∷ [])) }
{
    push_told(bytes, before, n)?;
    bytes.extend_from_slice(b"\n")?;
    Ok(())
}

fn push_kinds(bytes: &mut Vec<u8>, counts: &Counts) -> Result<(), NoMemory>
    ensures { OnOk result (bytes.new.items ≡ bytes.old.items ++ lines_lines counts.now) }
{
    push_line(bytes, b"lines d ", counts.derived)?;
    push_line(bytes, b"lines f ", counts.failed)?;
    push_line(bytes, b"lines s ", counts.split)?;
    push_line(bytes, b"lines v ", counts.solved)?;
    push_line(bytes, b"lines restart ", counts.restarted)?;
    Ok(())
}

/// The value of a solution, told by those of its criteria.
fn push_value(bytes: &mut Vec<u8>, model: &Model, value: Option<i64>) -> Result<(), NoMemory>
    ensures { OnOk result (bytes.new.items ≡ bytes.old.items ++ value_word model.now value) }
{
    let Some(v) = value else {
        bytes.extend_from_slice(b"none")?;
        return Ok(());
    };
    push_values(bytes, model, v)
}

fn push_found(bytes: &mut Vec<u8>, model: &Model, found: FoundAt) -> Result<(), NoMemory>
    ensures { OnOk result (bytes.new.items ≡ bytes.old.items ++ found_line model.now found) }
{
    push_told(bytes, b"found ", found.nodes)?;
    bytes.extend_from_slice(b" ")?;
    push_value(bytes, model, found.value)?;
    bytes.extend_from_slice(b"\n")?;
    Ok(())
}

fn push_all_found(bytes: &mut Vec<u8>, model: &Model, found: &[FoundAt]) -> Result<(), NoMemory>
    ensures { OnOk result (bytes.new.items ≡ bytes.old.items ++ flat_map (found_line model.now) found.now) }
{
    for one in found {
        push_found(bytes, model, *one)?;
    }
    Ok(())
}

/// The text of the counts.
pub fn count_bytes(alloc: Global, model: &Model, plan: &Plan) -> Result<Vec<u8>, NoMemory>
    ensures { IfOk result (λ v. v.items ≡ count_text model.now plan.now) }
{
    let mut bytes = Vec::new(alloc);
    push_line(&mut bytes, b"nodes ", plan.solved.nodes)?;
    push_line(&mut bytes, b"depth ", plan.counts.depth)?;
    push_kinds(&mut bytes, &plan.counts)?;
    push_all_found(&mut bytes, model, plan.counts.found.as_slice())?;
    bytes.extend_from_slice(b"end\n")?;
    Ok(bytes)
}
