ghost use Rattle.std.specs.Prelude.{◌≡◌, ◌++◌, flat_map, OnOk, IfOk};
ghost use Rattle.sched_text.specs.Answers.{nodes_line};
ghost use Rattle.log_reports.specs.Texts.{bound_line, best_line, bound_text, count_line, constraint_line, core_text};

use bound_report::Bounded;
use given_files::push_told;
use sched_base::{Con, List, NoMemory};
use sched_model::Model;
use sched_text::push_values;
use std::alloc::Global;

fn push_bound(bytes: &mut Vec<u8>, model: &Model, bound: Option<i64>) -> Result<(), NoMemory>
    ensures { OnOk result (bytes.new.items ≡ bytes.old.items ++ bound_line model.now bound) }
{
    let Some(v) = bound else {
        bytes.extend_from_slice(b"bound none\n")?;
        return Ok(());
    };
    bytes.extend_from_slice(b"bound ")?;
    push_values(bytes, model, v)?;
    bytes.extend_from_slice(b"\n")?;
    Ok(())
}

fn push_best(bytes: &mut Vec<u8>, model: &Model, best: Option<i64>) -> Result<(), NoMemory>
    ensures { OnOk result (bytes.new.items ≡ bytes.old.items ++ best_line model.now best) }
{
    let Some(v) = best else {
        bytes.extend_from_slice(b"best none\n")?;
        return Ok(());
    };
    bytes.extend_from_slice(b"best ")?;
    push_values(bytes, model, v)?;
    bytes.extend_from_slice(b"\n")?;
    Ok(())
}

fn push_nodes(bytes: &mut Vec<u8>, nodes: u64) -> Result<(), NoMemory>
    ensures { OnOk result (bytes.new.items ≡ bytes.old.items ++ nodes_line nodes) }
{
    push_told(bytes, b"nodes ", nodes)?;
    bytes.extend_from_slice(b"\n")?;
    Ok(())
}

/// The text of what a log of this model shows of the best value.
pub fn bound_bytes(alloc: Global, model: &Model, b: Bounded) -> Result<Vec<u8>, NoMemory>
    ensures { IfOk result (λ v. v.items ≡ bound_text model.now b) }
{
    let mut bytes = Vec::new(alloc);
    push_bound(&mut bytes, model, b.bound)?;
    push_best(&mut bytes, model, b.best)?;
    push_nodes(&mut bytes, b.nodes)?;
    bytes.extend_from_slice(b"end\n")?;
    Ok(bytes)
}

fn push_constraint(bytes: &mut Vec<u8>, c: Con) -> Result<(), NoMemory>
    ensures { OnOk result (bytes.new.items ≡ bytes.old.items ++ constraint_line c) }
{
    push_told(bytes, b"constraint ", u64::from(c.0))?;
    bytes.extend_from_slice(b"\n")?;
    Ok(())
}

fn push_constraints(bytes: &mut Vec<u8>, constraints: &[Con]) -> Result<(), NoMemory>
    ensures { OnOk result (bytes.new.items ≡ bytes.old.items ++ flat_map constraint_line constraints.now) }
{
    for c in constraints {
        push_constraint(bytes, *c)?;
    }
    Ok(())
}

fn push_count(bytes: &mut Vec<u8>, count: u64) -> Result<(), NoMemory>
    ensures { OnOk result (bytes.new.items ≡ bytes.old.items ++ count_line count) }
{
    push_told(bytes, b"core ", count)?;
    bytes.extend_from_slice(b"\n")?;
    Ok(())
}

/// The text of the constraints that a log uses, if it shows that there is no solution.
pub fn core_bytes(alloc: Global, core: &Option<List<Con>>) -> Result<Vec<u8>, NoMemory>
    ensures { IfOk result (λ v. v.items ≡ core_text core.now) }
{
    let mut bytes = Vec::new(alloc);
    let Some(constraints) = core else {
        bytes.extend_from_slice(b"core none\nend\n")?;
        return Ok(bytes);
    };
    push_count(&mut bytes, constraints.len() as u64)?;
    push_constraints(&mut bytes, constraints.as_slice())?;
    bytes.extend_from_slice(b"end\n")?;
    Ok(bytes)
}
