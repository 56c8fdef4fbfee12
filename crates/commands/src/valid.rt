ghost use Rattle.std.specs.Prelude.{◌≡◌, ◌++◌, OnOk, IfOk, option_map};
ghost use Rattle.sched_model.specs.Rank.{unranked_in};
ghost use Rattle.commands.specs.VerifyText.{value_line, valid_text};

use sched_base::NoMemory;
use sched_model::Model;
use sched_text::push_values;
use std::alloc::Global;

/// The line of the values of the criteria, where there is one.
fn push_value(bytes: &mut Vec<u8>, model: &Model, value: Option<i64>) -> Result<(), NoMemory>
    ensures { OnOk result (bytes.new.items ≡ bytes.old.items ++ value_line (option_map (unranked_in model.now) value)) }
{
    let Some(v) = value else {
        return Ok(());
    };
    bytes.extend_from_slice(b"value ")?;
    push_values(bytes, model, v)?;
    bytes.extend_from_slice(b"\n")?;
    Ok(())
}

/// The text of a schedule of this model that is a solution, where the objective's expression, if
/// there is one, has this value.
pub fn verify_bytes(alloc: Global, model: &Model, value: Option<i64>) -> Result<Vec<u8>, NoMemory>
    ensures { IfOk result (λ v. v.items ≡ valid_text (option_map (unranked_in model.now) value)) }
{
    let mut bytes = Vec::new(alloc);
    bytes.extend_from_slice(b"valid\n")?;
    push_value(&mut bytes, model, value)?;
    bytes.extend_from_slice(b"end\n")?;
    Ok(bytes)
}
