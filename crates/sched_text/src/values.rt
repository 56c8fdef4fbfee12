//! The values of criteria, in bytes that wait to be written.
ghost use Rattle.std.specs.Prelude.{◌≡◌, ◌++◌, [], codes, OnOk, if◌then◌else◌};
ghost use Rattle.sched_text.specs.Answers.{values_word};

use sched_base::NoMemory;
use sched_model::{Model, criteria_count, unrank};
use textline::push_number;

/// A comma, unless it is the first item that follows.
fn push_comma(bytes: &mut Vec<u8>, is_first: bool) -> Result<(), NoMemory>
    ensures { OnOk result (bytes.new.items ≡ bytes.old.items ++ (if is_first then [] else codes ",")) }
{
    if is_first {
        return Ok(());
    }
    bytes.extend_from_slice(b",")?;
    Ok(())
}

/// Puts behind the bytes the values of the criteria for which a value of the objective's expression
/// stands, with commas between them.
#[tactic(auto, using(crate::specs::laws::Values::values_counted, crate::proofs::Pushed::value_more))]
pub fn push_values(bytes: &mut Vec<u8>, model: &Model, v: i64) -> Result<(), NoMemory>
    ensures { OnOk result (bytes.new.items ≡ bytes.old.items ++ values_word model.now v) }
{
    // Called for its clause alone.
    let _ = model.intervals();
    let mut is_first = true;
    for i in 0..criteria_count(model) {
        push_comma(bytes, is_first)?;
        push_number(bytes, unrank(model, v, i))?;
        is_first = false;
    }
    Ok(())
}
