//! Lines of words and numbers: how each is spelled, and how it is read back.
#![tactic(auto)]

ghost use Rattle.std.specs.Prelude.{◌≡◌, ◌++◌, OnOk};
ghost use Rattle.std.specs.Fmt.{signed_decimal};

mod number;
mod words;

use itoa::Buffer;
pub use number::{read_count, read_number};
use sched_base::NoMemory;
pub use words::Words;

/// Puts the decimal spelling of a number behind the bytes.
pub fn push_number(bytes: &mut Vec<u8>, n: i64) -> Result<(), NoMemory>
    ensures { OnOk result (bytes.new.items ≡ bytes.old.items ++ signed_decimal n) }
{
    let mut buffer = Buffer::new();
    bytes.extend_from_slice(buffer.format(n).as_bytes())?;
    Ok(())
}
