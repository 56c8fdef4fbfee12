//! The words of the program.
ghost use Rattle.std.specs.Prelude.{◌≡◌, IfOk, None, Some, Err, map, string_bytes};
ghost use Rattle.command_line.specs.Commands.{command_of};
ghost use Rattle.command_line.specs.code.Found.{HasLimits, seen_of};

use command_line::{Command, WordsFault};
use std::alloc::Global;

pub fn read_command<'a>(alloc: Global, words: &'a [String]) -> Result<Command<'a>, WordsFault>
    ensures ok { IfOk result (λ c. command_of (map string_bytes words.entry.now) ≡ Some (seen_of c)) }
    ensures within { IfOk result (λ c. HasLimits (seen_of c)) }
    ensures usage { result ≡ Err WordsFault.Usage → command_of (map string_bytes words.entry.now) ≡ None }
{
    command_line::read_command(alloc, words)
}
