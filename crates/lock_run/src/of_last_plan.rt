//! What a log shows of a search, whole or cut.
ghost use Rattle.std.specs.Prelude.{◌≡◌, Err, IfOk, map, string_bytes};
ghost use Rattle.given_files.specs.Told.{Reports, memory_line};
ghost use Rattle.last_plan.specs.Runs.{Runs};
ghost use Rattle.last_plan.specs.Told.{usage_line};
ghost use Rattle.last_plan.specs.declared.ended.Ended.TheVariants as end;

use last_plan::Ended;
use real_desk::words::WordsFault;
use sched_base::Desk;
use std::alloc::Global;

pub fn run<D: Desk>(alloc: Global, words: Result<Vec<String>, WordsFault>, desk: &mut D) -> Ended
    ensures words { IfOk words (λ ws. Runs (map string_bytes ws.items) result (D.state desk.old) (D.state desk.new)) }
    ensures usage { words ≡ Err WordsFault.NotUtf8 → (result ≡ end.Usage) × Reports usage_line (D.state desk.old) (D.state desk.new) }
    ensures no_memory { words ≡ Err WordsFault.NoMemory → (result ≡ end.NoMemory) × Reports memory_line (D.state desk.old) (D.state desk.new) }
{
    last_plan::run(alloc, words, desk)
}
