//! Why a text or a schedule is refused.
ghost use Rattle.std.specs.Prelude.{◌≡◌, Err, IfOk, map, string_bytes};
ghost use Rattle.given_files.specs.Told.{Reports, memory_line};
ghost use Rattle.reasons.specs.Runs.{Runs};
ghost use Rattle.reasons.specs.Told.{usage_line};
ghost use Rattle.reasons.specs.declared.ended.Ended.TheVariants as end;

use real_desk::words::WordsFault;
use reasons::Ended;
use sched_base::Desk;
use std::alloc::Global;

pub fn run<D: Desk>(alloc: Global, words: Result<Vec<String>, WordsFault>, desk: &mut D) -> Ended
    ensures words { IfOk words (λ ws. Runs (map string_bytes ws.items) result (D.state desk.old) (D.state desk.new)) }
    ensures usage { words ≡ Err WordsFault.NotUtf8 → (result ≡ end.Usage) × Reports usage_line (D.state desk.old) (D.state desk.new) }
    ensures no_memory { words ≡ Err WordsFault.NoMemory → (result ≡ end.NoMemory) × Reports memory_line (D.state desk.old) (D.state desk.new) }
{
    reasons::run(alloc, words, desk)
}
