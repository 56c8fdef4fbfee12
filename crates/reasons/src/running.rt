ghost use Rattle.std.specs.Prelude.{◌≡◌, Err, IfOk, map, string_bytes};
ghost use Rattle.given_files.specs.Told.{Reports, memory_line};
ghost use Rattle.reasons.specs.Runs.{Runs};
ghost use Rattle.reasons.specs.Told.{usage_line};
ghost use Rattle.reasons.specs.declared.ended.Ended.TheVariants as end;

use crate::ended::Ended;
use crate::explaining::{why_model, why_schedule};
use crate::report::end_stopped;
use given_files::{GivenStop, report};
use real_desk::words::WordsFault;
use sched_base::Desk;
use std::alloc::Global;

fn end_usage<D: Desk>(desk: &mut D) -> Ended
    ensures ended { result ≡ end.Usage }
    ensures told { Reports usage_line (D.state desk.old) (D.state desk.new) }
{
    report(desk, b"usage: why MODEL [SCHEDULE]\n");
    Ended::Usage
}

fn run_words<D: Desk>(alloc: Global, words: &[String], desk: &mut D) -> Ended
    ensures { Runs (map string_bytes words.now) result (D.state desk.old) (D.state desk.new) }
{
    let Some((model, rest)) = words.split_first() else {
        return end_usage(desk);
    };
    let Some((schedule, more)) = rest.split_first() else {
        return why_model(alloc, desk, model.as_str());
    };
    if !more.is_empty() {
        return end_usage(desk);
    }
    why_schedule(alloc, desk, model.as_str(), schedule.as_str())
}

/// Tells why the model that the first word names is refused, or the schedule that the second names, over
/// a desk. Where there are no words, since one of them isn't UTF-8 or memory was refused for them, it
/// only says so.
pub fn run<D: Desk>(alloc: Global, words: Result<Vec<String>, WordsFault>, desk: &mut D) -> Ended
    ensures words { IfOk words (λ ws. Runs (map string_bytes ws.items) result (D.state desk.old) (D.state desk.new)) }
    ensures usage { words ≡ Err WordsFault.NotUtf8 → (result ≡ end.Usage) × Reports usage_line (D.state desk.old) (D.state desk.new) }
    ensures no_memory { words ≡ Err WordsFault.NoMemory → (result ≡ end.NoMemory) × Reports memory_line (D.state desk.old) (D.state desk.new) }
{
    match words {
        Ok(words) => run_words(alloc, words.as_slice(), desk),
        Err(WordsFault::NotUtf8) => end_usage(desk),
        Err(WordsFault::NoMemory) => end_stopped(alloc, desk, GivenStop::NoMemory),
    }
}
