//! The commands of the program.
ghost use Rattle.std.specs.Prelude.{◌≡◌, Err, IfOk, map, string_bytes};
ghost use Rattle.given_files.specs.Told.{Reports, memory_line};
ghost use Rattle.commands.specs.Runs.{Runs, RunsWithin};
ghost use Rattle.commands.specs.Told.{usage_line};
ghost use Rattle.commands.specs.declared.ended.Ended.TheVariants as end;
ghost use Rattle.commands.specs.Ended.{status_of};
ghost use Rattle.commands.specs.AnswersVerify.{AnswersVerify};
ghost use Rattle.commands.specs.Complete.{RunsAreComplete};

use command_line::WordsFault;
use commands::Ended;
use sched_base::Desk;
use std::alloc::Global;

pub fn run<D: Desk>(alloc: Global, words: Result<Vec<String>, WordsFault>, desk: &mut D) -> Ended
    ensures words { IfOk words (λ ws. Runs (map string_bytes ws.items) result (D.state desk.old) (D.state desk.new)) }
    ensures within { IfOk words (λ ws. RunsWithin (map string_bytes ws.items) (D.state desk.old) (D.state desk.new)) }
    ensures usage { words ≡ Err WordsFault.Usage → (result ≡ end.Usage) × Reports usage_line (D.state desk.old) (D.state desk.new) }
    ensures no_memory { words ≡ Err WordsFault.NoMemory → (result ≡ end.NoMemory) × Reports memory_line (D.state desk.old) (D.state desk.new) }
{
    commands::run(alloc, words, desk)
}

pub fn status(ended: Ended) -> u8
    ensures { result ≡ status_of ended }
{
    ended.status()
}

pub fn answer_verifies()
    ensures { AnswersVerify }
{
    commands::answer_verifies();
}

pub fn runs_are_complete()
    ensures { RunsAreComplete }
{
    commands::runs_are_complete();
}
