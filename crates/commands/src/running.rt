ghost use Rattle.std.specs.Prelude.{◌≡◌, Err, IfOk, map, string_bytes};
ghost use Rattle.given_files.specs.Told.{Reports, memory_line};
ghost use Rattle.commands.specs.Runs.{Runs, RunsWithin};
ghost use Rattle.commands.specs.Told.{usage_line};
ghost use Rattle.commands.specs.declared.ended.Ended.TheVariants as end;

use crate::bounding::run_bound;
use crate::checking::run_check;
use crate::ended::Ended;
use crate::generating::run_gen;
use crate::report::end_stopped;
use crate::showing::run_show;
use crate::solving::run_solve;
use crate::stop::RunStop;
use crate::trying::run_trial;
use crate::using::run_core;
use crate::verifying::run_verify;
use command_line::{Command, WordsFault, read_command};
use given_files::{GivenStop as Given, report};
use sched_base::Desk;
use std::alloc::Global;

fn end_usage<D: Desk>(desk: &mut D) -> Ended
    ensures ended { result ≡ end.Usage }
    ensures told { Reports usage_line (D.state desk.old) (D.state desk.new) }
{
    report(desk, b"usage: schedtool COMMAND ARGUMENTS\n");
    Ended::Usage
}

fn run_words<D: Desk>(alloc: Global, words: &[String], desk: &mut D) -> Ended
    ensures within { RunsWithin (map string_bytes words.now) (D.state desk.old) (D.state desk.new) }
    ensures runs { Runs (map string_bytes words.now) result (D.state desk.old) (D.state desk.new) }
{
    match read_command(alloc, words) {
        Ok(
            Command::Solve {
                model,
                log,
                nodes,
                restarts,
            },
        ) => run_solve(alloc, desk, model, log, nodes, restarts),
        Ok(Command::Check { model, log }) => run_check(alloc, desk, model, log),
        Ok(Command::Verify { model, schedule }) => run_verify(alloc, desk, model, schedule),
        Ok(Command::Show { model }) => run_show(alloc, desk, model),
        Ok(Command::Gen { shop }) => run_gen(alloc, desk, shop),
        Ok(
            Command::Trial {
                shop,
                log,
                nodes,
                restarts,
            },
        ) => run_trial(alloc, desk, shop, log, nodes, restarts),
        Ok(Command::Bound { model, log }) => run_bound(alloc, desk, model, log),
        Ok(Command::Core { model, log }) => run_core(alloc, desk, model, log),
        Err(WordsFault::Usage) => end_usage(desk),
        Err(WordsFault::NoMemory) => end_stopped(alloc, desk, RunStop::Given(Given::NoMemory)),
    }
}

/// Carries out the command that the words are, over a desk. Where there are no words, since one of
/// them isn't UTF-8 or memory was refused for them, it only says so.
pub fn run<D: Desk>(alloc: Global, words: Result<Vec<String>, WordsFault>, desk: &mut D) -> Ended
    ensures words { IfOk words (λ ws. Runs (map string_bytes ws.items) result (D.state desk.old) (D.state desk.new)) }
    ensures within { IfOk words (λ ws. RunsWithin (map string_bytes ws.items) (D.state desk.old) (D.state desk.new)) }
    ensures usage { words ≡ Err WordsFault.Usage → (result ≡ end.Usage) × Reports usage_line (D.state desk.old) (D.state desk.new) }
    ensures no_memory { words ≡ Err WordsFault.NoMemory → (result ≡ end.NoMemory) × Reports memory_line (D.state desk.old) (D.state desk.new) }
{
    match words {
        Ok(words) => run_words(alloc, words.as_slice(), desk),
        Err(WordsFault::Usage) => end_usage(desk),
        Err(WordsFault::NoMemory) => end_stopped(alloc, desk, RunStop::Given(Given::NoMemory)),
    }
}
