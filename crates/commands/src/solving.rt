ghost use Rattle.std.specs.Prelude.{◌≡◌, true, Some};
ghost use Rattle.command_line.specs.Commands.{Solve};
ghost use Rattle.command_line.specs.code.Found.{IsLimit};
ghost use Rattle.restart_rules.specs.Restarts.{limits_of};
ghost use Rattle.commands.specs.Ended.{is_success};
ghost use Rattle.given_files.specs.Files.{WithinModel};
ghost use Rattle.commands.specs.Runs.{RunPromise, WithinFiles, ending_of, file};
ghost use Rattle.commands.specs.code.Tries.{Searches, TriesSolve};

use crate::ended::Ended;
use crate::report::end_stopped;
use crate::stop::RunStop;
use given_files::{GivenStop as Given, read_file};
use sched_base::Desk;
use sched_model::{Answer, Model, Solved};
use sched_text::write_answer;
use solver::solve;
use std::alloc::Global;

/// How a run that came to this answer ends.
pub fn ending(answer: &Answer) -> Ended
    ensures is { result ≡ ending_of answer.now }
    ensures success { is_success result ≡ true }
{
    match answer {
        Answer::Optimal(_, _) => Ended::Done,
        Answer::Feasible(_) => Ended::Done,
        Answer::Infeasible => Ended::Infeasible,
        Answer::Unfinished(_) => Ended::Unfinished,
    }
}

/// Solves the model, and writes the log of the search to a new file. It opens at most `nodes` nodes, and
/// begins anew at most `restarts` times.
pub fn search_logged<D: Desk>(
    alloc: Global,
    desk: &mut D,
    model: &Model,
    log: &str,
    nodes: u32,
    restarts: u32,
) -> Result<Solved, RunStop>
    requires { IsLimit nodes }
    ensures { Searches model.now log.now (limits_of nodes restarts) result (D.state desk.old) (D.state desk.new) }
{
    // Called for its clause alone.
    let _ = model.intervals();
    desk.create_log(log)?;
    let solved = solve(alloc, model, u64::from(nodes), restarts, desk)?;
    Ok(solved)
}

/// Solves the model that a file holds with a log of the search, and then prints the answer.
fn solve_file<D: Desk>(
    alloc: Global,
    desk: &mut D,
    name: &str,
    log: &str,
    nodes: u32,
    restarts: u32,
) -> Result<Ended, RunStop>
    requires { IsLimit nodes }
    ensures within { WithinModel name.now (D.state desk.old) (D.state desk.new) }
    ensures tries { TriesSolve (file name.now) log.now (limits_of nodes restarts) result (D.state desk.old) (D.state desk.new) }
{
    let model = read_file(alloc, desk, name)?;
    let solved = match search_logged(alloc, desk, &model, log, nodes, restarts) {
        Ok(solved) => solved,
        Err(stop) => {
            drop(model);
            return Err(stop);
        }
    };
    let written = write_answer(&model, &solved, desk);
    let ended = ending(&solved.answer);
    drop((model, solved));
    match written {
        Ok(()) => Ok(ended),
        Err(_) => Err(RunStop::Given(Given::Fault)),
    }
}

/// Carries out `solve`, with at most so many nodes and so many restarts.
pub fn run_solve<D: Desk>(
    alloc: Global,
    desk: &mut D,
    model: &str,
    log: &str,
    nodes: u32,
    restarts: u32,
) -> Ended
    requires { IsLimit nodes }
    ensures within { WithinFiles (Some (Solve model.now log.now nodes restarts)) (D.state desk.old) (D.state desk.new) }
    ensures promise { RunPromise (Some (Solve model.now log.now nodes restarts)) result (D.state desk.old) (D.state desk.new) }
{
    match solve_file(alloc, desk, model, log, nodes, restarts) {
        Ok(ended) => ended,
        Err(stop) => end_stopped(alloc, desk, stop),
    }
}
