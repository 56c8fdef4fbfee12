ghost use Rattle.std.specs.Prelude.{Some};
ghost use Rattle.command_line.specs.Commands.{Trial};
ghost use Rattle.command_line.specs.code.Found.{IsLimit, IsShop};
ghost use Rattle.restart_rules.specs.Restarts.{limits_of};
ghost use Rattle.commands.specs.Runs.{RunPromise, generated};
ghost use Rattle.commands.specs.code.Tries.{TriesSolve};

use crate::ended::Ended;
use crate::generating::generated_model;
use crate::report::end_stopped;
use crate::solving::{ending, search_logged};
use crate::stop::RunStop;
use command_line::Shop;
use cpo_elab::answer_is_determined;
use generated_models::generated_texts_deserve;
use given_files::GivenStop as Given;
use sched_base::Desk;
use sched_text::write_summary;
use std::alloc::Global;

/// Solves the model of a job shop with a log of the search, and then prints the answer without its
/// schedule.
fn solve_shop<D: Desk>(
    alloc: Global,
    desk: &mut D,
    shop: Shop,
    log: &str,
    nodes: u32,
    restarts: u32,
) -> Result<Ended, RunStop>
    requires sized { IsShop shop }
    requires limited { IsLimit nodes }
    ensures { TriesSolve (generated shop) log.now (limits_of nodes restarts) result (D.state desk.old) (D.state desk.new) }
{
    let model = generated_model(alloc, shop)?;
    let solved = match search_logged(alloc, desk, &model, log, nodes, restarts) {
        Ok(solved) => solved,
        Err(stop) => {
            drop(model);
            return Err(stop);
        }
    };
    let written = write_summary(&model, &solved, desk);
    let ended = ending(&solved.answer);
    drop((model, solved));
    match written {
        Ok(()) => Ok(ended),
        Err(_) => Err(RunStop::Given(Given::Fault)),
    }
}

/// Carries out `trial`, with at most so many nodes and so many restarts.
pub fn run_trial<D: Desk>(
    alloc: Global,
    desk: &mut D,
    shop: Shop,
    log: &str,
    nodes: u32,
    restarts: u32,
) -> Ended
    requires sized { IsShop shop }
    requires limited { IsLimit nodes }
    ensures { RunPromise (Some (Trial shop log.now nodes restarts)) result (D.state desk.old) (D.state desk.new) }
{
    // The text deserves a model, and nothing else, so it isn't refused.
    generated_texts_deserve();
    answer_is_determined();
    match solve_shop(alloc, desk, shop, log, nodes, restarts) {
        Ok(ended) => ended,
        Err(stop) => end_stopped(alloc, desk, stop),
    }
}
