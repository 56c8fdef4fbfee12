ghost use Rattle.std.specs.Prelude.{◌≡◌};
ghost use Rattle.given_files.specs.Files.{WithinModel};
ghost use Rattle.last_plan.specs.Runs.{PlanPromise, WithinLog, ending_of};
ghost use Rattle.last_plan.specs.Texts.{plan_text};
ghost use Rattle.last_plan.specs.code.Tries.{OnlyReplays, PlansFile, PrintsText, TriesPlan};

use crate::ended::Ended;
use crate::plans::{Plan, plan_of};
use crate::report::end_stopped;
use crate::stop::PlanStop;
use crate::tally::Tally;
use crate::texts::count_bytes;
use given_files::read_file;
use logtext::LogExtra;
use replay::replay_front;
use sched_base::{Desk, Inlet, Port};
use sched_model::{Answer, Model};
use sched_text::write_answer;
use std::alloc::Global;

/// What the log that a file holds shows, whole or cut.
#[tactic(auto, using(crate::proofs::Within::log_unopened, crate::proofs::Within::log_opened, crate::proofs::Within::log_within))]
fn plan_file<D: Desk>(
    alloc: Global,
    desk: &mut D,
    model: &Model,
    log: &str,
) -> Result<Plan, PlanStop>
    ensures only { OnlyReplays (D.state desk.old) (D.state desk.new) }
    ensures within { WithinLog log.now (D.state desk.old) (D.state desk.new) }
    ensures plans { PlansFile model.now log.now result (D.state desk.old) (D.state desk.new) }
{
    desk.open_in(Inlet::Log, log)?;
    let mut tally = Tally::new(alloc, model)?;
    let kernel = replay_front::<LogExtra, Tally<'_>, D>(alloc, model, desk, &mut tally)?;
    Ok(plan_of(kernel, tally))
}

/// Prints the schedule of a plan, or its counts.
fn print_plan<D: Desk>(
    alloc: Global,
    desk: &mut D,
    model: &Model,
    is_count: bool,
    plan: &Plan,
) -> Result<(), PlanStop>
    ensures { PrintsText (plan_text is_count model.now plan.now) result (D.state desk.old) (D.state desk.new) }
{
    if !is_count {
        write_answer(model, &plan.solved, desk)?;
        return Ok(());
    }
    let text = count_bytes(alloc, model, plan)?;
    desk.write(Port::Out, text.as_slice())?;
    Ok(())
}

/// How a run ends whose log shows this answer.
fn ending(answer: &Answer) -> Ended
    ensures { result ≡ ending_of answer.now }
{
    match answer {
        Answer::Optimal(_, _) => Ended::Done,
        Answer::Feasible(_) => Ended::Done,
        Answer::Infeasible => Ended::Infeasible,
        Answer::Unfinished(Some(_)) => Ended::Done,
        Answer::Unfinished(None) => Ended::NoSchedule,
    }
}

/// Reads the model and the log that two files hold, and prints what the log shows.
fn tell_plan<D: Desk>(
    alloc: Global,
    desk: &mut D,
    is_count: bool,
    name: &str,
    log: &str,
) -> Result<Ended, PlanStop>
    ensures model { WithinModel name.now (D.state desk.old) (D.state desk.new) }
    ensures log { WithinLog log.now (D.state desk.old) (D.state desk.new) }
    ensures tries { TriesPlan is_count name.now log.now result (D.state desk.old) (D.state desk.new) }
{
    let model = read_file(alloc, desk, name)?;
    let plan = match plan_file(alloc, desk, &model, log) {
        Ok(plan) => plan,
        Err(stop) => {
            drop(model);
            return Err(stop);
        }
    };
    let printed = print_plan(alloc, desk, &model, is_count, &plan);
    let ended = ending(&plan.solved.answer);
    drop((model, plan));
    match printed {
        Ok(()) => Ok(ended),
        Err(stop) => Err(stop),
    }
}

/// Tells the schedule of the last solution in a log, or counts of the log.
pub fn run_plan<D: Desk>(
    alloc: Global,
    desk: &mut D,
    is_count: bool,
    model: &str,
    log: &str,
) -> Ended
    ensures { PlanPromise is_count model.now log.now result (D.state desk.old) (D.state desk.new) }
{
    match tell_plan(alloc, desk, is_count, model, log) {
        Ok(ended) => ended,
        Err(stop) => end_stopped(alloc, desk, stop),
    }
}
