ghost use Rattle.kernel.specs.Promises.{Means};
ghost use Rattle.given_files.specs.Files.{WithinModel};
ghost use Rattle.log_reports.specs.Reports.{WithinLog, check_report, bound_report, core_report};
ghost use Rattle.log_reports.specs.code.Tries.{JudgesFile, OnlyJudges, TellsLog, TriesReport};

use crate::stop::LogStop;
use crate::texts::{bound_bytes, core_bytes};
use bound_report::{Bounded, bound};
use checker::{Checked, check};
use conflict::core;
use given_files::{GivenStop as Given, read_file};
use sched_base::{Con, Desk, Inlet, List, Port};
use sched_model::Model;
use sched_text::write_accepted;
use std::alloc::Global;

/// Judges the log that a file holds.
#[tactic(auto, using(crate::proofs::Within::log_unopened, crate::proofs::Within::log_within))]
fn check_file<D: Desk>(
    alloc: Global,
    desk: &mut D,
    model: &Model,
    log: &str,
) -> Result<Checked, LogStop>
    ensures only { OnlyJudges (D.state desk.old) (D.state desk.new) }
    ensures within { WithinLog log.now (D.state desk.old) (D.state desk.new) }
    ensures judges { JudgesFile check_report model.now log.now result (D.state desk.old) (D.state desk.new) }
{
    desk.open_in(Inlet::Log, log)?;
    let checked = check(alloc, model, desk)?;
    Ok(checked)
}

/// What the log that a file holds shows of the best value.
#[tactic(auto, using(crate::proofs::Within::log_unopened, crate::proofs::Within::log_within))]
fn bound_file<D: Desk>(
    alloc: Global,
    desk: &mut D,
    model: &Model,
    log: &str,
) -> Result<Bounded, LogStop>
    ensures only { OnlyJudges (D.state desk.old) (D.state desk.new) }
    ensures within { WithinLog log.now (D.state desk.old) (D.state desk.new) }
    ensures judges { JudgesFile bound_report model.now log.now result (D.state desk.old) (D.state desk.new) }
{
    desk.open_in(Inlet::Log, log)?;
    let bounded = bound(alloc, model, desk)?;
    Ok(bounded)
}

/// Which constraints the log that a file holds uses.
#[tactic(auto, using(crate::proofs::Within::log_unopened, crate::proofs::Within::log_within))]
fn core_file<D: Desk>(
    alloc: Global,
    desk: &mut D,
    model: &Model,
    log: &str,
) -> Result<Option<List<Con>>, LogStop>
    ensures only { OnlyJudges (D.state desk.old) (D.state desk.new) }
    ensures within { WithinLog log.now (D.state desk.old) (D.state desk.new) }
    ensures judges { JudgesFile core_report model.now log.now result (D.state desk.old) (D.state desk.new) }
{
    desk.open_in(Inlet::Log, log)?;
    let used = core(alloc, model, desk)?;
    Ok(used)
}

/// Prints what the log that a file holds is found to be.
fn tell_check<D: Desk>(alloc: Global, desk: &mut D, model: &Model, log: &str) -> Result<(), LogStop>
    ensures within { WithinLog log.now (D.state desk.old) (D.state desk.new) }
    ensures tells { TellsLog check_report model.now log.now result (D.state desk.old) (D.state desk.new) }
{
    let checked = check_file(alloc, desk, model, log)?;
    match write_accepted(model, checked.verdict, checked.nodes, desk) {
        Ok(()) => Ok(()),
        Err(_) => Err(LogStop::Given(Given::Fault)),
    }
}

/// Prints what the log that a file holds shows of the best value.
fn tell_bound<D: Desk>(alloc: Global, desk: &mut D, model: &Model, log: &str) -> Result<(), LogStop>
    ensures within { WithinLog log.now (D.state desk.old) (D.state desk.new) }
    ensures tells { TellsLog bound_report model.now log.now result (D.state desk.old) (D.state desk.new) }
{
    let bounded = bound_file(alloc, desk, model, log)?;
    let text = bound_bytes(alloc, model, bounded)?;
    match desk.write(Port::Out, text.as_slice()) {
        Ok(()) => Ok(()),
        Err(_) => Err(LogStop::Given(Given::Fault)),
    }
}

/// Prints which constraints the log that a file holds uses.
fn tell_core<D: Desk>(alloc: Global, desk: &mut D, model: &Model, log: &str) -> Result<(), LogStop>
    ensures within { WithinLog log.now (D.state desk.old) (D.state desk.new) }
    ensures tells { TellsLog core_report model.now log.now result (D.state desk.old) (D.state desk.new) }
{
    let used = core_file(alloc, desk, model, log)?;
    let spelt = core_bytes(alloc, &used);
    drop(used);
    let text = spelt?;
    match desk.write(Port::Out, text.as_slice()) {
        Ok(()) => Ok(()),
        Err(_) => Err(LogStop::Given(Given::Fault)),
    }
}

/// Judges the log that a file holds, of the model that another holds, and prints what it shows.
///
/// A function of its own tells it, since each way out of one that owns the model lets go of all its
/// parts.
pub fn report_check<D: Desk>(
    alloc: Global,
    desk: &mut D,
    name: &str,
    log: &str,
) -> Result<(), LogStop>
    ensures model { WithinModel name.now (D.state desk.old) (D.state desk.new) }
    ensures log { WithinLog log.now (D.state desk.old) (D.state desk.new) }
    ensures tries { TriesReport check_report name.now log.now result (D.state desk.old) (D.state desk.new) }
{
    let model = read_file(alloc, desk, name)?;
    let told = tell_check(alloc, desk, &model, log);
    drop(model);
    told
}

/// Prints what the log that a file holds, of the model that another holds, shows of the best value.
pub fn report_bound<D: Desk>(
    alloc: Global,
    desk: &mut D,
    name: &str,
    log: &str,
) -> Result<(), LogStop>
    ensures model { WithinModel name.now (D.state desk.old) (D.state desk.new) }
    ensures log { WithinLog log.now (D.state desk.old) (D.state desk.new) }
    ensures tries { TriesReport bound_report name.now log.now result (D.state desk.old) (D.state desk.new) }
{
    let model = read_file(alloc, desk, name)?;
    let told = tell_bound(alloc, desk, &model, log);
    drop(model);
    told
}

/// Prints which constraints the log that a file holds, of the model that another holds, uses.
pub fn report_core<D: Desk>(
    alloc: Global,
    desk: &mut D,
    name: &str,
    log: &str,
) -> Result<(), LogStop>
    ensures model { WithinModel name.now (D.state desk.old) (D.state desk.new) }
    ensures log { WithinLog log.now (D.state desk.old) (D.state desk.new) }
    ensures tries { TriesReport core_report name.now log.now result (D.state desk.old) (D.state desk.new) }
{
    let model = read_file(alloc, desk, name)?;
    let told = tell_core(alloc, desk, &model, log);
    drop(model);
    told
}
