ghost use Rattle.std.specs.Prelude.{Some};
ghost use Rattle.command_line.specs.Commands.{Core};
ghost use Rattle.commands.specs.Runs.{RunPromise, WithinFiles};

use crate::ended::Ended;
use crate::report::end_stopped;
use crate::stop::RunStop;
use log_reports::report_core;
use sched_base::Desk;
use std::alloc::Global;

/// Carries out `core`.
pub fn run_core<D: Desk>(alloc: Global, desk: &mut D, model: &str, log: &str) -> Ended
    ensures within { WithinFiles (Some (Core model.now log.now)) (D.state desk.old) (D.state desk.new) }
    ensures promise { RunPromise (Some (Core model.now log.now)) result (D.state desk.old) (D.state desk.new) }
{
    match report_core(alloc, desk, model, log) {
        Ok(()) => Ended::Done,
        Err(stop) => end_stopped(alloc, desk, RunStop::from(stop)),
    }
}
