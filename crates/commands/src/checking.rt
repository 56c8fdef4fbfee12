ghost use Rattle.std.specs.Prelude.{Some};
ghost use Rattle.command_line.specs.Commands.{Check};
ghost use Rattle.commands.specs.Runs.{RunPromise, WithinFiles};

use crate::ended::Ended;
use crate::report::end_stopped;
use crate::stop::RunStop;
use log_reports::report_check;
use sched_base::Desk;
use std::alloc::Global;

/// Carries out `check`.
pub fn run_check<D: Desk>(alloc: Global, desk: &mut D, model: &str, log: &str) -> Ended
    ensures within { WithinFiles (Some (Check model.now log.now)) (D.state desk.old) (D.state desk.new) }
    ensures promise { RunPromise (Some (Check model.now log.now)) result (D.state desk.old) (D.state desk.new) }
{
    match report_check(alloc, desk, model, log) {
        Ok(()) => Ended::Accepted,
        Err(stop) => end_stopped(alloc, desk, RunStop::from(stop)),
    }
}
