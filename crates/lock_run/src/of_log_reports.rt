//! What is reported of a log.
ghost use Rattle.given_files.specs.Files.{WithinModel};
ghost use Rattle.log_reports.specs.Reports.{WithinLog, check_report, bound_report, core_report};
ghost use Rattle.log_reports.specs.code.Tries.{TriesReport};

use log_reports::LogStop;
use sched_base::Desk;
use std::alloc::Global;

pub fn report_check<D: Desk>(
    alloc: Global,
    desk: &mut D,
    model: &str,
    log: &str,
) -> Result<(), LogStop>
    ensures model { WithinModel model.now (D.state desk.old) (D.state desk.new) }
    ensures log { WithinLog log.now (D.state desk.old) (D.state desk.new) }
    ensures tries { TriesReport check_report model.now log.now result (D.state desk.old) (D.state desk.new) }
{
    log_reports::report_check(alloc, desk, model, log)
}

pub fn report_bound<D: Desk>(
    alloc: Global,
    desk: &mut D,
    model: &str,
    log: &str,
) -> Result<(), LogStop>
    ensures model { WithinModel model.now (D.state desk.old) (D.state desk.new) }
    ensures log { WithinLog log.now (D.state desk.old) (D.state desk.new) }
    ensures tries { TriesReport bound_report model.now log.now result (D.state desk.old) (D.state desk.new) }
{
    log_reports::report_bound(alloc, desk, model, log)
}

pub fn report_core<D: Desk>(
    alloc: Global,
    desk: &mut D,
    model: &str,
    log: &str,
) -> Result<(), LogStop>
    ensures model { WithinModel model.now (D.state desk.old) (D.state desk.new) }
    ensures log { WithinLog log.now (D.state desk.old) (D.state desk.new) }
    ensures tries { TriesReport core_report model.now log.now result (D.state desk.old) (D.state desk.new) }
{
    log_reports::report_core(alloc, desk, model, log)
}
