ghost use Rattle.std.specs.Prelude.{◌≡◌};
ghost use Rattle.given_files.specs.code.Telling.{EndsStopped};
ghost use Rattle.reasons.specs.code.Ended.{ending_of_stop};

use crate::ended::Ended;
use given_files::{GivenStop, tell};
use sched_base::Desk;
use std::alloc::Global;

fn ended_of(stop: GivenStop) -> Ended
    ensures { result ≡ ending_of_stop stop }
{
    match stop {
        GivenStop::Fault => Ended::Fault,
        GivenStop::NoMemory => Ended::NoMemory,
        GivenStop::ModelRefused(_) => Ended::ModelRefused,
        GivenStop::ScheduleRefused(_) => Ended::ScheduleRefused,
    }
}

/// The ending of a run that told nothing, with its line on standard error.
pub fn end_stopped<D: Desk>(alloc: Global, desk: &mut D, stop: GivenStop) -> Ended
    ensures { EndsStopped ending_of_stop stop result (D.state desk.old) (D.state desk.new) }
{
    ended_of(tell(alloc, desk, stop))
}
