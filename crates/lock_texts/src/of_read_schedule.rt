//! Schedules, read from their texts.
ghost use Rattle.read_schedule.specs.Schedules.{Reads};
ghost use Rattle.read_schedule.specs.Promises.{AnswersAreSchedules, SchedulesAreTold};

use read_schedule::ScheduleFault;
use sched_model::{Assignment, Model};
use std::alloc::Global;

pub fn read_schedule(
    alloc: Global,
    model: &Model,
    bytes: &[u8],
) -> Result<Assignment, ScheduleFault>
    ensures { Reads model.now bytes.now result }
{
    read_schedule::read_schedule(alloc, model, bytes)
}

pub fn schedule_is_told()
    ensures { SchedulesAreTold }
{
    read_schedule::schedule_is_told();
}

pub fn answer_is_schedule()
    ensures { AnswersAreSchedules }
{
    read_schedule::answer_is_schedule();
}
