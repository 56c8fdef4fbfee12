ghost use Rattle.std.specs.Prelude.{◌≡◌, true};
ghost use Rattle.sched_model.specs.Domain.{is_in_domain};
ghost use Rattle.given_files.specs.Files.{WithinSchedule};
ghost use Rattle.given_files.specs.code.Testing.{FetchesSchedule, FindsFailing, OnlyTests, Tests, TestsFile};

use crate::stop::{GivenStop, ScheduleRefusal};
use read_schedule::read_schedule;
use sched_base::{Con, Desk, Inlet, List, read_up_to};
use sched_model::{Assignment, Model, holds};
use std::alloc::Global;

/// How long a schedule's file may be.
const MOST_BYTES: usize = 67_108_864;

/// The bytes of the schedule's file, one more than it may have at most.
#[tactic(auto, using(crate::specs::laws::Opened::schedule_unopened, crate::specs::laws::Opened::schedule_within))]
fn fetch<D: Desk>(alloc: Global, desk: &mut D, name: &str) -> Result<List<u8>, GivenStop>
    ensures only { OnlyTests (D.state desk.old) (D.state desk.new) }
    ensures within { WithinSchedule name.now (D.state desk.old) (D.state desk.new) }
    ensures fetches { FetchesSchedule name.now result (D.state desk.old) (D.state desk.new) }
{
    desk.open_in(Inlet::Schedule, name)?;
    let bytes = read_up_to(alloc, desk, Inlet::Schedule, MOST_BYTES + 1)?;
    Ok(bytes)
}

/// The first constraint that doesn't hold.
fn first_failing(model: &Model, a: &Assignment) -> Option<u32>
    requires { is_in_domain model.now a.now ≡ true }
    ensures { FindsFailing model.now a.now result }
{
    for i in 0..model.constraints().len() {
        let c = i as u32;
        if !holds(model, Con(c), a) {
            return Some(c);
        }
    }
    None
}

/// The solution that a text spells.
fn read_solution(alloc: Global, model: &Model, bytes: &[u8]) -> Result<Assignment, GivenStop>
    ensures { Tests model.now bytes.now result }
{
    if bytes.len() > MOST_BYTES {
        return Err(GivenStop::ScheduleRefused(ScheduleRefusal::TooLong));
    }
    let a = read_schedule(alloc, model, bytes)?;
    match first_failing(model, &a) {
        None => Ok(a),
        Some(c) => Err(GivenStop::ScheduleRefused(ScheduleRefusal::Constraint(c))),
    }
}

/// The solution that a file holds.
pub fn test_file<D: Desk>(
    alloc: Global,
    desk: &mut D,
    model: &Model,
    schedule: &str,
) -> Result<Assignment, GivenStop>
    ensures only { OnlyTests (D.state desk.old) (D.state desk.new) }
    ensures within { WithinSchedule schedule.now (D.state desk.old) (D.state desk.new) }
    ensures tests { TestsFile model.now schedule.now result (D.state desk.old) (D.state desk.new) }
{
    match fetch(alloc, desk, schedule) {
        Ok(bytes) => read_solution(alloc, model, bytes.as_slice()),
        Err(stop) => Err(stop),
    }
}
