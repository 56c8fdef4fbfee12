ghost use Rattle.std.specs.Prelude.{◌≡◌};
ghost use Rattle.given_files.specs.Files.{WithinModel, WithinSchedule};
ghost use Rattle.gantt.specs.code.Tries.{TriesDraw};
ghost use Rattle.gantt.specs.Runs.{DrawPromise};

use crate::ended::Ended;
use crate::report::end_stopped;
use given_files::{GivenStop, read_file, test_file};
use sched_base::{Desk, Port};
use std::alloc::Global;
use svg_page::svg_page;

/// Reads the model and the schedule that two files hold, and prints the page of the schedule.
fn draw_file<D: Desk>(
    alloc: Global,
    desk: &mut D,
    name: &str,
    schedule: &str,
) -> Result<(), GivenStop>
    ensures model { WithinModel name.now (D.state desk.old) (D.state desk.new) }
    ensures schedule { WithinSchedule schedule.now (D.state desk.old) (D.state desk.new) }
    ensures tries { TriesDraw name.now schedule.now result (D.state desk.old) (D.state desk.new) }
{
    let model = read_file(alloc, desk, name)?;
    let a = test_file(alloc, desk, &model, schedule)?;
    let page = svg_page(alloc, &model, &a)?;
    match desk.write(Port::Out, page.as_slice()) {
        Ok(()) => Ok(()),
        Err(_) => Err(GivenStop::Fault),
    }
}

/// Draws a schedule.
pub fn run_draw<D: Desk>(alloc: Global, desk: &mut D, model: &str, schedule: &str) -> Ended
    ensures { DrawPromise model.now schedule.now result (D.state desk.old) (D.state desk.new) }
{
    match draw_file(alloc, desk, model, schedule) {
        Ok(()) => Ended::Done,
        Err(stop) => end_stopped(alloc, desk, stop),
    }
}
