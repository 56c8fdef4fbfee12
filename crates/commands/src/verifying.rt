ghost use Rattle.std.specs.Prelude.{Some};
ghost use Rattle.command_line.specs.Commands.{Verify};
ghost use Rattle.given_files.specs.Files.{WithinModel, WithinSchedule};
ghost use Rattle.commands.specs.Runs.{RunPromise, WithinFiles};
ghost use Rattle.commands.specs.code.Tries.{TriesVerify};

use crate::ended::Ended;
use crate::report::end_stopped;
use crate::stop::RunStop;
use crate::valid::verify_bytes;
use given_files::{GivenStop as Given, read_file, test_file};
use sched_base::{Desk, Port};
use sched_model::value;
use std::alloc::Global;

/// Tests the schedule that a file holds, of the model that another holds, and prints its values.
fn verify_file<D: Desk>(
    alloc: Global,
    desk: &mut D,
    name: &str,
    schedule: &str,
) -> Result<Ended, RunStop>
    ensures model { WithinModel name.now (D.state desk.old) (D.state desk.new) }
    ensures schedule { WithinSchedule schedule.now (D.state desk.old) (D.state desk.new) }
    ensures tries { TriesVerify name.now schedule.now result (D.state desk.old) (D.state desk.new) }
{
    let model = read_file(alloc, desk, name)?;
    let a = match test_file(alloc, desk, &model, schedule) {
        Ok(a) => a,
        Err(stop) => {
            drop(model);
            return Err(RunStop::Given(stop));
        }
    };
    // Called for its clause alone.
    let _ = model.intervals();
    let value = value(&model, &a);
    let spelt = verify_bytes(alloc, &model, value);
    drop((model, a));
    let text = spelt?;
    match desk.write(Port::Out, text.as_slice()) {
        Ok(()) => Ok(Ended::Done),
        Err(_) => Err(RunStop::Given(Given::Fault)),
    }
}

/// Carries out `verify`.
pub fn run_verify<D: Desk>(alloc: Global, desk: &mut D, model: &str, schedule: &str) -> Ended
    ensures within { WithinFiles (Some (Verify model.now schedule.now)) (D.state desk.old) (D.state desk.new) }
    ensures promise { RunPromise (Some (Verify model.now schedule.now)) result (D.state desk.old) (D.state desk.new) }
{
    match verify_file(alloc, desk, model, schedule) {
        Ok(ended) => ended,
        Err(stop) => end_stopped(alloc, desk, stop),
    }
}
