ghost use Rattle.std.specs.Prelude.{Some};
ghost use Rattle.command_line.specs.Commands.{Show};
ghost use Rattle.given_files.specs.Files.{WithinModel};
ghost use Rattle.commands.specs.Runs.{RunPromise, WithinFiles};
ghost use Rattle.commands.specs.code.Tries.{TriesShow};

use crate::ended::Ended;
use crate::report::end_stopped;
use crate::stop::RunStop;
use given_files::{GivenStop as Given, read_file};
use sched_base::Desk;
use sched_text::print_model;
use std::alloc::Global;

/// Prints the model that a file holds in its canonical form.
fn show_file<D: Desk>(alloc: Global, desk: &mut D, name: &str) -> Result<Ended, RunStop>
    ensures within { WithinModel name.now (D.state desk.old) (D.state desk.new) }
    ensures tries { TriesShow name.now result (D.state desk.old) (D.state desk.new) }
{
    let model = read_file(alloc, desk, name)?;
    let printed = print_model(&model, desk);
    drop(model);
    match printed {
        Ok(()) => Ok(Ended::Done),
        Err(_) => Err(RunStop::Given(Given::Fault)),
    }
}

/// Carries out `show`.
pub fn run_show<D: Desk>(alloc: Global, desk: &mut D, model: &str) -> Ended
    ensures within { WithinFiles (Some (Show model.now)) (D.state desk.old) (D.state desk.new) }
    ensures promise { RunPromise (Some (Show model.now)) result (D.state desk.old) (D.state desk.new) }
{
    match show_file(alloc, desk, model) {
        Ok(ended) => ended,
        Err(stop) => end_stopped(alloc, desk, stop),
    }
}
