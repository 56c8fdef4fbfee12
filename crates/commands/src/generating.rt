ghost use Rattle.std.specs.Prelude.{◌≡◌, IfOk, Some};
ghost use Rattle.command_line.specs.Commands.{Gen};
ghost use Rattle.command_line.specs.code.Found.{IsShop};
ghost use Rattle.commands.specs.Runs.{RunPromise, shop_text};
ghost use Rattle.commands.specs.code.Tries.{MakesModel, TriesGen};

use crate::ended::Ended;
use crate::report::end_stopped;
use crate::stop::RunStop;
use command_line::Shop;
use cpo_elab::read_model;
use given_files::GivenStop as Given;
use modelgen::generate;
use sched_base::{Desk, NoMemory, Port};
use sched_model::Model;
use std::alloc::Global;

/// The text of a job shop's model.
fn text_of(alloc: Global, shop: Shop) -> Result<Vec<u8>, NoMemory>
    requires { IsShop shop }
    ensures { IfOk result (λ v. v.items ≡ shop_text shop) }
{
    // The limits on jobs and machines are kept, so a fault is one of memory.
    match generate(alloc, shop.seed, shop.jobs, shop.machines) {
        Ok(text) => Ok(text),
        Err(_) => Err(NoMemory),
    }
}

/// The model of a job shop.
pub fn generated_model(alloc: Global, shop: Shop) -> Result<Model, Given>
    requires { IsShop shop }
    ensures { MakesModel shop result }
{
    let text = text_of(alloc, shop)?;
    let model = read_model(alloc, text.as_slice())?;
    Ok(model)
}

/// Prints the text of a job shop's model.
fn print_shop<D: Desk>(alloc: Global, desk: &mut D, shop: Shop) -> Result<Ended, RunStop>
    requires { IsShop shop }
    ensures { TriesGen shop result (D.state desk.old) (D.state desk.new) }
{
    let text = text_of(alloc, shop)?;
    match desk.write(Port::Out, text.as_slice()) {
        Ok(()) => Ok(Ended::Done),
        Err(_) => Err(RunStop::Given(Given::Fault)),
    }
}

/// Carries out `gen`.
pub fn run_gen<D: Desk>(alloc: Global, desk: &mut D, shop: Shop) -> Ended
    requires { IsShop shop }
    ensures { RunPromise (Some (Gen shop)) result (D.state desk.old) (D.state desk.new) }
{
    match print_shop(alloc, desk, shop) {
        Ok(ended) => ended,
        Err(stop) => end_stopped(alloc, desk, stop),
    }
}
