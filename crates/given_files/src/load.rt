ghost use Rattle.given_files.specs.Files.{WithinModel};
ghost use Rattle.given_files.specs.code.Reading.{Fetches, OnlyReads, Reads};

use crate::stop::GivenStop;
use cpo_elab::read_model;
use sched_base::{Desk, Inlet, List, read_up_to};
use sched_model::Model;
use std::alloc::Global;

/// One byte more than a model's text may have, so that a longer one is seen to be.
const MODEL_BYTES: usize = 16_777_217;

/// The bytes of the model's file, at most `MODEL_BYTES` of them.
#[tactic(auto, using(crate::specs::laws::Opened::model_unopened, crate::specs::laws::Opened::model_within))]
fn fetch<D: Desk>(alloc: Global, desk: &mut D, name: &str) -> Result<List<u8>, GivenStop>
    ensures only { OnlyReads (D.state desk.old) (D.state desk.new) }
    ensures within { WithinModel name.now (D.state desk.old) (D.state desk.new) }
    ensures fetches { Fetches name.now result (D.state desk.old) (D.state desk.new) }
{
    desk.open_in(Inlet::Model, name)?;
    let bytes = read_up_to(alloc, desk, Inlet::Model, MODEL_BYTES)?;
    Ok(bytes)
}

/// Reads the model's file, and the model that it holds.
pub fn read_file<D: Desk>(alloc: Global, desk: &mut D, name: &str) -> Result<Model, GivenStop>
    ensures only { OnlyReads (D.state desk.old) (D.state desk.new) }
    ensures within { WithinModel name.now (D.state desk.old) (D.state desk.new) }
    ensures reads { Reads name.now result (D.state desk.old) (D.state desk.new) }
{
    let bytes = fetch(alloc, desk, name)?;
    let model = read_model(alloc, bytes.as_slice())?;
    Ok(model)
}
