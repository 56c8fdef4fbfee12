ghost use Rattle.std.specs.Prelude.{◌≡◌, IfOk, IfSome, None, Some};
ghost use Rattle.given_files.specs.Files.{WithinModel, WithinSchedule};
ghost use Rattle.given_files.specs.code.Reading.{OnlyReads};
ghost use Rattle.given_files.specs.code.Testing.{OnlyTests};
ghost use Rattle.reasons.specs.Explained.{IsStuckAt};
ghost use Rattle.reasons.specs.Runs.{WhyPromise, WithinFiles};
ghost use Rattle.reasons.specs.Texts.{right_text};
ghost use Rattle.reasons.specs.code.Tries.{ExplainTried, FetchesText, OfModel, OfRight, OfSchedule, OfStop, OnlyLooks, PrintsIt, Tested, TriesWhy};
ghost use Rattle.reasons.specs.declared.ended.Ended.TheVariants as end;

use crate::ended::Ended;
use crate::places::behind;
use crate::report::end_stopped;
use crate::sought::statement_of;
use crate::stuck::stuck_at;
use crate::texts::{model_bytes, right_bytes, schedule_bytes};
use crate::words::Word;
use cpo_elab::read_model;
use cpo_text::{ReadFault, Refusal};
use given_files::{GivenStop, ScheduleRefusal, test_file};
use sched_base::{Desk, Inlet, List, NoMemory, Port, read_up_to};
use sched_model::Model;
use std::alloc::Global;

/// One byte more than a model's text may have, so that a longer one is seen to be.
const MODEL_BYTES: usize = 16_777_217;

/// The number of the refusals of statements that aren't in the grammar.
const OUTSIDE: u32 = 2;

/// What is to be printed, and how the run ends then.
#[derive(Debug, Drop)]
pub struct Explained {
    pub text: List<u8>,
    pub ended: Ended,
}

/// The bytes of the model's file, at most `MODEL_BYTES` of them.
#[tactic(auto, using(given_files::specs::laws::Opened::model_unopened, given_files::specs::laws::Opened::model_within))]
fn fetch<D: Desk>(alloc: Global, desk: &mut D, name: &str) -> Result<List<u8>, GivenStop>
    ensures only { OnlyReads (D.state desk.old) (D.state desk.new) }
    ensures within { WithinModel name.now (D.state desk.old) (D.state desk.new) }
    ensures fetches { FetchesText name.now result (D.state desk.old) (D.state desk.new) }
{
    desk.open_in(Inlet::Model, name)?;
    let bytes = read_up_to(alloc, desk, Inlet::Model, MODEL_BYTES)?;
    Ok(bytes)
}

/// Where the statement gets stuck, if it isn't in the grammar.
fn stuck_of(alloc: Global, statement: &[u8], number: u32) -> Result<Option<Word>, NoMemory>
    ensures { IfOk result (λ o. IfSome o (IsStuckAt statement.now)) }
{
    if number == OUTSIDE {
        return stuck_at(alloc, statement);
    }
    Ok(None)
}

/// Why the model's text is refused.
fn of_model(alloc: Global, text: &[u8], r: Refusal) -> Result<Explained, GivenStop>
    ensures { OfModel text.now r result }
{
    let Ok(at) = usize::try_from(r.at) else {
        return Err(GivenStop::NoMemory);
    };
    let stuck = stuck_of(alloc, behind(text, at), r.number)?;
    let bytes = model_bytes(alloc, text, r, stuck)?;
    Ok(Explained {
        text: List::from_vec(bytes),
        ended: Ended::ModelRefused,
    })
}

/// Why the schedule is refused.
fn of_schedule(alloc: Global, text: &[u8], r: ScheduleRefusal) -> Result<Explained, GivenStop>
    ensures { OfSchedule text.now r result }
{
    let part = match r {
        ScheduleRefusal::Constraint(c) => statement_of(alloc, text, c as usize)?,
        ScheduleRefusal::Line(_) => None,
        ScheduleRefusal::TooLong => None,
    };
    let bytes = schedule_bytes(alloc, text, r, part)?;
    Ok(Explained {
        text: List::from_vec(bytes),
        ended: Ended::ScheduleRefused,
    })
}

/// Nothing is refused.
fn right(alloc: Global) -> Result<Explained, NoMemory>
    ensures { IfOk result (λ x. (x.ended ≡ end.Done) × (x.text ≡ right_text)) }
{
    Ok(Explained {
        text: List::from_vec(right_bytes(alloc)?),
        ended: Ended::Done,
    })
}

/// What is told where a schedule isn't found to be a solution, or the run stops.
fn of_stop(alloc: Global, text: &[u8], stop: GivenStop) -> Result<Explained, GivenStop>
    ensures { OfStop text.now stop result }
{
    match stop {
        GivenStop::ScheduleRefused(r) => of_schedule(alloc, text, r),
        GivenStop::Fault => Err(GivenStop::Fault),
        GivenStop::NoMemory => Err(GivenStop::NoMemory),
        GivenStop::ModelRefused(r) => Err(GivenStop::ModelRefused(r)),
    }
}

fn of_right(alloc: Global) -> Result<Explained, GivenStop>
    ensures { OfRight result }
{
    let told = right(alloc)?;
    Ok(told)
}

/// What is told of the schedule in a file, of a model with this text.
fn tested<D: Desk>(
    alloc: Global,
    desk: &mut D,
    model: &Model,
    text: &[u8],
    schedule: &str,
) -> Result<Explained, GivenStop>
    ensures only { OnlyTests (D.state desk.old) (D.state desk.new) }
    ensures within { WithinSchedule schedule.now (D.state desk.old) (D.state desk.new) }
    ensures tested { Tested model.now text.now schedule.now result (D.state desk.old) (D.state desk.new) }
{
    match test_file(alloc, desk, model, schedule) {
        Ok(a) => {
            drop(a);
            of_right(alloc)
        }
        Err(stop) => of_stop(alloc, text, stop),
    }
}

/// What is told of a model.
fn explained_alone<D: Desk>(alloc: Global, desk: &mut D, name: &str) -> Result<Explained, GivenStop>
    ensures only { OnlyLooks (D.state desk.old) (D.state desk.new) }
    ensures within { WithinModel name.now (D.state desk.old) (D.state desk.new) }
    ensures tried { ExplainTried name.now None result (D.state desk.old) (D.state desk.new) }
{
    let bytes = match fetch(alloc, desk, name) {
        Ok(bytes) => bytes,
        Err(stop) => return Err(stop),
    };
    match read_model(alloc, bytes.as_slice()) {
        Ok(model) => {
            drop(model);
            of_right(alloc)
        }
        Err(ReadFault::NoMemory) => Err(GivenStop::NoMemory),
        Err(ReadFault::Refused(r)) => of_model(alloc, bytes.as_slice(), r),
    }
}

/// What is told of a model and a schedule.
fn explained_with<D: Desk>(
    alloc: Global,
    desk: &mut D,
    name: &str,
    schedule: &str,
) -> Result<Explained, GivenStop>
    ensures only { OnlyLooks (D.state desk.old) (D.state desk.new) }
    ensures model { WithinModel name.now (D.state desk.old) (D.state desk.new) }
    ensures schedule { WithinSchedule schedule.now (D.state desk.old) (D.state desk.new) }
    ensures tried { ExplainTried name.now (Some schedule.now) result (D.state desk.old) (D.state desk.new) }
{
    let bytes = match fetch(alloc, desk, name) {
        Ok(bytes) => bytes,
        Err(stop) => return Err(stop),
    };
    match read_model(alloc, bytes.as_slice()) {
        Ok(model) => {
            let told = tested(alloc, desk, &model, bytes.as_slice(), schedule);
            drop(model);
            told
        }
        Err(ReadFault::NoMemory) => Err(GivenStop::NoMemory),
        Err(ReadFault::Refused(r)) => of_model(alloc, bytes.as_slice(), r),
    }
}

fn print<D: Desk>(desk: &mut D, told: &Explained) -> Result<Ended, GivenStop>
    ensures { PrintsIt told.now result (D.state desk.old) (D.state desk.new) }
{
    match desk.write(Port::Out, told.text.as_slice()) {
        Ok(()) => Ok(told.ended),
        Err(_) => Err(GivenStop::Fault),
    }
}

fn explain_alone<D: Desk>(alloc: Global, desk: &mut D, name: &str) -> Result<Ended, GivenStop>
    ensures within { WithinFiles name.now None (D.state desk.old) (D.state desk.new) }
    ensures tries { TriesWhy name.now None result (D.state desk.old) (D.state desk.new) }
{
    match explained_alone(alloc, desk, name) {
        Ok(told) => print(desk, &told),
        Err(stop) => Err(stop),
    }
}

fn explain_with<D: Desk>(
    alloc: Global,
    desk: &mut D,
    name: &str,
    schedule: &str,
) -> Result<Ended, GivenStop>
    ensures within { WithinFiles name.now (Some schedule.now) (D.state desk.old) (D.state desk.new) }
    ensures tries { TriesWhy name.now (Some schedule.now) result (D.state desk.old) (D.state desk.new) }
{
    match explained_with(alloc, desk, name, schedule) {
        Ok(told) => print(desk, &told),
        Err(stop) => Err(stop),
    }
}

/// Tells why a model is refused.
pub fn why_model<D: Desk>(alloc: Global, desk: &mut D, model: &str) -> Ended
    ensures { WhyPromise model.now None result (D.state desk.old) (D.state desk.new) }
{
    match explain_alone(alloc, desk, model) {
        Ok(ended) => ended,
        Err(stop) => end_stopped(alloc, desk, stop),
    }
}

/// Tells why a model, or a schedule of it, is refused.
pub fn why_schedule<D: Desk>(alloc: Global, desk: &mut D, model: &str, schedule: &str) -> Ended
    ensures { WhyPromise model.now (Some schedule.now) result (D.state desk.old) (D.state desk.new) }
{
    match explain_with(alloc, desk, model, schedule) {
        Ok(ended) => ended,
        Err(stop) => end_stopped(alloc, desk, stop),
    }
}
