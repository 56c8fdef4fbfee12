ghost use Rattle.std.specs.Prelude.{◌≡◌, ◌<◌, ◌≤◌, ◌^◌, ℕ, true, length, IfOk, vec_len};
ghost use Rattle.sched_base.specs.State.{State, Bytes, is_opened};
ghost use Rattle.kernel.specs.Steps.{opening};
ghost use Rattle.kernel.specs.Promises.{Ready};
ghost use Rattle.logtext.specs.declared.entry.Entry.TheVariants.{Head};
ghost use Rattle.log_lines.specs.code.Pieces.{nothing_fed};
ghost use Rattle.logtext.specs.Judgement.{log_limit};
ghost use Rattle.logtext.specs.Logs.{may_hold};
ghost use Rattle.replay.specs.Replaying.{Replays, ReplaysFront};
ghost use Rattle.replay.specs.code.Pieces.{IsReading, Holds};
ghost use Rattle.replay.specs.code.Endings.{Ends, EndsIn};
ghost use Rattle.replay.specs.code.Turns.{FindsHead, IsBehindHead, Tries, Shows, Turns, version_in};

use crate::fault::ReplayFault;
use crate::reading::{NextLine, goes_on, next_line};
use crate::watcher::Watcher;
use kernel::{Kernel, Line, StepFault};
use log_lines::LineReader;
use logtext::{Entry, Version, spelling_is_determined};
use region::Refuter;
use sched_base::{Desk, Inlet, NoMemory, ReadError};
use sched_model::Model;
use std::alloc::Global;

/// So many bytes are read at once.
const PIECE: usize = 65_536;

/// What one line did.
enum Turn {
    Stepped,
    /// It was the last line.
    Ended,
    Wrong,
    /// The log ends before it does.
    Missing,
    /// The bytes up to the limit end before it does.
    Beyond,
}

/// How the lines of a log end, none of which is wrong.
#[derive(Clone, Copy)]
enum Ending {
    Whole,
    /// The log ends before this line does, which begins at this byte.
    Cut { line: u64, at: u128 },
}

/// Room for a piece.
fn zeroed(alloc: Global) -> Result<Vec<u8>, NoMemory>
    ensures { IfOk result (λ v. vec_len v ≡ 65536) }
{
    Ok(vec![in alloc; 0; PIECE]?)
}

/// The version that a first line tells.
fn version_in<W>(entry: &Entry<W>) -> Option<Version>
    ensures { result ≡ version_in entry.now }
{
    match entry {
        Entry::Head(version) => Some(*version),
        Entry::Step(_) => None,
        Entry::Finish => None,
    }
}

/// The version of the first line, if the log begins with one, which is taken then.
fn take_head<X: Refuter, D: Desk>(
    alloc: Global,
    desk: &mut D,
    buffer: &mut [u8],
    lines: &mut LineReader<X>,
) -> Result<Option<Version>, ReadError>
    requires buffer { 0 < length buffer.old }
    requires small { length buffer.old ≤ 65536 }
    requires opened { is_opened Inlet.Log (D.state desk.old) ≡ true }
    requires nothing { lines.old ≡ nothing_fed }
    ensures head { FindsHead X.Witness.numbers X.Witness.is_valid (D.state desk.old) (D.state desk.new) result lines.new }
    ensures opened { IfOk result (λ _. is_opened Inlet.Log (D.state desk.new) ≡ true) }
    ensures limit { IfOk result (λ _. lines.new.count ≤ log_limit) }
{
    spelling_is_determined::<X>();
    match next_line(alloc, desk, buffer, lines)? {
        NextLine::Line(entry) => Ok(version_in(&entry)),
        NextLine::Wrong => Ok(None),
        NextLine::Missing => Ok(None),
        NextLine::Beyond => Ok(None),
    }
}

/// Whether a log of this version may hold the line.
fn may_hold<W>(version: Version, line: &Line<W>) -> bool
    ensures { result ≡ may_hold version line.now }
{
    match version {
        Version::One => !matches!(line, Line::Restart),
        Version::Two => true,
    }
}

/// Whether the line steps. One that doesn't changes nothing.
fn try_line<X: Refuter>(
    alloc: Global,
    model: &Model,
    kernel: &mut Kernel<X>,
    line: Line<X::Witness>,
) -> Result<bool, NoMemory>
    requires nodes { kernel.old.nodes < 2 ^ 63 }
    requires ready { Ready model.now kernel.old }
    ensures tries { Tries X.refuting model.now line result kernel.old kernel.new }
    ensures ready { Ready model.now kernel.new }
{
    match kernel.step(alloc, model, line) {
        Ok(()) => Ok(true),
        Err(StepFault::NoMemory) => Err(NoMemory),
        Err(_) => Ok(false),
    }
}

/// Shows the line to the watcher, and steps it, where a log of this version may hold it.
fn show_line<X: Refuter, V: Watcher<X>>(
    alloc: Global,
    model: &Model,
    kernel: &mut Kernel<X>,
    watcher: &mut V,
    version: Version,
    line: Line<X::Witness>,
) -> Result<Turn, ReadError>
    requires nodes { kernel.old.nodes < 2 ^ 63 }
    requires ready { Ready model.now kernel.old }
    ensures shows { Shows X.refuting V.noted model.now version line result kernel.old kernel.new watcher.old watcher.new }
    ensures ready { Ready model.now kernel.new }
{
    if !may_hold(version, &line) {
        return Ok(Turn::Wrong);
    }
    if watcher.note(&line).is_err() {
        return Err(ReadError::NoMemory);
    }
    match try_line(alloc, model, kernel, line) {
        Ok(true) => Ok(Turn::Stepped),
        Ok(false) => Ok(Turn::Wrong),
        Err(_) => Err(ReadError::NoMemory),
    }
}

/// Reads the next line of a log of this version, and steps it.
fn take_line<X: Refuter, V: Watcher<X>, D: Desk>(
    alloc: Global,
    model: &Model,
    version: Version,
    desk: &mut D,
    buffer: &mut [u8],
    lines: &mut LineReader<X>,
    kernel: &mut Kernel<X>,
    watcher: &mut V,
) -> Result<Turn, ReadError>
    requires buffer { 0 < length buffer.old }
    requires small { length buffer.old ≤ 65536 }
    requires opened { is_opened Inlet.Log (D.state desk.old) ≡ true }
    requires limit { lines.old.count ≤ log_limit }
    requires nodes { kernel.old.nodes < 2 ^ 63 }
    requires ready { Ready model.now kernel.old }
    ensures turns { (start : State) (fed : Bytes) (place : ℕ) → IsReading start (D.state desk.old) fed place → Holds lines.old fed place → Turns X.refuting X.Witness.numbers X.Witness.is_valid V.noted model.now version start (D.state desk.new) fed place result lines.new kernel.old kernel.new watcher.old watcher.new }
    ensures opened { IfOk result (λ _. is_opened Inlet.Log (D.state desk.new) ≡ true) }
    ensures limit { IfOk result (λ _. lines.new.count ≤ log_limit) }
    ensures ready { Ready model.now kernel.new }
{
    spelling_is_determined::<X>();
    let entry = match next_line(alloc, desk, buffer, lines)? {
        NextLine::Line(entry) => entry,
        NextLine::Wrong => return Ok(Turn::Wrong),
        NextLine::Missing => return Ok(Turn::Missing),
        NextLine::Beyond => return Ok(Turn::Beyond),
    };
    match entry {
        Entry::Head(_) => Ok(Turn::Wrong),
        Entry::Step(line) => show_line(alloc, model, kernel, watcher, version, line),
        Entry::Finish => Ok(Turn::Ended),
    }
}

/// Reads and steps the lines of a log of this version, whose first line was taken.
fn replay_lines<X: Refuter, V: Watcher<X>, D: Desk>(
    alloc: Global,
    model: &Model,
    version: Version,
    desk: &mut D,
    buffer: &mut [u8],
    lines: &mut LineReader<X>,
    kernel: &mut Kernel<X>,
    watcher: &mut V,
) -> Result<Ending, ReplayFault>
    requires buffer { 0 < length buffer.old }
    requires small { length buffer.old ≤ 65536 }
    requires opened { is_opened Inlet.Log (D.state desk.old) ≡ true }
    requires limit { lines.old.count ≤ log_limit }
    requires begun { (start : State) × IsBehindHead X.Witness.numbers X.Witness.is_valid version start (D.state desk.old) lines.old }
    requires opening { kernel.old ≡ opening model.now }
    requires ready { Ready model.now kernel.old }
    ensures ends { (start : State) → IsBehindHead X.Witness.numbers X.Witness.is_valid version start (D.state desk.old) lines.old → Ends X.refuting X.Witness.numbers X.Witness.is_valid V.noted model.now result kernel.new watcher.old watcher.new start (D.state desk.new) }
    ensures ready { Ready model.now kernel.new }
{
    spelling_is_determined::<X>();
    let mut line: u64 = 2;
    'lines: loop {
        let at = lines.place() as u128;
        match take_line(alloc, model, version, desk, buffer, lines, kernel, watcher)? {
            Turn::Stepped => line += 1,
            Turn::Ended => {
                let behind = lines.place() as u128;
                if goes_on(desk, buffer, lines)? {
                    return Err(ReplayFault::Refused {
                        line: line + 1,
                        at: behind,
                    });
                }
                return Ok(Ending::Whole);
            }
            Turn::Wrong => return Err(ReplayFault::Refused { line, at }),
            Turn::Missing => return Ok(Ending::Cut { line, at }),
            Turn::Beyond => return Err(ReplayFault::TooLong),
        }
    }
}

/// Replays the log that is opened, from the place that its slot has reached, up to its last whole
/// line.
fn replay_to_end<X: Refuter, V: Watcher<X>, D: Desk>(
    alloc: Global,
    model: &Model,
    desk: &mut D,
    watcher: &mut V,
) -> Result<(Kernel<X>, Ending), ReplayFault>
    requires opened { is_opened Inlet.Log (D.state desk.old) ≡ true }
    ensures ends { EndsIn X.refuting X.Witness.numbers X.Witness.is_valid V.noted model.now result watcher.old watcher.new (D.state desk.old) (D.state desk.new) }
    ensures ready { IfOk result (λ p. Ready model.now p.0) }
{
    let mut buffer = zeroed(alloc)?;
    let mut lines = LineReader::<X>::new(alloc);
    let version = match take_head(alloc, desk, &mut buffer, &mut lines)? {
        Some(version) => version,
        None => return Err(ReplayFault::Refused { line: 1, at: 0 }),
    };
    let mut kernel = Kernel::<X>::new(alloc, model)?;
    let ending = replay_lines(
        alloc,
        model,
        version,
        desk,
        &mut buffer,
        &mut lines,
        &mut kernel,
        watcher,
    )?;
    Ok((kernel, ending))
}

/// Replays the log that is opened, from the place that its slot has reached, and gives the state
/// after its last line. The watcher is shown each line before it steps, so where the log is refused
/// it may have been shown one that doesn't. Bytes are read in pieces, each only where what was read
/// holds no further whole line, so it answers as soon as the answer is known, and a log takes no
/// more memory than a line and a piece.
pub fn replay<X: Refuter, V: Watcher<X>, D: Desk>(
    alloc: Global,
    model: &Model,
    desk: &mut D,
    watcher: &mut V,
) -> Result<Kernel<X>, ReplayFault>
    requires opened { is_opened Inlet.Log (D.state desk.old) ≡ true }
    ensures replays { Replays X.refuting X.Witness.numbers X.Witness.is_valid V.noted model.now result watcher.old watcher.new (D.state desk.old) (D.state desk.new) }
    ensures ready { IfOk result (λ k. Ready model.now k) }
{
    let (kernel, ending) = replay_to_end(alloc, model, desk, watcher)?;
    match ending {
        Ending::Whole => Ok(kernel),
        Ending::Cut { line, at } => Err(ReplayFault::Refused { line, at }),
    }
}

/// The same where a log that was cut will do: one of a run that was stopped, whose last line may be
/// half a one, and whose end is missing. It gives the state after the last whole line. Of a log whose
/// first line isn't whole that line is refused.
pub fn replay_front<X: Refuter, V: Watcher<X>, D: Desk>(
    alloc: Global,
    model: &Model,
    desk: &mut D,
    watcher: &mut V,
) -> Result<Kernel<X>, ReplayFault>
    requires opened { is_opened Inlet.Log (D.state desk.old) ≡ true }
    ensures replays { ReplaysFront X.refuting X.Witness.numbers X.Witness.is_valid V.noted model.now result watcher.old watcher.new (D.state desk.old) (D.state desk.new) }
    ensures ready { IfOk result (λ k. Ready model.now k) }
{
    let (kernel, _) = replay_to_end(alloc, model, desk, watcher)?;
    Ok(kernel)
}
