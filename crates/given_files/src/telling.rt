ghost use Rattle.std.specs.Prelude.{◌≡◌, ◌++◌, ◌∷◌, [], codes, OnOk, IfOk};
ghost use Rattle.std.specs.Fmt.{decimal};
ghost use Rattle.textline.specs.Lines.{line};
ghost use Rattle.given_files.specs.Told.{Reports, refusal_line, unfit_line};
ghost use Rattle.given_files.specs.code.Telling.{IsTold};
ghost use Rattle.given_files.specs.declared.stop.GivenStop.TheVariants as stop;

use crate::stop::{GivenStop, ScheduleRefusal};
use cpo_text::Refusal;
use itoa::Buffer;
use sched_base::{Desk, NoMemory, Port};
use std::alloc::Global;

/// Puts a line on standard error. A write that fails is passed over: the ending stands.
pub fn report<D: Desk>(desk: &mut D, line: &[u8])
    ensures { Reports line.now (D.state desk.old) (D.state desk.new) }
{
    let _ = desk.write(Port::Err, line);
}

/// A number, and what stands before it.
pub fn push_told(bytes: &mut Vec<u8>, before: &[u8], n: u64) -> Result<(), NoMemory>
    ensures { OnOk result (bytes.new.items ≡ bytes.old.items ++ (before.now ++ decimal n)) }
{
    let mut buffer = Buffer::new();
    bytes.extend_from_slice(before)?;
    bytes.extend_from_slice(buffer.format(n).as_bytes())?;
    Ok(())
}

/// The line that tells a refusal of the model.
fn refusal_text(alloc: Global, r: Refusal) -> Result<Vec<u8>, NoMemory>
    ensures { IfOk result (λ v. v.items ≡ refusal_line r) }
{
    let mut bytes = Vec::new(alloc);
    push_told(&mut bytes, b"model refused ", u64::from(r.number))?;
    push_told(&mut bytes, b" statement ", u64::from(r.statement))?;
    push_told(&mut bytes, b" at ", r.at)?;
    bytes.extend_from_slice(b"\n")?;
    Ok(bytes)
}

/// What a schedule is refused at: a line, or a constraint.
fn push_unfit(bytes: &mut Vec<u8>, word: &[u8], n: u32) -> Result<(), NoMemory>
    ensures { OnOk result (bytes.new.items ≡ bytes.old.items ++ line (codes "schedule" ∷ codes "refused" ∷ word.now ∷ decimal n ∷ [])) }
{
    bytes.extend_from_slice(b"schedule refused ")?;
    bytes.extend_from_slice(word)?;
    push_told(bytes, b" ", u64::from(n))?;
    bytes.extend_from_slice(b"\n")?;
    Ok(())
}

/// The line that tells why the schedule is refused.
fn unfit_text(alloc: Global, r: ScheduleRefusal) -> Result<Vec<u8>, NoMemory>
    ensures { IfOk result (λ v. v.items ≡ unfit_line r) }
{
    let mut bytes = Vec::new(alloc);
    match r {
        ScheduleRefusal::TooLong => bytes.extend_from_slice(b"schedule refused line 0\n")?,
        ScheduleRefusal::Line(k) => push_unfit(&mut bytes, b"line", k)?,
        ScheduleRefusal::Constraint(c) => push_unfit(&mut bytes, b"constraint", c)?,
    }
    Ok(bytes)
}

/// Tells a refusal of the model.
fn tell_refusal<D: Desk>(alloc: Global, desk: &mut D, r: Refusal) -> GivenStop
    ensures { IsTold (stop.ModelRefused r) result (D.state desk.old) (D.state desk.new) }
{
    match refusal_text(alloc, r) {
        Ok(text) => {
            report(desk, text.as_slice());
            GivenStop::ModelRefused(r)
        }
        Err(_) => {
            report(desk, b"no memory\n");
            GivenStop::NoMemory
        }
    }
}

/// Tells why the schedule is refused.
fn tell_unfit<D: Desk>(alloc: Global, desk: &mut D, r: ScheduleRefusal) -> GivenStop
    ensures { IsTold (stop.ScheduleRefused r) result (D.state desk.old) (D.state desk.new) }
{
    match unfit_text(alloc, r) {
        Ok(text) => {
            report(desk, text.as_slice());
            GivenStop::ScheduleRefused(r)
        }
        Err(_) => {
            report(desk, b"no memory\n");
            GivenStop::NoMemory
        }
    }
}

/// Puts the line of a stop on standard error, and answers which stop was told: this one, or want of
/// memory, where memory was refused for the line.
pub fn tell<D: Desk>(alloc: Global, desk: &mut D, stop: GivenStop) -> GivenStop
    ensures { IsTold stop result (D.state desk.old) (D.state desk.new) }
{
    match stop {
        GivenStop::Fault => {
            report(desk, b"fault\n");
            GivenStop::Fault
        }
        GivenStop::NoMemory => {
            report(desk, b"no memory\n");
            GivenStop::NoMemory
        }
        GivenStop::ModelRefused(r) => tell_refusal(alloc, desk, r),
        GivenStop::ScheduleRefused(r) => tell_unfit(alloc, desk, r),
    }
}
