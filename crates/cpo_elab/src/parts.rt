ghost use Rattle.std.specs.Prelude.{◌≡◌, [], ◌∷◌, ◌++◌, false, map, IfOk, OnOk};
ghost use Rattle.cpo_elab.specs.Elaborated.{turned, parts_signed, parts_in};

use crate::counts::parts_of;
use crate::draft::Draft;
use crate::literals::int_of;
use cpo_text::{Cpart, Cumul, Signed};
use sched_base::{List, NoMemory};
use sched_model::{Part, Shape};
use std::alloc::Global;

/// Under a minus the sign of a part changes.
fn turned(minus: bool, part: Part) -> Part
    ensures { result ≡ turned minus part }
{
    let turned = if minus { !part.minus } else { part.minus };
    Part {
        minus: turned,
        shape: part.shape,
    }
}

fn plain(shape: Shape) -> Part
    ensures { result ≡ record { minus = false; shape = shape } }
{
    Part {
        minus: false,
        shape,
    }
}

fn push_turned(found: &mut Vec<Part>, minus: bool, parts: &[Part]) -> Result<(), NoMemory>
    ensures { OnOk result (found.new.items ≡ found.old.items ++ map (turned minus) parts.now) }
{
    for part in parts {
        found.push(turned(minus, *part))?;
    }
    Ok(())
}

fn push_one(found: &mut Vec<Part>, minus: bool, shape: Shape) -> Result<(), NoMemory>
    ensures { OnOk result (found.new.items ≡ found.old.items ++ turned minus (record { minus = false; shape = shape }) ∷ []) }
{
    found.push(turned(minus, plain(shape)))?;
    Ok(())
}

/// Appends what a signed part stands for.
fn push_signed(found: &mut Vec<Part>, draft: &Draft, s: &Signed) -> Result<(), NoMemory>
    ensures { OnOk result (found.new.items ≡ found.old.items ++ parts_signed draft.now s.now) }
{
    match &s.part {
        Cpart::Named(f) => {
            let parts = parts_of(draft.model(), draft.cum_of(f.as_slice()));
            push_turned(found, s.minus, parts)
        }
        Cpart::Pulse(u, v, h) => {
            let (u, v, h) = (int_of(*u), int_of(*v), int_of(*h));
            push_one(found, s.minus, Shape::Pulse { u, v, h })
        }
        Cpart::PulseOf(a, h) => {
            let (a, h) = (draft.itv_of(a.as_slice()), int_of(*h));
            push_one(found, s.minus, Shape::PulseOf { a, h })
        }
        Cpart::Step(u, h) => {
            let (u, h) = (int_of(*u), int_of(*h));
            push_one(found, s.minus, Shape::Step { u, h })
        }
        Cpart::StepAtStart(a, h) => {
            let (a, h) = (draft.itv_of(a.as_slice()), int_of(*h));
            push_one(found, s.minus, Shape::StepAtStart { a, h })
        }
        Cpart::StepAtEnd(a, h) => {
            let (a, h) = (draft.itv_of(a.as_slice()), int_of(*h));
            push_one(found, s.minus, Shape::StepAtEnd { a, h })
        }
    }
}

/// The parts of a cumulative expression, with those of the functions that it names in their place.
pub fn parts_in(alloc: Global, draft: &Draft, c: &Cumul) -> Result<List<Part>, NoMemory>
    ensures { IfOk result (λ ps. ps ≡ parts_in draft.now c.now) }
{
    let mut found = Vec::new(alloc);
    push_signed(&mut found, draft, &c.first)?;
    for s in c.more.as_slice() {
        push_signed(&mut found, draft, s)?;
    }
    Ok(List::from_vec(found))
}
