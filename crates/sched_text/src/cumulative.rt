//! Cumulative functions: their parts, with signs.
ghost use Rattle.std.specs.Prelude.{◌≡◌, ◌++◌, ◌∷◌, [], codes, flat_map, if◌then◌else◌};
ghost use Rattle.std.specs.Fmt.{signed_decimal};
ghost use Rattle.sched_text.specs.Pieces.{call, interval_name};
ghost use Rattle.sched_text.specs.Canonical.{shape_text, later_part, parts_text, cumul_text, function_text};
ghost use Rattle.sched_text.specs.code.Printing.{Prints};

use crate::page::{Page, put_text};
use crate::pieces::{put_interval, put_next_number, put_number, put_open};
use sched_base::{Cum, Desk, Itv, at};
use sched_model::{CumulDef, Model, Part, Shape};

/// A call of an interval and a height.
fn put_height_of<D: Desk>(page: &mut Page, desk: &mut D, model: &Model, word: &[u8], x: Itv, h: i64)
    ensures { Prints (call word.now (interval_name model.now x ∷ signed_decimal h ∷ [])) page.old page.new (D.state desk.old) (D.state desk.new) }
{
    put_open(page, desk, word);
    put_interval(page, desk, model, x);
    put_next_number(page, desk, h);
    put_text(page, desk, b")");
}

fn put_pulse<D: Desk>(page: &mut Page, desk: &mut D, u: i64, v: i64, h: i64)
    ensures { Prints (call (codes "pulse") (signed_decimal u ∷ signed_decimal v ∷ signed_decimal h ∷ [])) page.old page.new (D.state desk.old) (D.state desk.new) }
{
    put_text(page, desk, b"pulse(");
    put_number(page, desk, u);
    put_next_number(page, desk, v);
    put_next_number(page, desk, h);
    put_text(page, desk, b")");
}

fn put_step<D: Desk>(page: &mut Page, desk: &mut D, u: i64, h: i64)
    ensures { Prints (call (codes "step") (signed_decimal u ∷ signed_decimal h ∷ [])) page.old page.new (D.state desk.old) (D.state desk.new) }
{
    put_text(page, desk, b"step(");
    put_number(page, desk, u);
    put_next_number(page, desk, h);
    put_text(page, desk, b")");
}

fn put_shape<D: Desk>(page: &mut Page, desk: &mut D, model: &Model, shape: Shape)
    ensures { Prints (shape_text model.now shape) page.old page.new (D.state desk.old) (D.state desk.new) }
{
    match shape {
        Shape::Pulse { u, v, h } => put_pulse(page, desk, u, v, h),
        Shape::Step { u, h } => put_step(page, desk, u, h),
        Shape::PulseOf { a, h } => put_height_of(page, desk, model, b"pulse", a, h),
        Shape::StepAtStart { a, h } => put_height_of(page, desk, model, b"stepAtStart", a, h),
        Shape::StepAtEnd { a, h } => put_height_of(page, desk, model, b"stepAtEnd", a, h),
    }
}

/// The sign of a part behind the first.
fn sign_of(minus: bool) -> &'static [u8]
    ensures { result.now ≡ (if minus then codes "-" else codes "+") }
{
    if minus { b"-" } else { b"+" }
}

/// The sign of the first part.
fn first_sign(minus: bool) -> &'static [u8]
    ensures { result.now ≡ (if minus then codes "-" else []) }
{
    if minus { b"-" } else { b"" }
}

/// A part behind the first, with its sign.
fn put_later_part<D: Desk>(page: &mut Page, desk: &mut D, model: &Model, part: Part)
    ensures { Prints (later_part model.now part) page.old page.new (D.state desk.old) (D.state desk.new) }
{
    put_text(page, desk, sign_of(part.minus));
    put_shape(page, desk, model, part.shape);
}

/// The parts behind the first, each with its sign.
fn put_later_parts<D: Desk>(page: &mut Page, desk: &mut D, model: &Model, parts: &[Part])
    ensures { Prints (flat_map (later_part model.now) parts.now) page.old page.new (D.state desk.old) (D.state desk.new) }
{
    for part in parts {
        put_later_part(page, desk, model, *part);
    }
}

pub fn put_parts<D: Desk>(page: &mut Page, desk: &mut D, model: &Model, parts: &[Part])
    ensures { Prints (parts_text model.now parts.now) page.old page.new (D.state desk.old) (D.state desk.new) }
{
    if parts.is_empty() {
        return;
    }
    put_text(page, desk, first_sign(parts[0].minus));
    put_shape(page, desk, model, parts[0].shape);
    let (_, later) = parts.split_at(1);
    put_later_parts(page, desk, model, later);
}

/// A function by its name, or written out.
fn put_cumul<D: Desk>(page: &mut Page, desk: &mut D, model: &Model, d: &CumulDef)
    ensures { Prints (cumul_text model.now d.now) page.old page.new (D.state desk.old) (D.state desk.new) }
{
    match &d.name {
        Some(name) => put_text(page, desk, name.as_slice()),
        None => put_parts(page, desk, model, d.parts.as_slice()),
    }
}

/// A function in a constraint.
pub fn put_function<D: Desk>(page: &mut Page, desk: &mut D, model: &Model, f: Cum)
    ensures { Prints (function_text model.now f) page.old page.new (D.state desk.old) (D.state desk.new) }
{
    if let Some(d) = at(model.cumuls(), f.0 as usize) {
        put_cumul(page, desk, model, d);
    }
}
