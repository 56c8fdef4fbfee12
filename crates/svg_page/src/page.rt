//! The whole page.
ghost use Rattle.std.specs.Prelude.{◌≡◌, ◌<◌, ◌^◌, ◌++◌, OnOk, IfOk, length, pos};
ghost use Rattle.svg_page.specs.Axis.{axis_of, lasting};
ghost use Rattle.svg_page.specs.Page.{IsPage, absent_list, below, chart, drawings_height, head, margin, page_height, page_of, rows, rows_height, style};

use crate::axis::{axis_length, axis_of};
use crate::bars::push_bars;
use crate::cumuls::push_cumuls;
use crate::labels::{Frame, push_absent_names, push_bar_names, push_lane_labels};
use crate::lanes::{Lane, absent_of, down_to, lanes_of, letter_size};
use crate::profiles::{Step, profiles_of};
use crate::states::push_states;
use crate::text::{Scale, push, push_count, push_group, push_scaled};
use crate::ticks::push_ticks;
use sched_base::{List, NoMemory};
use sched_model::{Assignment, Model};
use std::alloc::Global;

/// What a page shows, counted.
#[derive(Clone, Copy, Debug)]
pub struct Counts {
    pub rows: usize,
    pub cumuls: usize,
    pub states: usize,
    pub absent: usize,
}

fn drawings_height(n: Counts) -> u128
    ensures value { result ≡ drawings_height n.rows n.cumuls n.states }
    ensures few { result < 2 ^ 100 }
{
    down_to(n.rows, n.rows) + 90 * n.cumuls as u128 + 36 * n.states as u128 + 15
}

fn page_height(n: Counts) -> u128
    ensures { result ≡ page_height n.rows n.cumuls n.states n.absent }
{
    drawings_height(n) + 18 * (n.absent / 6) as u128 + 70
}

/// The colours of the page.
fn push_style(page: &mut Vec<u8>) -> Result<(), NoMemory>
    ensures { OnOk result (page.new.items ≡ page.old.items ++ style) }
{
    push(
        page,
        b"<style>text{fill:#222}.g{stroke:#ccc}.o{fill:none;stroke:#555;stroke-width:.7}.p{fill:#6ea3cc}.b{fill:#e9b7b5}",
    )?;
    push(
        page,
        b".c0{fill:#9ecae1}.c1{fill:#fdd0a2}.c2{fill:#c7e9c0}.c3{fill:#dadaeb}.c4{fill:#fcbba1}.c5{fill:#d9d9d9}.c6{fill:#fff2ae}.c7{fill:#b3e2cd}</style>\n<rect width='100%' height='100%' fill='#fff'/>\n",
    )
}

fn push_head(page: &mut Vec<u8>, n: Counts) -> Result<(), NoMemory>
    ensures { OnOk result (page.new.items ≡ page.old.items ++ head n.rows (page_height n.rows n.cumuls n.states n.absent)) }
{
    push_count(
        page,
        b"<svg xmlns='http://www.w3.org/2000/svg' width='1180' height='",
        page_height(n),
    )?;
    push_count(
        page,
        b"' font-family='sans-serif' font-size='",
        letter_size(n.rows),
    )?;
    push(page, b"'>\n")?;
    push_style(page)
}

fn scale_of(frame: Frame) -> Scale
    ensures { result ≡ record { height = rows_height frame.rows; left = frame.axis.from; top = pos 0; width = lasting frame.axis.from frame.axis.to; units = pos frame.rows } }
{
    Scale {
        height: down_to(frame.rows, frame.rows),
        left: frame.axis.from,
        top: 0,
        width: axis_length(frame.axis),
        units: frame.rows as i128,
    }
}

/// The bars of the rows, and the names upon them.
fn push_rows(
    page: &mut Vec<u8>,
    model: &Model,
    a: &Assignment,
    frame: Frame,
    lanes: &[Lane],
) -> Result<(), NoMemory>
    ensures { OnOk result (page.new.items ≡ page.old.items ++ rows model.now a.now frame.axis lanes.now frame.rows) }
{
    push_scaled(page, scale_of(frame))?;
    push_bars(page, model, a, lanes)?;
    push(page, b"</svg>\n")?;
    push_bar_names(page, model, a, frame, lanes)
}

/// The ticks and the rows.
fn push_chart(
    page: &mut Vec<u8>,
    model: &Model,
    a: &Assignment,
    frame: Frame,
    lanes: &[Lane],
    height: u128,
) -> Result<(), NoMemory>
    ensures { OnOk result (page.new.items ≡ page.old.items ++ chart model.now a.now frame.axis lanes.now frame.rows height) }
{
    push_group(page, 160, 30)?;
    push_ticks(page, frame.axis, height)?;
    push_rows(page, model, a, frame, lanes)?;
    push(page, b"</g>\n")
}

/// The names of the rows.
fn push_margin(
    page: &mut Vec<u8>,
    alloc: Global,
    model: &Model,
    rows: usize,
    lanes: &[Lane],
) -> Result<(), NoMemory>
    ensures { OnOk result (page.new.items ≡ page.old.items ++ margin model.now lanes.now rows) }
{
    push_group(page, 5, 30)?;
    push_lane_labels(page, alloc, model, rows, lanes)?;
    push(page, b"</g>\n")
}

/// How many intervals are absent, and their names.
fn push_absent_list(page: &mut Vec<u8>, model: &Model, absent: &[usize]) -> Result<(), NoMemory>
    ensures { OnOk result (page.new.items ≡ page.old.items ++ absent_list model.now absent.now) }
{
    push_count(page, b"<text x='8' y='13'>", absent.len() as u128)?;
    push(page, b" absent</text>\n")?;
    push_group(page, 160, 0)?;
    push_absent_names(page, model, absent)?;
    push(page, b"</g>\n")
}

/// What stands below the rows.
fn push_below(
    page: &mut Vec<u8>,
    alloc: Global,
    model: &Model,
    a: &Assignment,
    frame: Frame,
    profiles: &[List<Step>],
    absent: &[usize],
) -> Result<(), NoMemory>
    ensures { OnOk result (page.new.items ≡ page.old.items ++ below model.now a.now frame.axis profiles.now absent.now frame.rows (length model.now.cumuls) (length model.now.states)) }
{
    push_group(page, 0, down_to(frame.rows, frame.rows) + 45)?;
    push_cumuls(page, alloc, model, a, frame.axis, profiles)?;
    push_group(page, 0, 90 * model.cumuls().len() as u128)?;
    push_states(page, alloc, model, a, frame.axis)?;
    push_group(page, 0, 36 * model.states().len() as u128)?;
    push_absent_list(page, model, absent)
}

fn frame_of(a: &Assignment, rows: usize) -> Frame
    ensures { result ≡ record { axis = axis_of a.now.slots; rows = rows } }
{
    Frame {
        axis: axis_of(a.slots.as_slice()),
        rows,
    }
}

fn counts_of(model: &Model, rows: usize, absent: usize) -> Counts
    ensures { result ≡ record { rows = rows; cumuls = length model.now.cumuls; states = length model.now.states; absent = absent } }
{
    Counts {
        rows,
        cumuls: model.cumuls().len(),
        states: model.states().len(),
        absent,
    }
}

/// All parts of the page, one behind the other.
fn push_page(
    page: &mut Vec<u8>,
    alloc: Global,
    model: &Model,
    a: &Assignment,
    profiles: &[List<Step>],
    lanes: &[Lane],
    absent: &[usize],
) -> Result<(), NoMemory>
    ensures { OnOk result (page.new.items ≡ page.old.items ++ page_of model.now a.now profiles.now (axis_of a.now.slots) lanes.now absent.now) }
{
    let frame = frame_of(a, lanes.len());
    let counts = counts_of(model, lanes.len(), absent.len());
    push_head(page, counts)?;
    push_chart(page, model, a, frame, lanes, drawings_height(counts))?;
    push_margin(page, alloc, model, lanes.len(), lanes)?;
    push_below(page, alloc, model, a, frame, profiles, absent)?;
    push(page, b"</g></g></g></svg>\n")
}

/// The page of a schedule. Its drawing of the rows and the functions is in units of the schedule's own,
/// so that the numbers of a bar are the start and the end of its interval, and those of a profile its
/// moments and levels.
pub fn svg_page(alloc: Global, model: &Model, a: &Assignment) -> Result<Vec<u8>, NoMemory>
    ensures { IfOk result (λ v. IsPage model.now a.now v.items) }
{
    let profiles = profiles_of(alloc, a, model.cumuls())?;
    let lanes = lanes_of(alloc, model, a)?;
    let absent = absent_of(alloc, a.slots.as_slice())?;
    let mut page = Vec::new(alloc);
    push_page(
        &mut page,
        alloc,
        model,
        a,
        profiles.as_slice(),
        lanes.as_slice(),
        absent.as_slice(),
    )?;
    Ok(page)
}
