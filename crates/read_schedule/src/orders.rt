ghost use Rattle.std.specs.Prelude.{◌≡◌, ◌<◌, true, IfOk, length};
ghost use Rattle.sched_model.specs.Domain.{is_in_domain, lists_present};
ghost use Rattle.sched_model.specs.Valid.{IsValid};
ghost use Rattle.sched_text.specs.Answers.{label};
ghost use Rattle.sched_text.specs.Pieces.{interval_names};
ghost use Rattle.textline.specs.Lines.{words_of};
ghost use Rattle.read_schedule.specs.code.Reads.{ReadsBeside, TriesAll, TriesRow, are_all_itvs, numbered, sequence_at};
ghost use Rattle.read_schedule.specs.code.Rows.{order_row};

use crate::assignment::try_order;
use crate::index::Index;
use crate::lines::Lines;
use crate::stop::PartStop;
use itoa::Buffer;
use sched_base::{Itv, List, NoMemory};
use sched_model::{Assignment, Model, SequenceDef};
use std::alloc::Global;
use textline::Words;

/// The name of a sequence, or its number where it has none.
fn label(alloc: Global, i: usize, d: &SequenceDef) -> Result<Vec<u8>, NoMemory>
    ensures { IfOk result (λ v. v.items ≡ label i d.now.name) }
{
    let mut bytes = Vec::new(alloc);
    match &d.name {
        Some(name) => bytes.extend_from_slice(name.as_slice())?,
        None => {
            let mut buffer = Buffer::new();
            bytes.extend_from_slice(b"#")?;
            bytes.extend_from_slice(buffer.format(i as u64).as_bytes())?;
        }
    }
    Ok(bytes)
}

/// The intervals whose names all the words are.
fn read_members(
    alloc: Global,
    model: &Model,
    index: &Index,
    words: &mut Words<'_>,
) -> Result<List<Itv>, PartStop>
    requires { index.now ≡ numbered 0 model.now.intervals }
    ensures { TriesAll (interval_names model.now) (are_all_itvs model.now) words.old result }
{
    let mut order = List::new(alloc);
    loop {
        let Some(word) = words.next() else {
            return Ok(order);
        };
        let Some(x) = index.find(word) else {
            return Err(PartStop::Line(0));
        };
        order.push(x)?;
    }
}

/// The order in the words of a sequence's line.
fn read_words(
    alloc: Global,
    model: &Model,
    index: &Index,
    i: usize,
    line: &[u8],
) -> Result<List<Itv>, PartStop>
    requires index { index.now ≡ numbered 0 model.now.intervals }
    requires within { i < length model.now.sequences }
    ensures { TriesAll (order_row model.now i (sequence_at model.now i)) (are_all_itvs model.now) (words_of line.now) result }
{
    let name = label(alloc, i, &model.sequences()[i])?;
    let mut words = Words::of(line);
    if !words.take(b"order") {
        return Err(PartStop::Line(0));
    }
    if !words.take(name.as_slice()) {
        return Err(PartStop::Line(0));
    }
    read_members(alloc, model, index, &mut words)
}

/// The order in the next line.
fn next_order(
    alloc: Global,
    model: &Model,
    index: &Index,
    i: usize,
    a: Assignment,
    lines: &mut Lines<'_>,
) -> Result<(Assignment, List<Itv>), PartStop>
    requires valid { IsValid model.now }
    requires domain { is_in_domain model.now a ≡ true }
    requires index { index.now ≡ numbered 0 model.now.intervals }
    requires within { i < length model.now.sequences }
    ensures same { IfOk result (λ p. p.0 ≡ a) }
    ensures row { TriesRow (order_row model.now i (sequence_at model.now i)) (lists_present a (sequence_at model.now i)) lines.old lines.new result }
{
    let Some(line) = lines.next() else {
        return Err(PartStop::Line(0));
    };
    let order = read_words(alloc, model, index, i, line)?;
    let (a, order, fits) = try_order(model, a, i, order);
    if fits {
        return Ok((a, order));
    }
    Err(PartStop::Line(0))
}

/// Reads the lines of the sequences. The assignment in the domain has the slots that were read.
pub fn read_orders(
    alloc: Global,
    model: &Model,
    index: &Index,
    a: Assignment,
    lines: &mut Lines<'_>,
) -> Result<(Assignment, List<List<Itv>>), PartStop>
    requires domain { is_in_domain model.now a ≡ true }
    requires index { index.now ≡ numbered 0 model.now.intervals }
    ensures { ReadsBeside (order_row model.now) (lists_present a) model.now.sequences a lines.old lines.new result }
{
    let mut a = a;
    let mut orders = List::new(alloc);
    for i in 0..model.sequences().len() {
        match next_order(alloc, model, index, i, a, lines) {
            Ok((back, order)) => {
                a = back;
                orders.push(order)?;
            }
            Err(PartStop::Line(_)) => return Err(PartStop::Line(i)),
            Err(PartStop::NoMemory) => return Err(PartStop::NoMemory),
        }
    }
    Ok((a, orders))
}
