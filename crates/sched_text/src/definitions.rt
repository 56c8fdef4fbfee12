//! Definitions, each in a line of its own.
ghost use Rattle.std.specs.Prelude.{◌≡◌, ◌++◌, ◌∷◌, [], codes, map, take, drop, if◌then◌else◌};
ghost use Rattle.std.specs.Fmt.{decimal, signed_decimal};
ghost use Rattle.sched_text.specs.Pieces.{call, commas, listed, range_text};
ghost use Rattle.sched_text.specs.Canonical.{given, interval_text, list_text, matrix_text, named_cumul_text, named_sequence_text, optional_items, range_items, rows, state_items, state_text, types_text};
ghost use Rattle.sched_text.specs.code.Printing.{Prints};

use crate::cumulative::put_parts;
use crate::page::{Page, put_text};
use crate::pieces::{put_comma, put_count, put_matrix, put_names, put_number, put_range};
use sched_base::{Desk, List, Mat};
use sched_model::{CumulDef, IntervalDef, MatrixDef, Model, SequenceDef, StateDef};

fn put_given<D: Desk>(page: &mut Page, desk: &mut D, word: &[u8], lo: i64, hi: i64)
    ensures { Prints (given word.now (range_text lo hi)) page.old page.new (D.state desk.old) (D.state desk.new) }
{
    put_text(page, desk, word);
    put_text(page, desk, b"=");
    put_range(page, desk, lo, hi);
}

/// The word that an interval which may be absent has first.
fn first_word(optional: bool) -> &'static [u8]
    ensures { result.now ≡ (if optional then codes "optional," else []) }
{
    if optional { b"optional," } else { b"" }
}

/// The three ranges of an interval.
fn put_ranges<D: Desk>(page: &mut Page, desk: &mut D, d: &IntervalDef)
    ensures { Prints (commas (range_items d.now)) page.old page.new (D.state desk.old) (D.state desk.new) }
{
    put_given(page, desk, b"start", d.start_lo, d.start_hi);
    put_text(page, desk, b",");
    put_given(page, desk, b"end", d.end_lo, d.end_hi);
    put_text(page, desk, b",");
    put_given(page, desk, b"size", d.size_lo, d.size_hi);
}

fn put_interval_call<D: Desk>(page: &mut Page, desk: &mut D, d: &IntervalDef)
    ensures { Prints (call (codes "intervalVar") (optional_items d.now.optional ++ range_items d.now)) page.old page.new (D.state desk.old) (D.state desk.new) }
{
    put_text(page, desk, b"intervalVar(");
    put_text(page, desk, first_word(d.optional));
    put_ranges(page, desk, d);
    put_text(page, desk, b")");
}

pub fn put_interval_def<D: Desk>(page: &mut Page, desk: &mut D, d: &IntervalDef)
    ensures { Prints (interval_text d.now) page.old page.new (D.state desk.old) (D.state desk.new) }
{
    put_text(page, desk, d.name.as_slice());
    put_text(page, desk, b" = ");
    put_interval_call(page, desk, d);
    put_text(page, desk, b";\n");
}

fn put_cell<D: Desk>(page: &mut Page, desk: &mut D, n: &i64)
    ensures { Prints (signed_decimal n.now) page.old page.new (D.state desk.old) (D.state desk.new) }
{
    put_number(page, desk, *n);
}

/// Numbers with commas between them.
fn put_numbers<D: Desk>(page: &mut Page, desk: &mut D, numbers: &[i64])
    ensures { Prints (commas (map signed_decimal numbers.now)) page.old page.new (D.state desk.old) (D.state desk.new) }
{
    let mut is_first = true;
    for n in numbers {
        put_comma(page, desk, is_first);
        put_cell(page, desk, n);
        is_first = false;
    }
}

/// Numbers in square brackets.
fn put_row<D: Desk>(page: &mut Page, desk: &mut D, numbers: &[i64])
    ensures { Prints (listed (map signed_decimal numbers.now)) page.old page.new (D.state desk.old) (D.state desk.new) }
{
    put_text(page, desk, b"[");
    put_numbers(page, desk, numbers);
    put_text(page, desk, b"]");
}

/// The first n cells and the others, or all cells where there are fewer.
fn cut(cells: &[i64], n: usize) -> (&[i64], &[i64])
    ensures row { result.0.now ≡ take n cells.now }
    ensures others { result.1.now ≡ drop n cells.now }
{
    cells.split_at(n.min(cells.len()))
}

/// Cells in n rows of n, with commas between the rows.
fn put_rows<D: Desk>(page: &mut Page, desk: &mut D, n: usize, cells: &[i64])
    ensures { Prints (commas (rows n n cells.now)) page.old page.new (D.state desk.old) (D.state desk.new) }
{
    let mut is_first = true;
    let mut rest = cells;
    let mut left = n;
    while left > 0 {
        let (row, others) = cut(rest, n);
        put_comma(page, desk, is_first);
        put_row(page, desk, row);
        is_first = false;
        rest = others;
        left -= 1;
    }
}

pub fn put_matrix_def<D: Desk>(page: &mut Page, desk: &mut D, d: &MatrixDef)
    ensures { Prints (matrix_text d.now) page.old page.new (D.state desk.old) (D.state desk.new) }
{
    put_text(page, desk, d.name.as_slice());
    put_text(page, desk, b" = transitionMatrix([");
    put_rows(page, desk, d.size as usize, d.cells.as_slice());
    put_text(page, desk, b"]);\n");
}

fn put_type<D: Desk>(page: &mut Page, desk: &mut D, n: &u32)
    ensures { Prints (decimal n.now) page.old page.new (D.state desk.old) (D.state desk.new) }
{
    put_count(page, desk, u64::from(*n));
}

/// Types with commas between them.
fn put_types<D: Desk>(page: &mut Page, desk: &mut D, types: &[u32])
    ensures { Prints (commas (map decimal types.now)) page.old page.new (D.state desk.old) (D.state desk.new) }
{
    let mut is_first = true;
    for n in types {
        put_comma(page, desk, is_first);
        put_type(page, desk, n);
        is_first = false;
    }
}

/// A comma and the types of a sequence.
fn put_given_types<D: Desk>(page: &mut Page, desk: &mut D, types: &[u32])
    ensures { Prints (codes "," ++ given (codes "types") (listed (map decimal types.now))) page.old page.new (D.state desk.old) (D.state desk.new) }
{
    put_text(page, desk, b",types=[");
    put_types(page, desk, types);
    put_text(page, desk, b"]");
}

/// The types of a sequence, where it has them.
fn put_own_types<D: Desk>(page: &mut Page, desk: &mut D, types: &Option<List<u32>>)
    ensures { Prints (types_text types.now) page.old page.new (D.state desk.old) (D.state desk.new) }
{
    match types {
        None => {}
        Some(types) => put_given_types(page, desk, types.as_slice()),
    }
}

fn put_sequence_call<D: Desk>(page: &mut Page, desk: &mut D, model: &Model, d: &SequenceDef)
    ensures { Prints (call (codes "sequenceVar") ((list_text model.now d.now.members ++ types_text d.now.types) ∷ [])) page.old page.new (D.state desk.old) (D.state desk.new) }
{
    put_text(page, desk, b"sequenceVar(");
    put_names(page, desk, model, d.members.as_slice());
    put_own_types(page, desk, &d.types);
    put_text(page, desk, b")");
}

/// A sequence that has a name.
pub fn put_sequence_def<D: Desk>(page: &mut Page, desk: &mut D, model: &Model, d: &SequenceDef)
    ensures { Prints (named_sequence_text model.now d.now) page.old page.new (D.state desk.old) (D.state desk.new) }
{
    let Some(name) = &d.name else {
        return;
    };
    put_text(page, desk, name.as_slice());
    put_text(page, desk, b" = ");
    put_sequence_call(page, desk, model, d);
    put_text(page, desk, b";\n");
}

/// A cumulative function that has a name.
pub fn put_cumul_def<D: Desk>(page: &mut Page, desk: &mut D, model: &Model, d: &CumulDef)
    ensures { Prints (named_cumul_text model.now d.now) page.old page.new (D.state desk.old) (D.state desk.new) }
{
    let Some(name) = &d.name else {
        return;
    };
    put_text(page, desk, name.as_slice());
    put_text(page, desk, b" = ");
    put_parts(page, desk, model, d.parts.as_slice());
    put_text(page, desk, b";\n");
}

/// The matrix of a state function, where it has one.
fn put_own_matrix<D: Desk>(page: &mut Page, desk: &mut D, model: &Model, matrix: Option<Mat>)
    ensures { Prints (commas (state_items model.now matrix)) page.old page.new (D.state desk.old) (D.state desk.new) }
{
    match matrix {
        None => {}
        Some(x) => put_matrix(page, desk, model, x),
    }
}

pub fn put_state_def<D: Desk>(page: &mut Page, desk: &mut D, model: &Model, d: &StateDef)
    ensures { Prints (state_text model.now d.now) page.old page.new (D.state desk.old) (D.state desk.new) }
{
    put_text(page, desk, d.name.as_slice());
    put_text(page, desk, b" = stateFunction(");
    put_own_matrix(page, desk, model, d.matrix);
    put_text(page, desk, b");\n");
}
