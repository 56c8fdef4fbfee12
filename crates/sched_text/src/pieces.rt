ghost use Rattle.std.specs.Prelude.{◌≡◌, ◌++◌, ◌∷◌, [], codes, map, if◌then◌else◌};
ghost use Rattle.std.specs.Fmt.{decimal, signed_decimal};
ghost use Rattle.sched_text.specs.Pieces.{range_text, interval_name, matrix_name, state_name, interval_names, commas, listed};
ghost use Rattle.sched_text.specs.code.Printing.{Prints};

use crate::page::{Page, put_text};
use itoa::Buffer;
use sched_base::{Desk, Itv, Mat, Stf, at};
use sched_model::Model;

/// Puts the decimal spelling of a number behind what waits.
pub fn put_number<D: Desk>(page: &mut Page, desk: &mut D, n: i64)
    ensures { Prints (signed_decimal n) page.old page.new (D.state desk.old) (D.state desk.new) }
{
    let mut buffer = Buffer::new();
    put_text(page, desk, buffer.format(n).as_bytes());
}

/// Puts the decimal spelling of a count behind what waits.
pub fn put_count<D: Desk>(page: &mut Page, desk: &mut D, n: u64)
    ensures { Prints (decimal n) page.old page.new (D.state desk.old) (D.state desk.new) }
{
    let mut buffer = Buffer::new();
    put_text(page, desk, buffer.format(n).as_bytes());
}

pub fn put_range<D: Desk>(page: &mut Page, desk: &mut D, lo: i64, hi: i64)
    ensures { Prints (range_text lo hi) page.old page.new (D.state desk.old) (D.state desk.new) }
{
    put_number(page, desk, lo);
    put_text(page, desk, b"..");
    put_number(page, desk, hi);
}

pub fn put_interval<D: Desk>(page: &mut Page, desk: &mut D, model: &Model, x: Itv)
    ensures { Prints (interval_name model.now x) page.old page.new (D.state desk.old) (D.state desk.new) }
{
    if let Some(d) = at(model.intervals(), x.0 as usize) {
        put_text(page, desk, d.name.as_slice());
    }
}

pub fn put_matrix<D: Desk>(page: &mut Page, desk: &mut D, model: &Model, x: Mat)
    ensures { Prints (matrix_name model.now x) page.old page.new (D.state desk.old) (D.state desk.new) }
{
    if let Some(d) = at(model.matrices(), x.0 as usize) {
        put_text(page, desk, d.name.as_slice());
    }
}

pub fn put_state<D: Desk>(page: &mut Page, desk: &mut D, model: &Model, g: Stf)
    ensures { Prints (state_name model.now g) page.old page.new (D.state desk.old) (D.state desk.new) }
{
    if let Some(d) = at(model.states(), g.0 as usize) {
        put_text(page, desk, d.name.as_slice());
    }
}

/// A word and the bracket behind it.
pub fn put_open<D: Desk>(page: &mut Page, desk: &mut D, word: &[u8])
    ensures { Prints (word.now ++ codes "(") page.old page.new (D.state desk.old) (D.state desk.new) }
{
    put_text(page, desk, word);
    put_text(page, desk, b"(");
}

/// A comma and a number.
pub fn put_next_number<D: Desk>(page: &mut Page, desk: &mut D, n: i64)
    ensures { Prints (codes "," ++ signed_decimal n) page.old page.new (D.state desk.old) (D.state desk.new) }
{
    put_text(page, desk, b",");
    put_number(page, desk, n);
}

/// A comma and the name of an interval.
pub fn put_next_interval<D: Desk>(page: &mut Page, desk: &mut D, model: &Model, x: Itv)
    ensures { Prints (codes "," ++ interval_name model.now x) page.old page.new (D.state desk.old) (D.state desk.new) }
{
    put_text(page, desk, b",");
    put_interval(page, desk, model, x);
}

/// A comma, where an item stands before it.
pub fn put_comma<D: Desk>(page: &mut Page, desk: &mut D, is_first: bool)
    ensures { Prints (if is_first then [] else codes ",") page.old page.new (D.state desk.old) (D.state desk.new) }
{
    if is_first {
        return;
    }
    put_text(page, desk, b",");
}

/// The names of some intervals, with commas between them.
fn put_items<D: Desk>(page: &mut Page, desk: &mut D, model: &Model, xs: &[Itv])
    ensures { Prints (commas (map (interval_name model.now) xs.now)) page.old page.new (D.state desk.old) (D.state desk.new) }
{
    let mut is_first = true;
    for x in xs {
        put_comma(page, desk, is_first);
        put_interval(page, desk, model, *x);
        is_first = false;
    }
}

/// The names of some intervals, in square brackets.
pub fn put_names<D: Desk>(page: &mut Page, desk: &mut D, model: &Model, xs: &[Itv])
    ensures { Prints (listed (interval_names model.now xs.now)) page.old page.new (D.state desk.old) (D.state desk.new) }
{
    put_text(page, desk, b"[");
    put_items(page, desk, model, xs);
    put_text(page, desk, b"]");
}
