//! Constraints.
ghost use Rattle.std.specs.Prelude.{◌≡◌, ◌++◌, ◌∷◌, [], codes, pos, if◌then◌else◌, Some};
ghost use Rattle.std.specs.Ordering.{int_eq};
ghost use Rattle.std.specs.Fmt.{signed_decimal};
ghost use Rattle.sched_text.specs.Pieces.{call, interval_name, state_name};
ghost use Rattle.sched_text.specs.Canonical.{flag, temporal_word, list_text, count_items, use_text, over_text, distance_text, bounded_text, within_text, function_text, constraint_text};
ghost use Rattle.sched_text.specs.code.Printing.{Prints};

use crate::cumulative::put_function;
use crate::expressions::put_whole;
use crate::page::{Page, put_text};
use crate::pieces::{
    put_interval, put_matrix, put_names, put_next_interval, put_next_number, put_number, put_open,
    put_state,
};
use sched_base::{Cum, Desk, Itv, Mat, NUMBER_LIMIT, Seq, Stf, at};
use sched_model::{Constraint, End, Model, SequenceDef, Window};

fn temporal_word(from: End, to: End, equal: bool) -> &'static [u8]
    ensures { result.now ≡ temporal_word from to equal }
{
    match (from, to, equal) {
        (End::Start, End::Start, false) => b"startBeforeStart",
        (End::Start, End::Finish, false) => b"startBeforeEnd",
        (End::Finish, End::Start, false) => b"endBeforeStart",
        (End::Finish, End::Finish, false) => b"endBeforeEnd",
        (End::Start, End::Start, true) => b"startAtStart",
        (End::Start, End::Finish, true) => b"startAtEnd",
        (End::Finish, End::Start, true) => b"endAtStart",
        (End::Finish, End::Finish, true) => b"endAtEnd",
    }
}

fn flag(b: bool) -> &'static [u8]
    ensures { result.now ≡ flag b }
{
    if b { b"1" } else { b"0" }
}

/// A comma and a flag.
fn put_next_flag<D: Desk>(page: &mut Page, desk: &mut D, b: bool)
    ensures { Prints (codes "," ++ flag b) page.old page.new (D.state desk.old) (D.state desk.new) }
{
    put_text(page, desk, b",");
    put_text(page, desk, flag(b));
}

fn put_temporal<D: Desk>(
    page: &mut Page,
    desk: &mut D,
    model: &Model,
    word: &[u8],
    x: Itv,
    y: Itv,
    z: i64,
)
    ensures { Prints (call word.now (interval_name model.now x ∷ interval_name model.now y ∷ signed_decimal z ∷ [])) page.old page.new (D.state desk.old) (D.state desk.new) }
{
    put_open(page, desk, word);
    put_interval(page, desk, model, x);
    put_next_interval(page, desk, model, y);
    put_next_number(page, desk, z);
    put_text(page, desk, b")");
}

/// A comma and the names of some intervals.
fn put_next_names<D: Desk>(page: &mut Page, desk: &mut D, model: &Model, xs: &[Itv])
    ensures { Prints (codes "," ++ list_text model.now xs.now) page.old page.new (D.state desk.old) (D.state desk.new) }
{
    put_text(page, desk, b",");
    put_names(page, desk, model, xs);
}

/// A call of an interval and a list of intervals.
fn put_hierarchy<D: Desk>(
    page: &mut Page,
    desk: &mut D,
    model: &Model,
    word: &[u8],
    x: Itv,
    parts: &[Itv],
)
    ensures { Prints (call word.now (interval_name model.now x ∷ list_text model.now parts.now ∷ [])) page.old page.new (D.state desk.old) (D.state desk.new) }
{
    put_open(page, desk, word);
    put_interval(page, desk, model, x);
    put_next_names(page, desk, model, parts);
    put_text(page, desk, b")");
}

fn is_one(n: i64) -> bool
    ensures { result ≡ int_eq n (pos 1) }
{
    n == 1
}

/// A comma and how many parts an alternative chooses, where it isn't one.
fn put_next_chosen<D: Desk>(page: &mut Page, desk: &mut D, count: i64)
    ensures { Prints (if int_eq count (pos 1) then [] else codes "," ++ signed_decimal count) page.old page.new (D.state desk.old) (D.state desk.new) }
{
    if is_one(count) {
        return;
    }
    put_next_number(page, desk, count);
}

/// An interval and its parts, of which so many are chosen.
fn put_alternative<D: Desk>(
    page: &mut Page,
    desk: &mut D,
    model: &Model,
    x: Itv,
    parts: &[Itv],
    count: i64,
)
    ensures { Prints (call (codes "alternative") (interval_name model.now x ∷ list_text model.now parts.now ∷ count_items count)) page.old page.new (D.state desk.old) (D.state desk.new) }
{
    put_open(page, desk, b"alternative");
    put_interval(page, desk, model, x);
    put_next_names(page, desk, model, parts);
    put_next_chosen(page, desk, count);
    put_text(page, desk, b")");
}

/// A sequence by its name, or as its list.
fn put_use<D: Desk>(page: &mut Page, desk: &mut D, model: &Model, d: &SequenceDef)
    ensures { Prints (use_text model.now d.now) page.old page.new (D.state desk.old) (D.state desk.new) }
{
    match &d.name {
        Some(name) => put_text(page, desk, name.as_slice()),
        None => put_names(page, desk, model, d.members.as_slice()),
    }
}

/// A sequence in a constraint.
fn put_over<D: Desk>(page: &mut Page, desk: &mut D, model: &Model, p: Seq)
    ensures { Prints (over_text model.now p) page.old page.new (D.state desk.old) (D.state desk.new) }
{
    if let Some(d) = at(model.sequences(), p.0 as usize) {
        put_use(page, desk, model, d);
    }
}

/// The matrix and the flag of a `noOverlap`, each behind a comma.
fn put_distance<D: Desk>(page: &mut Page, desk: &mut D, model: &Model, x: Mat, direct: bool)
    ensures { Prints (distance_text model.now (Some x) direct) page.old page.new (D.state desk.old) (D.state desk.new) }
{
    put_text(page, desk, b",");
    put_matrix(page, desk, model, x);
    put_text(page, desk, b",");
    put_text(page, desk, flag(direct));
}

/// The same, where there is a matrix.
fn put_distances<D: Desk>(
    page: &mut Page,
    desk: &mut D,
    model: &Model,
    matrix: Option<Mat>,
    direct: bool,
)
    ensures { Prints (distance_text model.now matrix direct) page.old page.new (D.state desk.old) (D.state desk.new) }
{
    match matrix {
        None => {}
        Some(x) => put_distance(page, desk, model, x, direct),
    }
}

fn put_no_overlap<D: Desk>(
    page: &mut Page,
    desk: &mut D,
    model: &Model,
    p: Seq,
    matrix: Option<Mat>,
    direct: bool,
)
    ensures { Prints (call (codes "noOverlap") ((over_text model.now p ++ distance_text model.now matrix direct) ∷ [])) page.old page.new (D.state desk.old) (D.state desk.new) }
{
    put_text(page, desk, b"noOverlap(");
    put_over(page, desk, model, p);
    put_distances(page, desk, model, matrix, direct);
    put_text(page, desk, b")");
}

/// A call of a sequence and one member.
fn put_placed<D: Desk>(page: &mut Page, desk: &mut D, model: &Model, word: &[u8], p: Seq, x: Itv)
    ensures { Prints (call word.now (over_text model.now p ∷ interval_name model.now x ∷ [])) page.old page.new (D.state desk.old) (D.state desk.new) }
{
    put_open(page, desk, word);
    put_over(page, desk, model, p);
    put_next_interval(page, desk, model, x);
    put_text(page, desk, b")");
}

/// A call of a sequence and two members.
fn put_ordered<D: Desk>(
    page: &mut Page,
    desk: &mut D,
    model: &Model,
    word: &[u8],
    p: Seq,
    x: Itv,
    y: Itv,
)
    ensures { Prints (call word.now (over_text model.now p ∷ interval_name model.now x ∷ interval_name model.now y ∷ [])) page.old page.new (D.state desk.old) (D.state desk.new) }
{
    put_open(page, desk, word);
    put_over(page, desk, model, p);
    put_next_interval(page, desk, model, x);
    put_next_interval(page, desk, model, y);
    put_text(page, desk, b")");
}

/// A function that is bounded at every moment.
fn put_bounded<D: Desk>(page: &mut Page, desk: &mut D, model: &Model, f: Cum, lo: i64, hi: i64)
    ensures { Prints (bounded_text (function_text model.now f) lo hi) page.old page.new (D.state desk.old) (D.state desk.new) }
{
    put_function(page, desk, model, f);
    if lo == -NUMBER_LIMIT {
        put_text(page, desk, b" <= ");
        put_number(page, desk, hi);
        return;
    }
    put_text(page, desk, b" >= ");
    put_number(page, desk, lo);
}

/// A function that is bounded between two moments.
fn put_between<D: Desk>(
    page: &mut Page,
    desk: &mut D,
    model: &Model,
    f: Cum,
    u: i64,
    v: i64,
    lo: i64,
    hi: i64,
)
    ensures { Prints (call (codes "alwaysIn") (function_text model.now f ∷ signed_decimal u ∷ signed_decimal v ∷ signed_decimal lo ∷ signed_decimal hi ∷ [])) page.old page.new (D.state desk.old) (D.state desk.new) }
{
    put_text(page, desk, b"alwaysIn(");
    put_function(page, desk, model, f);
    put_next_number(page, desk, u);
    put_next_number(page, desk, v);
    put_next_number(page, desk, lo);
    put_next_number(page, desk, hi);
    put_text(page, desk, b")");
}

/// A function that is bounded during an interval.
fn put_during<D: Desk>(
    page: &mut Page,
    desk: &mut D,
    model: &Model,
    f: Cum,
    x: Itv,
    lo: i64,
    hi: i64,
)
    ensures { Prints (call (codes "alwaysIn") (function_text model.now f ∷ interval_name model.now x ∷ signed_decimal lo ∷ signed_decimal hi ∷ [])) page.old page.new (D.state desk.old) (D.state desk.new) }
{
    put_text(page, desk, b"alwaysIn(");
    put_function(page, desk, model, f);
    put_next_interval(page, desk, model, x);
    put_next_number(page, desk, lo);
    put_next_number(page, desk, hi);
    put_text(page, desk, b")");
}

fn put_within<D: Desk>(
    page: &mut Page,
    desk: &mut D,
    model: &Model,
    f: Cum,
    window: Window,
    lo: i64,
    hi: i64,
)
    ensures { Prints (within_text model.now (function_text model.now f) window lo hi) page.old page.new (D.state desk.old) (D.state desk.new) }
{
    match window {
        Window::Always => put_bounded(page, desk, model, f, lo, hi),
        Window::Moments { u, v } => put_between(page, desk, model, f, u, v, lo, hi),
        Window::During(x) => put_during(page, desk, model, f, x, lo, hi),
    }
}

fn put_always_equal<D: Desk>(
    page: &mut Page,
    desk: &mut D,
    model: &Model,
    g: Stf,
    x: Itv,
    v: i64,
    aligned: (bool, bool),
)
    ensures { Prints (call (codes "alwaysEqual") (state_name model.now g ∷ interval_name model.now x ∷ signed_decimal v ∷ flag aligned.0 ∷ flag aligned.1 ∷ [])) page.old page.new (D.state desk.old) (D.state desk.new) }
{
    put_text(page, desk, b"alwaysEqual(");
    put_state(page, desk, model, g);
    put_next_interval(page, desk, model, x);
    put_next_number(page, desk, v);
    put_next_flag(page, desk, aligned.0);
    put_next_flag(page, desk, aligned.1);
    put_text(page, desk, b")");
}

fn put_no_state<D: Desk>(page: &mut Page, desk: &mut D, model: &Model, g: Stf, x: Itv)
    ensures { Prints (call (codes "alwaysNoState") (state_name model.now g ∷ interval_name model.now x ∷ [])) page.old page.new (D.state desk.old) (D.state desk.new) }
{
    put_text(page, desk, b"alwaysNoState(");
    put_state(page, desk, model, g);
    put_next_interval(page, desk, model, x);
    put_text(page, desk, b")");
}

pub fn put_constraint<D: Desk>(page: &mut Page, desk: &mut D, model: &Model, c: &Constraint)
    ensures { Prints (constraint_text model.now c.now) page.old page.new (D.state desk.old) (D.state desk.new) }
{
    match c {
        Constraint::Temporal {
            from,
            to,
            equal,
            a,
            b,
            z,
        } => put_temporal(
            page,
            desk,
            model,
            temporal_word(*from, *to, *equal),
            *a,
            *b,
            *z,
        ),
        Constraint::Logic(e) => put_whole(page, desk, model, e),
        Constraint::Span { a, parts } => put_hierarchy(
            page,
            desk,
            model,
            b"span",
            *a,
            parts.as_slice(),
        ),
        Constraint::Alternative { a, parts, count } => put_alternative(
            page,
            desk,
            model,
            *a,
            parts.as_slice(),
            *count,
        ),
        Constraint::Synchronize { a, parts } => put_hierarchy(
            page,
            desk,
            model,
            b"synchronize",
            *a,
            parts.as_slice(),
        ),
        Constraint::NoOverlap { p, matrix, direct } => put_no_overlap(
            page, desk, model, *p, *matrix, *direct,
        ),
        Constraint::First { p, a } => put_placed(page, desk, model, b"first", *p, *a),
        Constraint::Last { p, a } => put_placed(page, desk, model, b"last", *p, *a),
        Constraint::Before { p, a, b } => put_ordered(page, desk, model, b"before", *p, *a, *b),
        Constraint::Prev { p, a, b } => put_ordered(page, desk, model, b"prev", *p, *a, *b),
        Constraint::CumulIn { f, window, lo, hi } => put_within(
            page, desk, model, *f, *window, *lo, *hi,
        ),
        Constraint::AlwaysEqual {
            g,
            a,
            v,
            start_aligned,
            end_aligned,
        } => put_always_equal(
            page,
            desk,
            model,
            *g,
            *a,
            *v,
            (*start_aligned, *end_aligned),
        ),
        Constraint::AlwaysNoState { g, a } => put_no_state(page, desk, model, *g, *a),
    }
}
