ghost use Rattle.std.specs.Prelude.{◌≡◌, ◌-ℤ◌, ◌&&◌, None, int_lt, nat_abs, nat_lt, not, true};
ghost use Rattle.std.specs.List.{list_all};
ghost use Rattle.sched_model.specs.declared.types.Slot.TheVariants.{Present};
ghost use Rattle.sched_model.specs.Domain.{are_segments, fits_def, is_in_domain, is_row, is_segment, keeps_distance, lists_present};
ghost use Rattle.sched_model.specs.Bounds.{is_amount, is_moment};
ghost use Rattle.sched_model.specs.Words.{pairwise, placewise, is_between, ◌implies◌};
ghost use Rattle.sched_model.specs.Data.{same, has, matrix_of};
ghost use Rattle.sched_model.specs.code.Sweep.{begins_after, end_with, keeps_from, later_end};
ghost use Rattle.sched_model.specs.Value.{is_present};

use crate::bounds::{is_amount, is_between, is_moment};
use crate::distances::{distance, fits_between, matrix_of};
use crate::model::Model;
use crate::slots::{is_present, same};
use crate::types::{Assignment, IntervalDef, Segment, SequenceDef, Slot, StateDef};
use sched_base::{Itv, List, Mat};

fn starts_in(d: &IntervalDef, s: i64) -> bool
    ensures { result ≡ is_between d.now.start_lo d.now.start_hi s }
{
    is_between(d.start_lo, d.start_hi, s)
}

fn ends_in(d: &IntervalDef, e: i64) -> bool
    ensures { result ≡ is_between d.now.end_lo d.now.end_hi e }
{
    is_between(d.end_lo, d.end_hi, e)
}

fn lasts_in(d: &IntervalDef, s: i64, e: i64) -> bool
    ensures { result ≡ is_between d.now.size_lo d.now.size_hi (e -ℤ s) }
{
    let size = i128::from(e) - i128::from(s);
    if size < i128::from(d.size_lo) {
        return false;
    }
    size <= i128::from(d.size_hi)
}

#[tactic(auto, using(base_laws::specs::laws::Truth::second_fails, base_laws::specs::laws::Truth::third_decides))]
fn fits_ranges(d: &IntervalDef, s: i64, e: i64) -> bool
    ensures { result ≡ fits_def d.now (Present s e) }
{
    if !starts_in(d, s) {
        return false;
    }
    if !ends_in(d, e) {
        return false;
    }
    lasts_in(d, s, e)
}

pub fn fits_def(d: &IntervalDef, slot: Slot) -> bool
    ensures { result ≡ fits_def d.now slot }
{
    match slot {
        Slot::Absent => d.optional,
        Slot::Present { s, e } => fits_ranges(d, s, e),
    }
}

fn fit_defs(defs: &[IntervalDef], slots: &[Slot]) -> bool
    ensures { result ≡ placewise fits_def defs.now slots.now }
{
    if defs.len() != slots.len() {
        return false;
    }
    for i in 0..defs.len() {
        if !fits_def(&defs[i], slots[i]) {
            return false;
        }
    }
    true
}

fn has(xs: &[Itv], x: Itv) -> bool
    ensures { result ≡ has xs.now x }
{
    xs.iter().any(|y| same(x, *y))
}

fn are_distinct(xs: &[Itv]) -> bool
    ensures { result ≡ pairwise (λ x y. not (same x y)) xs.now }
{
    for i in 0..xs.len() {
        if has(&xs[i + 1..], xs[i]) {
            return false;
        }
    }
    true
}

fn are_present(a: &Assignment, members: &[Itv], xs: &[Itv]) -> bool
    ensures { result ≡ list_all (λ x. has members.now x && is_present a.now x) xs.now }
{
    xs.iter().all(|x| has(members, *x) && is_present(a, *x))
}

fn lists_each(a: &Assignment, members: &[Itv], xs: &[Itv]) -> bool
    ensures { result ≡ list_all (λ x. is_present a.now x implies has xs.now x) members.now }
{
    members.iter().all(|x| !is_present(a, *x) || has(xs, *x))
}

/// Whether the list has exactly the present members, each once. One that is longer than the members
/// is refused for its length, so that no other list is walked through for each of its elements.
#[tactic(auto, using(base_laws::specs::laws::Truth::second_fails, base_laws::specs::laws::Truth::third_decides))]
pub fn lists_present(a: &Assignment, p: &SequenceDef, xs: &[Itv]) -> bool
    ensures { result ≡ lists_present a.now p.now xs.now }
{
    if xs.len() > p.members.len() {
        return false;
    }
    if !are_distinct(xs) {
        return false;
    }
    if !are_present(a, p.members.as_slice(), xs) {
        return false;
    }
    lists_each(a, p.members.as_slice(), xs)
}

fn list_all_present(a: &Assignment, defs: &[SequenceDef], orders: &[List<Itv>]) -> bool
    ensures { result ≡ placewise (lists_present a.now) defs.now orders.now }
{
    if defs.len() != orders.len() {
        return false;
    }
    for i in 0..defs.len() {
        if !lists_present(a, &defs[i], orders[i].as_slice()) {
            return false;
        }
    }
    true
}

fn is_row(model: &Model, matrix: Option<Mat>, v: i64) -> bool
    ensures { result ≡ is_row (matrix_of model.now matrix) v }
{
    match matrix_of(model, matrix) {
        None => true,
        Some(d) => v < i64::from(d.size),
    }
}

fn is_span(i: Segment) -> bool
    ensures { result ≡ (int_lt i.p i.q && is_moment i.p && is_moment i.q) }
{
    i.p < i.q && is_moment(i.p) && is_moment(i.q)
}

fn is_segment(model: &Model, g: &StateDef, i: Segment) -> bool
    ensures { result ≡ is_segment model.now g.now i }
{
    is_span(i) && is_amount(i.v) && is_row(model, g.matrix, i.v)
}

fn are_each_segments(model: &Model, g: &StateDef, is: &[Segment]) -> bool
    ensures { result ≡ list_all (is_segment model.now g.now) is.now }
{
    is.iter().all(|i| is_segment(model, g, *i))
}

fn begins_after(model: &Model, g: &StateDef, v: u64, end: Option<i64>, j: Segment) -> bool
    ensures { result ≡ begins_after model.now g.now v end j }
{
    match end {
        None => true,
        Some(q) => fits_between(q, distance(model, g.matrix, v, j.v.unsigned_abs()), j.p),
    }
}

fn later_end(q: i64, end: Option<i64>) -> i64
    ensures { result ≡ later_end q end }
{
    match end {
        None => q,
        Some(r) => r.max(q),
    }
}

fn end_with(every: bool, v: u64, end: Option<i64>, i: Segment) -> Option<i64>
    ensures { result ≡ end_with every v end i }
{
    if every || i.v.unsigned_abs() == v {
        return Some(later_end(i.q, end));
    }
    end
}

/// Whether each segment begins, with the distance, after the segments of one state before it. With
/// `every` it is after all segments before it, where no matrix gives a distance.
fn keep_distances_from(model: &Model, g: &StateDef, every: bool, v: u64, is: &[Segment]) -> bool
    requires { every ≡ true → matrix_of model.now g.now.matrix ≡ None }
    ensures { result ≡ pairwise (keeps_from model.now g.now every v) is.now }
{
    let mut end = None;
    for i in is {
        if !begins_after(model, g, v, end, *i) {
            return false;
        }
        end = end_with(every, v, end, *i);
    }
    true
}

/// The same from each of `n` states, one walk over the segments each.
fn keep_distances_of(model: &Model, g: &StateDef, n: u32, is: &[Segment]) -> bool
    requires { list_all (λ i. nat_lt (nat_abs i.v) n) is.now ≡ true }
    ensures { result ≡ pairwise (keeps_distance model.now g.now) is.now }
{
    for v in 0..n {
        if !keep_distances_from(model, g, false, u64::from(v), is) {
            return false;
        }
    }
    true
}

fn keep_distances(model: &Model, g: &StateDef, is: &[Segment]) -> bool
    requires { list_all (is_segment model.now g.now) is.now ≡ true }
    ensures { result ≡ pairwise (keeps_distance model.now g.now) is.now }
{
    match matrix_of(model, g.matrix) {
        None => keep_distances_from(model, g, true, 0, is),
        Some(d) => keep_distances_of(model, g, d.size, is),
    }
}

pub fn are_segments(model: &Model, g: &StateDef, is: &[Segment]) -> bool
    ensures { result ≡ are_segments model.now g.now is.now }
{
    if !are_each_segments(model, g, is) {
        return false;
    }
    keep_distances(model, g, is)
}

fn are_all_segments(model: &Model, defs: &[StateDef], lists: &[List<Segment>]) -> bool
    ensures { result ≡ placewise (are_segments model.now) defs.now lists.now }
{
    if defs.len() != lists.len() {
        return false;
    }
    for i in 0..defs.len() {
        if !are_segments(model, &defs[i], lists[i].as_slice()) {
            return false;
        }
    }
    true
}

/// Whether the assignment is in the domain of the model.
#[tactic(auto, using(base_laws::specs::laws::Truth::second_fails, base_laws::specs::laws::Truth::third_decides))]
pub fn in_domain(model: &Model, a: &Assignment) -> bool
    ensures { result ≡ is_in_domain model.now a.now }
{
    if !fit_defs(model.intervals(), a.slots.as_slice()) {
        return false;
    }
    if !list_all_present(a, model.sequences(), a.orders.as_slice()) {
        return false;
    }
    are_all_segments(model, model.states(), a.segs.as_slice())
}
