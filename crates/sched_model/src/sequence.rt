ghost use Rattle.std.specs.Prelude.{◌≡◌, ◌<◌, ◌∷◌, ◌+◌, ◌+ℤ◌, drop, int_le, length, not, pos, slice_index, slice_index_or};
ghost use Rattle.std.specs.List.{list_all};
ghost use Rattle.sched_model.specs.Words.{adjacent, pairwise};
ghost use Rattle.sched_model.specs.Data.{distance, gap, has, same, type_of};
ghost use Rattle.sched_model.specs.Sequence.{AreTypes, RunsForward, has_no_overlap, is_apart, is_first, is_last, stands_before, stands_next};

use crate::distances::{distance, fits_between, matrix_of, type_of};
use crate::model::Model;
use crate::slots::{end_of, is_present, same, start_of};
use crate::types::Assignment;
use sched_base::{Itv, Mat, Seq};

pub fn has(xs: &[Itv], x: Itv) -> bool
    ensures { result ≡ has xs.now x }
{
    xs.iter().any(|y| same(x, *y))
}

fn is_apart(a: &Assignment, d: i64, x: Itv, y: Itv) -> bool
    ensures { result ≡ is_apart a.now d x y }
{
    fits_between(end_of(a, x), d, start_of(a, y))
}

/// The types of the members of an order, of the first 500 at their places.
fn types_in(model: &Model, p: Seq, xs: &[Itv]) -> [u32; 500]
    ensures { AreTypes model.now p xs.now result }
{
    let mut types = [0; 500];
    let n = xs.len().min(500);
    for i in 0..n {
        types[i] = type_of(model, p, xs[i]);
    }
    types
}

/// The type of the member `x` at the place `i` of an order, looked up only where the list of types
/// doesn't reach so far.
fn type_at(model: &Model, p: Seq, types: &[u32], i: usize, x: Itv) -> u32
    requires { i < length types.now → slice_index types.now i ≡ type_of model.now p x }
    ensures { result ≡ type_of model.now p x }
{
    if i < types.len() {
        return types[i];
    }
    type_of(model, p, x)
}

/// Whether each member behind the place `i` of an order keeps its distance from the member `x` there.
fn is_apart_from_later(
    model: &Model,
    a: &Assignment,
    p: Seq,
    matrix: Option<Mat>,
    xs: &[Itv],
    types: &[u32],
    i: usize,
    x: Itv,
) -> bool
    requires kept { AreTypes model.now p xs.now types.now }
    requires there { i < length xs.now }
    requires here { x ≡ slice_index_or xs.now i x }
    ensures { result ≡ list_all (λ y. is_apart a.now (gap model.now p matrix x y) x y) (drop (i + 1) xs.now) }
{
    let from = u64::from(type_at(model, p, types, i, x));
    for j in i + 1..xs.len() {
        let to = u64::from(type_at(model, p, types, j, xs[j]));
        if !is_apart(a, distance(model, matrix, from, to), x, xs[j]) {
            return false;
        }
    }
    true
}

fn are_apart(model: &Model, a: &Assignment, p: Seq, matrix: Option<Mat>, xs: &[Itv]) -> bool
    ensures { result ≡ pairwise (λ x y. is_apart a.now (gap model.now p matrix x y) x y) xs.now }
{
    let types = types_in(model, p, xs);
    for i in 0..xs.len() {
        if !is_apart_from_later(model, a, p, matrix, xs, &types, i, xs[i]) {
            return false;
        }
    }
    true
}

fn are_in_line(a: &Assignment, xs: &[Itv]) -> bool
    ensures { result ≡ adjacent (is_apart a.now (pos 0)) xs.now }
{
    if xs.is_empty() {
        return true;
    }
    for i in 0..xs.len() - 1 {
        if !is_apart(a, 0, xs[i], xs[i + 1]) {
            return false;
        }
    }
    true
}

/// Whether each member of an order ends before each later one starts. Since none ends before it starts
/// itself, it is enough to look at neighbours.
fn are_disjoint(a: &Assignment, xs: &[Itv]) -> bool
    requires { RunsForward a.now }
    ensures { result ≡ pairwise (is_apart a.now (pos 0)) xs.now }
{
    are_in_line(a, xs)
}

/// Whether `y` keeps its distance from `x` before it, where they are of these types.
fn keeps_gap(
    model: &Model,
    a: &Assignment,
    matrix: Option<Mat>,
    from: u32,
    to: u32,
    x: Itv,
    y: Itv,
) -> bool
    ensures { result ≡ is_apart a.now (distance model.now matrix from to) x y }
{
    is_apart(
        a,
        distance(model, matrix, u64::from(from), u64::from(to)),
        x,
        y,
    )
}

/// Whether some members, and `x` before them, keep their distances from one to the next. Each type is
/// looked up once.
fn follow_apart(
    model: &Model,
    a: &Assignment,
    p: Seq,
    matrix: Option<Mat>,
    x: Itv,
    ys: &[Itv],
) -> bool
    ensures { result ≡ adjacent (λ x y. is_apart a.now (gap model.now p matrix x y) x y) (x ∷ ys.now) }
{
    let mut before = x;
    let mut from = type_of(model, p, x);
    for y in ys {
        let to = type_of(model, p, *y);
        if !keeps_gap(model, a, matrix, from, to, before, *y) {
            return false;
        }
        before = *y;
        from = to;
    }
    true
}

fn are_next_apart(model: &Model, a: &Assignment, p: Seq, matrix: Option<Mat>, xs: &[Itv]) -> bool
    ensures { result ≡ adjacent (λ x y. is_apart a.now (gap model.now p matrix x y) x y) xs.now }
{
    match xs.split_first() {
        None => true,
        Some((x, rest)) => follow_apart(model, a, p, matrix, *x, rest),
    }
}

fn keep_distances(
    model: &Model,
    a: &Assignment,
    p: Seq,
    matrix: Option<Mat>,
    direct: bool,
    xs: &[Itv],
) -> bool
    requires { RunsForward a.now }
    ensures { result ≡ has_no_overlap model.now a.now p matrix direct xs.now }
{
    if !direct {
        return are_apart(model, a, p, matrix, xs);
    }
    if !are_disjoint(a, xs) {
        return false;
    }
    are_next_apart(model, a, p, matrix, xs)
}

/// Whether the members of an order keep their distances. Without a matrix all distances are 0, and no
/// types are looked up.
pub fn has_no_overlap(
    model: &Model,
    a: &Assignment,
    p: Seq,
    matrix: Option<Mat>,
    direct: bool,
    xs: &[Itv],
) -> bool
    requires { RunsForward a.now }
    ensures { result ≡ has_no_overlap model.now a.now p matrix direct xs.now }
{
    match matrix_of(model, matrix) {
        None => are_disjoint(a, xs),
        Some(_) => keep_distances(model, a, p, matrix, direct, xs),
    }
}

/// Whether `x` stands before `y` in an order.
pub fn stands_before(xs: &[Itv], x: Itv, y: Itv) -> bool
    ensures { result ≡ stands_before xs.now x y }
{
    for i in 0..xs.len() {
        if !same(xs[i], x) {
            continue;
        }
        return has(&xs[i + 1..], y);
    }
    false
}

/// Whether `x` stands next before `y` in an order.
pub fn stands_next(xs: &[Itv], x: Itv, y: Itv) -> bool
    ensures { result ≡ stands_next xs.now x y }
{
    if xs.is_empty() {
        return false;
    }
    for i in 0..xs.len() - 1 {
        if same(xs[i], x) && same(xs[i + 1], y) {
            return true;
        }
    }
    false
}

#[tactic(auto, using(crate::proofs::walks::Orders::none_before_first))]
fn none_before(xs: &[Itv], x: Itv) -> bool
    ensures { result ≡ list_all (λ y. not (stands_before xs.now y x)) xs.now }
{
    match xs.split_first() {
        None => true,
        Some((_, rest)) => !has(rest, x),
    }
}

#[tactic(auto, using(crate::proofs::walks::Orders::none_behind_last))]
fn none_behind(xs: &[Itv], x: Itv) -> bool
    ensures { result ≡ list_all (λ y. not (stands_before xs.now x y)) xs.now }
{
    match xs.split_last() {
        None => true,
        Some((_, front)) => !has(front, x),
    }
}

/// Whether no member of an order stands before the interval, where it is present.
pub fn is_first(a: &Assignment, x: Itv, xs: &[Itv]) -> bool
    ensures { result ≡ is_first a.now x xs.now }
{
    !is_present(a, x) || none_before(xs, x)
}

/// Whether no member of an order stands behind the interval, where it is present.
pub fn is_last(a: &Assignment, x: Itv, xs: &[Itv]) -> bool
    ensures { result ≡ is_last a.now x xs.now }
{
    !is_present(a, x) || none_behind(xs, x)
}
