//! Models and assignments, with which constraints hold worked out by hand: each holds, and fails where
//! something moves by one moment.
ghost use Rattle.std.specs.Prelude.{◌≡◌, ◌<◌, length, true};
ghost use Rattle.sched_model.specs.Domain.{is_in_domain};

use crate::lines::assignment;
use crate::models::{Rows, first_wrong};
use sched_base::{Con, Itv};
use sched_model::{Assignment, End, Model, holds, in_domain, is_precedence, is_solution};
use std::alloc::Global;

/// The line of an assignment, and 1 or 0 for each constraint of the model as it holds or doesn't; `-`
/// where the assignment isn't in the domain of the model.
type Row = (&'static str, &'static str);

fn truth(model: &Model, c: Con, a: &Assignment) -> u8
    requires there { c.0 < length model.now.constraints }
    requires domain { is_in_domain model.now a.now ≡ true }
{
    if holds(model, c, a) {
        return b'1';
    }
    b'0'
}

/// Whether a row says this of the model and the assignment.
fn are_truths(model: &Model, a: &Assignment, wanted: &[u8]) -> bool {
    if !in_domain(model, a) {
        return wanted == b"-".as_slice();
    }
    if model.constraints().len() != wanted.len() {
        return false;
    }
    for (k, want) in (0..100u32).zip(wanted) {
        if k as usize >= model.constraints().len() || truth(model, Con(k), a) != *want {
            return false;
        }
    }
    true
}

/// A solution is what lies in the domain and fails no constraint.
fn agrees(model: &Model, a: &Assignment, wanted: &[u8]) -> bool {
    are_truths(model, a, wanted) && is_solution(model, a) == wanted.iter().all(|b| *b == b'1')
}

fn is_told(alloc: Global, model: &Model, row: Row) -> bool {
    let (line, wanted) = row;
    match assignment(alloc, line) {
        Some(a) => agrees(model, &a, wanted.as_bytes()),
        None => false,
    }
}

#[derive(Clone, Copy)]
struct Sentences<'a>(&'a [Row]);

impl Rows for Sentences<'_> {
    fn wrong(&self, alloc: Global, model: &Model) -> Option<usize> {
        for (n, row) in self.0.iter().enumerate() {
            if !is_told(alloc, model, *row) {
                return Some(n);
            }
        }
        None
    }
}

/// The place of the first row that isn't so.
fn wrong_in(alloc: Global, text: &str, rows: &[Row]) -> Option<usize> {
    first_wrong(alloc, text, &Sentences(rows))
}

const PARTS: &str =
    "a = intervalVar(optional); b = intervalVar(optional); c = intervalVar(optional); span(a,[b,c]); alternative(a,[b,c]); synchronize(a,[b,c]);";

const PARTED: [Row; 9] = [
    ("v p 0 5 p 0 2 p 3 5\n", "100"),
    ("v p 0 6 p 0 2 p 3 5\n", "000"),
    ("v p 1 5 p 0 2 p 3 5\n", "000"),
    ("v p 0 2 p 0 2 a\n", "111"),
    ("v p 0 2 a p 0 3\n", "000"),
    ("v p 0 2 p 0 2 p 0 2\n", "101"),
    ("v p 0 2 a a\n", "001"),
    ("v a a a\n", "111"),
    ("v a p 0 2 a\n", "001"),
];

#[test]
fn hierarchies(rt: HostRuntime) {
    assert_eq!(rt; wrong_in(rt.alloc(), PARTS, &PARTED), None);
}

const ORDERED: &str =
    "a = intervalVar(optional); b = intervalVar(optional); c = intervalVar(optional); p = sequenceVar([a,b,c]); first(p,a); first(p,b); first(p,c); last(p,a); last(p,b); last(p,c); before(p,a,b); before(p,b,a); before(p,a,c); prev(p,a,b); prev(p,a,c);";

/// An absent interval demands nothing. An order lists the members that are present, each once.
const ORDERS: [Row; 8] = [
    ("v p 0 1 p 1 2 a o 2 0 1\n", "10101110111"),
    ("v p 0 1 p 1 2 p 2 3 o 3 0 1 2\n", "10000110110"),
    ("v p 0 1 p 1 2 p 2 3 o 3 0 2 1\n", "10001010101"),
    ("v p 0 1 a p 0 1 o 2 0 2\n", "11001111111"),
    ("v p 0 1 a p 0 1 o 1 0\n", "-"),
    ("v p 0 1 a p 0 1 o 0\n", "-"),
    ("v p 0 1 a p 0 1 o 3 0 2 2\n", "-"),
    ("v p 0 1 a p 0 1 o 3 0 1 2\n", "-"),
];

#[test]
fn orders(rt: HostRuntime) {
    assert_eq!(rt; wrong_in(rt.alloc(), ORDERED, &ORDERS), None);
}

/// Without a matrix; from type 0 to 0 nothing, from 0 to 1 three, from 1 to 0 one, for each later one
/// and for neighbours; and where only 0 to 0 asks for five, for each later one and for neighbours.
const APART: &str =
    "a = intervalVar(); b = intervalVar(); c = intervalVar(); M = transitionMatrix([[0,3],[1,0]]); N = transitionMatrix([[5,0],[0,0]]); p = sequenceVar([a,b,c],types=[0,1,0]); noOverlap(p); noOverlap(p,M); noOverlap(p,M,1); noOverlap(p,N); noOverlap(p,N,1);";

const SEPARATIONS: [Row; 6] = [
    ("v p 0 1 p 4 5 p 6 7 o 3 0 1 2\n", "11111"),
    ("v p 0 1 p 3 5 p 6 7 o 3 0 1 2\n", "10011"),
    ("v p 0 1 p 4 5 p 5 7 o 3 0 1 2\n", "10001"),
    ("v p 0 1 p 1 2 p 2 3 o 3 0 1 2\n", "10001"),
    ("v p 0 1 p 3 4 p 3 9 o 3 0 1 2\n", "00000"),
    ("v p 0 1 p 3 4 p 5 9 o 3 1 0 2\n", "00000"),
];

#[test]
fn separations(rt: HostRuntime) {
    assert_eq!(rt; wrong_in(rt.alloc(), APART, &SEPARATIONS), None);
}

const STATE: &str =
    "a = intervalVar(optional,start=-9..9,end=-9..9); g = stateFunction(); alwaysEqual(g,a,7); alwaysEqual(g,a,7,1,0); alwaysEqual(g,a,7,0,1); alwaysNoState(g,a);";

/// State 7 lasts from 0 to 4, and state 8 from 4 to 6.
const STATES: [Row; 13] = [
    ("v p 0 4 g 2 0 4 7 4 6 8\n", "1110"),
    ("v p 1 4 g 2 0 4 7 4 6 8\n", "1010"),
    ("v p 0 3 g 2 0 4 7 4 6 8\n", "1100"),
    ("v p 0 5 g 2 0 4 7 4 6 8\n", "0000"),
    ("v p 4 5 g 2 0 4 7 4 6 8\n", "0000"),
    ("v p 5 5 g 2 0 4 7 4 6 8\n", "1111"),
    ("v p 6 7 g 2 0 4 7 4 6 8\n", "0001"),
    ("v p 5 7 g 2 0 4 7 4 6 8\n", "0000"),
    ("v p -1 0 g 2 0 4 7 4 6 8\n", "0001"),
    ("v a g 2 0 2 0 3 9 0\n", "1111"),
    ("v a g 2 0 2 0 2 9 0\n", "1111"),
    ("v a g 2 0 2 0 1 9 0\n", "-"),
    ("v a g 2 0 2 0 4 4 0\n", "-"),
];

#[test]
fn states(rt: HostRuntime) {
    assert_eq!(rt; wrong_in(rt.alloc(), STATE, &STATES), None);
}

const LEVELED: &str =
    "a = intervalVar(); b = intervalVar(); c = intervalVar(optional); f = pulse(a,2) - stepAtEnd(b,1) + pulse(3,5,4); f <= 6; f <= 5; f >= -1; f >= 0; alwaysIn(f,0,6,0,6); alwaysIn(f,0,7,0,6); alwaysIn(f,4,6,0,4); alwaysIn(f,4,6,0,3); alwaysIn(f,a,2,6); alwaysIn(f,a,3,6); alwaysIn(f,c,9,9);";

/// Where a lasts from 2 to 4 and b ends at 6, the levels are 0 at 1, 2 at 2, 6 at 3, 4 at 4, 0 at 5, and
/// -1 from 6 on.
const LEVELS: [Row; 2] = [
    ("v p 2 4 p 5 6 a\n", "10101010101"),
    ("v p 2 3 p 6 7 a\n", "11101110101"),
];

#[test]
fn levels(rt: HostRuntime) {
    assert_eq!(rt; wrong_in(rt.alloc(), LEVELED, &LEVELS), None);
}

const PLACED: [Row; 7] = [
    ("v a p 1 2\n", ""),
    ("v p 0 5 p 1 2\n", ""),
    ("v p 15 20 p 1 2\n", ""),
    ("v p 0 6 p 1 2\n", "-"),
    ("v p 7 7 p 1 2\n", "-"),
    ("v p 16 21 p 1 2\n", "-"),
    ("v p 0 5 a\n", "-"),
];

#[test]
fn placed_intervals(rt: HostRuntime) {
    let text = "a = intervalVar(optional,start=0..20,end=0..20,size=1..5); b = intervalVar();";
    assert_eq!(rt; wrong_in(rt.alloc(), text, &PLACED), None);
}

fn precede(a: &Assignment, from: End, to: End, equal: bool, z: i64) -> bool {
    is_precedence(a, from, to, equal, Itv(0), Itv(1), z)
}

/// For two that last from 0 to 2 and from 3 to 5.
fn are_precedences(a: &Assignment) -> bool {
    precede(a, End::Finish, End::Start, false, 1)
        && !precede(a, End::Finish, End::Start, false, 2)
        && precede(a, End::Finish, End::Start, true, 1)
        && !precede(a, End::Finish, End::Start, true, 0)
        && precede(a, End::Start, End::Finish, true, 5)
        && !precede(a, End::Start, End::Start, false, 4)
}

/// Whether they are so, and an interval that is absent precedes all.
fn are_all_precedences(a: &Assignment) -> bool {
    are_precedences(a) && is_precedence(a, End::Start, End::Start, false, Itv(2), Itv(0), 9)
}

fn precede_in(alloc: Global, line: &str) -> bool {
    match assignment(alloc, line) {
        Some(a) => are_all_precedences(&a),
        None => false,
    }
}

#[test]
fn precedences(rt: HostRuntime) {
    assert!(rt; precede_in(rt.alloc(), "v p 0 2 p 3 5 a\n"));
}
