//! Expressions with their hulls and their values, worked out by hand.
use crate::lines::assignment;
use crate::models::{Rows, first_wrong, unless};
use sched_model::{Assignment, Model, hull, in_domain, value};
use std::alloc::Global;
use std::test::Fail;

/// An expression, its hull, and its value where a lasts from 4 to 9 and b is absent.
type Row = (&'static str, (i64, i64), i64);

const INTERVALS: &str =
    "a = intervalVar(optional,start=3..7,end=5..12,size=2..5); b = intervalVar(optional,start=3..7,end=5..12,size=2..5);";

const X: i64 = 4_611_686_018_427_387_904;

const MEASURES: [Row; 13] = [
    ("startOf(a)", (0, 7), 4),
    ("startOf(a,10)", (3, 10), 4),
    ("startOf(b,10)", (3, 10), 10),
    ("endOf(a,-1)", (-1, 12), 9),
    ("endOf(b,-1)", (-1, 12), -1),
    ("sizeOf(a,3)", (2, 5), 5),
    ("sizeOf(b,3)", (2, 5), 3),
    ("lengthOf(a)", (0, 5), 5),
    ("lengthOf(b,9)", (2, 9), 9),
    ("presenceOf(a)", (0, 1), 1),
    ("presenceOf(b)", (0, 1), 0),
    ("-startOf(a,5)", (-7, -3), -4),
    ("startOf(a,5)-endOf(b,6)", (-9, 2), -2),
];

const GATHERED: [Row; 11] = [
    ("max([startOf(a,5),4])", (4, 7), 4),
    ("min([startOf(a,5),4])", (3, 4), 4),
    ("max([-2,3,1])", (3, 3), 3),
    ("min([3,-2,1])", (-2, -2), -2),
    ("sum([startOf(a),endOf(a)])", (0, 19), 13),
    ("sum([])", (0, 0), 0),
    ("2*startOf(a,5)-3", (3, 11), 5),
    ("(1-2)*sizeOf(a,2)", (-5, -2), -5),
    ("(1-3)*(4-1)*7", (-42, -42), -42),
    ("4611686018427387904+1-1", (X, X), X),
    (
        "4611686018427387904*4611686018427387904*4611686018427387904*0",
        (0, 0),
        0,
    ),
];

const TRUTHS: [Row; 14] = [
    ("startOf(a)<4", (0, 1), 0),
    ("startOf(a)<=4", (0, 1), 1),
    ("startOf(a)>4", (0, 1), 0),
    ("startOf(a)>=4", (0, 1), 1),
    ("startOf(a)==4", (0, 1), 1),
    ("startOf(a)!=4", (0, 1), 0),
    ("5&&0", (0, 1), 0),
    ("5&&-2", (0, 1), 1),
    ("5||0", (0, 1), 1),
    ("0||0", (0, 1), 0),
    ("!(0-3)", (0, 1), 0),
    ("!presenceOf(b)", (0, 1), 1),
    ("0=>0", (0, 1), 1),
    ("presenceOf(a)=>presenceOf(b)", (0, 1), 0),
];

fn measured(model: &Model, a: &Assignment) -> Option<(i64, i64, i64)> {
    let objective = model.objective()?;
    let (from, to) = hull(model, &objective.expr)?;
    if !in_domain(model, a) {
        return None;
    }
    Some((from, to, value(model, a)?))
}

/// The hull and the value that an objective has at an assignment.
#[derive(Clone, Copy)]
struct Valued<'a> {
    a: &'a Assignment,
    want: (i64, i64, i64),
}

impl Rows for Valued<'_> {
    fn wrong(&self, _: Global, model: &Model) -> Option<usize> {
        unless(measured(model, self.a) == Some(self.want))
    }
}

fn is_so(alloc: Global, row: &Row, a: &Assignment) -> Result<bool, Fail> {
    let (e, (from, to), value) = *row;
    let text = format!(in alloc; "{INTERVALS} minimize({e});")?;
    let wanted = Valued {
        a,
        want: (from, to, value),
    };
    Ok(first_wrong(alloc, text.as_str(), &wanted).is_none())
}

fn wrong_row(alloc: Global, rows: &[Row], a: &Assignment) -> Result<Option<usize>, Fail> {
    for (n, row) in rows.iter().enumerate() {
        if !is_so(alloc, row, a)? {
            return Ok(Some(n));
        }
    }
    Ok(None)
}

/// The place of the first row that isn't so.
fn wrong_in(alloc: Global, rows: &[Row]) -> Result<Option<usize>, Fail> {
    match assignment(alloc, "v p 4 9 a\n") {
        None => Ok(Some(0)),
        Some(a) => wrong_row(alloc, rows, &a),
    }
}

#[test]
fn measures(rt: HostRuntime) -> Result<(), Fail> {
    assert_eq!(rt; wrong_in(rt.alloc(), &MEASURES)?, None);
    Ok(())
}

#[test]
fn sums_and_products(rt: HostRuntime) -> Result<(), Fail> {
    assert_eq!(rt; wrong_in(rt.alloc(), &GATHERED)?, None);
    Ok(())
}

#[test]
fn truths(rt: HostRuntime) -> Result<(), Fail> {
    assert_eq!(rt; wrong_in(rt.alloc(), &TRUTHS)?, None);
    Ok(())
}
