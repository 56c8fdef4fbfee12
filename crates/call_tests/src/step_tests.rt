//! Logs of one interval, line by line, with what each line comes to worked out by hand.
ghost use Rattle.kernel.specs.Promises.{Ready};

use crate::lines::line;
use crate::models::{Rows, first_wrong};
use checker::judgement_is_determined;
use kernel::{Kernel, NoExtra, StepFault, Verdict};
use sched_model::Model;
use std::alloc::Global;

/// A line, the fault that it is refused with, the nodes after it, and the verdict.
type Row = (&'static str, Option<StepFault>, u64, Verdict);

const OPEN: Verdict = Verdict::Unclosed { best: None };

const OPEN_AT_1: Verdict = Verdict::Unclosed { best: Some(1) };

/// Whether a line comes to what its row says.
fn steps_so(alloc: Global, kernel: &mut Kernel<NoExtra>, model: &Model, row: &Row) -> bool
    requires { Ready model.now kernel.old }
    ensures { Ready model.now kernel.new }
{
    let (text, fault, nodes, verdict) = *row;
    if kernel.nodes() > 100 {
        return false;
    }
    let told = match line(alloc, text) {
        Some(line) => kernel.step(alloc, model, line).err() == fault,
        None => false,
    };
    told && kernel.nodes() == nodes && kernel.verdict() == verdict
}

/// The number of the first line that doesn't come to what its row says.
fn wrong_from(
    alloc: Global,
    kernel: &mut Kernel<NoExtra>,
    model: &Model,
    rows: &[Row],
) -> Option<usize>
    requires { Ready model.now kernel.old }
{
    for n in 0..rows.len() {
        if !steps_so(alloc, kernel, model, &rows[n]) {
            return Some(n);
        }
    }
    None
}

#[derive(Clone, Copy)]
struct Steps<'a>(&'a [Row]);

impl Rows for Steps<'_> {
    fn wrong(&self, alloc: Global, model: &Model) -> Option<usize> {
        match Kernel::<NoExtra>::new(alloc, model) {
            Ok(mut kernel) => wrong_from(alloc, &mut kernel, model, self.0),
            Err(_) => Some(usize::MAX),
        }
    }
}

fn wrong_in(alloc: Global, text: &str, rows: &[Row]) -> Option<usize> {
    first_wrong(alloc, text, &Steps(rows))
}

const SMALL: &str = "a = intervalVar(size=1,start=0..1,end=1..2);";

const SOLVED: [Row; 6] = [
    ("s SL 0 0\n", None, 1, OPEN),
    ("s P 0\n", Some(StepFault::NotSplitting), 1, OPEN),
    ("s EL 0 1\n", None, 2, OPEN),
    ("v p 0 2\n", Some(StepFault::NotSolution), 2, OPEN),
    ("v p 0 1\n", None, 3, Verdict::Feasible),
    (
        "f LEAF 0 0\n",
        Some(StepFault::NothingLeft),
        3,
        Verdict::Feasible,
    ),
];

#[test]
fn finds_a_solution(rt: HostRuntime) {
    judgement_is_determined();
    assert_eq!(rt; wrong_in(rt.alloc(), SMALL, &SOLVED), None);
}

const CRAMPED: [Row; 4] = [
    ("f LEAF 1 0\n", Some(StepFault::NotRefuted), 0, OPEN),
    ("v p 0 0\n", Some(StepFault::NotSolution), 0, OPEN),
    ("f LEAF 0 0\n", None, 1, Verdict::Infeasible),
    (
        "f LEAF 0 0\n",
        Some(StepFault::NothingLeft),
        1,
        Verdict::Infeasible,
    ),
];

#[test]
fn shows_that_there_is_none(rt: HostRuntime) {
    let text = "a = intervalVar(size=1,start=0,end=0);";
    assert_eq!(rt; wrong_in(rt.alloc(), text, &CRAMPED), None);
}

const DERIVED: [Row; 4] = [
    ("s EL 0 1\n", None, 1, OPEN),
    ("d SG 0 1 LEAF 1 0\n", Some(StepFault::NotRefuted), 1, OPEN),
    ("d SG 0 1 LEAF 0 0\n", None, 2, OPEN),
    ("v p 0 1\n", None, 2, Verdict::Feasible),
];

#[test]
fn derives_from_what_is_refuted(rt: HostRuntime) {
    assert_eq!(rt; wrong_in(rt.alloc(), SMALL, &DERIVED), None);
}

/// The end 2 is refuted, as it isn't less than 1.
const LEAST: [Row; 6] = [
    ("s SL 0 0\n", None, 1, OPEN),
    ("d EG 0 2 LEAF 0 0\n", None, 2, OPEN),
    ("v p 0 1\n", None, 2, OPEN_AT_1),
    ("d EL 0 1 LEAF 0 0\n", None, 3, OPEN_AT_1),
    ("v p 1 2\n", Some(StepFault::NotSolution), 3, OPEN_AT_1),
    ("f LEAF 2 0\n", None, 3, Verdict::Optimal(1)),
];

/// The end 2 isn't refuted, as it is greater than 1.
const GREATEST: [Row; 6] = [
    ("s SL 0 0\n", None, 1, OPEN),
    ("d EG 0 2 LEAF 0 0\n", None, 2, OPEN),
    ("v p 0 1\n", None, 2, OPEN_AT_1),
    ("d EL 0 1 LEAF 0 0\n", None, 3, OPEN_AT_1),
    ("f LEAF 2 0\n", Some(StepFault::NotRefuted), 3, OPEN_AT_1),
    ("v p 1 2\n", None, 3, Verdict::Optimal(2)),
];

/// The objectives, and the lines; another solution of the same size is no better.
#[test]
fn wants_what_is_better(rt: HostRuntime) {
    let alloc = rt.alloc();
    let early = "a = intervalVar(size=1,start=0..1,end=1..2); minimize(endOf(a));";
    assert_eq!(rt; wrong_in(alloc, early, &LEAST), None);
    let late = "a = intervalVar(size=1,start=0..1,end=1..2); maximize(endOf(a));";
    assert_eq!(rt; wrong_in(alloc, late, &GREATEST), None);
    let short = "a = intervalVar(size=1,start=0..1,end=1..2); minimize(sizeOf(a));";
    assert_eq!(rt; wrong_in(alloc, short, &LEAST), None);
}
