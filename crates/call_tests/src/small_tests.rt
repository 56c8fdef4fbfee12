//! Small models whose best values are found by a look at each assignment.
use crate::models::{Rows, first_wrong, unless};
use sched_base::{List, NoMemory};
use sched_model::{Assignment, Model, Slot, is_solution, value};
use std::alloc::Global;
use std::test::Fail;

/// The best values of the small models, None for one that has no solution. The last one has no
/// objective. `trials` has them solved.
const BEST: [Option<Option<i64>>; 10] = [
    Some(Some(1)),
    Some(Some(2)),
    Some(Some(3)),
    Some(Some(1)),
    None,
    None,
    Some(Some(2)),
    Some(Some(3)),
    None,
    Some(None),
];

/// The n-th small model.
fn small_text(alloc: Global, n: u32) -> Result<String, NoMemory> {
    let size = 1 + n % 3;
    let room = 2 + n % 4;
    let gap = i64::from(n / 4) - 1;
    let goal = if n < 9 { "minimize(endOf(b));" } else { "" };
    let text = format!(in alloc;
        "a = intervalVar(size={size},start=0..3,end=0..{room}); b = intervalVar(size=1..2,start=0..3,end=0..{room}); endBeforeStart(a,b,{gap}); {goal}\n"
    )?;
    Ok(text)
}

fn slot(code: u32) -> Slot {
    Slot::Present {
        s: i64::from(code % 4),
        e: i64::from(code / 4 % 8),
    }
}

/// Two intervals that start at 0 to 3 and end at 0 to 7, by a number below 1,024.
fn placed(alloc: Global, code: u32) -> Result<Assignment, NoMemory> {
    let slots = [slot(code % 32), slot(code / 32)];
    Ok(Assignment {
        slots: List::from_vec(Vec::from_slice(alloc, &slots)?),
        orders: List::new(alloc),
        segs: List::new(alloc),
    })
}

/// How good a solution is, and None for what is no solution.
fn worth(model: &Model, a: &Assignment) -> Option<Option<i64>> {
    if is_solution(model, a) {
        Some(value(model, a))
    } else {
        None
    }
}

fn worth_at(alloc: Global, model: &Model, code: u32) -> Result<Option<Option<i64>>, NoMemory> {
    let a = placed(alloc, code)?;
    Ok(worth(model, &a))
}

fn least(best: Option<i64>, next: Option<i64>) -> Option<i64> {
    match (best, next) {
        (Some(b), Some(v)) => Some(b.min(v)),
        (None, v) => v,
        (b, None) => b,
    }
}

/// The least value of a solution, by a look at each assignment, and None where there is none.
fn best_by_listing(alloc: Global, model: &Model) -> Result<Option<Option<i64>>, NoMemory> {
    let mut best = None;
    for code in 0..1024u32 {
        if let Some(v) = worth_at(alloc, model, code)? {
            best = match best {
                None => Some(v),
                Some(b) => Some(least(b, v)),
            };
        }
    }
    Ok(best)
}

/// What the listing finds.
#[derive(Clone, Copy)]
struct Best(Option<Option<i64>>);

impl Rows for Best {
    fn wrong(&self, alloc: Global, model: &Model) -> Option<usize> {
        unless(best_by_listing(alloc, model) == Ok(self.0))
    }
}

fn is_best(alloc: Global, n: u32, best: Option<Option<i64>>) -> Result<bool, NoMemory> {
    let text = small_text(alloc, n)?;
    Ok(first_wrong(alloc, text.as_str(), &Best(best)).is_none())
}

fn wrong_model(alloc: Global) -> Result<Option<u32>, NoMemory> {
    for (n, best) in (0..10u32).zip(&BEST) {
        if !is_best(alloc, n, *best)? {
            return Ok(Some(n));
        }
    }
    Ok(None)
}

#[test]
fn small_models(rt: HostRuntime) -> Result<(), Fail> {
    assert_eq!(rt; wrong_model(rt.alloc())?, None);
    Ok(())
}
