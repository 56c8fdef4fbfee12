//! Guesses made weak, what refutes for want of a better value, and the slots of a settled region, worked out by hand.
ghost use Rattle.region.specs.Looks.{IsRegionOf};

use crate::lines::{guess_of, line, witness_of};
use crate::models::{Rows, first_wrong, unless};
use kernel::{Line, NoWitness};
use refute_basic::{Basic, BasicWitness, settled_slot};
use region::{Guess, Look, Region, is_tight, refutes, tighten};
use sched_base::Itv;
use sched_model::{Model, Slot};
use std::alloc::Global;

/// Its size is 3 where it ends at 3.
const SHORT_OR_LONG: &str = "a = intervalVar(size=3,start=0,end=2..3);";

/// What the guess of a witness becomes where it is made as weak as it may be.
fn tightened(model: &Model, region: &Region, g: Guess, w: &BasicWitness) -> Option<Guess>
    requires { IsRegionOf model.now region.now.region }
{
    if !region.admits(g) || !refutes::<Basic>(model, region, None, Some(g), w) {
        return None;
    }
    let weak = tighten::<Basic>(model, region, g, None, w);
    if !region.admits(weak) || !is_tight::<Basic>(model, region, None, weak, w) {
        return None;
    }
    Some(weak)
}

/// The guess of a witness, and what it becomes.
#[derive(Clone, Copy)]
struct Weakened<'a> {
    g: Guess,
    w: &'a BasicWitness,
    want: Guess,
}

impl Rows for Weakened<'_> {
    fn wrong(&self, alloc: Global, model: &Model) -> Option<usize> {
        match Region::root(alloc, model) {
            Ok(region) => unless(tightened(model, &region, self.g, self.w) == Some(self.want)),
            Err(_) => Some(usize::MAX),
        }
    }
}

fn weakens(alloc: Global, text: &str, line: &Line<NoWitness>, want: Guess) -> bool {
    match (guess_of(line), witness_of(line)) {
        (Some(g), Some(w)) => first_wrong(alloc, text, &Weakened { g, w, want }).is_none(),
        _ => false,
    }
}

/// Whether the guess of a line becomes this one.
fn becomes(alloc: Global, text: &str, derived: &str, want: Guess) -> bool {
    match line(alloc, derived) {
        Some(line) => weakens(alloc, text, &line, want),
        None => false,
    }
}

#[test]
fn weakens_guesses(rt: HostRuntime) {
    let weak = Guess::EndLe(Itv(0), 2);
    assert!(rt; becomes(rt.alloc(), SHORT_OR_LONG, "d EL 0 2 LEAF 0 0\n", weak));
}

const EARLY: &str = "a = intervalVar(size=1,start=0,end=1); minimize(endOf(a));";

const LATE: &str = "a = intervalVar(size=1,start=0,end=1); maximize(endOf(a));";

/// Models, the best value so far, lines, and whether the witness refutes the root: where no value is
/// better.
const WANTED: [(&str, i64, &str, bool); 8] = [
    (EARLY, 2, "f LEAF 2 0\n", false),
    (EARLY, 1, "f LEAF 2 0\n", true),
    (LATE, 0, "f LEAF 2 0\n", false),
    (LATE, 1, "f LEAF 2 0\n", true),
    (EARLY, 2, "f OBJ\n", false),
    (EARLY, 1, "f OBJ\n", true),
    (LATE, 0, "f OBJ\n", false),
    (LATE, 1, "f OBJ\n", true),
];

/// Whether a witness refutes the root.
#[derive(Clone, Copy)]
struct Refuted<'a> {
    best: i64,
    w: &'a BasicWitness,
    want: bool,
}

impl Rows for Refuted<'_> {
    fn wrong(&self, alloc: Global, model: &Model) -> Option<usize> {
        match Region::root(alloc, model) {
            Ok(region) => {
                let refuted = refutes::<Basic>(model, &region, Some(self.best), None, self.w);
                unless(refuted == self.want)
            }
            Err(_) => Some(usize::MAX),
        }
    }
}

fn shows(alloc: Global, text: &str, best: i64, line: &Line<NoWitness>, want: bool) -> bool {
    match witness_of(line) {
        Some(w) => first_wrong(alloc, text, &Refuted { best, w, want }).is_none(),
        None => false,
    }
}

fn is_wanted(alloc: Global, text: &str, best: i64, failed: &str, want: bool) -> bool {
    match line(alloc, failed) {
        Some(line) => shows(alloc, text, best, &line, want),
        None => false,
    }
}

fn wrong_row(alloc: Global) -> Option<usize> {
    for (n, row) in WANTED.iter().enumerate() {
        let (text, best, line, want) = *row;
        if !is_wanted(alloc, text, best, line, want) {
            return Some(n);
        }
    }
    None
}

#[test]
fn wants_better_values(rt: HostRuntime) {
    assert_eq!(rt; wrong_row(rt.alloc()), None);
}

fn slot_at(look: &Look<'_>) -> Option<Slot> {
    if look.len() == 0 {
        return None;
    }
    Some(settled_slot(look.bounds(Itv(0))))
}

/// The slot of the first interval.
#[derive(Clone, Copy)]
struct First(Slot);

impl Rows for First {
    fn wrong(&self, alloc: Global, model: &Model) -> Option<usize> {
        match Region::root(alloc, model) {
            Ok(region) => unless(slot_at(&region.look(None, None)) == Some(self.0)),
            Err(_) => Some(usize::MAX),
        }
    }
}

#[test]
fn settled_slots(rt: HostRuntime) {
    let slot = First(Slot::Present { s: 0, e: 1 });
    let text = "a = intervalVar(size=1,start=0,end=1);";
    assert_eq!(rt; first_wrong(rt.alloc(), text, &slot), None);
}
