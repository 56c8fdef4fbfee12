//! Regions of small models, with what a look shows after each change worked out by hand.
use crate::lines::assignment;
use crate::models::{Rows, first_wrong, unless};
use region::{CellName, Fact, Guess, OrderCell, Presence, Region};
use sched_base::{Itv, Seq};
use sched_model::Model;
use std::alloc::Global;

const A: Itv = Itv(0);

const B: Itv = Itv(1);

const P: Seq = Seq(0);

const TWO: &str =
    "a = intervalVar(size=1,start=0..3,end=1..4); b = intervalVar(optional,size=2,start=0..4,end=2..6); p = sequenceVar([a,b]);";

#[derive(Clone, Copy)]
enum Change {
    Save,
    Undo,
    Assume(Guess),
    Learn(Guess),
}

/// What a look shows of an interval: the least and the greatest start, and the same of the end.
type Shown = (i64, i64, i64, i64);

/// Whether the change may be made, and is.
fn make(region: &mut Region, what: Change) -> bool {
    match what {
        Change::Save => region.save().is_ok(),
        Change::Undo => {
            if region.saves() == 0 {
                return false;
            }
            region.undo();
            true
        }
        Change::Assume(g) => region.splits(g) && region.assume(g) == Ok(cell_of(g)),
        Change::Learn(g) => region.admits(g) && region.learn(Fact(g)) == Ok(cell_of_fact(g)),
    }
}

/// The cell that a guess changes.
fn cell_of(g: Guess) -> CellName {
    match g {
        Guess::Present(x) => CellName::Presence(x),
        Guess::Absent(x) => CellName::Presence(x),
        Guess::StartLe(x, _) => CellName::StartMax(x),
        Guess::StartGe(x, _) => CellName::StartMin(x),
        Guess::EndLe(x, _) => CellName::EndMax(x),
        Guess::EndGe(x, _) => CellName::EndMin(x),
        Guess::Before(p, x, y) => CellName::Order(p, x, y),
    }
}

/// The cell that the fact of a guess changes.
fn cell_of_fact(g: Guess) -> CellName {
    match g {
        Guess::Present(x) => CellName::Presence(x),
        Guess::Absent(x) => CellName::Presence(x),
        Guess::StartLe(x, _) => CellName::StartMin(x),
        Guess::StartGe(x, _) => CellName::StartMax(x),
        Guess::EndLe(x, _) => CellName::EndMin(x),
        Guess::EndGe(x, _) => CellName::EndMax(x),
        Guess::Before(p, x, y) => CellName::Order(p, x, y),
    }
}

fn shown(region: &Region, x: Itv) -> Option<Shown> {
    let look = region.look(None, None);
    if x.0 as usize >= look.len() {
        return None;
    }
    Some((look.smin(x), look.smax(x), look.emin(x), look.emax(x)))
}

type Row = (Change, Shown);

/// The number of the first change that isn't made or after which a look shows something else of the
/// interval; each takes one of the spare entries at most.
fn wrong_from(region: &mut Region, x: Itv, rows: &[Row]) -> Option<usize> {
    for (n, (what, want)) in rows.iter().enumerate() {
        let spare = region.spare();
        if !make(region, *what)
            || shown(region, x) != Some(*want)
            || region.spare().saturating_add(1) < spare
        {
            return Some(n);
        }
    }
    None
}

/// Changes from the root on, and what a look shows of an interval after each.
#[derive(Clone, Copy)]
struct Changes<'a> {
    x: Itv,
    rows: &'a [Row],
}

fn wrong_with_room(region: &mut Region, x: Itv, rows: &[Row]) -> Option<usize> {
    if region.reserve(rows.len()).is_err() {
        return Some(usize::MAX);
    }
    wrong_from(region, x, rows)
}

impl Rows for Changes<'_> {
    fn wrong(&self, alloc: Global, model: &Model) -> Option<usize> {
        match Region::root(alloc, model) {
            Ok(mut region) => wrong_with_room(&mut region, self.x, self.rows),
            Err(_) => Some(usize::MAX),
        }
    }
}

fn wrong_in_two(alloc: Global, x: Itv, rows: &[Row]) -> Option<usize> {
    first_wrong(alloc, TWO, &Changes { x, rows })
}

#[test]
fn narrows_and_goes_back(rt: HostRuntime) {
    let rows = [
        (Change::Save, (0, 3, 1, 4)),
        (Change::Assume(Guess::StartLe(A, 1)), (0, 1, 1, 4)),
        (Change::Learn(Guess::EndLe(A, 1)), (0, 1, 2, 4)),
        (Change::Save, (0, 1, 2, 4)),
        (Change::Assume(Guess::StartGe(A, 1)), (1, 1, 2, 4)),
        (Change::Learn(Guess::EndGe(A, 3)), (1, 1, 2, 2)),
        (Change::Undo, (0, 1, 2, 4)),
        (Change::Learn(Guess::StartGe(A, 1)), (0, 0, 2, 4)),
        (Change::Undo, (0, 3, 1, 4)),
    ];
    assert_eq!(rt; wrong_in_two(rt.alloc(), A, &rows), None);
}

/// Changes, and whether each is made; what isn't open is refused.
const TRIED: [(Change, bool); 8] = [
    (Change::Assume(Guess::StartLe(A, 2)), true),
    (Change::Assume(Guess::StartLe(A, 3)), false),
    (Change::Learn(Guess::StartGe(A, 0)), false),
    (Change::Learn(Guess::Present(A)), false),
    (Change::Assume(Guess::StartLe(B, 1)), false),
    (Change::Assume(Guess::Before(P, A, B)), false),
    (Change::Learn(Guess::Before(P, A, A)), false),
    (Change::Undo, false),
];

fn wrong_try(alloc: Global) -> Option<usize> {
    for (n, row) in TRIED.iter().enumerate() {
        let (what, made) = *row;
        let smax = if made { 2 } else { 3 };
        let want = if made { None } else { Some(0) };
        if wrong_in_two(alloc, A, &[(what, (0, smax, 1, 4))]) != want {
            return Some(n);
        }
    }
    None
}

#[test]
fn refuses_what_is_not_open(rt: HostRuntime) {
    assert_eq!(rt; wrong_try(rt.alloc()), None);
}

/// What a look under a guess shows: the presence of b, its latest start, and the order of a and b.
fn under(region: &Region, g: Option<Guess>) -> Option<(Presence, i64, OrderCell)> {
    if let Some(g) = g {
        if !region.admits(g) {
            return None;
        }
    }
    let look = region.look(g, None);
    if look.len() < 2 {
        return None;
    }
    Some((look.presence(B), look.lst(B), look.order(P, A, B)))
}

type Seen = (Option<Guess>, Option<(Presence, i64, OrderCell)>);

fn is_seen(region: &Region, rows: &[Seen]) -> bool {
    rows.iter().all(|(g, want)| under(region, *g) == *want)
}

/// What looks show before b is known to be present, and once it stands behind a.
#[derive(Clone, Copy)]
struct Looks<'a> {
    before: &'a [Seen],
    behind: &'a [Seen],
}

fn are_seen(region: &mut Region, looks: &Looks<'_>) -> bool {
    is_seen(region, looks.before)
        && make(region, Change::Learn(Guess::Absent(B)))
        && make(region, Change::Assume(Guess::Before(P, A, B)))
        && is_seen(region, looks.behind)
}

impl Rows for Looks<'_> {
    fn wrong(&self, alloc: Global, model: &Model) -> Option<usize> {
        match Region::root(alloc, model) {
            Ok(mut region) => unless(are_seen(&mut region, self)),
            Err(_) => Some(usize::MAX),
        }
    }
}

#[test]
fn looks_under_a_guess(rt: HostRuntime) {
    let open = OrderCell::Unknown;
    let before = [
        (None, Some((Presence::Maybe, 4, open))),
        (Some(Guess::Absent(B)), Some((Presence::Absent, 4, open))),
        (Some(Guess::EndLe(B, 4)), Some((Presence::Present, 2, open))),
        (
            Some(Guess::Before(P, B, A)),
            Some((Presence::Present, 4, OrderCell::Backward)),
        ),
        (Some(Guess::EndLe(B, 6)), None),
    ];
    let behind = [
        (None, Some((Presence::Present, 4, OrderCell::Forward))),
        (Some(Guess::Before(P, B, A)), None),
        (Some(Guess::Absent(B)), None),
    ];
    let looks = Looks {
        before: &before,
        behind: &behind,
    };
    assert_eq!(rt; first_wrong(rt.alloc(), TWO, &looks), None);
}

fn allows(alloc: Global, region: &Region, line: &str) -> bool {
    match assignment(alloc, line) {
        Some(a) => region.look(None, None).allows(&a),
        None => false,
    }
}

/// Whether the root is settled and allows the assignment of a line.
#[derive(Clone, Copy)]
struct Settled {
    line: &'static str,
    want: bool,
}

impl Rows for Settled {
    fn wrong(&self, alloc: Global, model: &Model) -> Option<usize> {
        match Region::root(alloc, model) {
            Ok(region) => {
                let settled = region.settled() && allows(alloc, &region, self.line);
                unless(settled == self.want)
            }
            Err(_) => Some(usize::MAX),
        }
    }
}

const PLACED: &str = "a = intervalVar(size=1,start=2,end=3);";

/// Models, assignments, and whether the root is settled and allows the assignment.
const SETTLED: [(&str, &str, bool); 3] = [
    (PLACED, "v p 2 3\n", true),
    (PLACED, "v p 1 2\n", false),
    (TWO, "v p 0 1 a o 1 0\n", false),
];

fn wrong_root(alloc: Global) -> Option<usize> {
    for (n, row) in SETTLED.iter().enumerate() {
        let (text, line, want) = *row;
        if first_wrong(alloc, text, &Settled { line, want }).is_some() {
            return Some(n);
        }
    }
    None
}

#[test]
fn settled_roots(rt: HostRuntime) {
    assert_eq!(rt; wrong_root(rt.alloc()), None);
}
