ghost use Rattle.std.specs.Prelude.{◌<◌, ◌≤◌, length};

use crate::orders::{is_open_order, is_there};
use crate::shortlist::{Candidate, Shortlist};
use crate::view::View;
use refute_seq::members_of;
use region::{Guess, Look, OrderCell};
use sched_base::{Itv, NoMemory, Seq};
use sched_model::{Constraint, Model};
use std::alloc::Global;

/// Two members of a sequence, the first to be tried in front of the second.
#[derive(Clone, Copy, Debug)]
struct Pair {
    p: Seq,
    first: Itv,
    second: Itv,
}

/// A member, and when it may start.
#[derive(Clone, Copy, Debug)]
struct Place {
    x: Itv,
    est: i64,
    lst: i64,
}

/// Two neighbours, and when they may start.
#[derive(Clone, Copy, Debug)]
struct Neighbours {
    pair: Pair,
    first: i64,
    second: i64,
}

/// The sequences without overlap, among whose present members orders may be open.
#[derive(Drop)]
pub struct Pairs {
    sequences: Vec<Seq>,
    /// Whether there are so many pairs that only neighbours are compared where no schedule is known.
    pub many: bool,
    // A pair that was open.
    seen: Option<Pair>,
    // The members of one sequence in a row.
    row: Vec<Place>,
    // None was open at a region, and so none is in any part of it.
    closed: bool,
}

/// How much room is left where the first of two stands before the second.
fn slack(look: &Look<'_>, first: Itv, second: Itv) -> i64
    requires first { first.0 < length look.now.region.bounds }
    requires second { second.0 < length look.now.region.bounds }
{
    look.lst(second).saturating_sub(look.ect(first)).max(0)
}

/// The pair of two members where their order is open: first the way of the schedule that is followed,
/// and without one that with more room.
#[tactic(auto, using(region::specs::laws::Present::there_within))]
fn open_pair(view: &View<'_>, p: Seq, x: Itv, y: Itv) -> Option<Candidate> {
    let look = view.look;
    // Most orders are known, so the order is read first.
    if look.order(p, x, y) != OrderCell::Unknown {
        return None;
    }
    if !is_there(look, x) || !is_there(look, y) {
        return None;
    }
    let forth = slack(look, x, y).saturating_add(1);
    let back = slack(look, y, x).saturating_add(1);
    let (first, second) = if view.guide.is_sooner(x, y).unwrap_or(back <= forth) {
        (x, y)
    } else {
        (y, x)
    };
    let less = forth.min(back);
    let more = forth.max(back);
    Some(Candidate {
        guess: Guess::Before(p, first, second),
        room: less.saturating_mul(4).saturating_add(more),
        weight: view.weights.of_both(x, y),
        number: 0,
    })
}

fn offer_with(view: &View<'_>, p: Seq, x: Itv, later: &[Itv], picks: &mut Shortlist) {
    if !is_there(view.look, x) {
        return;
    }
    for y in later {
        if let Some(pair) = open_pair(view, p, x, *y) {
            picks.offer(pair);
        }
    }
}

fn offer_in(view: &View<'_>, p: Seq, members: &[Itv], picks: &mut Shortlist) {
    for i in 0..members.len() {
        offer_with(view, p, members[i], &members[i + 1..], picks);
    }
}

fn open_with(look: &Look<'_>, p: Seq, x: Itv, later: &[Itv]) -> Option<Pair> {
    if !is_there(look, x) {
        return None;
    }
    for y in later {
        if is_open_order(look, p, x, *y) {
            return Some(Pair {
                p,
                first: x,
                second: *y,
            });
        }
    }
    None
}

fn open_in(look: &Look<'_>, p: Seq, members: &[Itv]) -> Option<Pair> {
    for i in 0..members.len() {
        if let Some(pair) = open_with(look, p, members[i], &members[i + 1..]) {
            return Some(pair);
        }
    }
    None
}

/// Where a member stands in a row by when it may start.
fn place_in(row: &[Place], place: Place) -> usize
    ensures { result ≤ length row.now }
{
    for i in 0..row.len() {
        if (place.est, place.lst) < (row[i].est, row[i].lst) {
            return i;
        }
    }
    row.len()
}

/// Two members that stand in a row, where their order is open.
fn open_neighbours(look: &Look<'_>, p: Seq, x: Place, y: Place) -> Option<Neighbours> {
    if !is_open_order(look, p, x.x, y.x) {
        return None;
    }
    Some(Neighbours {
        pair: Pair {
            p,
            first: x.x,
            second: y.x,
        },
        first: x.est,
        second: y.est,
    })
}

/// The first neighbours of a row whose order is open.
fn first_neighbours(look: &Look<'_>, p: Seq, row: &[Place]) -> Option<Neighbours> {
    for i in 1..row.len() {
        if let Some(found) = open_neighbours(look, p, row[i - 1], row[i]) {
            return Some(found);
        }
    }
    None
}

/// Those that may start sooner; of two alike the first.
fn earlier(best: Option<Neighbours>, other: Neighbours) -> Neighbours {
    match best {
        Some(b) if (b.first, b.second) <= (other.first, other.second) => b,
        _ => other,
    }
}

fn offer_neighbours(view: &View<'_>, p: Seq, order: &[Itv], picks: &mut Shortlist) {
    for i in 1..order.len() {
        if let Some(pair) = open_pair(view, p, order[i - 1], order[i]) {
            picks.offer(pair);
        }
    }
}

impl Pairs {
    /// The sequences of the model.
    pub fn new(alloc: Global, model: &Model, many: bool) -> Result<Pairs, NoMemory> {
        let mut sequences = Vec::new(alloc);
        for constraint in model.constraints() {
            if let Constraint::NoOverlap { p, .. } = constraint {
                sequences.push(*p)?;
            }
        }
        let mut row = Vec::new(alloc);
        row.reserve(model.intervals().len())?;
        Ok(Pairs {
            sequences,
            many,
            seen: None,
            row,
            closed: false,
        })
    }

    /// Goes to a region that isn't a part of the one before.
    pub fn restart(&mut self) {
        self.closed = false;
    }

    fn first_open(&self, model: &Model, look: &Look<'_>) -> Option<Pair> {
        for p in self.sequences.iter() {
            if let Some(pair) = open_in(look, *p, members_of(model, *p)) {
                return Some(pair);
            }
        }
        None
    }

    /// Whether all orders of present members are known.
    pub fn knows_all(&mut self, model: &Model, look: &Look<'_>) -> bool {
        if self.closed {
            return true;
        }
        if let Some(pair) = self.seen {
            if is_open_order(look, pair.p, pair.first, pair.second) {
                return false;
            }
        }
        self.seen = self.first_open(model, look);
        self.closed = self.seen.is_none();
        self.closed
    }

    /// Puts the members that are present in a row, by when they may start.
    #[tactic(auto, using(region::specs::laws::Present::there_within))]
    fn fill_row(&mut self, look: &Look<'_>, members: &[Itv]) {
        self.row.clear();
        for x in members {
            if !is_there(look, *x) {
                continue;
            }
            let place = Place {
                x: *x,
                est: look.est(*x),
                lst: look.lst(*x),
            };
            let at = place_in(self.row.as_slice(), place);
            // There is room for all members.
            let _ = self.row.insert(at, place);
        }
    }

    /// The earliest of the pairs that are neighbours by when they may start.
    fn earliest_neighbours(&mut self, model: &Model, look: &Look<'_>) -> Option<Pair> {
        let mut best = None;
        for i in 0..self.sequences.len() {
            let Some(p) = self.sequences.get(i).copied() else {
                break;
            };
            self.fill_row(look, members_of(model, p));
            if let Some(other) = first_neighbours(look, p, self.row.as_slice()) {
                best = Some(earlier(best, other));
            }
        }
        Some(best?.pair)
    }

    /// Offers the pairs that are neighbours in the schedule for which the search goes.
    fn offer_straight(&self, view: &View<'_>, picks: &mut Shortlist) {
        for p in self.sequences.iter() {
            if let Some(order) = view.guide.straight_order(*p) {
                offer_neighbours(view, *p, order, picks);
            }
        }
    }

    fn offer_each(&self, view: &View<'_>, picks: &mut Shortlist) {
        for p in self.sequences.iter() {
            offer_in(view, *p, members_of(view.model, *p), picks);
        }
    }

    /// Offers pairs of present members whose order is open, the tightest first: those with the least sum
    /// of four times the lesser slack of their two ways and once the greater, each and 1, for their
    /// weight. While the search goes straight for a schedule, neighbours in it come before all others,
    /// which mostly follow from them. Where there are many pairs, and there is no schedule to follow, so
    /// do neighbours by when they may start.
    pub fn offer(&mut self, view: &View<'_>, picks: &mut Shortlist) {
        if self.closed {
            return;
        }
        if self.many && view.guide.schedule.is_none() {
            if let Some(pair) = self.earliest_neighbours(view.model, view.look) {
                picks.put(Guess::Before(pair.p, pair.first, pair.second));
                return;
            }
        }
        self.offer_straight(view, picks);
        if picks.is_empty() {
            self.offer_each(view, picks);
        }
        self.closed = picks.is_empty();
    }
}
