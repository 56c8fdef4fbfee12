//! Which open presence comes first, and whether the interval is tried with or without.
use crate::links::alternative;
use crate::load::load;
use crate::orders::is_there;
use crate::shortlist::{Candidate, Shortlist};
use crate::view::View;
use region::{Guess, Presence};
use sched_base::Itv;
use sched_model::Slot;

/// A part, and by what it is chosen: the least of these, one after another.
#[derive(Clone, Copy, Debug)]
struct Part {
    x: Itv,
    cost: i64,
    end: i64,
    load: i64,
}

fn is_less(a: Part, b: Part) -> bool {
    (a.cost, a.end, a.load, a.x.0) < (b.cost, b.end, b.load, b.x.0)
}

/// When an interval can end at the earliest.
fn earliest_end(view: &View<'_>, x: Itv) -> i64 {
    match view.bounds(x) {
        None => 0,
        Some(c) => c.emin.max(c.smin.saturating_add(c.pmin)),
    }
}

/// The open part of an alternative that costs least; of those the one that ends soonest, where this is
/// asked for, and then the one where the least is to be done.
fn best_part(view: &View<'_>, parts: &[Itv], by_end: bool) -> Option<Itv> {
    let mut best: Option<Part> = None;
    for x in parts {
        if !view.is_optional(*x) {
            continue;
        }
        let part = Part {
            x: *x,
            cost: view.cost_where(*x, Presence::Present),
            end: if by_end { earliest_end(view, *x) } else { 0 },
            load: load(view, *x),
        };
        best = match best {
            Some(other) if !is_less(part, other) => Some(other),
            _ => Some(part),
        };
    }
    Some(best?.x)
}

/// The part that is to be tried of an interval that has open parts.
pub fn part_to_try(view: &View<'_>, master: Itv) -> Option<Itv> {
    for c in view.links.as_master(master) {
        if let Some((_, parts)) = alternative(view.model, *c) {
            if let Some(x) = best_part(view, parts, true) {
                return Some(x);
            }
        }
    }
    None
}

/// The part that is to be tried in place of an open one, whose master is there.
fn sister_to_try(view: &View<'_>, x: Itv) -> Option<Itv> {
    for c in view.links.as_part(x) {
        if let Some((master, parts)) = alternative(view.model, *c) {
            if is_there(view.look, master) {
                return best_part(view, parts, false);
            }
        }
    }
    None
}

/// The guess on an open presence where no schedule is followed.
pub fn free_guess(view: &View<'_>, x: Itv) -> Guess {
    if let Some(part) = sister_to_try(view, x) {
        return Guess::Present(part);
    }
    if view.cost_where(x, Presence::Absent) < view.cost_where(x, Presence::Present) {
        return Guess::Absent(x);
    }
    Guess::Present(x)
}

/// The guess on an open presence: as in the schedule that is followed, where there is one.
pub fn guess_presence(view: &View<'_>, x: Itv) -> Guess {
    match view.guide.slot(x) {
        Some(Slot::Absent) => Guess::Absent(x),
        Some(Slot::Present { .. }) => Guess::Present(x),
        None => free_guess(view, x),
    }
}

/// Offers the open presences of the greatest weights.
pub fn offer_presences(view: &View<'_>, picks: &mut Shortlist) {
    for n in view.open {
        let x = Itv(*n);
        if view.is_optional(x) {
            picks.offer(Candidate {
                guess: Guess::Present(x),
                room: 1,
                weight: view.weights.of(x),
                number: *n,
            });
        }
    }
    for i in 0..picks.len() {
        if let Some(Guess::Present(x)) = picks.guess(i) {
            picks.replace(i, guess_presence(view, x));
        }
    }
}
