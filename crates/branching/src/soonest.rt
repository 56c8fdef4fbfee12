use crate::bounds::follows;
use crate::halves::wished_start;
use crate::links::alternative;
use crate::orders::{any_order, is_there};
use crate::presences::{free_guess, part_to_try};
use crate::rule::Rule;
use crate::shortlist::Shortlist;
use crate::view::View;
use region::{Bounds, Guess, Presence};
use sched_base::Itv;

/// The rule of a search that goes straight for a schedule: it places one interval after another, the
/// soonest first, each as early as it may start, or where the objective wishes it.
#[derive(Clone, Copy, Debug)]
pub struct Soonest {
    /// Whether intervals go where the objective wishes them.
    pub is_wished: bool,
    /// Whether intervals that may be absent are.
    pub is_absent: bool,
}

/// An interval that can be placed, and when: the least moments come first.
#[derive(Clone, Copy, Debug)]
struct Next {
    x: Itv,
    at: i64,
    latest: i64,
}

fn is_sooner(a: Next, b: Next) -> bool {
    (a.at, a.latest, a.x.0) < (b.at, b.latest, b.x.0)
}

/// Whether an interval is a part of an alternative whose master is there.
fn is_chosen_from(view: &View<'_>, x: Itv) -> bool {
    for c in view.links.as_part(x) {
        if let Some((master, _)) = alternative(view.model, *c) {
            if is_there(view.look, master) {
                return true;
            }
        }
    }
    false
}

/// The open presence of the least number, of all of them or of those alone that are no parts.
fn first_open(view: &View<'_>, parts_too: bool) -> Option<Itv> {
    let mut first: Option<u32> = None;
    for n in view.open {
        let x = Itv(*n);
        if view.is_optional(x) && (parts_too || view.links.as_part(x).is_empty()) {
            first = Some(first.unwrap_or(*n).min(*n));
        }
    }
    Some(Itv(first?))
}

impl Soonest {
    /// When an interval is to start, or where its start is fixed, to end.
    fn moment(&self, view: &View<'_>, x: Itv, c: Bounds) -> i64 {
        if c.smin == c.smax {
            return c.emin;
        }
        if self.is_wished {
            return wished_start(view, x, c);
        }
        c.smin
    }

    fn next(&self, view: &View<'_>, x: Itv) -> Option<Next> {
        let c = view.bounds(x)?;
        let is_open = c.smin < c.smax || c.emin < c.emax;
        if c.presence != Presence::Present || !is_open || follows(view, x) {
            return None;
        }
        Some(Next {
            x,
            at: self.moment(view, x, c),
            latest: c.smax.min(c.emax.saturating_sub(c.pmin)),
        })
    }

    fn soonest(&self, view: &View<'_>) -> Option<Next> {
        let mut best: Option<Next> = None;
        for n in view.open {
            if let Some(next) = self.next(view, Itv(*n)) {
                best = match best {
                    Some(other) if !is_sooner(next, other) => Some(other),
                    _ => Some(next),
                };
            }
        }
        best
    }

    /// Places an interval: which part it is, or when it starts, or ends.
    fn place(&self, view: &View<'_>, next: Next) -> Option<Guess> {
        if let Some(part) = part_to_try(view, next.x) {
            return Some(Guess::Present(part));
        }
        let c = view.bounds(next.x)?;
        if c.smin == c.smax {
            return Some(Guess::EndLe(next.x, c.emin));
        }
        if next.at > c.smin {
            return Some(Guess::StartGe(next.x, next.at));
        }
        Some(Guess::StartLe(next.x, c.smin))
    }

    fn presence(&self, view: &View<'_>, x: Itv) -> Guess {
        if self.is_absent && !is_chosen_from(view, x) {
            return Guess::Absent(x);
        }
        free_guess(view, x)
    }

    fn guess(&self, view: &View<'_>) -> Option<Guess> {
        if let Some(x) = first_open(view, false) {
            return Some(self.presence(view, x));
        }
        if let Some(next) = self.soonest(view) {
            return self.place(view, next);
        }
        if let Some(x) = first_open(view, true) {
            return Some(self.presence(view, x));
        }
        any_order(view)
    }
}

impl Rule for Soonest {
    fn pick(&mut self, view: &View<'_>, picks: &mut Shortlist) {
        if let Some(guess) = self.guess(view) {
            picks.put(guess);
        }
    }

    fn restart(&mut self) {}
}
