//! Which open bound comes first.
use crate::halves::{first_half, open_cell};
use crate::links::alternative;
use crate::shortlist::{Candidate, Shortlist};
use crate::view::View;
use region::{Bounds, Guess, Presence};
use sched_base::Itv;

/// The interval whose bounds were cut last, which comes first while it is open.
#[derive(Drop)]
pub struct OpenBounds {
    last: Option<Itv>,
}

/// How often what is open of the bounds of an interval may be halved, the wider of both.
fn halvings(c: Bounds) -> i64 {
    let mut room = (c.smax.saturating_sub(c.smin)).max(c.emax.saturating_sub(c.emin));
    for times in 0..64 {
        if room <= 0 {
            return times;
        }
        room /= 2;
    }
    64
}

fn is_open(c: Bounds) -> bool {
    c.presence == Presence::Present && (c.smin < c.smax || c.emin < c.emax)
}

/// Whether an interval stands where another does that is there and open, so that this one is to be
/// looked at: the objective names it, and not its parts.
pub fn follows(view: &View<'_>, x: Itv) -> bool {
    for c in view.links.as_part(x) {
        if let Some((master, _)) = alternative(view.model, *c) {
            if let Some(c) = view.bounds(master) {
                if is_open(c) {
                    return true;
                }
            }
        }
    }
    false
}

/// The half of an interval that goes first; none where it isn't to be cut.
fn half(view: &View<'_>, x: Itv) -> Option<Guess> {
    let c = view.bounds(x)?;
    let cell = open_cell(x, c)?;
    if follows(view, x) {
        return None;
    }
    Some(first_half(view, cell, c))
}

/// An interval of which a bound is open, under a guess that stands for it.
fn candidate(view: &View<'_>, x: Itv) -> Option<Candidate> {
    let c = view.bounds(x)?;
    if !is_open(c) || follows(view, x) {
        return None;
    }
    let (room, weight) = if view.has_profiles {
        (1, view.weights.of(x).saturating_mul(halvings(c)))
    } else {
        (0i64.saturating_sub(c.smin), 1)
    };
    Some(Candidate {
        guess: Guess::Present(x),
        room,
        weight,
        number: x.0,
    })
}

impl OpenBounds {
    pub fn new() -> OpenBounds {
        OpenBounds { last: None }
    }

    /// Goes to a region that isn't a part of the one before.
    pub fn restart(&mut self) {
        self.last = None;
    }

    /// A half of the interval that was cut last, while it is open.
    fn again(&self, view: &View<'_>) -> Option<Guess> {
        half(view, self.last?)
    }

    /// Offers a bound of the interval that was cut last, or else of those with the greatest least
    /// starts. Where functions tell what may be done at each moment, it is a bound of those with the
    /// greatest weights for each time that they may be halved.
    pub fn offer(&mut self, view: &View<'_>, picks: &mut Shortlist) {
        if let Some(guess) = self.again(view) {
            picks.put(guess);
            return;
        }
        for n in view.open {
            if let Some(other) = candidate(view, Itv(*n)) {
                picks.offer(other);
            }
        }
        self.last = first_of(picks);
        if view.has_profiles {
            self.last = None;
        }
        cut_each(view, picks);
    }
}

/// The interval of the first guess.
fn first_of(picks: &Shortlist) -> Option<Itv> {
    match picks.guess(0)? {
        Guess::Present(x) => Some(x),
        _ => None,
    }
}

/// Puts the halves that go first in the places of the guesses that stand for them.
fn cut_each(view: &View<'_>, picks: &mut Shortlist) {
    for i in 0..picks.len() {
        if let Some(Guess::Present(x)) = picks.guess(i) {
            if let Some(guess) = half(view, x) {
                picks.replace(i, guess);
            }
        }
    }
}
