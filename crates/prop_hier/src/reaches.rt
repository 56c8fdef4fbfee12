//! How far a guess can likely be moved and stay refuted. No promise hangs on this: it only tells where to look
//! first.
use refute_hier::known;
use region::{Bounds, Guess, Look, Presence, earliest_end, latest_start};
use sched_base::Itv;

/// The first and the last moment at which others can start, and at which they can end.
#[derive(Clone, Copy, Debug)]
pub struct Window {
    first_start: i64,
    last_start: i64,
    first_end: i64,
    last_end: i64,
}

impl Window {
    /// That of nobody.
    const EMPTY: Window = Window {
        first_start: i64::MAX,
        last_start: i64::MIN,
        first_end: i64::MAX,
        last_end: i64::MIN,
    };

    /// With that of one more.
    fn with(self, other: Window) -> Window {
        Window {
            first_start: self.first_start.min(other.first_start),
            last_start: self.last_start.max(other.last_start),
            first_end: self.first_end.min(other.first_end),
            last_end: self.last_end.max(other.last_end),
        }
    }

    /// What is left of it to an interval that lasts so long at least.
    fn of_size(self, size: i64) -> Window {
        Window {
            first_start: self.first_start,
            last_start: self.last_start.min(self.last_end.saturating_sub(size)),
            first_end: self.first_end.max(self.first_start.saturating_add(size)),
            last_end: self.last_end,
        }
    }
}

/// The window of an interval.
pub fn window_of(look: &Look<'_>, x: Itv) -> Window {
    let c = known(look, x);
    Window {
        first_start: c.smin,
        last_start: latest_start(c.smax, c.emax, c.pmin),
        first_end: earliest_end(c.emin, c.smin, c.pmin),
        last_end: c.emax,
    }
}

/// The window of those of some intervals that may be present.
pub fn window_around(look: &Look<'_>, parts: &[Itv]) -> Window {
    let mut window = Window::EMPTY;
    for x in parts {
        if known(look, *x).presence != Presence::Absent {
            window = window.with(window_of(look, *x));
        }
    }
    window
}

/// The moments before a guess leaves an interval with these bounds within a window.
pub fn reach_into(window: Window, c: Bounds, guess: Guess) -> Option<u64> {
    let window = window.of_size(c.pmin);
    let moments = match guess {
        Guess::StartLe(_, t) => window.first_start.saturating_sub(t),
        Guess::EndLe(_, t) => window.first_end.saturating_sub(t),
        Guess::StartGe(_, t) => t.saturating_sub(window.last_start),
        Guess::EndGe(_, t) => t.saturating_sub(window.last_end),
        _ => return None,
    };
    u64::try_from(moments.saturating_sub(1)).ok()
}
