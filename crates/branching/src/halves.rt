//! The two halves of what is open of an interval, and which of them is better.
use crate::poles::Pole;
use crate::view::View;
use region::{Bounds, Guess, Presence};
use sched_base::Itv;
use sched_model::End;

/// The start of an interval that is there, or its end where the start is fixed, and from when to when
/// it may be.
#[derive(Clone, Copy, Debug)]
pub struct Cell {
    pub x: Itv,
    pub end: End,
    pub lo: i64,
    pub hi: i64,
}

/// Half of the sum, rounded down.
pub fn middle(lo: i64, hi: i64) -> i64 {
    lo.saturating_add(hi).div_euclid(2)
}

/// What is open of an interval that is there.
pub fn open_cell(x: Itv, c: Bounds) -> Option<Cell> {
    if c.presence != Presence::Present {
        return None;
    }
    if c.smin < c.smax {
        return Some(Cell {
            x,
            end: End::Start,
            lo: c.smin,
            hi: c.smax,
        });
    }
    if c.emin < c.emax {
        return Some(Cell {
            x,
            end: End::Finish,
            lo: c.emin,
            hi: c.emax,
        });
    }
    None
}

/// The bounds of an interval that starts from `lo` to `hi`.
fn started(c: Bounds, lo: i64, hi: i64) -> Bounds {
    Bounds {
        smin: lo,
        smax: hi,
        emin: c.emin.max(lo.saturating_add(c.pmin)),
        emax: c.emax.min(hi.saturating_add(c.pmax)),
        ..c
    }
}

/// The bounds of an interval that ends from `lo` to `hi`.
fn ended(c: Bounds, lo: i64, hi: i64) -> Bounds {
    Bounds {
        smin: c.smin.max(lo.saturating_sub(c.pmax)),
        smax: c.smax.min(hi.saturating_sub(c.pmin)),
        emin: lo,
        emax: hi,
        ..c
    }
}

/// One of its cells alone is cut, where no size fits both.
fn cut_alone(c: Bounds, end: End, lo: i64, hi: i64) -> Bounds {
    match end {
        End::Start => Bounds {
            smin: lo,
            smax: hi,
            ..c
        },
        End::Finish => Bounds {
            emin: lo,
            emax: hi,
            ..c
        },
    }
}

/// The bounds of an interval of which one end is from `lo` to `hi`. The other end goes with it: the
/// range of an end says nothing of the other one.
fn cut_both(c: Bounds, end: End, lo: i64, hi: i64) -> Bounds {
    let both = match end {
        End::Start => started(c, lo, hi),
        End::Finish => ended(c, lo, hi),
    };
    if both.smin > both.smax || both.emin > both.emax {
        return cut_alone(c, end, lo, hi);
    }
    both
}

/// Whether the half up to the middle costs less than the other; none where they cost the same.
fn is_cheaper(view: &View<'_>, cell: Cell, c: Bounds) -> Option<bool> {
    let t = middle(cell.lo, cell.hi);
    let lower = cut_both(c, cell.end, cell.lo, t);
    let upper = cut_both(c, cell.end, t.saturating_add(1), cell.hi);
    let first = view.goal.cost_with(cell.x, lower);
    let second = view.goal.cost_with(cell.x, upper);
    if first == second {
        return None;
    }
    Some(first < second)
}

/// Whether the half up to the middle is the better one: it costs less, or where both cost the same it
/// is where the objective wants the interval.
fn is_better(view: &View<'_>, cell: Cell, c: Bounds) -> bool {
    is_cheaper(view, cell, c).unwrap_or(view.goal.pole(cell.x) != Pole::Later)
}

/// The value of the cell in the schedule that is followed, where it may be it.
fn followed(view: &View<'_>, cell: Cell) -> Option<i64> {
    let (s, e) = view.guide.place(cell.x)?;
    let at = match cell.end {
        End::Start => s,
        End::Finish => e,
    };
    if at < cell.lo || cell.hi < at {
        return None;
    }
    Some(at)
}

/// Whether the half up to the middle goes first.
fn goes_first(view: &View<'_>, cell: Cell, c: Bounds) -> bool {
    let Some(at) = followed(view, cell) else {
        return is_better(view, cell, c);
    };
    let follows = at <= middle(cell.lo, cell.hi);
    if view.is_bold {
        return is_cheaper(view, cell, c).unwrap_or(follows);
    }
    follows
}

fn up_to(cell: Cell, t: i64) -> Guess {
    match cell.end {
        End::Start => Guess::StartLe(cell.x, t),
        End::Finish => Guess::EndLe(cell.x, t),
    }
}

fn from(cell: Cell, t: i64) -> Guess {
    match cell.end {
        End::Start => Guess::StartGe(cell.x, t),
        End::Finish => Guess::EndGe(cell.x, t),
    }
}

/// The half of a cell that goes first.
pub fn first_half(view: &View<'_>, cell: Cell, c: Bounds) -> Guess {
    let t = middle(cell.lo, cell.hi);
    if goes_first(view, cell, c) {
        return up_to(cell, t);
    }
    from(cell, t.saturating_add(1))
}

/// The start between two that is the better half's again and again.
fn best_between(view: &View<'_>, x: Itv, c: Bounds, lo: i64, hi: i64) -> i64 {
    let mut lo = lo;
    let mut hi = hi;
    for _ in 0..64 {
        if lo >= hi {
            return lo;
        }
        let cell = Cell {
            x,
            end: End::Start,
            lo,
            hi,
        };
        if is_better(view, cell, c) {
            hi = middle(lo, hi);
        } else {
            lo = middle(lo, hi).saturating_add(1);
        }
    }
    lo
}

/// When the objective wishes an interval to start.
pub fn wished_start(view: &View<'_>, x: Itv, c: Bounds) -> i64 {
    let last = c.smax.min(c.emax.saturating_sub(c.pmin));
    if last <= c.smin {
        return c.smin;
    }
    match view.goal.pole(x) {
        Pole::Sooner => c.smin,
        Pole::Later => last,
        Pole::Between => best_between(view, x, c, c.smin, last),
    }
}
