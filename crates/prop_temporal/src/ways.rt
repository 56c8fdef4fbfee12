//! A precedence read one way, and by how much it moves its points. No promise hangs on this.
use refute_basic::Arc;
use region::{Bounds, Presence, Region};
use sched_base::{Itv, at};
use sched_model::{Constraint, End, Model};

/// A precedence read forwards (0), or backwards (1) where it has `equal`: the first point, moved on by
/// `z`, is not after the second.
#[derive(Clone, Copy, Debug)]
pub struct Way {
    pub c: u32,
    pub d: u32,
    pub first: Itv,
    pub from: End,
    pub second: Itv,
    pub to: End,
    pub z: i64,
}

/// The place of a point among the heights.
pub fn point(end: End, x: Itv) -> usize {
    match end {
        End::Start => 2 * (x.0 as usize),
        End::Finish => 2 * (x.0 as usize) + 1,
    }
}

impl Way {
    /// Its arc, where both intervals are present.
    pub fn arc(&self) -> Arc {
        Arc {
            tail: point(self.from, self.first),
            weight: self.z,
            head: point(self.to, self.second),
        }
    }
}

/// Which point a way moves: the second one, which gets later, or the first one, which gets earlier.
#[derive(Clone, Copy, Debug, PartialEq, Eq)]
pub enum Side {
    Later,
    Earlier,
}

/// A way of a precedence between two intervals.
pub fn way_of(model: &Model, c: u32, d: u32) -> Option<Way> {
    let Constraint::Temporal {
        from,
        to,
        equal,
        a,
        b,
        z,
    } = at(model.constraints(), c as usize)?
    else {
        return None;
    };
    if a.0 == b.0 {
        return None;
    }
    let forwards = Way {
        c,
        d,
        first: *a,
        from: *from,
        second: *b,
        to: *to,
        z: *z,
    };
    match (d, *equal) {
        (0, _) => Some(forwards),
        (1, true) => reversed(forwards),
        _ => None,
    }
}

/// The distance backwards, where it is a number of 64 bits.
fn minus(z: i64) -> Option<i64> {
    if z == i64::MIN {
        return None;
    }
    Some(0 - z)
}

fn reversed(way: Way) -> Option<Way> {
    let z = minus(way.z)?;
    Some(Way {
        first: way.second,
        from: way.to,
        second: way.first,
        to: way.from,
        z,
        ..way
    })
}

/// The least moment of a point, by the bounds of its interval and the least size.
pub fn earliest(end: End, c: Bounds) -> i64 {
    match end {
        End::Start => c.smin,
        End::Finish => c.emin.max(c.smin.saturating_add(c.pmin)),
    }
}

/// The greatest moment of a point, by the same.
pub fn latest(end: End, c: Bounds) -> i64 {
    match end {
        End::Start => c.smax.min(c.emax.saturating_sub(c.pmin)),
        End::Finish => c.emax,
    }
}

/// By how much the first point, moved on by `z`, is after the second.
pub fn excess(first: i64, z: i64, second: i64) -> i64 {
    first.saturating_add(z).saturating_sub(second)
}

/// Whether the first interval of a way is present, and so moves the second one, which may be.
pub fn pushes_second(c: Bounds, d: Bounds) -> bool {
    c.presence == Presence::Present && d.presence != Presence::Absent
}

/// Whether the second interval is present, and so moves the first one, which may be.
pub fn pushes_first(c: Bounds, d: Bounds) -> bool {
    d.presence == Presence::Present && c.presence != Presence::Absent
}

/// The bounds of the two intervals of a way.
pub fn bounds_of(region: &Region, way: Way) -> Option<(Bounds, Bounds)> {
    let look = region.look(None, None);
    if way.first.0 as usize >= look.len() || way.second.0 as usize >= look.len() {
        return None;
    }
    Some((look.bounds(way.first), look.bounds(way.second)))
}

/// By how much an interval that is present moves another one that may be: not at all where this isn't
/// positive.
fn push_between(c: Bounds, d: Bounds, way: Way, side: Side) -> i64 {
    match side {
        Side::Later if pushes_second(c, d) => {
            excess(earliest(way.from, c), way.z, earliest(way.to, d))
        }
        Side::Earlier if pushes_first(c, d) => {
            excess(latest(way.from, c), way.z, latest(way.to, d))
        }
        _ => 0,
    }
}

/// By how much a way moves its point.
pub fn push_of(region: &Region, way: Way, side: Side) -> i64 {
    match bounds_of(region, way) {
        None => 0,
        Some((c, d)) => push_between(c, d, way, side),
    }
}

/// Whether a way moves neither point further than the least sizes leave them anyhow, and denies
/// neither interval. What ARC finds of it then follows from the sizes alone.
pub fn moves_nothing(region: &Region, way: Way) -> bool {
    let Some((c, d)) = bounds_of(region, way) else {
        return false;
    };
    push_between(c, d, way, Side::Later) <= 0
        && push_between(c, d, way, Side::Earlier) <= 0
        && excess(earliest(way.from, c), way.z, latest(way.to, d)) <= 0
}
