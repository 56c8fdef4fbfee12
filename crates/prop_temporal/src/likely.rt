//! Which guess a way of a precedence refutes likely, by a few comparisons. No promise hangs on this.
use crate::ways::{Side, Way, bounds_of, earliest, excess, latest, pushes_first, pushes_second};
use findings::Likely;
use region::{Bounds, Region};
use sched_model::End;

/// The guess that denies that the way moves its point on this side.
fn moved(way: Way, side: Side) -> Likely {
    match (side, way.from, way.to) {
        (Side::Later, _, End::Start) => Likely::StartsLater(way.second),
        (Side::Later, _, End::Finish) => Likely::EndsLater(way.second),
        (Side::Earlier, End::Start, _) => Likely::StartsSooner(way.first),
        (Side::Earlier, End::Finish, _) => Likely::EndsSooner(way.first),
    }
}

/// The least moment of a point as told.
fn least(end: End, c: Bounds) -> i64 {
    match end {
        End::Start => c.smin,
        End::Finish => c.emin,
    }
}

/// The greatest moment of a point as told.
fn greatest(end: End, c: Bounds) -> i64 {
    match end {
        End::Start => c.smax,
        End::Finish => c.emax,
    }
}

/// A guess that is refuted likely, and how far it can be moved and stay refuted.
#[derive(Clone, Copy, Debug)]
pub struct LikelyMove {
    pub likely: Likely,
    pub far: u64,
}

/// The guess that denies that the way moves its point on this side by so many moments.
fn likely_move(way: Way, side: Side, moments: i64) -> LikelyMove {
    LikelyMove {
        likely: moved(way, side),
        far: u64::try_from(moments.saturating_sub(1)).unwrap_or(0),
    }
}

/// By how many moments the first interval moves the second one's point, and the second the first one's,
/// as they are told.
fn moments_between(c: Bounds, d: Bounds, way: Way, side: Side) -> i64 {
    match side {
        Side::Later => excess(earliest(way.from, c), way.z, least(way.to, d)),
        Side::Earlier => excess(greatest(way.from, c), way.z, latest(way.to, d)),
    }
}

fn likely_between(c: Bounds, d: Bounds, way: Way) -> Option<LikelyMove> {
    if excess(earliest(way.from, c), way.z, latest(way.to, d)) > 0 {
        return None;
    }
    let later = moments_between(c, d, way, Side::Later);
    if pushes_second(c, d) && later > 0 {
        return Some(likely_move(way, Side::Later, later));
    }
    let earlier = moments_between(c, d, way, Side::Earlier);
    if pushes_first(c, d) && earlier > 0 {
        return Some(likely_move(way, Side::Earlier, earlier));
    }
    None
}

/// The guess on a point that the way moves. Where the two points can't be kept, the region is refuted
/// as it stands, or one interval is denied, so that no other guess is likely.
pub fn likely_of(region: &Region, way: Way) -> Option<LikelyMove> {
    let (c, d) = bounds_of(region, way)?;
    likely_between(c, d, way)
}

/// The guess on the point that the way moves on this side.
pub fn guess_of(region: &Region, way: Way, side: Side) -> LikelyMove {
    match bounds_of(region, way) {
        None => likely_move(way, side, 1),
        Some((c, d)) => likely_move(way, side, moments_between(c, d, way, side)),
    }
}
