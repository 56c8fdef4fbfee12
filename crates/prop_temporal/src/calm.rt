//! Whether heights fall along all arcs that a look shows. No arc is collected for it, and an order is
//! read only where the heights don't suffice by themselves, and then once for both members.
ghost use Rattle.std.specs.Prelude.{◌≡◌, ◌<◌, ◌+ℤ◌, ◌-ℤ◌, pos, ◌||◌, ◌&&◌, not, int_lt, true, false, Some, length, slice_get, IsTrue};
ghost use Rattle.sched_model.specs.Valid.{is_moment};
ghost use Rattle.region.specs.Looks.{IsRegionOf};
ghost use Rattle.region.specs.Cells.{bounds_of, cells_of, is_there};
ghost use Rattle.refute_basic.specs.Cycle.{point};
ghost use Rattle.refute_basic.specs.laws.Walks.{AllLose};
ghost use Rattle.prop_temporal.specs.code.Members.{members_at, light_in};
ghost use Rattle.prop_temporal.specs.code.Shown.{IsOfConstraint, IsOfInterval, IsOfPrecedence, IsOfOrder, IsOfPairs, IsOfSide};
ghost use Rattle.prop_temporal.specs.code.Heights.{breaks, height_in, keeps_precedence, Falls, FallsAlong};
ghost use Rattle.prop_temporal.specs.laws.Falling.{fall_both};

use crate::heights::{height, is_beyond, is_late};
use crate::members::{is_told, light_at, members_at};
use crate::shown::named_member;
use refute_basic::{ArcName, edge_of, is_there};
use region::{Look, OrderCell};
use sched_base::{Itv, Seq, at};
use sched_model::{Constraint, End, Model};

/// Whether the height falls along the arc of this name, if the look shows it.
fn falls(model: &Model, look: &Look<'_>, heights: &[i64], i: ArcName) -> bool
    requires { IsRegionOf model.now look.now.region }
    ensures { result ≡ true → Falls model.now look.now.region (height_in heights.now) i }
{
    match edge_of(model, look, i) {
        None => true,
        Some(e) => !is_late(e.weight, height(heights, e.head), height(heights, e.tail)),
    }
}

/// Whether an order is told along whose arc, which weighs nothing, the height doesn't fall: `forth` and
/// `back` say whether it falls along the arcs of the two orders.
fn breaks(order: OrderCell, forth: bool, back: bool) -> bool
    ensures { result ≡ breaks order forth back }
{
    match order {
        OrderCell::Unknown => false,
        OrderCell::Forward => !forth,
        OrderCell::Backward => !back,
    }
}

/// Whether the heights fall along the arcs of two members, of which one at most is shown. Mostly they
/// don't along both, so that the order is read, once for both.
fn fall_both(look: &Look<'_>, p: Seq, x: Itv, y: Itv, forth: bool, back: bool) -> bool
    ensures { result ≡ fall_both (cells_of look.now.region p) x y forth back (is_there look.now.region y) }
{
    if forth && back {
        return true;
    }
    !(breaks(look.order(p, x, y), forth, back) && is_there(look, y))
}

/// The same along the arc of two members, whatever it weighs: most orders aren't told.
fn falls_heavily(model: &Model, look: &Look<'_>, heights: &[i64], i: ArcName) -> bool
    requires of { IsRegionOf model.now look.now.region }
    requires kind { i.kind ≡ 3 }
    ensures { result ≡ true → Falls model.now look.now.region (height_in heights.now) i }
{
    if !is_told(model, look, i) {
        return true;
    }
    falls(model, look, heights, i)
}

/// The same along the arcs of one member with others, which weigh nothing, whichever stands first. Two
/// members in an order that suits both heights need no look at it.
fn pairs_fall_lightly(
    model: &Model,
    look: &Look<'_>,
    heights: &[i64],
    u: u32,
    p: Seq,
    x: Itv,
    others: &[Itv],
) -> bool
    requires { light_in (slice_get model.now.constraints u) ≡ Some p }
    ensures { result ≡ true → FallsAlong model.now look.now.region (height_in heights.now) (IsOfPairs u x.0 others.now) }
{
    let start = height(heights, 2 * (x.0 as usize));
    let end = height(heights, 2 * (x.0 as usize) + 1);
    for y in others {
        let forth = height(heights, 2 * (y.0 as usize)) <= end;
        let back = start <= height(heights, 2 * (y.0 as usize) + 1);
        if !fall_both(look, p, x, *y, forth, back) {
            return false;
        }
    }
    true
}

/// The same along the arcs of each two members, which weigh nothing: a member that isn't present has
/// none.
fn order_falls_lightly(
    model: &Model,
    look: &Look<'_>,
    heights: &[i64],
    u: u32,
    p: Seq,
    members: &[Itv],
) -> bool
    requires of { IsRegionOf model.now look.now.region }
    requires free { light_in (slice_get model.now.constraints u) ≡ Some p }
    requires members { members.now ≡ members_at model.now (slice_get model.now.constraints u) }
    ensures { result ≡ true → FallsAlong model.now look.now.region (height_in heights.now) (IsOfOrder u) }
{
    for k in 0..members.len() {
        let x = members[k];
        if !is_there(look, x) {
            continue;
        }
        if !pairs_fall_lightly(model, look, heights, u, p, x, &members[k + 1..]) {
            return false;
        }
    }
    true
}

/// The same along the arcs of one member with those behind it, whatever they weigh.
fn side_falls_heavily(
    model: &Model,
    look: &Look<'_>,
    heights: &[i64],
    u: u32,
    x: Itv,
    members: &[Itv],
) -> bool
    requires of { IsRegionOf model.now look.now.region }
    requires members { members.now ≡ members_at model.now (slice_get model.now.constraints u) }
    ensures { result ≡ true → FallsAlong model.now look.now.region (height_in heights.now) (IsOfSide false u x.0) }
{
    for y in members {
        if !falls_heavily(model, look, heights, named_member(false, u, x, *y)) {
            return false;
        }
    }
    true
}

/// The same along the arcs of each two members, whatever they weigh.
fn order_falls_heavily(
    model: &Model,
    look: &Look<'_>,
    heights: &[i64],
    u: u32,
    members: &[Itv],
) -> bool
    requires of { IsRegionOf model.now look.now.region }
    requires members { members.now ≡ members_at model.now (slice_get model.now.constraints u) }
    ensures { result ≡ true → FallsAlong model.now look.now.region (height_in heights.now) (IsOfOrder u) }
{
    for x in members {
        if !is_there(look, *x) {
            continue;
        }
        if !side_falls_heavily(model, look, heights, u, *x, members) {
            return false;
        }
    }
    true
}

/// The same along the arcs of each two members of a sequence, by the sequence where they weigh nothing.
fn order_falls(
    model: &Model,
    look: &Look<'_>,
    heights: &[i64],
    u: u32,
    light: Option<Seq>,
    members: &[Itv],
) -> bool
    requires of { IsRegionOf model.now look.now.region }
    requires free { light ≡ light_in (slice_get model.now.constraints u) }
    requires members { members.now ≡ members_at model.now (slice_get model.now.constraints u) }
    ensures { result ≡ true → FallsAlong model.now look.now.region (height_in heights.now) (IsOfOrder u) }
{
    match light {
        Some(p) => order_falls_lightly(model, look, heights, u, p, members),
        None => order_falls_heavily(model, look, heights, u, members),
    }
}

fn point(end: End, x: Itv) -> usize
    ensures { result ≡ point end x }
{
    match end {
        End::Start => 2 * (x.0 as usize),
        End::Finish => 2 * (x.0 as usize) + 1,
    }
}

/// Whether a precedence by this distance allows these heights of its two points.
fn fit_distance(z: i64, equal: bool, first: i64, second: i64) -> bool
    ensures { result ≡ (not (int_lt first (z +ℤ second)) && (not equal || not (int_lt (z +ℤ second) first))) }
{
    !is_late(z, second, first) && (!equal || !is_beyond(z, second, first))
}

/// Whether a precedence allows the heights of its two points, or one of its intervals isn't present.
/// Mostly it does, so that presences are read last. Another constraint allows all heights.
fn keeps_precedence(model: &Model, look: &Look<'_>, heights: &[i64], u: u32) -> bool
    ensures { result ≡ keeps_precedence look.now.region (height_in heights.now) (slice_get model.now.constraints u) }
{
    match at(model.constraints(), u as usize) {
        Some(
            Constraint::Temporal {
                from,
                to,
                equal,
                a,
                b,
                z,
            },
        ) => {
            let first = height(heights, point(*from, *a));
            let second = height(heights, point(*to, *b));
            if fit_distance(*z, *equal, first, second) {
                return true;
            }
            !(is_there(look, *a) && is_there(look, *b))
        }
        _ => true,
    }
}

/// The same along the arcs of a precedence.
fn precedence_falls(model: &Model, look: &Look<'_>, heights: &[i64], u: u32) -> bool
    ensures { result ≡ true → FallsAlong model.now look.now.region (height_in heights.now) (IsOfPrecedence u) }
{
    keeps_precedence(model, look, heights, u)
}

fn minus(size: i64) -> i64
    requires { IsTrue (is_moment size) }
    ensures { result ≡ pos 0 -ℤ size }
{
    0 - size
}

/// Whether these sizes allow these heights of a start and an end.
fn fit_sizes(least: i64, greatest: i64, start: i64, end: i64) -> bool
    requires { IsTrue (is_moment greatest) }
    ensures { result ≡ (not (int_lt start (least +ℤ end)) && not (int_lt end ((pos 0 -ℤ greatest) +ℤ start))) }
{
    if is_late(least, end, start) {
        return false;
    }
    !is_late(minus(greatest), start, end)
}

/// Whether the sizes of an interval allow these heights of its start and its end, or it isn't present.
/// Mostly they do, so that its presence is read last.
fn sizes_fall(look: &Look<'_>, x: Itv, start: i64, end: i64) -> bool
    requires { x.0 < length look.now.region.bounds }
    ensures { result ≡ ((not (int_lt start ((bounds_of look.now.region x).pmin +ℤ end)) && not (int_lt end ((pos 0 -ℤ (bounds_of look.now.region x).pmax) +ℤ start))) || not (is_there look.now.region x)) }
{
    if fit_sizes(look.pmin(x), look.pmax(x), start, end) {
        return true;
    }
    !is_there(look, x)
}

/// The same along the arcs of the least and of the greatest size of an interval.
fn interval_falls(model: &Model, look: &Look<'_>, heights: &[i64], x: u32) -> bool
    requires { x < length look.now.region.bounds }
    ensures { result ≡ true → FallsAlong model.now look.now.region (height_in heights.now) (IsOfInterval x) }
{
    let point = 2 * (x as usize);
    sizes_fall(
        look,
        Itv(x),
        height(heights, point),
        height(heights, point + 1),
    )
}

fn constraint_falls(model: &Model, look: &Look<'_>, heights: &[i64], u: u32) -> bool
    requires { IsRegionOf model.now look.now.region }
    ensures { result ≡ true → FallsAlong model.now look.now.region (height_in heights.now) (IsOfConstraint u) }
{
    precedence_falls(model, look, heights, u)
        && order_falls(
            model,
            look,
            heights,
            u,
            light_at(model, u),
            members_at(model, u),
        )
}

/// Whether the heights fall along all arcs that the look shows.
pub fn all_fall(model: &Model, look: &Look<'_>, heights: &[i64]) -> bool
    requires { IsRegionOf model.now look.now.region }
    ensures { result ≡ true → AllLose model.now look.now.region (height_in heights.now) }
{
    for u in 0..model.constraints().len() as u32 {
        if !constraint_falls(model, look, heights, u) {
            return false;
        }
    }
    for x in 0..look.len() as u32 {
        if !interval_falls(model, look, heights, x) {
            return false;
        }
    }
    true
}
