ghost use Rattle.std.specs.Prelude.{◌≡◌, ◌-ℤ◌, pos, true, slice_get, option_and_then, IsTrue, if◌then◌else◌};
ghost use Rattle.sched_model.specs.Data.{gap};
ghost use Rattle.sched_model.specs.Valid.{is_constraint, is_small, is_moment};
ghost use Rattle.region.specs.Looks.{IsRegionOf};
ghost use Rattle.refute_basic.specs.Cycle.{point, edge, itv, forth, back, longer, shorter, along, plain_edge_of, edge_of};

use crate::arc_name::ArcName;
use crate::edge::Arc;
use crate::gaps::gap;
use crate::standing::{is_there, stand};
use region::Look;
use sched_base::{Itv, Mat, Seq, at};
use sched_model::{Constraint, End, Model};

fn point(end: End, x: Itv) -> usize
    ensures { result ≡ point end x }
{
    match end {
        End::Start => 2 * (x.0 as usize),
        End::Finish => 2 * (x.0 as usize) + 1,
    }
}

fn edge(from: End, x: Itv, weight: i64, to: End, y: Itv) -> Arc
    ensures { result ≡ edge from x weight to y }
{
    Arc {
        tail: point(from, x),
        weight,
        head: point(to, y),
    }
}

fn minus(z: i64) -> i64
    requires { IsTrue (is_small z) }
    ensures { result ≡ pos 0 -ℤ z }
{
    0 - z
}

fn minus_moment(z: i64) -> i64
    requires { IsTrue (is_moment z) }
    ensures { result ≡ pos 0 -ℤ z }
{
    0 - z
}

fn forth(look: &Look<'_>, c: &Constraint) -> Option<Arc>
    ensures { result ≡ forth look.now.region c.now }
{
    match c {
        Constraint::Temporal {
            from,
            to,
            equal: _,
            a,
            b,
            z,
        } => {
            if !is_there(look, *a) {
                return None;
            }
            if !is_there(look, *b) {
                return None;
            }
            Some(edge(*from, *a, *z, *to, *b))
        }
        _ => None,
    }
}

fn back(model: &Model, look: &Look<'_>, c: &Constraint) -> Option<Arc>
    requires { is_constraint model.now c.now ≡ true }
    ensures { result ≡ back look.now.region c.now }
{
    match c {
        Constraint::Temporal {
            from,
            to,
            equal,
            a,
            b,
            z,
        } => {
            if !*equal {
                return None;
            }
            if !is_there(look, *a) {
                return None;
            }
            if !is_there(look, *b) {
                return None;
            }
            Some(edge(*to, *b, minus(*z), *from, *a))
        }
        _ => None,
    }
}

fn longer(look: &Look<'_>, x: Itv) -> Option<Arc>
    ensures { result ≡ longer look.now.region x }
{
    if !is_there(look, x) {
        return None;
    }
    Some(edge(End::Start, x, look.pmin(x), End::Finish, x))
}

fn shorter(look: &Look<'_>, x: Itv) -> Option<Arc>
    ensures { result ≡ shorter look.now.region x }
{
    if !is_there(look, x) {
        return None;
    }
    Some(edge(End::Finish, x, minus_moment(look.pmax(x)), End::Start, x))
}

fn forth_at(model: &Model, look: &Look<'_>, c: u32) -> Option<Arc>
    ensures { result ≡ option_and_then (forth look.now.region) (slice_get model.now.constraints c) }
{
    match at(model.constraints(), c as usize) {
        None => None,
        Some(constraint) => forth(look, constraint),
    }
}

#[tactic(auto, using(sched_model::specs::laws::Listed::valid_at))]
fn back_at(model: &Model, look: &Look<'_>, c: u32) -> Option<Arc>
    ensures { result ≡ option_and_then (back look.now.region) (slice_get model.now.constraints c) }
{
    match at(model.constraints(), c as usize) {
        None => None,
        Some(constraint) => back(model, look, constraint),
    }
}

/// The distance that a constraint keeps between each two, the first of which stands before the second.
fn kept_distance(
    model: &Model,
    look: &Look<'_>,
    p: Seq,
    matrix: Option<Mat>,
    direct: bool,
    a: Itv,
    b: Itv,
) -> i64
    requires { IsRegionOf model.now look.now.region }
    ensures { result ≡ (if direct then pos 0 else gap model.now p matrix a b) }
{
    if direct {
        return 0;
    }
    gap(model, look, p, matrix, a, b)
}

fn along(model: &Model, look: &Look<'_>, a: Itv, b: Itv, c: &Constraint) -> Option<Arc>
    requires { IsRegionOf model.now look.now.region }
    ensures { result ≡ along model.now look.now.region a b c.now }
{
    match c {
        Constraint::NoOverlap { p, matrix, direct } => {
            if !stand(look, *p, a, b) {
                return None;
            }
            let distance = kept_distance(model, look, *p, *matrix, *direct, a, b);
            Some(edge(End::Finish, a, distance, End::Start, b))
        }
        _ => None,
    }
}

fn along_at(model: &Model, look: &Look<'_>, a: Itv, b: Itv, c: u32) -> Option<Arc>
    requires { IsRegionOf model.now look.now.region }
    ensures { result ≡ option_and_then (along model.now look.now.region a b) (slice_get model.now.constraints c) }
{
    match at(model.constraints(), c as usize) {
        None => None,
        Some(constraint) => along(model, look, a, b, constraint),
    }
}

fn plain_edge_of(model: &Model, look: &Look<'_>, name: ArcName) -> Option<Arc>
    ensures { result ≡ plain_edge_of model.now look.now.region name }
{
    if name.z != 0 {
        return None;
    }
    if name.kind == 0 {
        if name.y == 0 {
            return forth_at(model, look, name.x);
        }
        if name.y == 1 {
            return back_at(model, look, name.x);
        }
        return None;
    }
    if name.y != 0 {
        return None;
    }
    if name.kind == 1 {
        return longer(look, Itv(name.x));
    }
    if name.kind == 2 {
        return shorter(look, Itv(name.x));
    }
    None
}

/// The arc of this name, where there is one and the look shows its intervals as present.
pub fn edge_of(model: &Model, look: &Look<'_>, name: ArcName) -> Option<Arc>
    requires { IsRegionOf model.now look.now.region }
    ensures { result ≡ edge_of model.now look.now.region name }
{
    if name.kind == 3 {
        return along_at(model, look, Itv(name.y), Itv(name.z), name.x);
    }
    plain_edge_of(model, look, name)
}
