ghost use Rattle.std.specs.Prelude.{◌≡◌, ◌&&◌, int_le, false, not, true};
ghost use Rattle.std.specs.List.Sorted.{IsPartitionPoint};
ghost use Rattle.std.specs.Ordering.{int_eq};
ghost use Rattle.std.specs.List.{list_all, list_any};
ghost use Rattle.sched_model.specs.Words.{◌implies◌};
ghost use Rattle.sched_model.specs.Value.{segments_of, start_of};
ghost use Rattle.sched_model.specs.States.{are_apart, demands, first_behind, lies_in, shares_moment};

use crate::slots::{end_of, is_present, segments_of, start_of};
use crate::types::{Assignment, Segment};
use sched_base::{Itv, Stf, at};

fn demands(a: &Assignment, x: Itv) -> bool
    ensures { result ≡ demands a.now x }
{
    is_present(a, x) && start_of(a, x) < end_of(a, x)
}

fn is_aligned(wanted: bool, t: i64, u: i64) -> bool
    ensures { result ≡ (wanted implies int_eq t u) }
{
    !wanted || t == u
}

fn covers(g: Segment, v: i64, s: i64, e: i64) -> bool
    ensures { result ≡ (int_eq g.v v && int_le g.p s && int_le e g.q) }
{
    g.v == v && g.p <= s && e <= g.q
}

#[tactic(auto, using(base_laws::specs::laws::Truth::second_fails, base_laws::specs::laws::Truth::third_decides))]
fn lies_in(
    a: &Assignment,
    x: Itv,
    v: i64,
    start_aligned: bool,
    end_aligned: bool,
    g: Segment,
) -> bool
    ensures { result ≡ lies_in a.now x v start_aligned end_aligned g }
{
    let s = start_of(a, x);
    let e = end_of(a, x);
    if !covers(g, v, s, e) {
        return false;
    }
    if !is_aligned(start_aligned, g.p, s) {
        return false;
    }
    is_aligned(end_aligned, g.q, e)
}

fn shares_moment(a: &Assignment, x: Itv, g: Segment) -> bool
    ensures { result ≡ shares_moment a.now x g }
{
    g.p.max(start_of(a, x)) < g.q.min(end_of(a, x))
}

fn ends_by(g: Segment, t: i64) -> bool
    ensures { result ≡ int_le g.q t }
{
    g.q <= t
}

/// How many segments end by a moment. They come first, and are counted by halving.
fn count_ended(is: &[Segment], t: i64) -> usize
    requires { are_apart is.now ≡ true }
    ensures { IsPartitionPoint (λ i. int_le i.q t ≡ true) (λ i. int_le i.q t ≡ false) is.now result }
{
    is.partition_point(|i| ends_by(*i, t))
}

/// The first segment that ends after the start of an interval.
fn first_behind(a: &Assignment, x: Itv, is: &[Segment]) -> Option<Segment>
    requires { are_apart is.now ≡ true }
    ensures { result ≡ first_behind (start_of a.now x) is.now }
{
    at(is, count_ended(is, start_of(a, x))).copied()
}

/// Whether an interval that demands something lies in a segment of the state: earlier segments than
/// the one that is tried end by its start, and later ones begin after it.
fn lies_in_some(
    a: &Assignment,
    x: Itv,
    v: i64,
    start_aligned: bool,
    end_aligned: bool,
    is: &[Segment],
) -> bool
    requires apart { are_apart is.now ≡ true }
    requires demanded { demands a.now x ≡ true }
    ensures { result ≡ list_any (lies_in a.now x v start_aligned end_aligned) is.now }
{
    match first_behind(a, x, is) {
        None => false,
        Some(i) => lies_in(a, x, v, start_aligned, end_aligned, i),
    }
}

/// Whether the interval lies in a segment of the state, where it demands one.
pub fn has_state(
    a: &Assignment,
    g: Stf,
    x: Itv,
    v: i64,
    start_aligned: bool,
    end_aligned: bool,
) -> bool
    requires { are_apart (segments_of a.now g) ≡ true }
    ensures { result ≡ demands a.now x implies list_any (lies_in a.now x v start_aligned end_aligned) (segments_of a.now g) }
{
    if !demands(a, x) {
        return true;
    }
    lies_in_some(a, x, v, start_aligned, end_aligned, segments_of(a, g))
}

/// Whether an interval that demands something shares no moment with a segment: where the first that
/// ends after its start begins behind it, so do all later ones.
fn is_free_of(a: &Assignment, x: Itv, is: &[Segment]) -> bool
    requires apart { are_apart is.now ≡ true }
    requires demanded { demands a.now x ≡ true }
    ensures { result ≡ list_all (λ i. not (shares_moment a.now x i)) is.now }
{
    match first_behind(a, x, is) {
        None => true,
        Some(i) => !shares_moment(a, x, i),
    }
}

/// Whether the interval shares no moment with a segment, where it demands this.
pub fn has_no_state(a: &Assignment, g: Stf, x: Itv) -> bool
    requires { are_apart (segments_of a.now g) ≡ true }
    ensures { result ≡ demands a.now x implies list_all (λ i. not (shares_moment a.now x i)) (segments_of a.now g) }
{
    if !demands(a, x) {
        return true;
    }
    is_free_of(a, x, segments_of(a, g))
}
