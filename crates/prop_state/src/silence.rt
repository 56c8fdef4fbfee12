//! Where STATE and STATE3 find nothing, by a few comparisons.
ghost use Rattle.std.specs.Prelude.{◌≡◌, ◌+ℤ◌, pos, int_lt, ◌||◌};
ghost use Rattle.region.specs.Cells.{says_present, says_absent};
ghost use Rattle.prop_state.specs.code.Silence.{is_late_in, may_be_late, nearly_two, nearly_three, may_stand_two, may_stand_three, may_clash, may_refute_two, may_all_be_late, may_refute_three, may_refute_pair, may_refute_around, may_refute_triple};

use crate::demands::Named;
use findings::Ends;
use refute_state::{Demand, demand_gap, same_state, some_state};
use region::Presence;
use sched_model::Model;

/// Whether an end with a distance is later than a start.
fn is_past(end: i64, n: i64, start: i64) -> bool
    ensures { result ≡ int_lt start (end +ℤ n) }
{
    i128::from(start) < i128::from(end) + i128::from(n)
}

/// Whether the first can't end in time for the second.
#[tactic(auto, unfolding(crate::specs::code::Silence::is_late_in))]
fn is_late_in(c: Ends, n: i64, d: Ends) -> bool
    ensures { result ≡ is_late_in c n d }
{
    is_past(c.ect, n, d.lst)
}

/// Whether it can't under some guess on one of them.
#[tactic(auto, unfolding(crate::specs::code::Silence::may_be_late))]
fn may_be_late(c: Ends, n: i64, d: Ends) -> bool
    ensures { result ≡ may_be_late c n d }
{
    is_past(c.ect, n, d.lowest_start) || is_past(c.highest_end, n, d.lst)
}

fn is_present(c: Ends) -> bool
    ensures { result ≡ says_present c.presence }
{
    c.presence == Presence::Present
}

/// Whether an interval is told to be absent.
pub fn is_absent(c: Ends) -> bool
    ensures { result ≡ says_absent c.presence }
{
    c.presence == Presence::Absent
}

#[tactic(auto, unfolding(crate::specs::code::Silence::nearly_three))]
fn nearly_three(p: bool, q: bool, s: bool) -> bool
    ensures { result ≡ nearly_three p q s }
{
    (p && q) || (p && s) || (q && s)
}

#[tactic(auto, unfolding(crate::specs::code::Silence::nearly_two))]
fn nearly_two(p: bool, q: bool) -> bool
    ensures { result ≡ nearly_two p q }
{
    p || q
}

fn is_some_there(c: Ends, d: Ends) -> bool
    ensures { result ≡ nearly_two (says_present c.presence) (says_present d.presence) }
{
    nearly_two(is_present(c), is_present(d))
}

fn are_two_there(c: Ends, d: Ends, e: Ends) -> bool
    ensures { result ≡ nearly_three (says_present c.presence) (says_present d.presence) (says_present e.presence) }
{
    nearly_three(is_present(c), is_present(d), is_present(e))
}

#[tactic(auto, unfolding(crate::specs::code::Silence::may_stand_two))]
fn may_stand_two(c: Ends, d: Ends) -> bool
    ensures { result ≡ may_stand_two c d }
{
    !is_absent(c) && !is_absent(d) && is_some_there(c, d)
}

#[tactic(auto, unfolding(crate::specs::code::Silence::may_stand_three))]
fn may_stand_three(c: Ends, d: Ends, e: Ends) -> bool
    ensures { result ≡ may_stand_three c d e }
{
    !is_absent(c) && !is_absent(d) && !is_absent(e) && are_two_there(c, d, e)
}

/// Whether one of two lies too late for the other, whichever stands first.
fn is_one_late(c: Ends, n: i64, d: Ends, k: i64) -> bool
    ensures { result ≡ nearly_two (is_late_in c n d) (is_late_in d k c) }
{
    nearly_two(is_late_in(c, n, d), is_late_in(d, k, c))
}

#[tactic(auto, unfolding(crate::specs::code::Silence::may_refute_two))]
fn may_refute_two(c: Ends, n: i64, d: Ends, k: i64) -> bool
    ensures { result ≡ may_refute_two c n d k }
{
    may_stand_two(c, d) && is_one_late(c, n, d, k) && may_be_late(c, n, d) && may_be_late(d, k, c)
}

/// Whether two of the three tests of a third between two hold.
fn are_two_late(c: Ends, e: Ends, d: Ends, n: i64) -> bool
    ensures { result ≡ nearly_three (is_late_in e (pos 0) c) (is_late_in d (pos 0) e) (is_late_in c n d) }
{
    nearly_three(
        is_late_in(e, 0, c),
        is_late_in(d, 0, e),
        is_late_in(c, n, d),
    )
}

/// Whether each of these tests may hold under some guess.
#[tactic(auto, unfolding(crate::specs::code::Silence::may_all_be_late))]
fn may_all_be_late(c: Ends, e: Ends, d: Ends, n: i64) -> bool
    ensures { result ≡ may_all_be_late c e d n }
{
    may_be_late(e, 0, c) && may_be_late(d, 0, e) && may_be_late(c, n, d)
}

#[tactic(auto, unfolding(crate::specs::code::Silence::may_refute_three))]
fn may_refute_three(c: Ends, e: Ends, d: Ends, n: i64) -> bool
    ensures { result ≡ may_refute_three c e d n }
{
    may_stand_three(c, e, d) && are_two_late(c, e, d, n) && may_all_be_late(c, e, d, n)
}

/// Whether two demands may clash by their states, or by how they are aligned.
#[tactic(auto, unfolding(crate::specs::code::Silence::may_clash))]
fn may_clash(a: Demand, b: Demand) -> bool
    ensures { result ≡ may_clash a b }
{
    some_state(a.state, b.state)
        && (!same_state(a.state, b.state) || a.starts || a.ends || b.starts || b.ends)
}

/// Whether STATE of two demands may refute, as the region stands or under a guess at the end of a cell.
#[tactic(auto, unfolding(crate::specs::code::Silence::may_refute_pair))]
pub fn may_refute_pair(model: &Model, a: Named, b: Named) -> bool
    ensures { result ≡ may_refute_pair model.now a b }
{
    if !may_clash(a.demand, b.demand) {
        return false;
    }
    if a.demand.x.0 == b.demand.x.0 {
        return true;
    }
    let n = demand_gap(model, a.demand, b.demand);
    let k = demand_gap(model, b.demand, a.demand);
    may_refute_two(a.ends, n, b.ends, k)
}

/// Whether STATE3 may refute of two demands of one state and some third between them whose compulsory
/// part is never longer than this.
#[tactic(auto, unfolding(crate::specs::code::Silence::may_refute_around))]
pub fn may_refute_around(model: &Model, longest: i64, a: Named, b: Named) -> bool
    ensures { result ≡ may_refute_around model.now longest a b }
{
    if a.demand.x.0 == b.demand.x.0 {
        return true;
    }
    let n = demand_gap(model, a.demand, b.demand);
    may_refute_two(a.ends, n, b.ends, longest)
}

/// Whether STATE3 of three demands may refute, as the region stands or under a guess at the end of a
/// cell.
#[tactic(auto, unfolding(crate::specs::code::Silence::may_refute_triple))]
pub fn may_refute_triple(model: &Model, a: Named, x: Named, b: Named) -> bool
    ensures { result ≡ may_refute_triple model.now a x b }
{
    let (i, j, k) = (a.demand.x.0, x.demand.x.0, b.demand.x.0);
    if i == j || j == k || i == k {
        return true;
    }
    let n = demand_gap(model, a.demand, b.demand);
    may_refute_three(a.ends, x.ends, b.ends, n)
}
