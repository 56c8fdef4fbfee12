//! What PAIR finds of a member and those behind it, in a sequence that keeps no distances: whom the
//! numbers leave something to find of is told for all first.
ghost use Rattle.std.specs.Prelude.{◌≡◌, ◌<◌, ◌≤◌, Option, true, false, length, is_none, IfNone, IfSome};
ghost use Rattle.region.specs.declared.types.OrderCell.TheVariants as order;
ghost use Rattle.region.specs.Cells.{bounds_of};
ghost use Rattle.region.specs.Looks.{IsRegionOf};
ghost use Rattle.findings.specs.Found.{IsFinding};
ghost use Rattle.findings.specs.code.Numbers.{ends_of};
ghost use Rattle.refute_seq.specs.OnSequence.{refutes};
ghost use Rattle.prop_unary.specs.code.Tasks.{quiet};
ghost use Rattle.prop_unary.specs.code.Silence.{IsDisjunctive, AreSilentWhere, IsKeyed, AreKeyed};
ghost use Rattle.prop_unary.specs.code.Heard.{AreHeard};
ghost use Rattle.prop_unary.specs.code.Circles.{EachOf};

use crate::disjunctive::Disjunctive;
use crate::keys::Keys;
use crate::pairs::{ask_forward, is_told};
use crate::places::{first_bit, with_bit, without_bit};
use crate::silence::{Task, are_surely_silent, no_reach};
use findings::{Finding, View};
use refute_seq::SeqWitness;
use region::Region;
use sched_base::Itv;
use sched_model::Model;

/// The places of those of whom the numbers leave something to find, behind a member of a sequence that
/// keeps no distances. Who they are follows no pattern, so it is told without a branch.
pub fn heard_of(
    model: &Model,
    region: &Region,
    d: &Disjunctive,
    first: Task,
    members: &[Itv],
    keys: &[Keys],
) -> u64
    requires is { IsDisjunctive model.now d.now }
    requires first { IsKeyed (ends_of (bounds_of region.now.region first.member)) first.keys }
    requires near { is_none d.now.matrix ≡ true }
    requires few { length members.now ≤ 64 }
    requires room { length members.now ≤ length keys.now }
    requires keys { AreKeyed region.now.region members.now keys.now }
    ensures { AreHeard model.now region.now.region d.now first.member members.now (length members.now) result }
{
    let mut heard = 0;
    for k in 0..members.len() {
        let second = Task {
            member: members[k],
            keys: keys[k],
        };
        let n = no_reach(model, d, first.member, second.member);
        let is_silent = are_surely_silent(model, region, d, first, second, n);
        heard = with_bit(heard, k, !is_silent);
    }
    heard
}

/// What is found of two if the first is told to stand before the second, in a sequence that keeps no
/// distances.
fn ask_heard(
    model: &Model,
    region: &Region,
    best: Option<i64>,
    d: &Disjunctive,
    first: Task,
    second: Task,
    is_open: &mut bool,
) -> Option<Finding<SeqWitness>>
    requires of { IsRegionOf model.now region.now.region }
    requires is { IsDisjunctive model.now d.now }
    requires first { IsKeyed (ends_of (bounds_of region.now.region first.member)) first.keys }
    requires second { IsKeyed (ends_of (bounds_of region.now.region second.member)) second.keys }
    requires near { is_none d.now.matrix ≡ true }
    ensures none { IfNone result (AreSilentWhere model.now region.now.region best d.now order.Forward first.member second.member) }
    ensures free { IfNone result (is_open.new ≡ false → (is_open.old ≡ false) × AreSilentWhere model.now region.now.region best d.now order.Unknown first.member second.member) }
    ensures some { IfSome result (IsFinding refutes model.now region.now.region best) }
    ensures busy { IfSome result (λ f. quiet model.now d.now.c region.now.region best → ⊥) }
{
    let n = no_reach(model, d, first.member, second.member);
    if !is_told(model, region, d, first, second, n, is_open) {
        return None;
    }
    ask_forward(model, region, best, d, first.member, second.member)
}

/// What is found of a member and those at some places that it is told to stand before.
pub fn ask_heard_row(
    view: &View<'_>,
    d: &Disjunctive,
    first: Task,
    members: &[Itv],
    keys: &[Keys],
    heard: u64,
    is_open: &mut bool,
) -> Option<Finding<SeqWitness>>
    requires of { IsRegionOf view.now.model.now view.now.region.now.region }
    requires is { IsDisjunctive view.now.model.now d.now }
    requires first { IsKeyed (ends_of (bounds_of view.now.region.now.region first.member)) first.keys }
    requires near { is_none d.now.matrix ≡ true }
    requires room { length members.now ≤ length keys.now }
    requires keys { AreKeyed view.now.region.now.region members.now keys.now }
    requires heard { AreHeard view.now.model.now view.now.region.now.region d.now first.member members.now (length members.now) heard }
    ensures none { IfNone result (EachOf (AreSilentWhere view.now.model.now view.now.region.now.region view.now.best d.now order.Forward first.member) members.now) }
    ensures free { IfNone result (is_open.new ≡ false → (is_open.old ≡ false) × EachOf (AreSilentWhere view.now.model.now view.now.region.now.region view.now.best d.now order.Unknown first.member) members.now) }
    ensures some { IfSome result (IsFinding refutes view.now.model.now view.now.region.now.region view.now.best) }
    ensures busy { IfSome result (λ f. quiet view.now.model.now d.now.c view.now.region.now.region view.now.best → ⊥) }
{
    let mut left = heard;
    while left != 0 {
        let k = first_bit(left);
        let second = Task {
            member: members[k],
            keys: keys[k],
        };
        if let Some(found) = ask_heard(
            view.model,
            view.region,
            view.best,
            d,
            first,
            second,
            is_open,
        ) {
            return Some(found);
        }
        left = without_bit(left, k);
    }
    None
}
