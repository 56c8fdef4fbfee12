//! What a guess adds to the load of the parts of an interval, and the search with it in a profile.
ghost use Rattle.std.specs.Prelude.{◌≡◌, ◌≤◌, ◌^◌, ◌<ℤ◌, ◌≤ℤ◌, neg_ℤ, pos, length, IfSome, IfNone};
ghost use Rattle.refute_cumul.specs.code.Loads.{load};
ghost use Rattle.prop_cumul.specs.code.Extra.{extra, IsUnmoved, IsStillOf, AreStill, IsStill, IsRaisedAbove, StaysLow};

use crate::added::{Added, Raised, raised_by};
use refute_cumul::{Profile, bounded, load, load_of};
use region::Look;
use sched_model::{Part, Shape};

/// The moment `u` if it lies behind `a` and before `to`, else `to`.
#[tactic(auto, using(crate::proofs::Raising::unmoved_inside, crate::proofs::Raising::unmoved_outside))]
fn earlier(u: i64, a: i64, to: i64) -> i64
    requires { a <ℤ to }
    ensures { IsUnmoved a u to result }
{
    if a < u && u < to { u } else { to }
}

/// The next moment behind `a` at which a part with fixed moments changes.
fn next_of(part: Part, a: i64, to: i64) -> i64
    requires { a <ℤ to }
    ensures { IsStillOf part a to result }
{
    match part.shape {
        Shape::Pulse { u, v, h: _ } => earlier(u, a, earlier(v, a, to)),
        Shape::Step { u, h: _ } => earlier(u, a, to),
        _ => to,
    }
}

/// The same of a part in both regions.
#[tactic(auto, using(crate::proofs::Raising::both_still))]
fn next_part(plain: &Look<'_>, under: &Look<'_>, below: bool, part: Part, a: i64, to: i64) -> i64
    requires { a <ℤ to }
    ensures { AreStill plain.now.region under.now.region below part a to result }
{
    let n = next_of(bounded(plain, below, part), a, to);
    next_of(bounded(under, below, part), a, n)
}

/// The same of some parts.
#[tactic(auto, using(crate::proofs::Raising::none_still, crate::proofs::Raising::more_still, crate::proofs::Raising::all_still))]
fn next_change(
    plain: &Look<'_>,
    under: &Look<'_>,
    below: bool,
    parts: &[Part],
    a: i64,
    to: i64,
) -> i64
    requires { a <ℤ to }
    ensures { IsStill (extra plain.now.region under.now.region below parts.now) a to result }
{
    let mut n = to;
    for part in parts {
        n = next_part(plain, under, below, *part, a, n);
    }
    n
}

/// What the guess adds to the load of some parts.
fn extra(plain: &Look<'_>, under: &Look<'_>, below: bool, parts: &[Part], t: i64) -> i128
    requires few { length parts.now ≤ 100000 }
    ensures value { result ≡ extra plain.now.region under.now.region below parts.now t }
    ensures low { neg_ℤ (pos (2 ^ 100)) ≤ℤ result }
    ensures high { result ≤ℤ pos (2 ^ 100) }
{
    load(under, below, parts, t) - load(plain, below, parts, t)
}

/// What a guess adds to the load of some parts.
#[derive(Drop)]
struct SomeParts<'a> {
    plain: &'a Look<'a>,
    under: &'a Look<'a>,
    below: bool,
    parts: &'a [Part],
}

impl<'a> Added for SomeParts<'a> {
    ghost use Rattle.std.specs.Prelude.{◌≤◌, length};
    ghost use Rattle.prop_cumul.specs.code.Extra.{extra};

    ghost is_ready = { λ s. length s.parts.now ≤ 100000 };

    ghost added = { λ s. extra s.plain.now.region s.under.now.region s.below s.parts.now };

    fn until(&self, a: i64, to: i64) -> i64 {
        next_change(self.plain, self.under, self.below, self.parts, a, to)
    }

    fn at(&self, t: i64) -> i128 {
        extra(self.plain, self.under, self.below, self.parts, t)
    }
}

/// What is added where one part, which stood so, now stands so.
#[derive(Clone, Copy)]
struct Moved {
    before: Part,
    now: Part,
}

impl Added for Moved {
    ghost use Rattle.prop_cumul.specs.code.Extra.{gain};

    ghost is_ready = { λ _. Unit {0} };

    ghost added = { λ s. gain s.before s.now };

    fn until(&self, a: i64, to: i64) -> i64 {
        next_of(self.now, a, next_of(self.before, a, to))
    }

    fn at(&self, t: i64) -> i128 {
        load_of(self.now, t) - load_of(self.before, t)
    }
}

/// The first moment of a span at which the level of the profile, with what a guess adds to the load of
/// some parts, is above a limit. Mostly it is one part, whose moments are then read once.
pub fn first_raised(
    profile: &Profile,
    plain: &Look<'_>,
    under: &Look<'_>,
    below: bool,
    parts: &[Part],
    span: (i64, i64),
    limit: i128,
) -> Option<Raised>
    requires few { length parts.now ≤ 100000 }
    requires low { neg_ℤ (pos (2 ^ 63)) ≤ℤ limit }
    requires high { limit ≤ℤ pos (2 ^ 63) }
    ensures some { IfSome result (λ r. IsRaisedAbove profile.now.levels (extra plain.now.region under.now.region below parts.now) span.0 span.1 limit r.t) }
    ensures none { IfNone result (StaysLow profile.now.levels (extra plain.now.region under.now.region below parts.now) span.0 span.1 limit) }
{
    if parts.len() == 1 {
        let moved = Moved {
            before: bounded(plain, below, parts[0]),
            now: bounded(under, below, parts[0]),
        };
        return raised_by(profile, &moved, span, limit);
    }
    let some = SomeParts {
        plain,
        under,
        below,
        parts,
    };
    raised_by(profile, &some, span, limit)
}
