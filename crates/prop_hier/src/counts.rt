//! How many parts are what the rows of a constraint ask.
ghost use Rattle.std.specs.Prelude.{◌≡◌, ◌<◌, ◌^◌};
ghost use Rattle.region.specs.Looks.{HasMoments};
ghost use Rattle.refute_hier.specs.code.Rows.{some_refutes};
ghost use Rattle.prop_hier.specs.code.Counts.{asks, counts_of, counted_with, counts_with, recounted, counts_after, is_above, is_below, counts_refute};
ghost use Rattle.prop_hier.specs.code.Few.{AreFew, AreBelow};

use refute_hier::{Family, Kind, Role, known, plays};
use region::{Bounds, Look, Presence};

/// How many parts are what a row asks, and 0 of what no row of the kind asks.
#[derive(Clone, Copy, Debug, PartialEq, Eq)]
pub struct Counts {
    pub there: usize,
    pub starts_before: usize,
    pub ends_after: usize,
    pub clashes: usize,
    pub may_start: usize,
    pub may_end: usize,
    pub may_match: usize,
}

impl Counts {
    /// The numbers of no parts.
    const NONE: Counts = Counts {
        there: 0,
        starts_before: 0,
        ends_after: 0,
        clashes: 0,
        may_start: 0,
        may_end: 0,
        may_match: 0,
    };
}

/// Whether a row of the kind asks for it.
fn asks(kind: Kind, role: Role) -> bool
    ensures { result ≡ asks kind role }
{
    match kind {
        Kind::Span => match role {
            Role::Clashes => false,
            Role::MayMatch => false,
            _ => true,
        },
        Kind::Alternative { count: _ } => match role {
            Role::IsThere => true,
            Role::Clashes => true,
            Role::MayMatch => true,
            _ => false,
        },
        Kind::Synchronize => match role {
            Role::Clashes => true,
            _ => false,
        },
    }
}

/// The number with one more part.
fn counted_with(kind: Kind, role: Role, a: Bounds, b: Bounds, n: usize) -> usize
    requires first { HasMoments a }
    requires second { HasMoments b }
    requires few { n < 2 ^ 63 }
    ensures { result ≡ counted_with kind role a b n }
{
    if !asks(kind, role) {
        return 0;
    }
    if plays(role, a, b) {
        return n + 1;
    }
    n
}

/// The numbers with one more part.
fn counts_with(kind: Kind, a: Bounds, b: Bounds, n: Counts) -> Counts
    requires first { HasMoments a }
    requires second { HasMoments b }
    requires few { AreBelow (2 ^ 63) n }
    ensures { result ≡ counts_with kind a b n }
{
    Counts {
        there: counted_with(kind, Role::IsThere, a, b, n.there),
        starts_before: counted_with(kind, Role::StartsBefore, a, b, n.starts_before),
        ends_after: counted_with(kind, Role::EndsAfter, a, b, n.ends_after),
        clashes: counted_with(kind, Role::Clashes, a, b, n.clashes),
        may_start: counted_with(kind, Role::MayStart, a, b, n.may_start),
        may_end: counted_with(kind, Role::MayEnd, a, b, n.may_end),
        may_match: counted_with(kind, Role::MayMatch, a, b, n.may_match),
    }
}

/// The numbers of a look. It reads each part once.
pub fn count_parts(look: &Look<'_>, family: &Family<'_>) -> Counts
    ensures { result ≡ counts_of family.now.kind look.now.region family.now.a family.now.parts.now }
{
    let whole = known(look, family.a);
    let mut counts = Counts::NONE;
    for b in family.parts {
        counts = counts_with(family.kind, whole, known(look, *b), counts);
    }
    counts
}

/// A part with other bounds, beside the bounds of its interval.
#[derive(Clone, Copy, Debug)]
pub struct Change {
    pub a: Bounds,
    pub old: Bounds,
    pub new: Bounds,
}

/// The number after a change.
fn recounted(kind: Kind, role: Role, change: &Change, n: usize) -> usize
    requires a { HasMoments change.now.a }
    requires old { HasMoments change.now.old }
    requires new { HasMoments change.now.new }
    requires few { n < 2 ^ 32 }
    ensures { result ≡ recounted kind role change.now.a change.now.old change.now.new n }
{
    if !asks(kind, role) {
        return 0;
    }
    let others = if plays(role, change.a, change.old) {
        n.saturating_sub(1)
    } else {
        n
    };
    if plays(role, change.a, change.new) {
        others + 1
    } else {
        others
    }
}

/// The numbers after a change of one part.
pub fn counts_after(kind: Kind, change: &Change, n: Counts) -> Counts
    requires a { HasMoments change.now.a }
    requires old { HasMoments change.now.old }
    requires new { HasMoments change.now.new }
    requires few { AreFew n }
    ensures { result ≡ counts_after kind change.now.a change.now.old change.now.new n }
{
    Counts {
        there: recounted(kind, Role::IsThere, change, n.there),
        starts_before: recounted(kind, Role::StartsBefore, change, n.starts_before),
        ends_after: recounted(kind, Role::EndsAfter, change, n.ends_after),
        clashes: recounted(kind, Role::Clashes, change, n.clashes),
        may_start: recounted(kind, Role::MayStart, change, n.may_start),
        may_end: recounted(kind, Role::MayEnd, change, n.may_end),
        may_match: recounted(kind, Role::MayMatch, change, n.may_match),
    }
}

/// Whether more parts are present than the count of an alternative.
fn is_above(count: i64, n: Counts) -> bool
    ensures { result ≡ is_above count n }
{
    i128::from(count) < n.there as i128
}

/// Whether fewer parts may match the interval of an alternative than its count.
fn is_below(count: i64, n: Counts) -> bool
    ensures { result ≡ is_below count n }
{
    (n.may_match as i128) < i128::from(count)
}

/// Whether some row refutes, by whether the interval is present.
pub fn counts_refute(kind: Kind, presence: Presence, n: Counts) -> bool
    ensures { result ≡ counts_refute kind presence n }
{
    match kind {
        Kind::Span => match presence {
            Presence::Absent => n.there > 0,
            Presence::Present => {
                n.may_start == 0 || n.may_end == 0 || n.starts_before > 0 || n.ends_after > 0
            }
            Presence::Maybe => n.starts_before > 0 || n.ends_after > 0,
        },
        Kind::Alternative { count } => match presence {
            Presence::Absent => n.there > 0 || is_above(count, n),
            Presence::Present => is_above(count, n) || is_below(count, n) || n.clashes > 0,
            Presence::Maybe => is_above(count, n) || n.clashes > 0,
        },
        Kind::Synchronize => match presence {
            Presence::Present => n.clashes > 0,
            _ => false,
        },
    }
}

/// Whether some row refutes a look, told by its numbers.
pub fn numbers_refute(look: &Look<'_>, family: &Family<'_>) -> bool
    ensures { result ≡ some_refutes family.now.kind look.now.region family.now.a family.now.parts.now }
{
    let whole = known(look, family.a);
    counts_refute(family.kind, whole.presence, count_parts(look, family))
}
