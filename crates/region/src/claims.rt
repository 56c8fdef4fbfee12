//! What is asked of one interval, or of the order of two, by its cells alone.
ghost use Rattle.std.specs.Prelude.{◌≡◌, ◌+ℤ◌, ◌-ℤ◌, IsTrue, not};
ghost use Rattle.std.specs.Int.{int_min, int_max};
ghost use Rattle.sched_model.specs.Data.{same};
ghost use Rattle.sched_model.specs.Valid.{is_moment};
ghost use Rattle.region.specs.Orders.{says_forward, says_unknown};
ghost use Rattle.region.specs.Claims.{is_open_at, is_ready_at, guessed, as_present, claim_cell, denial_cell};
ghost use Rattle.region.specs.Guesses.{topic};
ghost use Rattle.region.specs.Cells.{is_fixed};

use crate::types::{Bounds, CellName, Claim, Guess, OrderCell, Presence, Topic};
use sched_base::Itv;

impl Guess {
    /// What it speaks of.
    pub(crate) fn topic(self) -> Topic
        ensures { result ≡ topic self }
    {
        match self {
            Guess::Present(x) => Topic::One(x, Claim::Present),
            Guess::Absent(x) => Topic::One(x, Claim::Absent),
            Guess::StartLe(x, t) => Topic::One(x, Claim::StartLe(t)),
            Guess::StartGe(x, t) => Topic::One(x, Claim::StartGe(t)),
            Guess::EndLe(x, t) => Topic::One(x, Claim::EndLe(t)),
            Guess::EndGe(x, t) => Topic::One(x, Claim::EndGe(t)),
            Guess::Before(p, x, y) => Topic::Two(p, x, y),
        }
    }
}

/// Whether the claim is open where these are the bounds of its interval.
pub fn is_open_at(claim: Claim, c: Bounds) -> bool
    ensures { result ≡ is_open_at claim c }
{
    match claim {
        Claim::Present => c.presence == Presence::Maybe,
        Claim::Absent => c.presence == Presence::Maybe,
        Claim::StartLe(t) => c.presence != Presence::Absent && c.smin <= t && t < c.smax,
        Claim::StartGe(t) => c.presence != Presence::Absent && c.smin < t && t <= c.smax,
        Claim::EndLe(t) => c.presence != Presence::Absent && c.emin <= t && t < c.emax,
        Claim::EndGe(t) => c.presence != Presence::Absent && c.emin < t && t <= c.emax,
    }
}

/// Whether the claim changes one cell only where these are the bounds of its interval.
pub fn is_ready_at(claim: Claim, c: Bounds) -> bool
    ensures { result ≡ is_ready_at claim c }
{
    match claim {
        Claim::Present => true,
        Claim::Absent => true,
        _ => c.presence == Presence::Present,
    }
}

/// The bounds of its interval with the claim applied.
pub fn guessed(claim: Claim, c: Bounds) -> Bounds
    ensures { result ≡ guessed claim c }
{
    let presence = Presence::Present;
    match claim {
        Claim::Present => Bounds { presence, ..c },
        Claim::Absent => Bounds {
            presence: Presence::Absent,
            ..c
        },
        Claim::StartLe(smax) => Bounds {
            presence,
            smax,
            ..c
        },
        Claim::StartGe(smin) => Bounds {
            presence,
            smin,
            ..c
        },
        Claim::EndLe(emax) => Bounds {
            presence,
            emax,
            ..c
        },
        Claim::EndGe(emin) => Bounds {
            presence,
            emin,
            ..c
        },
    }
}

/// The bounds of an interval that is told to be there.
pub fn as_present(c: Bounds) -> Bounds
    ensures { result ≡ as_present c }
{
    Bounds {
        presence: Presence::Present,
        ..c
    }
}

/// The cell that the claim changes where it is ready.
pub fn claim_cell(x: Itv, claim: Claim) -> CellName
    ensures { result ≡ claim_cell x claim }
{
    match claim {
        Claim::Present => CellName::Presence(x),
        Claim::Absent => CellName::Presence(x),
        Claim::StartLe(_) => CellName::StartMax(x),
        Claim::StartGe(_) => CellName::StartMin(x),
        Claim::EndLe(_) => CellName::EndMax(x),
        Claim::EndGe(_) => CellName::EndMin(x),
    }
}

/// The cell that its fact changes.
pub fn denial_cell(x: Itv, claim: Claim) -> CellName
    ensures { result ≡ denial_cell x claim }
{
    match claim {
        Claim::Present => CellName::Presence(x),
        Claim::Absent => CellName::Presence(x),
        Claim::StartLe(_) => CellName::StartMin(x),
        Claim::StartGe(_) => CellName::StartMax(x),
        Claim::EndLe(_) => CellName::EndMin(x),
        Claim::EndGe(_) => CellName::EndMax(x),
    }
}

/// Whether two intervals differ.
pub fn differ(x: Itv, y: Itv) -> bool
    ensures { result ≡ not (same x y) }
{
    x.0 != y.0
}

/// Whether nothing is known of two members.
pub fn is_unknown(order: OrderCell) -> bool
    ensures { result ≡ says_unknown order }
{
    match order {
        OrderCell::Unknown => true,
        OrderCell::Forward => false,
        OrderCell::Backward => false,
    }
}

/// Whether the one named first is told to stand before the other.
pub fn is_forward(order: OrderCell) -> bool
    ensures { result ≡ says_forward order }
{
    match order {
        OrderCell::Unknown => false,
        OrderCell::Forward => true,
        OrderCell::Backward => false,
    }
}

/// Whether the presence is known, and of a present interval the start and the end.
pub fn is_fixed(c: Bounds) -> bool
    ensures { result ≡ is_fixed c }
{
    match c.presence {
        Presence::Maybe => false,
        Presence::Absent => true,
        Presence::Present => c.smin == c.smax && c.emin == c.emax,
    }
}

/// The latest start that the latest start as told, the latest end and the least size leave.
pub fn latest_start(smax: i64, emax: i64, pmin: i64) -> i64
    requires end { IsTrue (is_moment emax) }
    requires size { IsTrue (is_moment pmin) }
    ensures { result ≡ int_min smax (emax -ℤ pmin) }
{
    let latest = emax - pmin;
    if latest < smax { latest } else { smax }
}

/// The earliest end that the earliest end as told, the earliest start and the least size leave.
pub fn earliest_end(emin: i64, smin: i64, pmin: i64) -> i64
    requires start { IsTrue (is_moment smin) }
    requires size { IsTrue (is_moment pmin) }
    ensures { result ≡ int_max emin (smin +ℤ pmin) }
{
    let earliest = smin + pmin;
    if earliest < emin { emin } else { earliest }
}
