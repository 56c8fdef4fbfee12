//! A guess that is asked about before the others.
ghost use Rattle.std.specs.Prelude.{◌≡◌, true, IsTrue, IfSome};
ghost use Rattle.sched_model.specs.Data.{has};
ghost use Rattle.region.specs.Cells.{bounds_of};
ghost use Rattle.region.specs.Guesses.{topic};
ghost use Rattle.findings.specs.Ends.{is_end};
ghost use Rattle.findings.specs.code.Likely.{end_guess};
ghost use Rattle.findings.specs.code.Reads.{is_among, has_pair};
ghost use Rattle.findings.specs.code.Search.{IsRefutedEnd};

use crate::finding::Pair;
use crate::searching::refutes_open;
use region::{Bounds, Guess, GuessTest, Region};
use sched_base::{Itv, Seq};

/// Which guess at the end of a cell is asked about first, since it is likely to refute. Nothing rests
/// on the choice but how many others are asked about before one is found.
#[derive(Clone, Copy, Debug, PartialEq, Eq)]
pub enum Likely {
    /// That the interval starts as early as it may.
    StartsLater(Itv),
    /// That it ends as late as it may.
    EndsSooner(Itv),
    /// That it starts as late as it may.
    StartsSooner(Itv),
    /// That it ends as early as it may.
    EndsLater(Itv),
    /// That the first of the pair stands before the second.
    StandsBehind(Pair),
}

fn bounds_in(region: &Region, x: Itv) -> Option<Bounds>
    ensures { IfSome result (λ c. c ≡ bounds_of region.now.region x) }
{
    let look = region.look(None, None);
    if x.0 as usize >= look.len() {
        return None;
    }
    Some(look.bounds(x))
}

/// The guess at the end of its cell, where there is one.
pub fn guess_of(region: &Region, likely: Likely) -> Option<Guess>
    ensures end { IfSome result (λ g. IsTrue (is_end region.now.region (topic g))) }
    ensures value { IfSome result (λ g. g ≡ end_guess region.now.region likely) }
{
    match likely {
        Likely::StartsLater(x) => Some(Guess::StartLe(x, bounds_in(region, x)?.smin)),
        Likely::EndsSooner(x) => Some(Guess::EndGe(x, bounds_in(region, x)?.emax)),
        Likely::StartsSooner(x) => Some(Guess::StartGe(x, bounds_in(region, x)?.smax)),
        Likely::EndsLater(x) => Some(Guess::EndLe(x, bounds_in(region, x)?.emin)),
        Likely::StandsBehind(q) => Some(Guess::Before(q.sequence, q.first, q.second)),
    }
}

fn has(intervals: &[Itv], x: Itv) -> bool
    ensures { result ≡ has intervals.now x }
{
    intervals.iter().any(|y| x.0 == y.0)
}

fn has_pair(pairs: &[Pair], p: Seq, x: Itv, y: Itv) -> bool
    ensures { result ≡ has_pair pairs.now p x y }
{
    pairs.iter().any(|q| {
        p.0 == q.sequence.0
            && ((x.0 == q.first.0 && y.0 == q.second.0) || (x.0 == q.second.0 && y.0 == q.first.0))
    })
}

/// Whether the guess is on one of these intervals, or on the order of one of these pairs.
fn is_among(intervals: &[Itv], pairs: &[Pair], g: Guess) -> bool
    ensures { result ≡ is_among intervals.now pairs.now (topic g) }
{
    match g {
        Guess::Present(x) => has(intervals, x),
        Guess::Absent(x) => has(intervals, x),
        Guess::StartLe(x, _) => has(intervals, x),
        Guess::StartGe(x, _) => has(intervals, x),
        Guess::EndLe(x, _) => has(intervals, x),
        Guess::EndGe(x, _) => has(intervals, x),
        Guess::Before(p, x, y) => has_pair(pairs, p, x, y),
    }
}

/// The likely guess, where it is on one of these intervals or pairs and the region is refuted under
/// it.
#[tactic(auto, using(crate::proofs::Ending::likely_refuted))]
pub fn refuted_likely<T: GuessTest>(
    test: &T,
    region: &Region,
    intervals: &[Itv],
    pairs: &[Pair],
    likely: Likely,
) -> Option<Guess>
    requires ready { T.is_ready test.now }
    requires of { T.region test.now ≡ region.now.region }
    ensures { IfSome result (IsRefutedEnd (T.refuting test.now) region.now.region (is_among intervals.now pairs.now)) }
{
    let g = guess_of(region, likely)?;
    if is_among(intervals, pairs, g) && refutes_open(test, region, g) {
        return Some(g);
    }
    None
}
