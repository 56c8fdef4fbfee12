//! The first guess at the end of a cell under which a region is refuted.
ghost use Rattle.std.specs.Prelude.{◌≡◌, ◌&&◌, Some, [], IsTrue, IfSome, IfNone};
ghost use Rattle.region.specs.Guesses.{admits};
ghost use Rattle.findings.specs.code.Reads.{is_among};
ghost use Rattle.findings.specs.code.Search.{IsRefutedEnd, NoEndRefuted, is_on, is_of_pair};

use crate::finding::Pair;
use region::{Guess, GuessTest, Region};
use sched_base::Itv;

/// Whether the guess is open and the region refuted under it.
pub fn refutes_open<T: GuessTest>(test: &T, region: &Region, g: Guess) -> bool
    requires ready { T.is_ready test.now }
    requires of { T.region test.now ≡ region.now.region }
    ensures { result ≡ (admits region.now.region g && T.refuting test.now (Some g)) }
{
    region.admits(g) && test.refutes(Some(g))
}

/// The first guess on the presence or a bound of an interval. Presences come first, then the guesses
/// that leave the fewest moments at the ends of its window.
#[tactic(auto, using(crate::proofs::Ending::some_on))]
fn refuted_on<T: GuessTest>(test: &T, region: &Region, x: Itv) -> Option<Guess>
    requires ready { T.is_ready test.now }
    requires of { T.region test.now ≡ region.now.region }
    ensures some { IfSome result (IsRefutedEnd (T.refuting test.now) region.now.region (is_on x)) }
    ensures none { IfNone result (NoEndRefuted (T.refuting test.now) region.now.region (is_on x)) }
{
    let look = region.look(None, None);
    if x.0 as usize >= look.len() {
        return None;
    }
    let c = look.bounds(x);
    let guesses = [
        Guess::Present(x),
        Guess::Absent(x),
        Guess::StartLe(x, c.smin),
        Guess::EndGe(x, c.emax),
        Guess::StartGe(x, c.smax),
        Guess::EndLe(x, c.emin),
    ];
    for g in &guesses {
        if refutes_open(test, region, *g) {
            return Some(*g);
        }
    }
    None
}

/// One of the two guesses on the order of a pair.
#[tactic(auto, using(crate::proofs::Ending::none_between, crate::proofs::Ending::forward_refuted, crate::proofs::Ending::backward_refuted))]
fn refuted_between<T: GuessTest>(test: &T, region: &Region, pair: Pair) -> Option<Guess>
    requires ready { T.is_ready test.now }
    requires of { T.region test.now ≡ region.now.region }
    ensures some { IfSome result (IsRefutedEnd (T.refuting test.now) region.now.region (is_of_pair pair)) }
    ensures none { IfNone result (NoEndRefuted (T.refuting test.now) region.now.region (is_of_pair pair)) }
{
    let forward = Guess::Before(pair.sequence, pair.first, pair.second);
    if refutes_open(test, region, forward) {
        return Some(forward);
    }
    let backward = Guess::Before(pair.sequence, pair.second, pair.first);
    if refutes_open(test, region, backward) {
        return Some(backward);
    }
    None
}

/// The first guess on one of these intervals.
pub fn refuted_interval<T: GuessTest>(test: &T, region: &Region, intervals: &[Itv]) -> Option<Guess>
    requires ready { T.is_ready test.now }
    requires of { T.region test.now ≡ region.now.region }
    ensures some { IfSome result (IsRefutedEnd (T.refuting test.now) region.now.region (is_among intervals.now [])) }
    ensures none { IfNone result (NoEndRefuted (T.refuting test.now) region.now.region (is_among intervals.now [])) }
{
    for x in intervals {
        if let Some(g) = refuted_on(test, region, *x) {
            return Some(g);
        }
    }
    None
}

/// The first guess on the order of one of these pairs.
pub fn refuted_order<T: GuessTest>(test: &T, region: &Region, pairs: &[Pair]) -> Option<Guess>
    requires ready { T.is_ready test.now }
    requires of { T.region test.now ≡ region.now.region }
    ensures some { IfSome result (IsRefutedEnd (T.refuting test.now) region.now.region (is_among [] pairs.now)) }
    ensures none { IfNone result (NoEndRefuted (T.refuting test.now) region.now.region (is_among [] pairs.now)) }
{
    for pair in pairs {
        if let Some(g) = refuted_between(test, region, *pair) {
            return Some(g);
        }
    }
    None
}
