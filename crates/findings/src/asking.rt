//! What a witness gives of a region.
ghost use Rattle.std.specs.Prelude.{◌≡◌, ◌&&◌, Some, None, IsTrue, IfSome, IfNone};
ghost use Rattle.region.specs.Guesses.{admits};
ghost use Rattle.region.specs.Looks.{IsRegionOf, seen_at};
ghost use Rattle.findings.specs.Ends.{is_open_end};
ghost use Rattle.findings.specs.Found.{IsFound, IsFinding};
ghost use Rattle.findings.specs.code.Likely.{end_guess};
ghost use Rattle.findings.specs.code.Reads.{AreUnrefuted, IsUnrefuted, is_among};
ghost use Rattle.findings.specs.code.Search.{IsRefutedEnd, NoEndRefuted};

use crate::finding::Pair;
use crate::likely::{Likely, guess_of, refuted_likely};
use crate::reaching::Reaching;
use crate::searching::{refuted_interval, refuted_order, refutes_open};
use region::{Guess, GuessTest, Refuter, Region, RowTest, tighten_by};
use sched_base::Itv;
use sched_model::Model;

/// The first guess on one of these intervals, or else on the order of one of these pairs.
#[tactic(auto, using(crate::proofs::Both::interval_end, crate::proofs::Both::order_end, crate::proofs::Both::none_of_both))]
fn refuted_end<T: GuessTest>(
    test: &T,
    region: &Region,
    intervals: &[Itv],
    pairs: &[Pair],
) -> Option<Guess>
    requires ready { T.is_ready test.now }
    requires of { T.region test.now ≡ region.now.region }
    ensures some { IfSome result (IsRefutedEnd (T.refuting test.now) region.now.region (is_among intervals.now pairs.now)) }
    ensures none { IfNone result (NoEndRefuted (T.refuting test.now) region.now.region (is_among intervals.now pairs.now)) }
{
    if let Some(g) = refuted_interval(test, region, intervals) {
        return Some(g);
    }
    refuted_order(test, region, pairs)
}

/// Whether no weaker guess of the same form says anything of the region. No promise hangs on this.
fn is_weakest(region: &Region, g: Guess) -> bool {
    let look = region.look(None, None);
    match g {
        Guess::StartLe(x, t) => (x.0 as usize) >= look.len() || t.saturating_add(1) >= look.smax(x),
        Guess::StartGe(x, t) => (x.0 as usize) >= look.len() || t.saturating_sub(1) <= look.smin(x),
        Guess::EndLe(x, t) => (x.0 as usize) >= look.len() || t.saturating_add(1) >= look.emax(x),
        Guess::EndGe(x, t) => (x.0 as usize) >= look.len() || t.saturating_sub(1) <= look.emin(x),
        _ => true,
    }
}

/// What is told by a refuted guess at the end of a cell: that the region is refuted as it stands, or the
/// tight guess. Where a weaker guess isn't refuted, the region as it stands isn't either, so it is
/// tested only where there is none.
#[tactic(auto, using(crate::proofs::Both::plain_found, crate::proofs::Both::tight_found))]
fn weakened<T: GuessTest>(test: &T, region: &Region, g: Guess) -> Option<Guess>
    requires ready { T.is_ready test.now }
    requires of { T.region test.now ≡ region.now.region }
    requires admitted { IsTrue (admits region.now.region g) }
    requires refuted { IsTrue (T.refuting test.now (Some g)) }
    ensures { IsFound (T.refuting test.now) region.now.region result }
{
    let h = tighten_by(test, region, g);
    if is_weakest(region, h) && test.refutes(None) {
        return None;
    }
    Some(h)
}

/// The likely guess, where it refutes.
fn likely_end<T: GuessTest>(
    test: &T,
    region: &Region,
    intervals: &[Itv],
    pairs: &[Pair],
    likely: Option<Likely>,
) -> Option<Guess>
    requires ready { T.is_ready test.now }
    requires of { T.region test.now ≡ region.now.region }
    ensures { IfSome result (IsRefutedEnd (T.refuting test.now) region.now.region (is_among intervals.now pairs.now)) }
{
    refuted_likely(test, region, intervals, pairs, likely?)
}

/// What a test gives, asked about the likely guess before the others.
#[tactic(auto, using(crate::proofs::Both::unrefuted_all, crate::proofs::Both::plain_busy, crate::proofs::Both::end_busy, crate::proofs::Both::plain_found))]
fn ask_first<T: GuessTest>(
    test: &T,
    region: &Region,
    intervals: &[Itv],
    pairs: &[Pair],
    likely: Option<Likely>,
) -> Option<Option<Guess>>
    requires ready { T.is_ready test.now }
    requires of { T.region test.now ≡ region.now.region }
    ensures none { IfNone result (AreUnrefuted (T.refuting test.now) region.now.region intervals.now pairs.now) }
    ensures some { IfSome result (IsFound (T.refuting test.now) region.now.region) }
    ensures busy { IfSome result (λ guess. AreUnrefuted (T.refuting test.now) region.now.region intervals.now pairs.now → ⊥) }
{
    if let Some(g) = likely_end(test, region, intervals, pairs, likely) {
        return Some(weakened(test, region, g));
    }
    if test.refutes(None) {
        return Some(None);
    }
    if let Some(g) = refuted_end(test, region, intervals, pairs) {
        return Some(Some(tighten_by(test, region, g)));
    }
    None
}

/// What a test gives of the likely guess alone: that the region is refuted as it stands, or the tight
/// guess of its form.
pub fn ask_end<T: GuessTest>(test: &T, region: &Region, likely: Likely) -> Option<Option<Guess>>
    requires ready { T.is_ready test.now }
    requires of { T.region test.now ≡ region.now.region }
    ensures some { IfSome result (IsFound (T.refuting test.now) region.now.region) }
    ensures there { IfSome result (λ guess. IsTrue (is_open_end region.now.region (end_guess region.now.region likely))) }
    ensures busy { IfSome result (λ guess. IsTrue (T.refuting test.now (Some (end_guess region.now.region likely)))) }
{
    let g = guess_of(region, likely)?;
    if !refutes_open(test, region, g) {
        return None;
    }
    Some(weakened(test, region, g))
}

/// What a test gives: nothing, or that the region is refuted as it stands, or the tight guess on one
/// of these intervals, or on the order of one of these pairs, under which it is refuted.
pub fn ask_by<T: GuessTest>(
    test: &T,
    region: &Region,
    intervals: &[Itv],
    pairs: &[Pair],
) -> Option<Option<Guess>>
    requires ready { T.is_ready test.now }
    requires of { T.region test.now ≡ region.now.region }
    ensures none { IfNone result (AreUnrefuted (T.refuting test.now) region.now.region intervals.now pairs.now) }
    ensures some { IfSome result (IsFound (T.refuting test.now) region.now.region) }
    ensures busy { IfSome result (λ guess. AreUnrefuted (T.refuting test.now) region.now.region intervals.now pairs.now → ⊥) }
{
    ask_first(test, region, intervals, pairs, None)
}

/// What a witness gives: nothing, or that it refutes the region as it stands, or the tight guess on
/// one of these intervals, or on the order of one of these pairs, under which it refutes the region.
/// It costs up to six tests an interval and two a pair, and those of the halving.
pub fn ask<X: Refuter>(
    model: &Model,
    region: &Region,
    best: Option<i64>,
    w: &X::Witness,
    intervals: &[Itv],
    pairs: &[Pair],
) -> Option<Option<Guess>>
    requires of { IsRegionOf model.now region.now.region }
    ensures none { IfNone result (IsUnrefuted X.refuting model.now region.now.region best w.now intervals.now pairs.now) }
    ensures some { IfSome result (λ guess. IsFinding X.refuting model.now region.now.region best (record { guess = guess; witness = w.now })) }
    ensures busy { IfSome result (λ guess. IsUnrefuted X.refuting model.now region.now.region best w.now intervals.now pairs.now → ⊥) }
{
    let test = RowTest::<X> {
        model,
        region,
        best,
        witness: w,
    };
    ask_by(&test, region, intervals, pairs)
}

/// The same, asked about the likely guess before the others: where it refutes, the answer takes a few
/// tests.
pub fn ask_likely<X: Refuter>(
    model: &Model,
    region: &Region,
    best: Option<i64>,
    w: &X::Witness,
    intervals: &[Itv],
    pairs: &[Pair],
    likely: Likely,
) -> Option<Option<Guess>>
    requires of { IsRegionOf model.now region.now.region }
    ensures none { IfNone result (IsUnrefuted X.refuting model.now region.now.region best w.now intervals.now pairs.now) }
    ensures some { IfSome result (λ guess. IsFinding X.refuting model.now region.now.region best (record { guess = guess; witness = w.now })) }
    ensures busy { IfSome result (λ guess. IsUnrefuted X.refuting model.now region.now.region best w.now intervals.now pairs.now → ⊥) }
{
    let test = RowTest::<X> {
        model,
        region,
        best,
        witness: w,
    };
    ask_first(&test, region, intervals, pairs, Some(likely))
}

/// The same where it is known how far the likely guess can mostly be moved and stay refuted.
pub fn ask_reaching<X: Refuter>(
    model: &Model,
    region: &Region,
    best: Option<i64>,
    w: &X::Witness,
    intervals: &[Itv],
    pairs: &[Pair],
    likely: Likely,
    far: u64,
) -> Option<Option<Guess>>
    requires of { IsRegionOf model.now region.now.region }
    ensures none { IfNone result (IsUnrefuted X.refuting model.now region.now.region best w.now intervals.now pairs.now) }
    ensures some { IfSome result (λ guess. IsFinding X.refuting model.now region.now.region best (record { guess = guess; witness = w.now })) }
    ensures busy { IfSome result (λ guess. IsUnrefuted X.refuting model.now region.now.region best w.now intervals.now pairs.now → ⊥) }
{
    let test = Reaching::<X> {
        model,
        region,
        best,
        witness: w,
        far,
    };
    ask_first(&test, region, intervals, pairs, Some(likely))
}
