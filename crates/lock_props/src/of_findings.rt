//! What propagators ask of witnesses.
ghost use Rattle.std.specs.Prelude.{◌≡◌, IfSome, IfNone, Some, IsTrue};
ghost use Rattle.region.specs.Looks.{IsRegionOf};
ghost use Rattle.findings.specs.Found.{IsFound, IsFinding};
ghost use Rattle.findings.specs.code.Reads.{AreUnrefuted, IsUnrefuted};
ghost use Rattle.findings.specs.Ends.{is_open_end};
ghost use Rattle.findings.specs.code.Likely.{end_guess};
ghost use Rattle.findings.specs.code.Numbers.{ends_in, HasShifts};

use findings::{Ends, Likely, Pair};
use region::{Guess, GuessTest, Refuter, Region};
use sched_base::Itv;
use sched_model::Model;

pub fn ask_by<T: GuessTest>(
    test: &T,
    region: &Region,
    intervals: &[Itv],
    pairs: &[Pair],
) -> Option<Option<Guess>>
    requires ready { T.is_ready test.now }
    requires of { T.region test.now ≡ region.now.region }
    ensures none { IfNone result (AreUnrefuted (T.refuting test.now) region.now.region intervals.now pairs.now) }
    ensures some { IfSome result (IsFound (T.refuting test.now) region.now.region) }
    ensures busy { IfSome result (λ guess. AreUnrefuted (T.refuting test.now) region.now.region intervals.now pairs.now → ⊥) }
{
    findings::ask_by(test, region, intervals, pairs)
}

pub fn ask_end<T: GuessTest>(test: &T, region: &Region, likely: Likely) -> Option<Option<Guess>>
    requires ready { T.is_ready test.now }
    requires of { T.region test.now ≡ region.now.region }
    ensures some { IfSome result (IsFound (T.refuting test.now) region.now.region) }
    ensures there { IfSome result (λ guess. IsTrue (is_open_end region.now.region (end_guess region.now.region likely))) }
    ensures busy { IfSome result (λ guess. IsTrue (T.refuting test.now (Some (end_guess region.now.region likely)))) }
{
    findings::ask_end(test, region, likely)
}

pub fn ask<X: Refuter>(
    model: &Model,
    region: &Region,
    best: Option<i64>,
    w: &X::Witness,
    intervals: &[Itv],
    pairs: &[Pair],
) -> Option<Option<Guess>>
    requires of { IsRegionOf model.now region.now.region }
    ensures none { IfNone result (IsUnrefuted X.refuting model.now region.now.region best w.now intervals.now pairs.now) }
    ensures some { IfSome result (λ guess. IsFinding X.refuting model.now region.now.region best (record { guess = guess; witness = w.now })) }
    ensures busy { IfSome result (λ guess. IsUnrefuted X.refuting model.now region.now.region best w.now intervals.now pairs.now → ⊥) }
{
    findings::ask::<X>(model, region, best, w, intervals, pairs)
}

pub fn ask_likely<X: Refuter>(
    model: &Model,
    region: &Region,
    best: Option<i64>,
    w: &X::Witness,
    intervals: &[Itv],
    pairs: &[Pair],
    likely: Likely,
) -> Option<Option<Guess>>
    requires of { IsRegionOf model.now region.now.region }
    ensures none { IfNone result (IsUnrefuted X.refuting model.now region.now.region best w.now intervals.now pairs.now) }
    ensures some { IfSome result (λ guess. IsFinding X.refuting model.now region.now.region best (record { guess = guess; witness = w.now })) }
    ensures busy { IfSome result (λ guess. IsUnrefuted X.refuting model.now region.now.region best w.now intervals.now pairs.now → ⊥) }
{
    findings::ask_likely::<X>(model, region, best, w, intervals, pairs, likely)
}

pub fn ask_reaching<X: Refuter>(
    model: &Model,
    region: &Region,
    best: Option<i64>,
    w: &X::Witness,
    intervals: &[Itv],
    pairs: &[Pair],
    likely: Likely,
    far: u64,
) -> Option<Option<Guess>>
    requires of { IsRegionOf model.now region.now.region }
    ensures none { IfNone result (IsUnrefuted X.refuting model.now region.now.region best w.now intervals.now pairs.now) }
    ensures some { IfSome result (λ guess. IsFinding X.refuting model.now region.now.region best (record { guess = guess; witness = w.now })) }
    ensures busy { IfSome result (λ guess. IsUnrefuted X.refuting model.now region.now.region best w.now intervals.now pairs.now → ⊥) }
{
    findings::ask_reaching::<X>(model, region, best, w, intervals, pairs, likely, far)
}

pub fn ends_in(region: &Region, x: Itv) -> Ends
    ensures value { result ≡ ends_in region.now.region x }
    ensures small { HasShifts result }
{
    findings::ends_in(region, x)
}
