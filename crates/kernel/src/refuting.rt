ghost use Rattle.std.specs.Prelude.{◌≡◌, IsTrue, Some};
ghost use Rattle.sched_model.specs.Words.{passes_if_any};
ghost use Rattle.region.specs.Guesses.{admits};
ghost use Rattle.region.specs.Looks.{IsRegionOf, seen_at};
ghost use Rattle.region.specs.Tight.{is_tight};
ghost use Rattle.kernel.specs.Refuting.{refutes_with};

use crate::types::Witness;
use refute_basic::Basic;
use refute_cumul::OnCumul;
use refute_hier::Hier;
use refute_seq::OnSequence;
use refute_state::OnState;
use region::{Guess, Refuter, Region};
use sched_model::Model;

/// Whether the witness refutes the region under the guess.
pub fn refutes<X: Refuter>(
    model: &Model,
    region: &Region,
    best: Option<i64>,
    guess: Option<Guess>,
    w: &Witness<X::Witness>,
) -> bool
    requires of { IsRegionOf model.now region.now.region }
    requires admitted { IsTrue (passes_if_any (admits region.now.region) guess) }
    ensures { result ≡ refutes_with X.refuting model.now (seen_at region.now.region best guess) w.now }
{
    match w {
        Witness::Basic(w) => region::refutes::<Basic>(model, region, best, guess, w),
        Witness::Hier(w) => region::refutes::<Hier>(model, region, best, guess, w),
        Witness::Seq(w) => region::refutes::<OnSequence>(model, region, best, guess, w),
        Witness::Cumul(w) => region::refutes::<OnCumul>(model, region, best, guess, w),
        Witness::State(w) => region::refutes::<OnState>(model, region, best, guess, w),
        Witness::Extra(w) => region::refutes::<X>(model, region, best, guess, w),
    }
}

/// Whether the witness doesn't refute the region under the next weaker guess, or that says nothing.
pub fn is_tight<X: Refuter>(
    model: &Model,
    region: &Region,
    best: Option<i64>,
    g: Guess,
    w: &Witness<X::Witness>,
) -> bool
    requires of { IsRegionOf model.now region.now.region }
    requires admitted { IsTrue (admits region.now.region g) }
    ensures { result ≡ is_tight (λ h. refutes_with X.refuting model.now (seen_at region.now.region best (Some h)) w.now) region.now.region g }
{
    match w {
        Witness::Basic(w) => region::is_tight::<Basic>(model, region, best, g, w),
        Witness::Hier(w) => region::is_tight::<Hier>(model, region, best, g, w),
        Witness::Seq(w) => region::is_tight::<OnSequence>(model, region, best, g, w),
        Witness::Cumul(w) => region::is_tight::<OnCumul>(model, region, best, g, w),
        Witness::State(w) => region::is_tight::<OnState>(model, region, best, g, w),
        Witness::Extra(w) => region::is_tight::<X>(model, region, best, g, w),
    }
}
