//! Whether a constraint refutes a region under a guess on one of its intervals.
ghost use Rattle.std.specs.Prelude.{◌≡◌, ◌∷◌, [], true, IsTrue};
ghost use Rattle.region.specs.Guesses.{admits, topic, with_guess};
ghost use Rattle.findings.specs.code.Reads.{AreUnrefuted};
ghost use Rattle.refute_hier.specs.code.Rows.{some_refutes};
ghost use Rattle.prop_hier.specs.code.Rows.{refutes_under};
ghost use Rattle.prop_hier.specs.code.Ready.{IsReady, is_about, is_quick};

use crate::counts::{Change, Counts, counts_after, counts_refute, numbers_refute};
use crate::reaches::{reach_into, window_around, window_of};
use crate::silent::is_silent;
use refute_hier::{Family, known};
use region::{Guess, GuessTest, Region};
use sched_base::Itv;

/// Whether the guess is on this interval.
fn is_about(g: Guess, x: Itv) -> bool
    ensures { result ≡ is_about (topic g) x }
{
    match g {
        Guess::Present(y) => y.0 == x.0,
        Guess::Absent(y) => y.0 == x.0,
        Guess::StartLe(y, _) => y.0 == x.0,
        Guess::StartGe(y, _) => y.0 == x.0,
        Guess::EndLe(y, _) => y.0 == x.0,
        Guess::EndGe(y, _) => y.0 == x.0,
        Guess::Before(..) => false,
    }
}

/// Whether some witness of the constraint refutes the region under a guess. Of guesses on the part
/// `x` the numbers of the region tell it at once; of others each part is counted again.
#[derive(Drop)]
pub struct MemberTest<'a> {
    pub region: &'a Region,
    pub family: &'a Family<'a>,
    pub counts: Counts,
    pub x: Itv,
}

impl<'a> MemberTest<'a> {
    /// Whether a few comparisons show that neither the region is refuted nor a guess on the part.
    pub fn is_silent(&self) -> bool
        requires { IsReady self.now.family.now.kind self.now.region.now.region self.now.family.now.a self.now.family.now.parts.now self.now.counts self.now.x }
        ensures { result ≡ true → AreUnrefuted (refutes_under self.now.family.now.kind self.now.region.now.region self.now.family.now.a self.now.family.now.parts.now) self.now.region.now.region (self.now.x ∷ []) [] }
    {
        if self.x.0 == self.family.a.0 {
            return false;
        }
        let look = self.region.look(None, None);
        let whole = known(&look, self.family.a);
        if counts_refute(self.family.kind, whole.presence, self.counts) {
            return false;
        }
        is_silent(&look, self.family.kind, whole, self.x, self.counts)
    }

    /// Whether it is a guess on the part.
    fn is_quick(&self, g: Guess) -> bool
        ensures { result ≡ is_quick self.now.family.now.a self.now.x (topic g) }
    {
        self.x.0 != self.family.a.0 && is_about(g, self.x)
    }

    /// What the numbers of the region tell.
    fn plain(&self) -> bool
        requires { IsReady self.now.family.now.kind self.now.region.now.region self.now.family.now.a self.now.family.now.parts.now self.now.counts self.now.x }
        ensures { result ≡ some_refutes self.now.family.now.kind self.now.region.now.region self.now.family.now.a self.now.family.now.parts.now }
    {
        let whole = known(&self.region.look(None, None), self.family.a);
        counts_refute(self.family.kind, whole.presence, self.counts)
    }

    /// What the numbers under the guess tell, in which one part has other bounds.
    fn quick(&self, g: Guess) -> bool
        requires ready { IsReady self.now.family.now.kind self.now.region.now.region self.now.family.now.a self.now.family.now.parts.now self.now.counts self.now.x }
        requires admitted { IsTrue (admits self.now.region.now.region g) }
        requires quick { IsTrue (is_quick self.now.family.now.a self.now.x (topic g)) }
        ensures { result ≡ some_refutes self.now.family.now.kind (with_guess g self.now.region.now.region) self.now.family.now.a self.now.family.now.parts.now }
    {
        let plain = self.region.look(None, None);
        let guessed = self.region.look(Some(g), None);
        let change = Change {
            a: known(&plain, self.family.a),
            old: known(&plain, self.x),
            new: known(&guessed, self.x),
        };
        let counts = counts_after(self.family.kind, &change, self.counts);
        counts_refute(self.family.kind, change.a.presence, counts)
    }
}

impl<'a> GuessTest for MemberTest<'a> {
    ghost use Rattle.prop_hier.specs.code.Rows.{refutes_under};
    ghost use Rattle.prop_hier.specs.code.Ready.{IsReady};

    ghost region = { λ t. t.region.now.region };

    ghost is_ready = { λ t. IsReady t.family.now.kind t.region.now.region t.family.now.a t.family.now.parts.now t.counts t.x };

    ghost refuting = { λ t guess. refutes_under t.family.now.kind t.region.now.region t.family.now.a t.family.now.parts.now guess };

    fn refutes(&self, guess: Option<Guess>) -> bool {
        let Some(g) = guess else {
            return self.plain();
        };
        if self.is_quick(g) {
            return self.quick(g);
        }
        numbers_refute(&self.region.look(guess, None), self.family)
    }

    fn reach(&self, guess: Guess) -> Option<u64> {
        let look = self.region.look(None, None);
        let window = if self.x.0 == self.family.a.0 {
            window_around(&look, self.family.parts)
        } else {
            window_of(&look, self.family.a)
        };
        reach_into(window, known(&look, self.x), guess)
    }
}
