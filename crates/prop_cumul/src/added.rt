//! The search in a profile with what is added to it.
ghost use Rattle.std.specs.Prelude.{◌≡◌, ◌≤◌, ◌^◌, ◌<ℤ◌, ◌≤ℤ◌, neg_ℤ, pos, IfSome, IfNone};
ghost use Rattle.prop_cumul.specs.code.Extra.{IsRaisedAbove, StaysLow};

use refute_cumul::Profile;

/// What is added to a load, moment by moment.
pub trait Added {
    ghost use Rattle.std.specs.Prelude.{◌≡◌, ◌^◌, ◌<ℤ◌, ◌≤ℤ◌, ℤ, neg_ℤ, pos};
    ghost use Rattle.prop_cumul.specs.code.Extra.{IsStill};

    /// Whether it may be asked.
    ghost is_ready: { Self → Type 0 };

    ghost added: { Self → ℤ → ℤ };

    /// A moment behind `a`, at most `to`, before which as much is added as at `a`.
    fn until(&self, a: i64, to: i64) -> i64
        requires { a <ℤ to }
        ensures { IsStill (added self.now) a to result };

    fn at(&self, t: i64) -> i128
        requires { is_ready self.now }
        ensures value { result ≡ added self.now t }
        ensures low { neg_ℤ (pos (2 ^ 100)) ≤ℤ result }
        ensures high { result ≤ℤ pos (2 ^ 100) };
}

/// A moment of a span at which the level is too high, and where the run of such moments from it on
/// ends, of which nothing is promised.
#[derive(Clone, Copy, Debug)]
pub struct Raised {
    pub t: i64,
    pub end: i64,
}

/// The first moment of a span at which the level of the profile, with what is added, is above a limit.
/// Between two changes of what is added it is that of the profile alone.
pub fn raised_by<A: Added>(
    profile: &Profile,
    more: &A,
    span: (i64, i64),
    limit: i128,
) -> Option<Raised>
    requires ready { A.is_ready more.now }
    requires low { neg_ℤ (pos (2 ^ 63)) ≤ℤ limit }
    requires high { limit ≤ℤ pos (2 ^ 63) }
    ensures some { IfSome result (λ r. IsRaisedAbove profile.now.levels (A.added more.now) span.0 span.1 limit r.t) }
    ensures none { IfNone result (StaysLow profile.now.levels (A.added more.now) span.0 span.1 limit) }
{
    let (from, to) = span;
    let mut a = from;
    while a < to {
        let n = more.until(a, to);
        let added = more.at(a);
        if let Some(t) = profile.first_above(a, n, limit - added) {
            let end = profile.run_end(t, n, limit - added);
            return Some(Raised { t, end });
        }
        a = n;
    }
    None
}
