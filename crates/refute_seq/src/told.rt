//! What a look tells of the members of a sequence.
ghost use Rattle.std.specs.Prelude.{◌≡◌};
ghost use Rattle.region.specs.Cells.{bounds_of};
ghost use Rattle.refute_seq.specs.Standing.{is_away};

use region::{Look, Presence};
use sched_base::Itv;

fn presence(look: &Look<'_>, x: Itv) -> Presence
    ensures { result ≡ (bounds_of look.now.region x).presence }
{
    if x.0 as usize >= look.len() {
        return Presence::Maybe;
    }
    look.presence(x)
}

/// Whether the interval is absent.
pub fn is_away(look: &Look<'_>, x: Itv) -> bool
    ensures { result ≡ is_away look.now.region x }
{
    presence(look, x) == Presence::Absent
}
