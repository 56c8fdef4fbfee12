//! What a look tells of the members of a sequence.
ghost use Rattle.std.specs.Prelude.{◌≡◌};
ghost use Rattle.region.specs.Cells.{is_there};
ghost use Rattle.refute_basic.specs.Standing.{precedes, stand};

use region::{Look, OrderCell, Presence};
use sched_base::{Itv, Seq};

/// Whether the interval is present.
#[tactic(auto, using(region::specs::laws::Present::none_there))]
pub fn is_there(look: &Look<'_>, x: Itv) -> bool
    ensures { result ≡ is_there look.now.region x }
{
    if x.0 as usize >= look.len() {
        return false;
    }
    look.presence(x) == Presence::Present
}

/// Whether the first of two members is told to stand before the second.
pub fn precedes(look: &Look<'_>, p: Seq, x: Itv, y: Itv) -> bool
    ensures { result ≡ precedes look.now.region p x y }
{
    look.order(p, x, y) == OrderCell::Forward
}

/// Whether two members are present, and the first stands before the second.
pub fn stand(look: &Look<'_>, p: Seq, x: Itv, y: Itv) -> bool
    ensures { result ≡ stand look.now.region p x y }
{
    is_there(look, x) && is_there(look, y) && precedes(look, p, x, y)
}
