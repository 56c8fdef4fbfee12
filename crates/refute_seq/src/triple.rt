ghost use Rattle.std.specs.Prelude.{◌≡◌};
ghost use Rattle.refute_seq.specs.Triple.{are_in_circle, triple_row};

use refute_basic::stand;
use region::Look;
use sched_base::{Itv, Seq};

fn are_in_circle(look: &Look<'_>, p: Seq, x: Itv, y: Itv, z: Itv) -> bool
    ensures { result ≡ are_in_circle look.now.region p x y z }
{
    stand(look, p, x, y) && stand(look, p, y, z) && stand(look, p, z, x)
}

/// Whether TRIPLE refutes the look, in constant time.
pub fn triple(look: &Look<'_>, p: u32, x: u32, y: u32, z: u32) -> bool
    ensures { result ≡ triple_row look.now p x y z }
{
    are_in_circle(look, Seq(p), Itv(x), Itv(y), Itv(z))
}
