//! What a region leaves possible of a relation of the members of a sequence.
ghost use Rattle.std.specs.Prelude.{◌≡◌, not};
ghost use Rattle.refute_hier.specs.Parts.{is_away};
ghost use Rattle.prop_hier.specs.code.Possible.{may_stand, may_break};

use refute_hier::known;
use region::{Look, OrderCell, Presence};
use sched_base::{Itv, Seq};
use sched_model::Constraint;

fn may_be_there(look: &Look<'_>, x: Itv) -> bool
    ensures { result ≡ not (is_away look.now.region x) }
{
    known(look, x).presence != Presence::Absent
}

/// Whether two members may be present, and the first may stand before the second.
fn may_stand(look: &Look<'_>, p: Seq, x: Itv, y: Itv) -> bool
    ensures { result ≡ may_stand look.now.region p x y }
{
    may_be_there(look, x) && may_be_there(look, y) && look.order(p, x, y) != OrderCell::Backward
}

/// Whether a member may stand where the relation has nobody.
pub fn may_break(look: &Look<'_>, x: Itv, relation: &Constraint) -> bool
    ensures { result ≡ may_break look.now.region x relation.now }
{
    match relation {
        Constraint::First { p, a } => may_stand(look, *p, x, *a),
        Constraint::Last { p, a } => may_stand(look, *p, *a, x),
        Constraint::Before { p, a, b } => x.0 == b.0 && may_stand(look, *p, *b, *a),
        Constraint::Prev { p, a, b } => {
            (x.0 == b.0 && may_stand(look, *p, *b, *a))
                || (may_stand(look, *p, *a, x) && may_stand(look, *p, x, *b))
        }
        _ => false,
    }
}
