//! SEQREL: relations of the members of a sequence.
ghost use Rattle.std.specs.Prelude.{◌≡◌};
ghost use Rattle.sched_model.specs.Data.{members_of};
ghost use Rattle.refute_hier.specs.SeqRel.{seqrel_of, seqrel_row, related_in};

use refute_basic::stand;
use region::Look;
use sched_base::{Itv, Seq, at};
use sched_model::{Constraint, Model};

/// Whether a member stands where the relation has nobody.
pub fn seqrel_of(look: &Look<'_>, x: Itv, relation: &Constraint) -> bool
    ensures { result ≡ seqrel_of look.now.region x relation.now }
{
    match relation {
        Constraint::First { p, a } => stand(look, *p, x, *a),
        Constraint::Last { p, a } => stand(look, *p, *a, x),
        Constraint::Before { p, a, b } => x.0 == b.0 && stand(look, *p, *b, *a),
        Constraint::Prev { p, a, b } => {
            (x.0 == b.0 && stand(look, *p, *b, *a))
                || (stand(look, *p, *a, x) && stand(look, *p, x, *b))
        }
        _ => false,
    }
}

/// Whether SEQREL refutes the look, in constant time.
pub fn seqrel(model: &Model, look: &Look<'_>, c: u32, x: u32) -> bool
    ensures { result ≡ seqrel_row model.now look.now c x }
{
    match at(model.constraints(), c as usize) {
        Some(relation) => seqrel_of(look, Itv(x), relation),
        None => false,
    }
}

/// The sequence of a relation of its members.
pub fn related_in(constraint: &Constraint) -> Option<Seq>
    ensures { result ≡ related_in constraint.now }
{
    match constraint {
        Constraint::First { p, a: _ } => Some(*p),
        Constraint::Last { p, a: _ } => Some(*p),
        Constraint::Before { p, a: _, b: _ } => Some(*p),
        Constraint::Prev { p, a: _, b: _ } => Some(*p),
        _ => None,
    }
}

/// The members of a sequence, and none where there is no such sequence.
pub fn members_of(model: &Model, p: Seq) -> &[Itv]
    ensures { result.now ≡ members_of model.now p }
{
    match model.sequences().get(p.0 as usize) {
        None => &[],
        Some(d) => d.members.as_slice(),
    }
}
