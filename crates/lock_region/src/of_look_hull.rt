//! The ranges of expressions in a look.
ghost use Rattle.std.specs.Prelude.{◌≡◌, is_some, true, IsTrue};
ghost use Rattle.sched_model.specs.declared.types.Assignment.{Assignment};
ghost use Rattle.sched_model.specs.Domain.{is_in_domain};
ghost use Rattle.sched_model.specs.Value.{value_of};
ghost use Rattle.sched_model.specs.laws.Within.{Within};
ghost use Rattle.region.specs.Cells.{Allows};
ghost use Rattle.sched_model.specs.Hull.{hull_of};
ghost use Rattle.region.specs.Looks.{IsRegionOf};
ghost use Rattle.look_hull.specs.LookHull.{look_hull, surely_true, compare_range};

use region::Look;
use sched_model::{CompareOp, Expr, Model};

pub fn look_hull(model: &Model, look: &Look<'_>, e: &Expr) -> (i64, i64)
    requires of { IsRegionOf model.now look.now.region }
    requires hull { is_some (hull_of model.now e.now) ≡ true }
    ensures value { result ≡ look_hull model.now look.now.region e.now }
    ensures within { (a : Assignment) → IsTrue (is_in_domain model.now a) → Allows look.now.region a → Within result (value_of a e.now) }
{
    look_hull::look_hull(model, look, e)
}

pub fn surely_true(r: (i64, i64)) -> bool
    ensures { result ≡ surely_true r }
{
    look_hull::surely_true(r)
}

pub fn compare_range(op: CompareOp, r: (i64, i64), s: (i64, i64)) -> (i64, i64)
    ensures { result ≡ compare_range op r s }
{
    look_hull::compare_range(op, r, s)
}
