ghost use Rattle.std.specs.Prelude.{◌≡◌};
ghost use Rattle.region.specs.Looks.{IsRegionOf};
ghost use Rattle.refute_basic.specs.Expr.{expr_row};

use look_hull::{look_hull, surely_false};
use region::Look;
use sched_base::at;
use sched_model::{Constraint, Model};

/// Whether EXPR refutes the look. It reads each node of the expression once.
#[tactic(auto, using(sched_model::specs::laws::Listed::hull_at))]
pub fn expr(model: &Model, look: &Look<'_>, c: u32) -> bool
    requires { IsRegionOf model.now look.now.region }
    ensures { result ≡ expr_row model.now look.now c }
{
    match at(model.constraints(), c as usize) {
        Some(Constraint::Logic(e)) => surely_false(look_hull(model, look, e)),
        _ => false,
    }
}
