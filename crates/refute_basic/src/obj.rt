ghost use Rattle.std.specs.Prelude.{◌≡◌};
ghost use Rattle.region.specs.Looks.{IsRegionOf};
ghost use Rattle.refute_basic.specs.Obj.{never_beats, obj_row};

use look_hull::look_hull;
use region::Look;
use sched_model::{Model, Sense};

/// Whether no value of the range is better than the best one.
pub fn never_beats(sense: Sense, best: i64, r: (i64, i64)) -> bool
    ensures { result ≡ never_beats sense best r }
{
    match sense {
        Sense::Minimize => best <= r.0,
        Sense::Maximize => r.1 <= best,
    }
}

/// Whether OBJ refutes the look. It reads each node of the objective once.
#[tactic(auto, using(sched_model::specs::laws::Listed::hull_of_objective))]
pub fn obj(model: &Model, look: &Look<'_>) -> bool
    requires { IsRegionOf model.now look.now.region }
    ensures { result ≡ obj_row model.now look.now }
{
    let Some(best) = look.best() else {
        return false;
    };
    let Some(o) = model.objective() else {
        return false;
    };
    never_beats(o.sense, best, look_hull(model, look, &o.expr))
}
