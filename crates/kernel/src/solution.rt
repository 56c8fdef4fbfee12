ghost use Rattle.std.specs.Prelude.{◌≡◌, ◌&&◌, Some, true};
ghost use Rattle.sched_model.specs.Domain.{is_in_domain};
ghost use Rattle.sched_model.specs.Solution.{is_solution, is_better};
ghost use Rattle.sched_model.specs.Valid.{IsValid};
ghost use Rattle.region.specs.Cells.{is_settled, allows};
ghost use Rattle.region.specs.Looks.{IsRegionOf};
ghost use Rattle.kernel.specs.Steps.{is_wanted};

use crate::types::Found;
use region::Region;
use sched_model::{Assignment, Model, beats, is_solution, value};

#[tactic(auto, using(crate::proofs::LineTests::no_value, crate::proofs::LineTests::beats_best))]
fn is_better(model: &Model, best: i64, a: &Assignment) -> bool
    requires { is_in_domain model.now a.now ≡ true }
    ensures { result ≡ is_better model.now (Some best) a.now }
{
    let Some(o) = model.objective() else {
        return false;
    };
    let Some(value) = value(model, a) else {
        return false;
    };
    beats(o.sense, value, best)
}

/// Whether the assignment is better than what was found, if anything was.
fn is_wanted(model: &Model, found: &Option<Found>, a: &Assignment) -> bool
    requires { is_in_domain model.now a.now ≡ true }
    ensures { result ≡ is_wanted model.now found.now a.now }
{
    let Some(found) = found else {
        return true;
    };
    let Some(best) = found.value else {
        return false;
    };
    is_better(model, best, a)
}

/// Whether the region is settled, and the assignment is a solution that it allows and is better than
/// what was found, if anything was.
pub fn is_wanted_solution(
    model: &Model,
    region: &Region,
    found: &Option<Found>,
    a: &Assignment,
) -> bool
    requires valid { IsValid model.now }
    requires of { IsRegionOf model.now region.now.region }
    ensures { result ≡ (is_settled region.now.region && is_solution model.now a.now && allows region.now.region a.now && is_wanted model.now found.now a.now) }
{
    if !region.settled() {
        return false;
    }
    if !is_solution(model, a) {
        return false;
    }
    if !region.look(None, None).allows(a) {
        return false;
    }
    is_wanted(model, found, a)
}
