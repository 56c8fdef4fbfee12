ghost use Rattle.std.specs.Prelude.{◌≡◌, ◌++◌, Some, None, map, option_map, option_to_list};
ghost use Rattle.kernel.specs.code.Open.{AreOpenOf};
ghost use Rattle.bound_report.specs.Bound.{better_end, reach};
ghost use Rattle.bound_report.specs.code.Best.{better_of, with_one, best_in};

use kernel::Open;
use look_hull::look_hull;
use sched_model::{Model, Objective, Sense};

/// The end of a range that is the better one.
fn better_end(sense: Sense, range: (i64, i64)) -> i64
    ensures { result ≡ better_end sense range }
{
    match sense {
        Sense::Minimize => range.0,
        Sense::Maximize => range.1,
    }
}

fn better_of(sense: Sense, y: i64, z: i64) -> i64
    ensures { result ≡ better_of sense y z }
{
    match sense {
        Sense::Minimize => y.min(z),
        Sense::Maximize => y.max(z),
    }
}

/// The best value so far, with one value more.
fn with_one(sense: Sense, best: Option<i64>, z: i64) -> Option<i64>
    ensures { result ≡ with_one sense best z }
{
    match best {
        None => Some(z),
        Some(y) => Some(better_of(sense, y, z)),
    }
}

/// What the region in front may still reach.
fn front_reach(model: &Model, objective: &Objective, regions: &Open) -> Option<i64>
    requires of { AreOpenOf model.now regions.now }
    requires objective { model.now.objective ≡ Some objective.now }
    ensures { result ≡ option_map (reach model.now objective.now) regions.now.front }
{
    // Called for its clause alone.
    let _ = model.intervals();
    match regions.look() {
        None => None,
        Some(look) => Some(better_end(objective.sense, look_hull(model, &look, &objective.expr))),
    }
}

/// The best of a value, if there is one, and of what the open regions may still reach.
pub fn best_over(
    model: &Model,
    objective: &Objective,
    best: Option<i64>,
    regions: Open,
) -> Option<i64>
    requires of { AreOpenOf model.now regions }
    requires objective { model.now.objective ≡ Some objective.now }
    ensures { result ≡ best_in objective.now.sense (option_to_list best ++ map (reach model.now objective.now) regions.behind) }
{
    let mut regions = regions;
    let mut so_far = best;
    'each: loop {
        let _ = regions.advance();
        let Some(z) = front_reach(model, objective, &regions) else {
            return so_far;
        };
        so_far = with_one(objective.sense, so_far, z);
    }
}
