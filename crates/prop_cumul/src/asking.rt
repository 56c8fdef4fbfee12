//! What a bound of a cumulative function gives, side by side and interval by interval.
ghost use Rattle.std.specs.Prelude.{◌≡◌, ◌<◌, ◌≤◌, false, length, Some, IfSome, IfNone, slice_get};
ghost use Rattle.sched_model.specs.Data.{parts_of};
ghost use Rattle.region.specs.Looks.{IsRegionOf};
ghost use Rattle.findings.specs.Found.{IsFinding};
ghost use Rattle.refute_cumul.specs.OnCumul.{refutes};
ghost use Rattle.refute_cumul.specs.code.Sides.{IsBoundOf, HasRoom, as_constraint};
ghost use Rattle.prop_cumul.specs.code.Tables.{IsTaskOf, is_cumul};
ghost use Rattle.prop_cumul.specs.code.Tasks.{quiet};
ghost use Rattle.prop_cumul.specs.code.Silence.{is_out_of_reach};
ghost use Rattle.prop_cumul.specs.code.Asking.{IsReady, IsSideQuiet, AreQuietOn, IsBusy};

use crate::calm::calm_of;
use crate::side::{Side, ask_interval, ask_plain};
use crate::task::Task;
use findings::Finding;
use refute_cumul::{Bound, CumulWitness, Profile, limit_of, parts_of};
use region::Region;
use sched_base::at;
use sched_model::{Constraint, Model};

fn ask_intervals(side: &Side<'_>, task: &Task) -> Option<Finding<CumulWitness>>
    requires ready { IsReady side.now.model.now side.now.region.now.region side.now.c side.now.bound side.now.below side.now.profile.now }
    requires task { IsTaskOf side.now.model.now (Some (as_constraint side.now.bound)) task.now }
    ensures none { IfNone result (AreQuietOn side.now.model.now side.now.region.now.region side.now.bound side.now.below task.now.intervals) }
    ensures some { IfSome result (IsFinding refutes side.now.model.now side.now.region.now.region side.now.best) }
    ensures busy { IfSome result (λ f. IsBusy side.now.model.now side.now.region.now.region side.now.best side.now.c) }
{
    let intervals = task.intervals.as_slice();
    let groups = task.groups.as_slice();
    let calm = calm_of(side);
    for i in 0..intervals.len() {
        if let Some(f) = ask_interval(side, calm, intervals[i], groups[i].as_slice()) {
            return Some(f);
        }
    }
    None
}

/// What a side gives: of the region as it stands, and then of each interval.
fn ask_side(side: &Side<'_>, task: &Task) -> Option<Finding<CumulWitness>>
    requires ready { IsReady side.now.model.now side.now.region.now.region side.now.c side.now.bound side.now.below side.now.profile.now }
    requires task { IsTaskOf side.now.model.now (Some (as_constraint side.now.bound)) task.now }
    ensures none { IfNone result (IsSideQuiet side.now.model.now side.now.region.now.region side.now.bound side.now.below task.now.intervals) }
    ensures some { IfSome result (IsFinding refutes side.now.model.now side.now.region.now.region side.now.best) }
    ensures busy { IfSome result (λ f. IsBusy side.now.model.now side.now.region.now.region side.now.best side.now.c) }
{
    if let Some(f) = ask_plain(side) {
        return Some(f);
    }
    ask_intervals(side, task)
}

/// What the bound of a constraint is asked with.
#[derive(Clone, Copy, Debug)]
pub struct Request {
    pub best: Option<i64>,
    pub c: u32,
    pub bound: Bound,
}

/// Whether the bound is further away than all parts together can come, each at most a million units
/// high.
fn is_out_of_reach(model: &Model, b: Bound, below: bool) -> bool
    ensures { result ≡ is_out_of_reach model.now b below }
{
    let most = 1_000_000 * parts_of(model, b.f).len() as i128;
    most <= limit_of(below, b.lo, b.hi)
}

/// What one side of the bound gives.
fn ask_one(
    profile: &mut Profile,
    task: &Task,
    model: &Model,
    region: &Region,
    request: Request,
    below: bool,
) -> Option<Finding<CumulWitness>>
    requires of { IsRegionOf model.now region.now.region }
    requires bound { IsBoundOf model.now request.c request.bound }
    requires task { IsTaskOf model.now (Some (as_constraint request.bound)) task.now }
    requires room { length (parts_of model.now request.bound.f) ≤ profile.old.room }
    ensures room { profile.new.room ≡ profile.old.room }
    ensures none { IfNone result (IsSideQuiet model.now region.now.region request.bound below task.now.intervals) }
    ensures some { IfSome result (IsFinding refutes model.now region.now.region request.best) }
    ensures busy { IfSome result (λ f. IsBusy model.now region.now.region request.best request.c) }
{
    if is_out_of_reach(model, request.bound, below) {
        return None;
    }
    let look = region.look(None, None);
    profile.fill(&look, below, parts_of(model, request.bound.f));
    let side = Side {
        model,
        region,
        best: request.best,
        c: request.c,
        bound: request.bound,
        below,
        profile,
    };
    ask_side(&side, task)
}

/// What the bound of a constraint gives, on the upper side and then on the lower.
fn ask_bound(
    profile: &mut Profile,
    task: &Task,
    model: &Model,
    region: &Region,
    request: Request,
) -> Option<Finding<CumulWitness>>
    requires of { IsRegionOf model.now region.now.region }
    requires bound { IsBoundOf model.now request.c request.bound }
    requires task { IsTaskOf model.now (Some (as_constraint request.bound)) task.now }
    requires room { length (parts_of model.now request.bound.f) ≤ profile.old.room }
    ensures room { profile.new.room ≡ profile.old.room }
    ensures none { IfNone result (quiet model.now request.c region.now.region request.best) }
    ensures some { IfSome result (IsFinding refutes model.now region.now.region request.best) }
    ensures busy { IfSome result (λ f. IsBusy model.now region.now.region request.best request.c) }
{
    if let Some(f) = ask_one(profile, task, model, region, request, false) {
        return Some(f);
    }
    ask_one(profile, task, model, region, request, true)
}

/// The bound that a constraint is.
fn bound_of(constraint: &Constraint) -> Option<Bound>
    ensures some { IfSome result (λ b. constraint.now ≡ as_constraint b) }
    ensures none { IfNone result (is_cumul constraint.now ≡ false) }
{
    match constraint {
        Constraint::CumulIn { f, window, lo, hi } => Some(Bound {
            f: *f,
            window: *window,
            lo: *lo,
            hi: *hi,
        }),
        _ => None,
    }
}

/// What a constraint gives; nothing where it bounds no cumulative function.
pub fn ask_constraint(
    profile: &mut Profile,
    task: &Task,
    model: &Model,
    region: &Region,
    best: Option<i64>,
    c: u32,
) -> Option<Finding<CumulWitness>>
    requires of { IsRegionOf model.now region.now.region }
    requires below { c < length model.now.constraints }
    requires task { IsTaskOf model.now (slice_get model.now.constraints c) task.now }
    requires room { HasRoom model.now profile.old.room }
    ensures room { profile.new.room ≡ profile.old.room }
    ensures none { IfNone result (quiet model.now c region.now.region best) }
    ensures some { IfSome result (IsFinding refutes model.now region.now.region best) }
    ensures busy { IfSome result (λ f. IsBusy model.now region.now.region best c) }
{
    let constraint = at(model.constraints(), c as usize)?;
    let bound = bound_of(constraint)?;
    ask_bound(profile, task, model, region, Request { best, c, bound })
}
