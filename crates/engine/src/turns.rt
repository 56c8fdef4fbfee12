//! Whose turn it is, and what it finds.
ghost use Rattle.std.specs.Prelude.{◌≡◌, ◌+◌, ◌<◌, ◌≤◌, false, ℕ, length, Some, IfOk, IfSome, IfNone};
ghost use Rattle.region.specs.Looks.{IsRegionOf};
ghost use Rattle.findings.specs.Found.{IsFinding};
ghost use Rattle.wake_levels.specs.code.Waking.{is_awake, first_turn, without_on_all, woken_on};
ghost use Rattle.wake_levels.specs.code.Calm.{IsCalm};
ghost use Rattle.engine.specs.Plain.{refutes_plain};

use crate::late::is_late;
use crate::propagator::Propagator;
use findings::Finding;
use kernel::{NoWitness, Witness};
use region::Region;
use sched_base::NoMemory;
use sched_model::Model;
use wake_levels::{Turn, WakeLevels};

/// The level on which it is asked again who can wait, or found what is late.
const LATE: usize = 2;

/// Puts whoever has its turn off to a later level.
fn put_off(levels: &mut WakeLevels, turn: Turn, late: usize)
    requires below { turn.k < levels.old.below }
    requires turn { first_turn levels.old.levels ≡ Some turn }
    requires within { late < length levels.old.levels }
    requires less { turn.level < late }
    ensures { levels.new ≡ record levels.old { levels = woken_on turn.k late (without_on_all turn.k levels.old.levels) } }
{
    levels.unwake(turn.k);
    levels.wake(turn.k, late);
}

/// The level to which whoever can wait is put off: the last one, or that of what is late.
fn level_behind(levels: &WakeLevels, is_last: bool, late: usize) -> usize
    requires { late < length levels.now.levels }
    ensures behind { late ≤ result }
    ensures within { result < length levels.now.levels }
{
    if is_last { levels.levels() - 1 } else { late }
}

/// Asks those that are awake, the most urgent first, until one finds something; nothing once none is
/// awake. Whoever finds nothing is put to sleep on every level; who can wait, or finds what is late, on
/// all but the level `LATE`, or the last one, where it is asked again, as on each behind it. Whoever found
/// what is answered stays the first of its level.
pub fn find<P: Propagator>(
    propagators: &mut P,
    levels: &mut WakeLevels,
    model: &Model,
    region: &Region,
    best: Option<i64>,
) -> Result<Option<Finding<Witness<NoWitness>>>, NoMemory>
    requires of { P.is_of propagators.old model.now }
    requires region { IsRegionOf model.now region.now.region }
    requires calm { IsCalm (P.size model.now) (λ k. P.quiet model.now k region.now.region best) levels.old }
    ensures of { P.is_of propagators.new model.now }
    ensures below { levels.new.below ≡ levels.old.below }
    ensures calm { IsCalm (P.size model.now) (λ k. P.quiet model.now k region.now.region best) levels.new }
    ensures none { IfOk result (λ o. IfNone o ((k : ℕ) → k < P.size model.now → P.quiet model.now k region.now.region best)) }
    ensures asleep { IfOk result (λ o. IfNone o ((k : ℕ) → is_awake levels.new k ≡ false)) }
    ensures some { IfOk result (λ o. IfSome o (λ f. IsFinding refutes_plain model.now region.now.region best f)) }
{
    let late = LATE.min(levels.levels() - 1);
    'awake: loop {
        let Some(turn) = levels.first() else {
            return Ok(None);
        };
        if turn.level < late && propagators.can_wait(turn.k, model, region) {
            let behind = level_behind(levels, propagators.is_last(turn.k), late);
            put_off(levels, turn, behind);
            continue;
        }
        let Some(f) = propagators.next(turn.k, model, region, best)? else {
            levels.unwake(turn.k);
            continue;
        };
        if turn.level < late && is_late(region, &f) {
            put_off(levels, turn, late);
            continue;
        }
        return Ok(Some(f));
    }
}

/// Puts all to sleep that are awake.
pub fn sleep(levels: &mut WakeLevels)
    ensures { levels.new.below ≡ levels.old.below }
{
    for _k in 0..levels.count() {
        let Some(turn) = levels.first() else {
            return;
        };
        levels.unwake(turn.k);
    }
}
