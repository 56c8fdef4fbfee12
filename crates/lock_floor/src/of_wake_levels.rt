//! Queues by urgency.
ghost use Rattle.std.specs.Prelude.{◌≡◌, ◌<◌, [], ℕ, length, replicate, All, IsTrue, IfOk, IfSome};
ghost use Rattle.wake_levels.specs.code.Waking.{is_awake, first_turn, without_on_all, woken_on};
ghost use Rattle.wake_levels.specs.code.Calm.{WakesEach};

use sched_base::NoMemory;
use std::alloc::Global;
use wake_levels::{Turn, WakeLevels};

pub fn new(alloc: Global, n: u32, levels: usize) -> Result<WakeLevels, NoMemory>
    requires { 0 < levels }
    ensures { IfOk result (λ a. a ≡ record { below = n; levels = replicate levels [] }) }
{
    WakeLevels::new(alloc, n, levels)
}

pub fn first(levels: &mut WakeLevels) -> Option<Turn>
    ensures turn { result ≡ first_turn levels.old.levels }
    ensures same { levels.new ≡ levels.old }
    ensures below { IfSome result (λ t. t.k < levels.old.below) }
{
    levels.first()
}

pub fn wake(awake: &mut WakeLevels, k: u32, level: usize)
    requires below { k < awake.old.below }
    requires level { level < length awake.old.levels }
    ensures { awake.new ≡ record awake.old { levels = woken_on k level awake.old.levels } }
{
    awake.wake(k, level);
}

pub fn unwake(awake: &mut WakeLevels, k: u32)
    requires { k < awake.old.below }
    ensures { awake.new ≡ record awake.old { levels = without_on_all k awake.old.levels } }
{
    awake.unwake(k);
}

pub fn wake_all(awake: &mut WakeLevels, homes: &[u8])
    ensures below { awake.new.below ≡ awake.old.below }
    ensures count { length awake.new.levels ≡ length awake.old.levels }
    ensures kept { (k : ℕ) → IsTrue (is_awake awake.old k) → IsTrue (is_awake awake.new k) }
    ensures all { (k : ℕ) → k < awake.old.below → IsTrue (is_awake awake.new k) }
{
    awake.wake_all(homes);
}

pub fn wake_each(awake: &mut WakeLevels, ks: &[u32], homes: &[u8])
    requires { All (λ k. k < awake.old.below) ks.now }
    ensures { WakesEach ks.now awake.old awake.new }
{
    awake.wake_each(ks, homes);
}
