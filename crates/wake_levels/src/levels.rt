ghost use Rattle.std.specs.Prelude.{◌≡◌, ◌<◌, [], ◌∷◌, ℕ, length, map, replicate, All, IsTrue, IfOk, IfSome};
ghost use Rattle.wake_levels.specs.code.Queues.{AreBelow, lists_of, queue_without};
ghost use Rattle.wake_levels.specs.code.Waking.{is_awake, first_turn, without_on_all, woken_on};
ghost use Rattle.wake_levels.specs.code.Calm.{WakesEach};

use iqueue::WakeQueue;
use sched_base::NoMemory;
use std::alloc::Global;
use std::marker::Model;

/// The numbers that are awake. The most urgent level comes first, and the numbers of one level stand
/// in the order of their wakes. A number may be awake on more than one level. Once it is made it
/// takes no memory.
#[derive(Drop)]
pub struct WakeLevels {
    count: u32,
    queues: Vec<WakeQueue>,
}

impl Model for WakeLevels {
    ghost use Rattle.std.specs.Prelude.{◌<◌, length};
    ghost use Rattle.wake_levels.specs.code.Waking.{Waking};
    ghost use Rattle.wake_levels.specs.code.Queues.{lists_of, AreBelow};

    ghost Value = { Waking };

    ghost view = { λ a. record { below = a.count; levels = lists_of a.queues.items } };

    ghost invariant = { λ a. AreBelow a.count a.queues.items × (0 < length a.queues.items) };
}

/// A number that is awake, and its level, counted from 0.
#[derive(Clone, Copy, Debug)]
pub struct Turn {
    pub k: u32,
    pub level: usize,
}

fn empty_queues(alloc: Global, n: u32, levels: usize) -> Result<Vec<WakeQueue>, NoMemory>
    ensures { IfOk result (λ v. v.items ≡ replicate levels (record { below = n; list = [] })) }
{
    let mut queues = Vec::with_capacity(alloc, levels)?;
    for _ in 0..levels {
        queues.push(WakeQueue::new(alloc, n)?)?;
    }
    Ok(queues)
}

fn unwake_each(queues: &mut [WakeQueue], k: u32)
    requires { (n : ℕ) × AreBelow n queues.old × (k < n) }
    ensures { queues.new ≡ map (queue_without k) queues.old }
{
    for level in 0..queues.len() {
        queues[level].unwake(k);
    }
}

/// The first number of the first queue that has one.
fn first_on(queues: &mut [WakeQueue]) -> Option<Turn>
    ensures turn { result ≡ first_turn (lists_of queues.old) }
    ensures same { queues.new ≡ queues.old }
    ensures below { (n : ℕ) → AreBelow n queues.old → IfSome result (λ t. t.k < n) }
{
    for level in 0..queues.len() {
        if let Some(k) = queues[level].first() {
            return Some(Turn { k, level });
        }
    }
    None
}

impl WakeLevels {
    /// No number below `n` awake, on so many levels.
    pub fn new(alloc: Global, n: u32, levels: usize) -> Result<WakeLevels, NoMemory>
        requires { 0 < levels }
        ensures { IfOk result (λ a. a ≡ record { below = n; levels = replicate levels [] }) }
    {
        Ok(WakeLevels {
            count: n,
            queues: empty_queues(alloc, n, levels)?,
        })
    }

    /// The numbers are below this one.
    pub fn count(&self) -> u32
        ensures { result ≡ self.now.below }
    {
        self.count
    }

    /// How many levels there are.
    pub fn levels(&self) -> usize
        ensures count { result ≡ length self.now.levels }
        ensures some { 0 < result }
    {
        self.queues.len()
    }

    /// The first number of the first level that has one. It stays where it is.
    pub fn first(&mut self) -> Option<Turn>
        ensures turn { result ≡ first_turn self.old.levels }
        ensures same { self.new ≡ self.old }
        ensures below { IfSome result (λ t. t.k < self.old.below) }
    {
        first_on(&mut self.queues)
    }

    /// Puts a number last on a level, where it isn't on it.
    pub fn wake(&mut self, k: u32, level: usize)
        requires below { k < self.old.below }
        requires level { level < length self.old.levels }
        ensures { self.new ≡ record self.old { levels = woken_on k level self.old.levels } }
    {
        self.queues[level].wake(k);
    }

    /// Takes a number from each level that it is on. The others stay in their order.
    pub fn unwake(&mut self, k: u32)
        requires { k < self.old.below }
        ensures { self.new ≡ record self.old { levels = without_on_all k self.old.levels } }
    {
        unwake_each(&mut self.queues, k);
    }

    /// Wakes every number, on the level that is its home as `wake_each` does.
    pub fn wake_all(&mut self, homes: &[u8])
        ensures below { self.new.below ≡ self.old.below }
        ensures count { length self.new.levels ≡ length self.old.levels }
        ensures kept { (k : ℕ) → IsTrue (is_awake self.old k) → IsTrue (is_awake self.new k) }
        ensures all { (k : ℕ) → k < self.old.below → IsTrue (is_awake self.new k) }
    {
        for k in 0..self.count() {
            self.wake_home(k, homes);
        }
    }

    /// Wakes each of these, on the level that is its home: the last one, where that is none. A number
    /// that has no home is woken on the first.
    pub fn wake_each(&mut self, ks: &[u32], homes: &[u8])
        requires { All (λ k. k < self.old.below) ks.now }
        ensures { WakesEach ks.now self.old self.new }
    {
        for k in ks {
            self.wake_home(*k, homes);
        }
    }

    fn wake_home(&mut self, k: u32, homes: &[u8])
        requires { k < self.old.below }
        ensures { WakesEach (k ∷ []) self.old self.new }
    {
        let last = self.levels() - 1;
        let level = home_of(homes, k).min(last);
        self.wake(k, level);
    }
}

fn home_of(homes: &[u8], k: u32) -> usize {
    match homes.get(k as usize) {
        None => 0,
        Some(level) => *level as usize,
    }
}
