//! A queue of distinct numbers.
ghost use Rattle.std.specs.Prelude.{◌≡◌, ◌<◌, ◌∷◌, [], slice_get, IfOk, IfNone, IfSome};
ghost use Rattle.iqueue.specs.code.Queue.{AreDistinctBelow, without, woken};

use iqueue::WakeQueue;
use sched_base::NoMemory;
use std::alloc::Global;

pub fn new(alloc: Global, n: u32) -> Result<WakeQueue, NoMemory>
    ensures { IfOk result (λ q. q ≡ record { below = n; list = [] }) }
{
    WakeQueue::new(alloc, n)
}

pub fn wake(queue: &mut WakeQueue, k: u32)
    requires { k < queue.old.below }
    ensures { queue.new ≡ record queue.old { list = woken k queue.old.list } }
{
    queue.wake(k);
}

pub fn unwake(queue: &mut WakeQueue, k: u32)
    requires { k < queue.old.below }
    ensures { queue.new ≡ record queue.old { list = without k queue.old.list } }
{
    queue.unwake(k);
}

pub fn take(queue: &mut WakeQueue) -> Option<u32>
    ensures first { IfSome result (λ k. queue.old ≡ record queue.new { list = k ∷ queue.new.list }) }
    ensures none { IfNone result ((queue.old.list ≡ []) × (queue.new ≡ queue.old)) }
    ensures distinct { AreDistinctBelow queue.old.below queue.old.list }
{
    queue.take()
}

pub fn first(queue: &mut WakeQueue) -> Option<u32>
    ensures first { result ≡ slice_get queue.old.list 0 }
    ensures same { queue.new ≡ queue.old }
    ensures distinct { AreDistinctBelow queue.old.below queue.old.list }
{
    queue.first()
}
