ghost use Rattle.std.specs.Prelude.{◌≡◌, ◌<◌, ◌∷◌, [], slice_get, IfOk, IfNone, IfSome, IsTrue, ◌↔◌};
ghost use Rattle.iqueue.specs.code.Queue.{AreDistinctBelow, is_in, without, woken};

use crate::linked::LinkedQueue;
use sched_base::NoMemory;
use std::alloc::Global;
use std::marker::Model;

/// A queue of distinct numbers below a bound. A byte for each number says whether it is in it, so that a
/// call that changes nothing reads no node: the bytes of many numbers lie where the node of one does.
/// Every call takes constant time, but for `clear`, which takes the queue's length.
#[derive(Drop)]
pub struct WakeQueue {
    queue: LinkedQueue,
    marks: Vec<bool>,
}

impl Model for WakeQueue {
    ghost use Rattle.iqueue.specs.code.Queue.{Queue};
    ghost use Rattle.iqueue.specs.code.Marks.{AreMarks};

    ghost Value = { Queue };

    ghost view = { λ q. q.queue };

    ghost invariant = { λ q. AreMarks q.queue q.marks.items };
}

impl WakeQueue {
    /// An empty queue for the numbers below `n`.
    #[tactic(auto, using(crate::proofs::Marking::none_are))]
    pub fn new(alloc: Global, n: u32) -> Result<WakeQueue, NoMemory>
        ensures { IfOk result (λ q. q ≡ record { below = n; list = [] }) }
    {
        Ok(WakeQueue {
            queue: LinkedQueue::new(alloc, n)?,
            marks: vec![in alloc; false; n as usize]?,
        })
    }

    /// Puts a number last where it isn't in the queue.
    #[tactic(auto, using(crate::proofs::Marking::woken_marked, crate::proofs::Marking::still_woken))]
    pub fn wake(&mut self, k: u32)
        requires { k < self.old.below }
        ensures { self.new ≡ record self.old { list = woken k self.old.list } }
    {
        if self.has(k) {
            return;
        }
        self.queue.wake(k);
        self.marks[k as usize] = true;
    }

    /// Takes a number out of the queue, wherever it stands there. The others stay in their order.
    #[tactic(auto, using(crate::proofs::Marking::unwoken_marked, crate::proofs::Marking::still_without))]
    pub fn unwake(&mut self, k: u32)
        requires { k < self.old.below }
        ensures { self.new ≡ record self.old { list = without k self.old.list } }
    {
        if !self.has(k) {
            return;
        }
        // Called for its clause alone.
        let _ = self.queue.first();
        self.queue.unwake(k);
        self.marks[k as usize] = false;
    }

    /// Removes the first number.
    pub fn take(&mut self) -> Option<u32>
        ensures first { IfSome result (λ k. self.old ≡ record self.new { list = k ∷ self.new.list }) }
        ensures none { IfNone result ((self.old.list ≡ []) × (self.new ≡ self.old)) }
        ensures distinct { AreDistinctBelow self.old.below self.old.list }
    {
        let number = self.first()?;
        self.unwake(number);
        Some(number)
    }

    /// The first number, which stays where it is.
    pub fn first(&mut self) -> Option<u32>
        ensures first { result ≡ slice_get self.old.list 0 }
        ensures same { self.new ≡ self.old }
        ensures distinct { AreDistinctBelow self.old.below self.old.list }
    {
        self.queue.first()
    }

    /// Whether a number is in the queue.
    pub fn has(&self, k: u32) -> bool
        requires { k < self.now.below }
        ensures { result ≡ is_in k self.now.list }
    {
        self.marks[k as usize]
    }

    /// Whether no number is in the queue.
    pub fn is_empty(&mut self) -> bool
        ensures empty { IsTrue result ↔ (self.old.list ≡ []) }
        ensures same { self.new ≡ self.old }
        ensures distinct { AreDistinctBelow self.old.below self.old.list }
    {
        self.queue.first().is_none()
    }

    /// Removes every number.
    pub fn clear(&mut self)
        ensures { self.new ≡ record self.old { list = [] } }
    {
        while self.take().is_some() {}
    }
}
