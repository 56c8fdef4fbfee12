ghost use Rattle.std.specs.Prelude.{◌≡◌, ◌<◌, [], true, false, slice_get, IfOk};
ghost use Rattle.iqueue.specs.code.Queue.{AreDistinctBelow, is_in, without, woken};

use crate::node::{Ends, Node, append, first_number, out, unlink};
use sched_base::NoMemory;
use std::alloc::Global;
use std::marker::Model;

/// A queue of distinct numbers below a bound. The numbers are linked in place: one node of one block
/// stands for each, and holds its two neighbours. So every call takes constant time.
#[derive(Drop)]
pub struct LinkedQueue {
    nodes: Vec<Node>,
    ends: Ends,
    /// The number of the first node, where there is one.
    front: u32,
}

impl Model for LinkedQueue {
    ghost use Rattle.std.specs.Prelude.{◌≡◌, length, slice_get};
    ghost use Rattle.std.specs.Vec.{vec_ptr};
    ghost use Rattle.iqueue.specs.code.Queue.{Queue};
    ghost use Rattle.iqueue.specs.code.Links.{IsLinked, front_of, numbers};

    ghost Value = { Queue };

    ghost view = { λ q. record { below = length q.nodes.items; list = numbers (vec_ptr q.nodes) q.nodes.items q.ends.first } };

    ghost invariant = { λ q. IsLinked (vec_ptr q.nodes) q.nodes.items q.ends.first q.ends.last (numbers (vec_ptr q.nodes) q.nodes.items q.ends.first) × (front_of q.ends.first q.front ≡ slice_get (numbers (vec_ptr q.nodes) q.nodes.items q.ends.first) 0) };
}

impl LinkedQueue {
    /// An empty queue for the numbers below `n`.
    pub fn new(alloc: Global, n: u32) -> Result<LinkedQueue, NoMemory>
        ensures { IfOk result (λ q. q ≡ record { below = n; list = [] }) }
    {
        Ok(LinkedQueue {
            nodes: vec![in alloc; out(); n as usize]?,
            ends: Ends {
                first: None,
                last: None,
            },
            front: 0,
        })
    }

    /// Puts a number last that isn't in the queue.
    pub fn wake(&mut self, k: u32)
        requires below { k < self.old.below }
        requires absent { is_in k self.old.list ≡ false }
        ensures { self.new ≡ record self.old { list = woken k self.old.list } }
    {
        if self.ends.first.is_none() {
            self.front = k;
        }
        self.ends = append(&mut self.nodes, self.ends, k);
    }

    /// Takes a number that is in the queue out of it. The others stay in their order.
    pub fn unwake(&mut self, k: u32)
        requires below { k < self.old.below }
        requires there { is_in k self.old.list ≡ true }
        ensures { self.new ≡ record self.old { list = without k self.old.list } }
    {
        self.ends = unlink(&mut self.nodes, self.ends, k);
        self.front = first_number(&mut self.nodes, self.ends);
    }

    /// The first number, which stays where it is.
    pub fn first(&self) -> Option<u32>
        ensures first { result ≡ slice_get self.now.list 0 }
        ensures distinct { AreDistinctBelow self.now.below self.now.list }
    {
        let _ = self.ends.first?;
        Some(self.front)
    }
}
