ghost use Rattle.std.specs.Prelude.{◌≡◌, ◌<◌, ◌++◌, ◌∷◌, [], true, false, slice_get};
ghost use Rattle.std.specs.Vec.{vec_len, vec_ptr};
ghost use Rattle.iqueue.specs.code.Queue.{is_in, without};
ghost use Rattle.iqueue.specs.code.Links.{IsLinked, IsEnd, SameBlock, numbers, with_next, with_prev, first_of, front_of, prev_of, next_of, prev_to, next_to};

use kept::{item_at, place_of};
use std::ptr;

/// What stands for one number: whether it is in the queue, and its neighbours there. A flag in place
/// of an `Option` round each neighbour keeps a node at 24 bytes.
#[derive(Clone, Copy)]
pub struct Node {
    pub number: u32,
    pub is_linked: bool,
    pub has_prev: bool,
    pub has_next: bool,
    pub prev: *mut Node,
    pub next: *mut Node,
}

/// A node outside the queue.
pub fn out() -> Node
    ensures { (result.number ≡ 0) × (result.is_linked ≡ false) }
{
    Node {
        number: 0,
        is_linked: false,
        has_prev: false,
        has_next: false,
        prev: ptr::null_mut(),
        next: ptr::null_mut(),
    }
}

impl Node {
    /// The node before this one.
    fn prev(self) -> Option<*mut Node>
        ensures { result ≡ prev_of self }
    {
        if self.has_prev { Some(self.prev) } else { None }
    }

    /// The node behind this one.
    fn next(self) -> Option<*mut Node>
        ensures { result ≡ next_of self }
    {
        if self.has_next { Some(self.next) } else { None }
    }

    /// Says which node is before this one.
    fn set_prev(&mut self, prev: Option<*mut Node>)
        ensures { self.new ≡ prev_to prev self.old }
    {
        match prev {
            None => self.has_prev = false,
            Some(at) => {
                self.has_prev = true;
                self.prev = at;
            }
        }
    }

    /// Says which node is behind this one.
    fn set_next(&mut self, next: Option<*mut Node>)
        ensures { self.new ≡ next_to next self.old }
    {
        match next {
            None => self.has_next = false,
            Some(at) => {
                self.has_next = true;
                self.next = at;
            }
        }
    }
}

/// The first and the last node of the queue.
#[derive(Clone, Copy)]
pub struct Ends {
    pub first: Option<*mut Node>,
    pub last: Option<*mut Node>,
}

/// Makes a node the one behind `prev`, and returns the first node.
fn join_next(
    nodes: &mut Vec<Node>,
    first: Option<*mut Node>,
    prev: Option<*mut Node>,
    next: Option<*mut Node>,
) -> Option<*mut Node>
    requires { IsEnd (vec_ptr nodes.old) (vec_len nodes.old) prev }
    ensures first { result ≡ first_of first prev next }
    ensures nodes { nodes.new.items ≡ with_next (vec_ptr nodes.old) nodes.old.items prev next }
    ensures block { SameBlock nodes.old nodes.new }
{
    match prev {
        None => next,
        Some(at) => {
            item_at(nodes, at).set_next(next);
            first
        }
    }
}

/// Makes a node the one before `next`, and returns the last node.
fn join_prev(
    nodes: &mut Vec<Node>,
    last: Option<*mut Node>,
    next: Option<*mut Node>,
    prev: Option<*mut Node>,
) -> Option<*mut Node>
    requires { IsEnd (vec_ptr nodes.old) (vec_len nodes.old) next }
    ensures last { result ≡ first_of last next prev }
    ensures nodes { nodes.new.items ≡ with_prev (vec_ptr nodes.old) nodes.old.items next prev }
    ensures block { SameBlock nodes.old nodes.new }
{
    match next {
        None => prev,
        Some(at) => {
            item_at(nodes, at).set_prev(prev);
            last
        }
    }
}

/// Links a number behind the last one.
pub fn append(nodes: &mut Vec<Node>, ends: Ends, k: u32) -> Ends
    requires linked { IsLinked (vec_ptr nodes.old) nodes.old.items ends.first ends.last (numbers (vec_ptr nodes.old) nodes.old.items ends.first) }
    requires below { k < vec_len nodes.old }
    requires absent { is_in k (numbers (vec_ptr nodes.old) nodes.old.items ends.first) ≡ false }
    ensures linked { IsLinked (vec_ptr nodes.old) nodes.new.items result.first result.last (numbers (vec_ptr nodes.old) nodes.old.items ends.first ++ k ∷ []) }
    ensures block { SameBlock nodes.old nodes.new }
{
    let Ends { first, last } = ends;
    let at = place_of(nodes, k as usize);
    let first = join_next(nodes, first, last, Some(at));
    let mut node = Node {
        number: k,
        is_linked: true,
        has_prev: false,
        has_next: false,
        prev: at,
        next: at,
    };
    node.set_prev(last);
    nodes[k as usize] = node;
    Ends {
        first,
        last: Some(at),
    }
}

/// Takes a number out of its links: its two neighbours become neighbours of one another.
pub fn unlink(nodes: &mut Vec<Node>, ends: Ends, k: u32) -> Ends
    requires linked { IsLinked (vec_ptr nodes.old) nodes.old.items ends.first ends.last (numbers (vec_ptr nodes.old) nodes.old.items ends.first) }
    requires there { is_in k (numbers (vec_ptr nodes.old) nodes.old.items ends.first) ≡ true }
    ensures linked { IsLinked (vec_ptr nodes.old) nodes.new.items result.first result.last (without k (numbers (vec_ptr nodes.old) nodes.old.items ends.first)) }
    ensures block { SameBlock nodes.old nodes.new }
{
    let node = nodes[k as usize];
    let prev = node.prev();
    let next = node.next();
    let first = join_next(nodes, ends.first, prev, next);
    let last = join_prev(nodes, ends.last, next, prev);
    nodes[k as usize].is_linked = false;
    Ends { first, last }
}

/// The number of the first node, and 0 where there is none.
pub fn first_number(nodes: &mut Vec<Node>, ends: Ends) -> u32
    requires linked { IsLinked (vec_ptr nodes.old) nodes.old.items ends.first ends.last (numbers (vec_ptr nodes.old) nodes.old.items ends.first) }
    ensures first { front_of ends.first result ≡ slice_get (numbers (vec_ptr nodes.old) nodes.old.items ends.first) 0 }
    ensures same { nodes.new.items ≡ nodes.old.items }
    ensures block { SameBlock nodes.old nodes.new }
{
    match ends.first {
        None => 0,
        Some(first) => item_at(nodes, first).number,
    }
}
