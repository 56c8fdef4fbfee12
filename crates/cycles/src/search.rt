//! The walks from each point that a search has found, and its rounds.
ghost use Rattle.std.specs.Prelude.{◌≡◌, ℕ, ◌+◌, ◌<◌, ◌≤◌, ◌+ℤ◌, ◌≤ℤ◌, ◌^◌, pos, neg_ℤ, true, false, Bool, length, get_or, IsTrue, IfOk, IfSome, IfNone, OnOk};
ghost use Rattle.cycles.specs.code.Walks.{arc_at, IsGain};
ghost use Rattle.cycles.specs.code.Search.{IsSearch, IsShort, AreOn, IsPointOf, IsArcOf, IsBehind, IsStill, is_late, last_of, height, node_at, turn_of};
ghost use Rattle.cycles.specs.code.Pushes.{pushed, node_by};
ghost use Rattle.cycles.specs.code.Ways.{IsLoop};

use crate::node::{Node, root, weigh};
use refute_basic::Arc;
use sched_base::{List, NoMemory};
use std::alloc::Global;
use std::marker::Model;

/// The walks from each point so far; `last` is the newest node of each point, that of its greatest
/// walk.
#[derive(Drop)]
pub struct Search {
    nodes: Vec<Node>,
    last: Vec<usize>,
}

impl Model for Search {
    ghost use Rattle.cycles.specs.code.Search.{Search};

    ghost Value = { Search };

    ghost view = { λ s. record { nodes = s.nodes.items; last = s.last.items } };
}

/// The arc whose turn it is: the places from the first to the last, or from the last to the first.
fn place(backwards: bool, count: usize, turn: usize) -> usize
    requires { turn < count }
    ensures below { result < count }
    ensures turn { turn_of backwards count result ≡ turn }
{
    if backwards { count - 1 - turn } else { turn }
}

/// No point is seen.
fn blank(seen: &mut Vec<usize>, n: usize) -> Result<(), NoMemory>
    ensures size { OnOk result (length seen.new.items ≡ n) }
    ensures none { OnOk result ((v : ℕ) → get_or seen.new.items v 0 ≡ 0) }
{
    seen.clear();
    for _ in 0..n {
        seen.push(0)?;
    }
    Ok(())
}

impl Search {
    pub fn new(alloc: Global) -> Search {
        Search {
            nodes: Vec::new(alloc),
            last: Vec::new(alloc),
        }
    }

    /// A walk with no arc from each point.
    pub fn begin(&mut self, first: &[i64]) -> Result<(), NoMemory>
        ensures search { OnOk result ((arcs : _) → IsSearch arcs (length first.now) self.new) }
        ensures short { OnOk result (IsShort (length first.now) self.new) }
    {
        self.nodes.clear();
        self.last.clear();
        for v in 0..first.len() {
            self.nodes.push(root(v, first[v]))?;
            self.last.push(v)?;
        }
        Ok(())
    }

    fn node(&self, k: usize) -> Node
        requires { k < length self.now.nodes }
        ensures { result ≡ node_at self.now.nodes k }
    {
        self.nodes[k]
    }

    fn last(&self, v: usize) -> usize
        requires { v < length self.now.last }
        ensures { result ≡ last_of self.now v }
    {
        self.last[v]
    }

    /// How many points there are.
    fn count(&self) -> usize
        ensures value { result ≡ length self.now.last }
        ensures few { result < 2 ^ 63 }
    {
        self.last.len()
    }

    /// The last node of a point.
    #[tactic(auto)]
    fn node_of(&self, v: usize) -> Node
        requires of { IsPointOf self.now v }
        ensures value { result ≡ node_at self.now.nodes (last_of self.now v) }
        ensures lower { neg_ℤ (pos (2 ^ 126)) ≤ℤ result.value }
        ensures upper { result.value ≤ℤ pos (2 ^ 126) }
        ensures len { result.len + 1 < 2 ^ 64 }
    {
        // Called for its clause alone.
        let _ = self.count();
        self.node(self.last(v))
    }

    /// The height of a point, cut to 64 bits.
    pub fn cut_height(&self, v: usize) -> i64 {
        let Some(k) = self.last.get(v) else {
            return 0;
        };
        let Some(node) = self.nodes.get(*k) else {
            return 0;
        };
        node.value.clamp(i128::from(i64::MIN), i128::from(i64::MAX)) as i64
    }

    /// Whether the arc leads to a greater height.
    fn is_late(&self, a: Arc) -> bool
        requires of { IsArcOf self.now a }
        ensures { result ≡ is_late self.now a }
    {
        let tail = self.node_of(a.tail);
        let head = self.node_of(a.head);
        tail.value < weigh(a.weight, head.value)
    }

    /// The walk by an arc becomes that of its point.
    fn put(&mut self, a: Arc, i: usize) -> Result<(), NoMemory>
        requires of { IsArcOf self.old a }
        ensures { OnOk result (self.new ≡ pushed self.old (node_by self.old a i) a.tail) }
    {
        let head = self.node_of(a.head);
        let next = self.last(a.head);
        let k = self.nodes.len();
        self.nodes.push(Node {
            point: a.tail,
            value: weigh(a.weight, head.value),
            via: i,
            next,
            len: head.len + 1,
        })?;
        self.last[a.tail] = k;
        Ok(())
    }

    /// Takes an arc if it is late; the new node.
    fn relax(&mut self, n: usize, arcs: &[Arc], i: usize) -> Result<Option<usize>, NoMemory>
        requires of { IsSearch arcs.now n self.old }
        requires short { IsShort n self.old }
        requires on { AreOn n arcs.now }
        requires below { i < length arcs.now }
        ensures search { OnOk result (IsSearch arcs.now n self.new) }
        ensures none { IfOk result (λ o. IfNone o ((self.new ≡ self.old) × (is_late self.old (arc_at arcs.now i) ≡ false))) }
        ensures some { IfOk result (λ o. IfSome o (λ k. k < length self.new.nodes)) }
        ensures short { IfOk result (λ o. IfSome o (λ k. (node_at self.new.nodes k).len < n → IsShort n self.new)) }
        ensures behind { OnOk result ((b : Bool) (k : ℕ) → IsBehind arcs.now b k (turn_of b (length arcs.now) i) self.old → IsBehind arcs.now b k (turn_of b (length arcs.now) i + 1) self.new) }
    {
        let a = arcs[i];
        if !self.is_late(a) {
            return Ok(None);
        }
        let k = self.nodes.len();
        self.put(a, i)?;
        Ok(Some(k))
    }

    /// Takes each arc in turn, until a walk has as many arcs as there are points. The newest node;
    /// none where no arc is late.
    pub fn round(
        &mut self,
        n: usize,
        arcs: &[Arc],
        backwards: bool,
    ) -> Result<Option<usize>, NoMemory>
        requires of { IsSearch arcs.now n self.old }
        requires short { IsShort n self.old }
        requires on { AreOn n arcs.now }
        ensures search { OnOk result (IsSearch arcs.now n self.new) }
        ensures none { IfOk result (λ o. IfNone o (IsStill arcs.now self.new)) }
        ensures some { IfOk result (λ o. IfSome o (λ k. k < length self.new.nodes)) }
        ensures short { IfOk result (λ o. IfSome o (λ k. (node_at self.new.nodes k).len < n → IsShort n self.new)) }
        ensures behind { IfOk result (λ o. IfSome o (λ k. (node_at self.new.nodes k).len < n → (r : ℕ) → ((b : Bool) → IsBehind arcs.now b r 0 self.old) → (b : Bool) → IsBehind arcs.now b (r + 1) 0 self.new)) }
    {
        let mut newest = None;
        for turn in 0..arcs.len() {
            let i = place(backwards, arcs.len(), turn);
            let Some(k) = self.relax(n, arcs, i)? else {
                continue;
            };
            if self.node(k).len >= n {
                return Ok(Some(k));
            }
            newest = Some(k);
        }
        Ok(newest)
    }

    /// Two nodes of one point on the walk of a node, if there are; there are where the walk has as many
    /// arcs as there are points.
    pub fn repeated(
        &self,
        seen: &mut Vec<usize>,
        n: usize,
        arcs: &[Arc],
        k: usize,
    ) -> Result<Option<(usize, usize)>, NoMemory>
        requires of { IsSearch arcs.now n self.now }
        requires below { k < length self.now.nodes }
        ensures some { IfOk result (λ o. IfSome o (λ p. IsLoop self.now.nodes n p.0 p.1)) }
        ensures none { IfOk result (λ o. IfNone o ((node_at self.now.nodes k).len < n)) }
    {
        // Called for its clause alone.
        let _ = arcs.len();
        blank(seen, n)?;
        let mut y = k;
        loop {
            let node = self.node(y);
            let earlier = seen[node.point];
            if earlier != 0 {
                return Ok(Some((earlier, y)));
            }
            if y < n {
                return Ok(None);
            }
            seen[node.point] = y;
            y = node.next;
        }
    }

    /// The arcs of a walk from one node down to another.
    pub fn arcs_between(
        &self,
        alloc: Global,
        n: usize,
        arcs: &[Arc],
        from: usize,
        to: usize,
    ) -> Result<List<usize>, NoMemory>
        requires of { IsSearch arcs.now n self.now }
        requires between { IsLoop self.now.nodes n from to }
        ensures { IfOk result (λ walk. IsGain arcs.now n walk) }
    {
        // Called for its clause alone.
        let _ = (n, arcs.len());
        let mut walk = List::new(alloc);
        let mut y = from;
        loop {
            let node = self.node(y);
            walk.push(node.via)?;
            y = node.next;
            if y == to {
                return Ok(walk);
            }
        }
    }
}
