ghost use Rattle.std.specs.Prelude.{◌≡◌, ◌≢◌, ℕ, ◌+◌, ◌-◌, ◌*◌, ◌/◌, ◌<◌, ◌≤◌, ◌≤ℤ◌, length, slice_set, replicate, IsTrue, ◌↔◌, IfOk, false};
ghost use Rattle.std.specs.Int.{IsPowerOfTwo};
ghost use Rattle.envelope.specs.code.Bars.{Bars, bar_in, is_on, IsSmallBar, AreBars, IsCapacity, GivesEnvelope};
ghost use Rattle.envelope.specs.code.Nodes.{no_node};
ghost use Rattle.envelope.specs.code.Trees.{node_at, IsJoin, AreSmall};

use crate::bars::{Bar, MAX_BARS, MAX_ENERGY};
use crate::node::{EMPTY, Node, join, leaf};
use sched_base::{H, NoMemory};
use std::alloc::Global;
use std::marker::Model;

/// Bars in the order of their earliest starts, each on or off, and the energy envelope of those that
/// are on. A change of a bar costs the logarithm of their number, a question nothing more than its
/// answer.
#[derive(Debug, Drop)]
pub struct EnvelopeTree {
    bars: Vec<Bar>,
    capacity: i64,
    on: Vec<bool>,
    /// The top at 1, the nodes below the node at j at 2j and 2j + 1, the leaves from `width` on.
    nodes: Vec<Node>,
    /// A power of two, and no less than the number of bars.
    width: usize,
}

impl Model for EnvelopeTree {
    ghost use Rattle.envelope.specs.code.Bars.{Bars};
    ghost use Rattle.envelope.specs.code.Trees.{IsTree};

    ghost Value = { Bars };

    ghost view = { λ t. record { bars = t.bars.items; capacity = t.capacity; on = t.on.items } };

    ghost invariant = { λ t.
        IsTree (record { bars = t.bars.items; capacity = t.capacity; on = t.on.items }) t.width t.nodes.items };
}

/// Joins anew each node above a leaf.
fn refresh(nodes: &mut [Node], leaf: usize)
    requires within { leaf < length nodes.old }
    requires even { length nodes.old ≡ 2 * (length nodes.old / 2) }
    requires few { length nodes.old ≤ 400000 }
    requires small { AreSmall nodes.old }
    requires joins { (j : ℕ) → 0 < j → j < length nodes.old / 2 → j ≢ leaf / 2
        → IsJoin nodes.old j }
    ensures leaves { (j : ℕ) → length nodes.old / 2 ≤ j
        → node_at nodes.new j ≡ node_at nodes.old j }
    ensures joins { (j : ℕ) → 0 < j → j < length nodes.old / 2 → IsJoin nodes.new j }
    ensures small { AreSmall nodes.new }
{
    let mut at = leaf / 2;
    while at > 0 {
        nodes[at] = join(nodes[2 * at], nodes[2 * at + 1]);
        at /= 2;
    }
}

fn is_small(bar: Bar) -> bool
    ensures { IsTrue result ↔ IsSmallBar bar }
{
    -H <= bar.est && bar.est <= H && 0 <= bar.energy && bar.energy <= MAX_ENERGY
}

/// Whether the bar at a place starts no earlier than the one before it.
fn is_in_order(bars: &[Bar], i: usize) -> bool
    requires { i < length bars.now }
    ensures { IsTrue result
        ↔ (0 < i → (bar_in bars.now (i - 1)).est ≤ℤ (bar_in bars.now i).est) }
{
    if i == 0 {
        return true;
    }
    bars[i - 1].est <= bars[i].est
}

/// So many bars that are off.
fn all_off(mut on: Vec<bool>, count: usize) -> Result<Vec<bool>, NoMemory>
    ensures { IfOk result (λ v. v.items ≡ replicate count false) }
{
    on.clear();
    on.resize(count, false)?;
    Ok(on)
}

/// So many nodes of no bar.
fn all_empty(mut nodes: Vec<Node>, count: usize) -> Result<Vec<Node>, NoMemory>
    ensures { IfOk result (λ v. v.items ≡ replicate count no_node) }
{
    nodes.clear();
    nodes.resize(count, EMPTY)?;
    Ok(nodes)
}

/// The tree of bars that are all off.
fn tree_of(
    bars: Vec<Bar>,
    capacity: i64,
    on: Vec<bool>,
    nodes: Vec<Node>,
    width: usize,
) -> EnvelopeTree
    requires bars { AreBars bars.items }
    requires capacity { IsCapacity capacity }
    requires on { on.items ≡ replicate (length bars.items) false }
    requires nodes { nodes.items ≡ replicate (2 * width) no_node }
    requires power { IsPowerOfTwo width }
    requires low { width ≤ 200000 }
    requires room { length bars.items ≤ width }
    ensures { result
        ≡ record { bars = bars.items; capacity = capacity; on = replicate (length bars.items) false } }
{
    EnvelopeTree {
        bars,
        capacity,
        on,
        nodes,
        width,
    }
}

impl EnvelopeTree {
    /// The tree of these bars, each off; `takes` tests the first condition, and the second is a capacity
    /// from 0 to 2^62. After it, no call takes memory.
    pub fn new(alloc: Global, bars: &[Bar], capacity: i64) -> Result<EnvelopeTree, NoMemory>
        requires bars { AreBars bars.now }
        requires capacity { IsCapacity capacity }
        ensures { IfOk result (λ t.
            t ≡ record { bars = bars.now; capacity = capacity; on = replicate (length bars.now) false }) }
    {
        let width = bars.len().next_power_of_two();
        Ok(EnvelopeTree {
            bars: Vec::from_slice(alloc, bars)?,
            capacity,
            on: vec![in alloc; false; bars.len()]?,
            nodes: vec![in alloc; EMPTY; 2 * width]?,
            width,
        })
    }

    /// The tree of these bars in the place of another, in whose memory it stands: it takes more only where
    /// there are more bars than that one had. The conditions are those of `new`.
    pub fn refill(self, bars: &[Bar], capacity: i64) -> Result<EnvelopeTree, NoMemory>
        requires bars { AreBars bars.now }
        requires capacity { IsCapacity capacity }
        ensures { IfOk result (λ t.
            t ≡ record { bars = bars.now; capacity = capacity; on = replicate (length bars.now) false }) }
    {
        let EnvelopeTree {
            bars: mut own,
            on,
            nodes,
            ..
        } = self;
        own.clear();
        own.extend_from_slice(bars)?;
        let on = all_off(on, bars.len())?;
        let width = bars.len().next_power_of_two();
        let nodes = all_empty(nodes, 2 * width)?;
        Ok(tree_of(own, capacity, on, nodes, width))
    }

    /// Whether these are bars that a tree takes: at most [`MAX_BARS`], in the order of their earliest
    /// starts, which lie from `-H` to `H`, and of energies from 0 to [`MAX_ENERGY`].
    pub fn takes(bars: &[Bar]) -> bool
        ensures { IsTrue result ↔ AreBars bars.now }
    {
        if bars.len() > MAX_BARS {
            return false;
        }
        for (i, bar) in bars.iter().enumerate() {
            if !is_small(*bar) {
                return false;
            }
            if !is_in_order(bars, i) {
                return false;
            }
        }
        true
    }

    /// Switches the bar at a place on or off, in time logarithmic in the number of bars.
    pub fn paint(&mut self, k: u32, on: bool)
        requires { k < length self.old.bars }
        ensures painted { self.new ≡ record self.old { on = slice_set self.old.on k on } }
        ensures on { is_on self.new k ≡ on }
    {
        let place = k as usize;
        let at = self.width + place;
        self.on[place] = on;
        self.nodes[at] = leaf(self.capacity, self.bars[place], on);
        refresh(&mut self.nodes, at);
    }

    /// The energy envelope: the greatest sum of the capacity times the earliest start of a set and the
    /// energy of the set, over sets of bars that are on. None where no bar is on.
    pub fn envelope(&self) -> Option<i128>
        ensures { GivesEnvelope self.now result }
    {
        self.nodes[1].env
    }
}
