ghost use Rattle.std.specs.Prelude.{◌≡◌, ◌≤◌, ◌<◌, ◌*ℤ◌, length, map, OnOk, IfOk, slice_set, replicate, true, false};
ghost use Rattle.envelope.specs.code.Bars.{IsCapacity, AreBars};
ghost use Rattle.energy_pass.specs.code.Rows.{AreRows, IsByEst, IsMoment, GivesOver, GivesEnd};
ghost use Rattle.energy_pass.specs.code.Trees.{bar_of, Fits, IsOff, FullAt};
ghost use Rattle.energy_pass.specs.code.Ends.{AreEnds};

use crate::ends::{End, fill_ends};
use crate::rows::{Cut, Row, sort_rows};
use crate::sums::start_of;
use envelope::{Bar, EnvelopeTree};
use refute_energy::offered;
use sched_base::NoMemory;
use std::alloc::Global;

fn fill_bars(bars: &mut Vec<Bar>, rows: &[Row]) -> Result<(), NoMemory>
    ensures { OnOk result (bars.new.items ≡ map bar_of rows.now) }
{
    bars.clear();
    for row in rows {
        bars.push(Bar {
            est: row.est,
            energy: row.energy,
        })?;
    }
    Ok(())
}

/// The tree of these bars, in the place of another where there is one.
fn filled(
    alloc: Global,
    spare: Option<EnvelopeTree>,
    bars: &[Bar],
    capacity: i64,
) -> Result<EnvelopeTree, NoMemory>
    requires bars { AreBars bars.now }
    requires capacity { IsCapacity capacity }
    ensures { IfOk result (λ t.
        t ≡ record { bars = bars.now; capacity = capacity; on = replicate (length bars.now) false }) }
{
    match spare {
        None => EnvelopeTree::new(alloc, bars, capacity),
        Some(tree) => tree.refill(bars, capacity),
    }
}

#[tactic(auto, using(crate::proofs::Bars::are_bars, crate::proofs::Bars::tree_fits, crate::proofs::Bars::tree_off))]
fn tree_of(
    alloc: Global,
    spare: Option<EnvelopeTree>,
    bars: &mut Vec<Bar>,
    rows: &[Row],
    capacity: i64,
) -> Result<EnvelopeTree, NoMemory>
    requires rows { AreRows rows.now }
    requires by_est { IsByEst rows.now }
    requires capacity { IsCapacity capacity }
    ensures fits { IfOk result (λ t. Fits t rows.now capacity) }
    ensures off { IfOk result IsOff }
{
    fill_bars(bars, rows)?;
    filled(alloc, spare, bars, capacity)
}

/// Whether a set of bars that are on reaches beyond what is offered up to a moment.
#[tactic(auto, using(crate::proofs::Bars::full_none, crate::proofs::Bars::full_some))]
fn is_full(tree: &EnvelopeTree, capacity: i64, end: i64) -> bool
    requires moment { IsMoment end }
    ensures { FullAt tree.now (capacity *ℤ end) result }
{
    match tree.envelope() {
        None => false,
        Some(env) => offered(capacity, end) < env,
    }
}

/// The end of a cut of which a set needs more than is offered; none exactly where no set does.
fn full_end(tree: &mut EnvelopeTree, rows: &[Row], ends: &[End], capacity: i64) -> Option<i64>
    requires rows { AreRows rows.now }
    requires capacity { IsCapacity capacity }
    requires ends { AreEnds rows.now ends.now }
    requires fits { Fits tree.old rows.now capacity }
    requires off { IsOff tree.old }
    ensures { GivesEnd rows.now capacity result }
{
    for end in ends {
        tree.paint(end.place, true);
        if is_full(tree, capacity, end.lct) {
            return Some(end.lct);
        }
    }
    None
}

/// Whether rows need more energy than is offered: it uses its memory again, and takes more only where
/// there are more rows than ever before.
#[derive(Debug, Drop)]
pub struct EnergyPass {
    alloc: Global,
    bars: Vec<Bar>,
    ends: Vec<End>,
    tree: Option<EnvelopeTree>,
}

impl EnergyPass {
    /// One that has taken no memory yet.
    pub fn new(alloc: Global) -> EnergyPass {
        EnergyPass {
            alloc,
            bars: Vec::new(alloc),
            ends: Vec::new(alloc),
            tree: None,
        }
    }

    fn end_of(&mut self, rows: &[Row], capacity: i64) -> Result<Option<i64>, NoMemory>
        requires rows { AreRows rows.now }
        requires by_est { IsByEst rows.now }
        requires capacity { IsCapacity capacity }
        ensures { IfOk result (GivesEnd rows.now capacity) }
    {
        fill_ends(&mut self.ends, rows)?;
        let spare = self.tree.take();
        let mut tree = tree_of(self.alloc, spare, &mut self.bars, rows, capacity)?;
        let end = full_end(&mut tree, rows, &self.ends, capacity);
        self.tree = Some(tree);
        Ok(end)
    }

    /// A cut that needs more than is offered; none exactly where no set of the rows does. It puts the
    /// rows in the order of their earliest starts, in time near n log n of their number.
    #[tactic(auto, using(crate::proofs::Sorting::end_moment))]
    pub fn overfull(&mut self, rows: &mut [Row], capacity: i64) -> Result<Option<Cut>, NoMemory>
        requires rows { AreRows rows.old }
        requires capacity { IsCapacity capacity }
        ensures { IfOk result (GivesOver rows.old capacity) }
    {
        sort_rows(rows);
        let Some(end) = self.end_of(rows, capacity)? else {
            return Ok(None);
        };
        let Some(start) = start_of(rows, capacity, end) else {
            return Ok(None);
        };
        Ok(Some(Cut { start, end }))
    }
}
