//! From which precedence to learn first. A fact that follows from a point which others still move is
//! learnt again once they have moved it, so a chain of precedences is learnt from the end at which
//! nothing moves any more, whatever their order in the model. No promise hangs on this.
ghost use Rattle.std.specs.Prelude.{IfOk};
ghost use Rattle.region.specs.Looks.{IsRegionOf};
ghost use Rattle.findings.specs.Found.{IsFinding};
ghost use Rattle.refute_basic.specs.Basic.{refutes};

use crate::likely::{LikelyMove, guess_of};
use crate::moves::Moves;
use crate::ways::{Side, Way, push_of, way_of};
use findings::{Finding, ask_reaching};
use refute_basic::{Basic, BasicWitness};
use region::{Guess, Region};
use sched_base::{Itv, List, NoMemory, at};
use sched_model::Model;
use std::alloc::Global;

/// Of the ways to or from an interval so many are looked at, so that an interval of many costs no more
/// than one of few.
const FEW: usize = 8;

/// Of the first of these ways the one that moves its point most, where that is by more than `least`.
fn strongest(region: &Region, ways: &[Way], side: Side, least: i64) -> Option<Way> {
    let mut found = None;
    let mut most = least;
    for k in 0..ways.len().min(FEW) {
        let push = push_of(region, ways[k], side);
        if push > most {
            found = Some(ways[k]);
            most = push;
        }
    }
    found
}

/// Whether one of the first of these ways moves its point.
fn moves_any(region: &Region, moves: &Moves, ways: &[Way], side: Side) -> bool {
    for k in 0..ways.len().min(FEW) {
        if moves.is_due(ways[k].c) && push_of(region, ways[k], side) > 0 {
            return true;
        }
    }
    false
}

/// The way whose guess this is, and the point that it moves.
fn goal_of(model: &Model, found: &Finding<BasicWitness>) -> Option<(Way, Side)> {
    let BasicWitness::Arc { c, d } = found.witness else {
        return None;
    };
    let side = match found.guess? {
        Guess::StartLe(..) | Guess::EndLe(..) => Side::Later,
        Guess::StartGe(..) | Guess::EndGe(..) => Side::Earlier,
        _ => return None,
    };
    Some((way_of(model, c, d)?, side))
}

fn no_ways(alloc: Global, n: usize) -> Result<Vec<List<Way>>, NoMemory> {
    let mut ways = Vec::new(alloc);
    for _ in 0..n {
        ways.push(List::new(alloc))?;
    }
    Ok(ways)
}

fn put(ways: &mut Vec<List<Way>>, x: Itv, way: Way) -> Result<(), NoMemory> {
    let x = x.0 as usize;
    if x < ways.len() {
        ways[x].push(way)?;
    }
    Ok(())
}

/// The ways to and from each interval, and those that were gone back along from a goal, the first of
/// them, each a source of the one before it.
#[derive(Drop)]
pub struct Sources {
    into: Vec<List<Way>>,
    out_of: Vec<List<Way>>,
    side: Side,
    path: Vec<Way>,
}

impl Sources {
    pub fn new(alloc: Global, model: &Model) -> Result<Sources, NoMemory> {
        let n = model.intervals().len();
        let mut sources = Sources {
            into: no_ways(alloc, n)?,
            out_of: no_ways(alloc, n)?,
            side: Side::Later,
            path: Vec::new(alloc),
        };
        for c in 0..model.constraints().len() as u32 {
            sources.join(way_of(model, c, 0))?;
            sources.join(way_of(model, c, 1))?;
        }
        Ok(sources)
    }

    fn join(&mut self, way: Option<Way>) -> Result<(), NoMemory> {
        let Some(way) = way else {
            return Ok(());
        };
        put(&mut self.out_of, way.first, way)?;
        put(&mut self.into, way.second, way)
    }

    /// The ways that move the points of an interval to this side.
    pub fn movers(&self, x: Itv, side: Side) -> &[Way] {
        let ways = match side {
            Side::Later => at(&self.into, x.0 as usize),
            Side::Earlier => at(&self.out_of, x.0 as usize),
        };
        match ways {
            None => &[],
            Some(list) => list.as_slice(),
        }
    }

    /// Whether others still move the points from which a way moves its own.
    pub fn are_moving(&self, region: &Region, moves: &Moves, way: Way) -> bool {
        moves_any(
            region,
            moves,
            self.movers(way.first, Side::Later),
            Side::Later,
        ) || moves_any(
            region,
            moves,
            self.movers(way.second, Side::Earlier),
            Side::Earlier,
        )
    }

    /// A way that moves the point from which this one moves, or moves the same interval by more.
    fn source(&self, region: &Region, way: Way) -> Option<Way> {
        let (mover, moved) = match self.side {
            Side::Later => (way.first, way.second),
            Side::Earlier => (way.second, way.first),
        };
        if let Some(before) = strongest(region, self.movers(mover, self.side), self.side, 0) {
            return Some(before);
        }
        let others = self.movers(moved, self.side);
        if others.len() <= 1 {
            return None;
        }
        let push = push_of(region, way, self.side);
        strongest(region, others, self.side, push)
    }

    /// Begins at a goal, or goes on where it is that of the last call.
    fn aim(&mut self, goal: Way, side: Side) -> Result<(), NoMemory> {
        if let Some(first) = self.path.first() {
            if first.c == goal.c && first.d == goal.d && self.side == side {
                return Ok(());
            }
        }
        self.path.clear();
        self.path.push(goal)?;
        self.side = side;
        Ok(())
    }

    fn last(&self, goal: Way) -> Way {
        match self.path.last() {
            None => goal,
            Some(way) => *way,
        }
    }

    /// Gives up the last ways as long as they move nothing any more.
    fn retreat(&mut self, region: &Region, goal: Way) {
        for _ in 1..self.path.len() {
            if push_of(region, self.last(goal), self.side) > 0 {
                return;
            }
            let _ = self.path.pop();
        }
    }

    /// Goes back until the last way has no source. Where that never comes it ends.
    fn go_back(&mut self, region: &Region, goal: Way, most: usize) -> Result<(), NoMemory> {
        for _ in self.path.len()..most {
            let Some(way) = self.source(region, self.last(goal)) else {
                return Ok(());
            };
            self.path.push(way)?;
        }
        Ok(())
    }

    /// Where a finding moves a point from one that others move: what the first of them finds.
    pub fn first_found(
        &mut self,
        model: &Model,
        region: &Region,
        best: Option<i64>,
        found: Finding<BasicWitness>,
    ) -> Result<Finding<BasicWitness>, NoMemory>
        requires of { IsRegionOf model.now region.now.region }
        requires found { IsFinding refutes model.now region.now.region best found }
        ensures { IfOk result (IsFinding refutes model.now region.now.region best) }
    {
        let Some((goal, side)) = goal_of(model, &found) else {
            return Ok(found);
        };
        self.aim(goal, side)?;
        self.retreat(region, goal);
        self.go_back(region, goal, 2 * model.constraints().len())?;
        if self.path.len() <= 1 {
            return Ok(found);
        }
        Ok(ask_first(model, region, best, self.last(goal), side, found))
    }
}

/// What a way finds of the point that it moves; where that is nothing, the other finding.
fn ask_first(
    model: &Model,
    region: &Region,
    best: Option<i64>,
    way: Way,
    side: Side,
    found: Finding<BasicWitness>,
) -> Finding<BasicWitness>
    requires of { IsRegionOf model.now region.now.region }
    requires found { IsFinding refutes model.now region.now.region best found }
    ensures { IsFinding refutes model.now region.now.region best result }
{
    let point = match side {
        Side::Later => way.second,
        Side::Earlier => way.first,
    };
    let witness = BasicWitness::Arc { c: way.c, d: way.d };
    let LikelyMove { likely, far } = guess_of(region, way, side);
    match ask_reaching::<Basic>(model, region, best, &witness, &[point], &[], likely, far) {
        None => found,
        Some(guess) => Finding { guess, witness },
    }
}
