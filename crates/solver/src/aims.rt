//! Values for which a run looks.
ghost use Rattle.std.specs.Prelude.{OnOk};
ghost use Rattle.solver.specs.code.Searching.{IsHolding};

use crate::rehearsal::Rehearsal;
use engine::Propagator;
use sched_base::NoMemory;
use sched_model::{Model, Sense};
use std::alloc::Global;

/// What costs a run goes for, where less is better.
#[derive(Clone, Copy, Debug)]
pub struct Aims {
    sense: Sense,
    /// No schedule costs less, as far as is known.
    low: Option<i64>,
}

/// What a value costs.
fn cost_of(sense: Sense, value: i64) -> i64 {
    match sense {
        Sense::Minimize => value,
        Sense::Maximize => 0i64.saturating_sub(value),
    }
}

impl Aims {
    pub fn new(sense: Sense) -> Aims {
        Aims { sense, low: None }
    }

    /// What no schedule costs less than, by what derives at the root.
    fn low<P: Propagator>(
        &mut self,
        alloc: Global,
        model: &Model,
        rehearsal: &mut Rehearsal<P>,
    ) -> Result<i64, NoMemory>
        requires { IsHolding P.Propagator model.now rehearsal.old.search }
        ensures { OnOk result (IsHolding P.Propagator model.now rehearsal.new.search) }
    {
        if let Some(low) = self.low {
            return Ok(low);
        }
        rehearsal.begin(alloc, model, None)?;
        let low = rehearsal.root_cost(model)?;
        self.low = Some(low);
        Ok(low)
    }

    /// Half way from the least cost to that of the best value; none where this is the least.
    pub fn middle<P: Propagator>(
        &mut self,
        alloc: Global,
        model: &Model,
        rehearsal: &mut Rehearsal<P>,
        best: i64,
    ) -> Result<Option<i64>, NoMemory>
        requires { IsHolding P.Propagator model.now rehearsal.old.search }
        ensures { OnOk result (IsHolding P.Propagator model.now rehearsal.new.search) }
    {
        let best = cost_of(self.sense, best);
        let low = self.low(alloc, model, rehearsal)?;
        if low >= best {
            return Ok(None);
        }
        Ok(Some(low.saturating_add(best.saturating_sub(low) / 2)))
    }

    /// The value that is to be beaten by what costs so much at most.
    pub fn above(&self, cost: i64) -> i64 {
        cost_of(self.sense, cost.saturating_add(1))
    }

    /// Nothing costs so much or less.
    pub fn raise(&mut self, cost: i64) {
        self.low = Some(cost.saturating_add(1));
    }
}
