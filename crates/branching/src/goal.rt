//! The objective, as the search asks it where to look first.
ghost use Rattle.region.specs.Looks.{IsRegionOf};

use crate::poles::{Pole, poles_of};
use hull_tree::HullTree;
use region::{Bounds, Region};
use sched_base::{Itv, NoMemory};
use sched_model::{Expr, Model, Sense};
use std::alloc::Global;

/// The objective with the ranges of its parts in a region, and where it wants each interval.
#[derive(Drop)]
pub struct Goal {
    tree: HullTree,
    sense: Option<Sense>,
    poles: Vec<Pole>,
}

fn tree_of(alloc: Global, model: &Model) -> Result<HullTree, NoMemory> {
    match model.objective() {
        None => HullTree::new(alloc, &Expr::Lit(0)),
        Some(objective) => HullTree::new(alloc, &objective.expr),
    }
}

fn sense_of(model: &Model) -> Option<Sense> {
    Some(model.objective()?.sense)
}

impl Goal {
    /// The goal of a model. Where it has no objective, all cost the same.
    pub fn new(alloc: Global, model: &Model) -> Result<Goal, NoMemory> {
        Ok(Goal {
            tree: tree_of(alloc, model)?,
            sense: sense_of(model),
            poles: poles_of(alloc, model)?,
        })
    }

    /// Goes to a region.
    pub fn evaluate(&mut self, model: &Model, region: &Region)
        requires { IsRegionOf model.now region.now.region }
    {
        if self.sense.is_some() {
            self.tree.evaluate(model, region);
        }
    }

    /// The better end of a range of the objective, so that less is better.
    fn better_end(&self, range: (i64, i64)) -> i64 {
        match self.sense {
            None => 0,
            Some(Sense::Minimize) => range.0,
            Some(Sense::Maximize) => 0i64.saturating_sub(range.1),
        }
    }

    /// What the best schedule of the region may cost at least, by the look hull.
    pub fn cost(&self) -> i64 {
        self.better_end(self.tree.kept_range())
    }

    /// The same where an interval has other bounds.
    pub fn cost_with(&self, x: Itv, bounds: Bounds) -> i64 {
        if self.sense.is_none() {
            return 0;
        }
        self.better_end(self.tree.range_with(x, bounds))
    }

    /// Where the objective wants an interval.
    pub fn pole(&self, x: Itv) -> Pole {
        self.poles
            .get(x.0 as usize)
            .copied()
            .unwrap_or(Pole::Sooner)
    }
}
