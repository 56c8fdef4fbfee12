use branching::Weights;
use refute_seq::members_of;
use sched_base::NoMemory;
use sched_model::{Assignment, Constraint, Model};
use std::alloc::Global;

/// What a search begins with. It bears on where the search looks first, and on nothing else.
#[derive(Drop)]
pub struct Hints {
    /// How often each interval was named where a region was refuted.
    pub weights: Weights,
    /// A schedule that is followed.
    pub guide: Option<Assignment>,
    /// How many pairs of members of sequences without overlap there are.
    pub pairs: u64,
    /// Whether there are more of them than a preparation has nodes.
    pub many_pairs: bool,
}

fn pairs_of(model: &Model, constraint: &Constraint) -> u64 {
    match constraint {
        Constraint::NoOverlap { p, .. } => {
            let n = members_of(model, *p).len() as u64;
            n.saturating_mul(n.saturating_sub(1)) / 2
        }
        _ => 0,
    }
}

fn count_pairs(model: &Model) -> u64 {
    let mut pairs: u64 = 0;
    for constraint in model.constraints() {
        pairs = pairs.saturating_add(pairs_of(model, constraint));
    }
    pairs
}

impl Hints {
    /// Nothing is known, and a preparation has so many nodes.
    pub fn new(alloc: Global, model: &Model, nodes: u64) -> Result<Hints, NoMemory> {
        let pairs = count_pairs(model);
        Ok(Hints {
            weights: Weights::new(alloc, model)?,
            guide: None,
            pairs,
            many_pairs: pairs > nodes,
        })
    }
}
