use region::Region;
use sched_model::Model;

/// What a propagator looks at: a region of a model, and the value of the best solution so far.
#[derive(Clone, Copy)]
pub struct View<'a> {
    pub model: &'a Model,
    pub region: &'a Region,
    pub best: Option<i64>,
}
