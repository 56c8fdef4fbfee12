use crate::goal::Goal;
use crate::guide::Guide;
use crate::links::Links;
use crate::weights::Weights;
use region::{Bounds, Look, Presence};
use sched_base::Itv;
use sched_model::Model;

/// What a rule sees: a region, and what is known beside it.
#[derive(Drop)]
pub struct View<'a> {
    pub model: &'a Model,
    pub look: &'a Look<'a>,
    /// The objective in this region.
    pub goal: &'a Goal,
    pub links: &'a Links,
    pub weights: &'a Weights,
    /// The schedule that is followed.
    pub guide: &'a Guide<'a>,
    /// The numbers of the intervals of which something may be open, in any order.
    pub open: &'a [u32],
    /// Whether functions tell what may be done at each moment.
    pub has_profiles: bool,
    /// Whether the objective goes before the schedule that is followed.
    pub is_bold: bool,
}

impl<'a> View<'a> {
    /// What is known of an interval.
    pub fn bounds(&self, x: Itv) -> Option<Bounds> {
        if x.0 as usize >= self.look.len() {
            return None;
        }
        Some(self.look.bounds(x))
    }

    /// Whether it isn't known if an interval is there.
    pub fn is_optional(&self, x: Itv) -> bool {
        (x.0 as usize) < self.look.len() && self.look.presence(x) == Presence::Maybe
    }

    /// What a schedule costs at least in which an interval is there, or isn't.
    pub fn cost_where(&self, x: Itv, presence: Presence) -> i64 {
        let Some(c) = self.bounds(x) else {
            return 0;
        };
        self.goal.cost_with(x, Bounds { presence, ..c })
    }
}
