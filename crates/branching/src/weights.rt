use crate::orders::is_there;
use kernel::{NoWitness, Witness};
use refute_basic::BasicWitness;
use refute_cumul::{CumulWitness, parts_of};
use refute_hier::HierWitness;
use refute_seq::SeqWitness;
use refute_state::StateWitness;
use region::Look;
use sched_base::{Itv, NoMemory, at};
use sched_model::{Constraint, Model, Part, Shape};
use std::alloc::Global;

/// The first weight of each interval, and of what is added first.
const FIRST: i64 = 1024;

/// Where what is added has grown to this, all weights are divided.
const MOST: i64 = FIRST * DIVISOR;

const DIVISOR: i64 = 1024;

/// How often each interval was named where a region was refuted, and once more, the newer times
/// counting more (Boussemart, Hemery, Lecoutre and Sais 2004 count so for constraints). What fails
/// often is decided early.
#[derive(Drop)]
pub struct Weights {
    list: Vec<i64>,
    /// What is added for the next time, a thousandth more each time.
    step: i64,
}

/// The two intervals that a constraint binds, or the one that has the parts, twice.
fn bound_by(constraint: &Constraint) -> Option<(Itv, Itv)> {
    match constraint {
        Constraint::Temporal { a, b, .. } => Some((*a, *b)),
        Constraint::Span { a, .. } => Some((*a, *a)),
        Constraint::Alternative { a, .. } => Some((*a, *a)),
        Constraint::Synchronize { a, .. } => Some((*a, *a)),
        _ => None,
    }
}

fn bound_at(model: &Model, c: u32) -> Option<(Itv, Itv)> {
    bound_by(at(model.constraints(), c as usize)?)
}

fn named_by_basic(model: &Model, w: &BasicWitness) -> Option<(Itv, Itv)> {
    match w {
        BasicWitness::Size { x } => Some((Itv(*x), Itv(*x))),
        BasicWitness::Arc { c, .. } => bound_at(model, *c),
        _ => None,
    }
}

fn named_by_hier(model: &Model, w: &HierWitness) -> Option<(Itv, Itv)> {
    match w {
        HierWitness::Span { c, .. } => bound_at(model, *c),
        HierWitness::Alt { c, .. } => bound_at(model, *c),
        HierWitness::Sync { c, .. } => bound_at(model, *c),
        HierWitness::SeqRel { .. } => None,
    }
}

fn named_by_seq(w: &SeqWitness) -> Option<(Itv, Itv)> {
    match w {
        SeqWitness::Pair { a, b, .. } => Some((Itv(*a), Itv(*b))),
        SeqWitness::Triple { .. } => None,
        SeqWitness::Overload { .. } => None,
        SeqWitness::Edge { i, .. } => Some((Itv(*i), Itv(*i))),
        SeqWitness::NotEnd { i, .. } => Some((Itv(*i), Itv(*i))),
        SeqWitness::Detect { i, .. } => Some((Itv(*i), Itv(*i))),
    }
}

/// The interval that demands a state, or that there be none.
fn demanding(model: &Model, c: u32) -> Option<Itv> {
    match at(model.constraints(), c as usize)? {
        Constraint::AlwaysEqual { a, .. } => Some(*a),
        Constraint::AlwaysNoState { a, .. } => Some(*a),
        _ => None,
    }
}

fn named_by_state(model: &Model, w: &StateWitness) -> Option<(Itv, Itv)> {
    match w {
        StateWitness::State { c1, c2 } => Some((demanding(model, *c1)?, demanding(model, *c2)?)),
        StateWitness::State3 { c1, c3, .. } => {
            Some((demanding(model, *c1)?, demanding(model, *c3)?))
        }
    }
}

/// The two intervals that a witness names first, which may be the same.
fn named(model: &Model, w: &Witness<NoWitness>) -> Option<(Itv, Itv)> {
    match w {
        Witness::Basic(w) => named_by_basic(model, w),
        Witness::Hier(w) => named_by_hier(model, w),
        Witness::Seq(w) => named_by_seq(w),
        Witness::State(w) => named_by_state(model, w),
        Witness::Cumul(_) | Witness::Extra(_) => None,
    }
}

/// Whether an interval surely lasts at a moment.
#[tactic(auto, using(region::specs::laws::Present::there_within))]
fn lasts_at(look: &Look<'_>, x: Itv, t: i64) -> bool {
    is_there(look, x) && look.lst(x) <= t && t < look.ect(x)
}

/// The interval of a part of a cumulative function that has its height at a moment, or, of a step,
/// that is present.
fn at_work(look: &Look<'_>, shape: &Shape, t: i64) -> Option<Itv> {
    let (x, counts) = match shape {
        Shape::Pulse { .. } => return None,
        Shape::Step { .. } => return None,
        Shape::PulseOf { a, .. } => (*a, lasts_at(look, *a, t)),
        Shape::StepAtStart { a, .. } => (*a, is_there(look, *a)),
        Shape::StepAtEnd { a, .. } => (*a, is_there(look, *a)),
    };
    if counts {
        return Some(x);
    }
    None
}

/// The parts of the function that a constraint bounds.
fn bounded_parts(model: &Model, c: u32) -> &[Part] {
    match at(model.constraints(), c as usize) {
        Some(Constraint::CumulIn { f, .. }) => parts_of(model, *f),
        _ => &[],
    }
}

/// The interval of the pulse at a place.
fn pulsing(parts: &[Part], k: u32) -> Option<Itv> {
    match at(parts, k as usize)?.shape {
        Shape::PulseOf { a, .. } => Some(a),
        _ => None,
    }
}

impl Weights {
    /// The same for each interval of the model.
    pub fn new(alloc: Global, model: &Model) -> Result<Weights, NoMemory> {
        let mut list = Vec::new(alloc);
        list.resize(model.intervals().len(), FIRST)?;
        Ok(Weights { list, step: FIRST })
    }

    /// The weight of two intervals together.
    pub fn of_both(&self, x: Itv, y: Itv) -> i64 {
        self.of(x).saturating_add(self.of(y))
    }

    /// The weight of an interval.
    pub fn of(&self, x: Itv) -> i64 {
        self.list.get(x.0 as usize).copied().unwrap_or(FIRST)
    }

    fn raise(&mut self, x: Itv) {
        let i = x.0 as usize;
        if i < self.list.len() {
            self.list[i] = self.list[i].saturating_add(self.step);
        }
    }

    fn divide(&mut self) {
        for i in 0..self.list.len() {
            self.list[i] = (self.list[i] / DIVISOR).max(1);
        }
        self.step = FIRST;
    }

    fn grow(&mut self) {
        self.step = self.step.saturating_add(self.step / 1024);
        if self.step >= MOST {
            self.divide();
        }
    }

    /// Counts the intervals that are at work at a moment in the function that a constraint bounds.
    fn count_at_work(&mut self, model: &Model, look: &Look<'_>, c: u32, t: i64) {
        for part in bounded_parts(model, c) {
            if let Some(x) = at_work(look, &part.shape, t) {
                self.raise(x);
            }
        }
    }

    /// Counts the intervals of a set.
    fn count_each(&mut self, set: &[u32]) {
        for n in set {
            self.raise(Itv(*n));
        }
    }

    /// Counts the intervals of the set that a witness names.
    fn count_set(&mut self, w: &SeqWitness) {
        match w {
            SeqWitness::Overload { s, .. } => self.count_each(s.as_slice()),
            SeqWitness::Edge { s, .. } => self.count_each(s.as_slice()),
            SeqWitness::NotEnd { s, .. } => self.count_each(s.as_slice()),
            SeqWitness::Detect { s, .. } => self.count_each(s.as_slice()),
            SeqWitness::Pair { .. } => {}
            SeqWitness::Triple { .. } => {}
        }
    }

    /// Counts the intervals of an overload of energy: of the pulses at these places among the parts of the
    /// function that a constraint bounds.
    pub fn count_overload(&mut self, model: &Model, c: u32, places: &[u32]) {
        let parts = bounded_parts(model, c);
        for k in places {
            if let Some(x) = pulsing(parts, *k) {
                self.raise(x);
            }
        }
        self.grow();
    }

    /// Counts the intervals that a witness names which refuted a region.
    pub fn count(&mut self, model: &Model, look: &Look<'_>, w: &Witness<NoWitness>) {
        if let Witness::Cumul(CumulWitness::Point { c, t, .. }) = w {
            self.count_at_work(model, look, *c, *t);
        }
        if let Witness::Seq(w) = w {
            self.count_set(w);
        }
        if let Some((x, y)) = named(model, w) {
            self.raise(x);
            if x != y {
                self.raise(y);
            }
        }
        self.grow();
    }
}
