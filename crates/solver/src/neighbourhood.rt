//! Which intervals may move where most of a schedule is kept.
use crate::random::Random;
use branching::{Links, alternative};
use refute_seq::members_of;
use sched_base::{Itv, NoMemory, Seq, at};
use sched_model::{Assignment, Constraint, Model, Slot};
use std::alloc::Global;

/// Shares are counted in so many parts.
const WHOLE: u64 = 1024;

/// So many intervals may move at first.
const FREE: u64 = 60;

/// The greatest and the least share, and the greatest one at first.
const MOST: u64 = 973;

const LEAST: u64 = 10;

const FIRST: u64 = 256;

/// Which intervals may move, and what share of them.
#[derive(Drop)]
pub struct Neighbourhood {
    free: Vec<bool>,
    share: u64,
    sequences: Vec<Seq>,
}

fn slot_of(schedule: &Assignment, x: Itv) -> Slot {
    at(schedule.slots.as_slice(), x.0 as usize)
        .copied()
        .unwrap_or(Slot::Absent)
}

/// When a schedule begins and ends.
fn span_of(schedule: &Assignment) -> Option<(i64, i64)> {
    let mut span: Option<(i64, i64)> = None;
    for slot in schedule.slots.as_slice() {
        if let Slot::Present { s, e } = slot {
            span = match span {
                None => Some((*s, *e)),
                Some((from, to)) => Some((from.min(*s), to.max(*e))),
            };
        }
    }
    span
}

/// A part of a length, at least 1.
fn share_of(length: u64, share: u64) -> u64 {
    let part = u128::from(length).saturating_mul(u128::from(share)) / u128::from(WHOLE);
    u64::try_from(part).unwrap_or(length).max(1)
}

fn sequences_of(alloc: Global, model: &Model) -> Result<Vec<Seq>, NoMemory> {
    let mut sequences = Vec::new(alloc);
    for constraint in model.constraints() {
        if let Constraint::NoOverlap { p, .. } = constraint {
            sequences.push(*p)?;
        }
    }
    Ok(sequences)
}

impl Neighbourhood {
    /// Some sixty intervals may move at first.
    pub fn new(alloc: Global, model: &Model) -> Result<Neighbourhood, NoMemory> {
        let n = model.intervals().len();
        let mut free = Vec::new(alloc);
        free.resize(n, false)?;
        let share = FREE.saturating_mul(WHOLE) / (n as u64).max(1);
        Ok(Neighbourhood {
            free,
            share: share.max(20).min(FIRST),
            sequences: sequences_of(alloc, model)?,
        })
    }

    /// Whether an interval may move.
    pub fn is_free(&self, x: Itv) -> bool {
        self.free.get(x.0 as usize).copied().unwrap_or(false)
    }

    /// The sequences without overlap.
    pub fn sequences(&self) -> &[Seq] {
        self.sequences.as_slice()
    }

    /// More may move the next time, where nothing was left to look at, and else fewer.
    pub fn adapt(&mut self, exhausted: bool) {
        let step = self.share / 32;
        self.share = if exhausted {
            self.share.saturating_add(step).saturating_add(1).min(MOST)
        } else {
            self.share.saturating_sub(step).max(LEAST)
        };
    }

    /// Tells whether an interval may move.
    fn set(&mut self, x: Itv, moves: bool) {
        let i = x.0 as usize;
        if i < self.free.len() {
            self.free[i] = moves;
        }
    }

    /// How many intervals there are.
    fn count(&self) -> u32 {
        u32::try_from(self.free.len()).unwrap_or(u32::MAX)
    }

    fn clear(&mut self) {
        for n in 0..self.count() {
            self.set(Itv(n), false);
        }
    }

    /// Those may move that the schedule has between two moments.
    fn free_window(&mut self, schedule: &Assignment, random: &mut Random) {
        let Some((from, to)) = span_of(schedule) else {
            return;
        };
        let span = u64::try_from(to.saturating_sub(from)).unwrap_or(0).max(1);
        let length = share_of(span, self.share);
        let at = random.below(span.saturating_add(length));
        let length = i64::try_from(length).unwrap_or(i64::MAX);
        let at = i64::try_from(at).unwrap_or(i64::MAX);
        let from = from.saturating_sub(length).saturating_add(at);
        let to = from.saturating_add(length);
        for n in 0..self.count() {
            if let Slot::Present { s, e } = slot_of(schedule, Itv(n)) {
                self.set(Itv(n), e > from && s < to);
            }
        }
    }

    /// The members of a sequence may move.
    fn free_members(&mut self, model: &Model, p: Seq) {
        for x in members_of(model, p) {
            self.set(*x, true);
        }
    }

    /// The members of some sequences may move.
    fn free_sequences(&mut self, model: &Model, random: &mut Random) {
        let count = self.sequences.len() as u64;
        let draws = (count.saturating_mul(self.share).saturating_add(WHOLE - 1) / WHOLE).max(2);
        for _ in 0..draws {
            let k = random.below(count);
            if let Some(p) = self.sequences.get(k as usize).copied() {
                self.free_members(model, p);
            }
        }
    }

    fn is_drawn(&self, random: &mut Random) -> bool {
        random.below(WHOLE) < self.share
    }

    /// Each that the schedule has may move by chance.
    fn free_some(&mut self, schedule: &Assignment, random: &mut Random) {
        for n in 0..self.count() {
            if let Slot::Present { .. } = slot_of(schedule, Itv(n)) {
                let moves = self.is_drawn(random);
                self.set(Itv(n), moves);
            }
        }
    }

    /// Whether a part that was chosen may move.
    fn has_free_part(&self, schedule: &Assignment, parts: &[Itv]) -> bool {
        for x in parts {
            let is_chosen = matches!(slot_of(schedule, *x), Slot::Present { .. });
            if is_chosen && self.is_free(*x) {
                return true;
            }
        }
        false
    }

    /// Where an interval may move, or the part that was chosen of it, so may all its parts.
    fn free_parts(&mut self, schedule: &Assignment, master: Itv, parts: &[Itv]) {
        if !self.is_free(master) && !self.has_free_part(schedule, parts) {
            return;
        }
        self.set(master, true);
        for x in parts {
            self.set(*x, true);
        }
    }

    fn free_families(&mut self, model: &Model, schedule: &Assignment) {
        for c in 0..model.constraints().len() {
            if let Some((master, parts)) = alternative(model, c as u32) {
                self.free_parts(schedule, master, parts);
            }
        }
    }

    /// Of the intervals that the schedule leaves out and that are no parts some may come in.
    fn free_absent(&mut self, links: &Links, schedule: &Assignment, random: &mut Random) {
        for n in 0..self.count() {
            let x = Itv(n);
            let is_absent = matches!(slot_of(schedule, x), Slot::Absent);
            if is_absent && links.as_part(x).is_empty() && self.is_drawn(random) {
                self.set(x, true);
            }
        }
    }

    /// Draws which intervals may move: mostly those of a window of time, or else those of some
    /// sequences, or any.
    pub fn draw(
        &mut self,
        model: &Model,
        links: &Links,
        schedule: &Assignment,
        random: &mut Random,
    ) {
        self.clear();
        let kind = random.below(4);
        if kind < 2 {
            self.free_window(schedule, random);
        } else if kind == 2 && self.sequences.len() >= 2 {
            self.free_sequences(model, random);
        } else {
            self.free_some(schedule, random);
        }
        self.free_families(model, schedule);
        self.free_absent(links, schedule, random);
    }
}
