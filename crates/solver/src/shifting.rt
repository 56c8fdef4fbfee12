//! Schedules moved to where the objective wishes them.
use crate::chooser::Chooser;
use crate::settled::all_hold;
use branching::{Links, Pole, alternative};
use kernel::Found;
use sched_base::{Itv, List, NoMemory, at};
use sched_model::{Assignment, Model, Slot, beats, in_domain, value};
use std::alloc::Global;

/// By how much intervals are moved, one step after another.
const STEPS: [i64; 11] = [1024, 512, 256, 128, 64, 32, 16, 8, 4, 2, 1];

/// So often all of them are moved by the same at most.
const ROUNDS: u32 = 50;

/// Which intervals move together: some costs are least at a moment between the earliest and the latest, so a
/// schedule at its least starts isn't the best of its orders.
#[derive(Drop)]
pub struct Shifting {
    moves: Vec<bool>,
    /// Those that move, in the order in which they were found.
    queue: Vec<Itv>,
    /// The constraint that failed last.
    failed: u32,
    /// Whether nothing but orders stands in the way, so that a region whose orders are known is done with.
    pub is_all: bool,
}

/// Whether the objective wishes some interval neither sooner nor later.
fn wishes_between(model: &Model, intervals: &Chooser) -> bool {
    for n in 0..model.intervals().len() {
        if intervals.goal().pole(Itv(n as u32)) == Pole::Between {
            return true;
        }
    }
    false
}

fn slot_of(slots: &[Slot], x: Itv) -> Slot {
    at(slots, x.0 as usize).copied().unwrap_or(Slot::Absent)
}

/// How far apart two are, the first of which stands in front of the second.
fn gap(slots: &[Slot], x: Itv, y: Itv) -> i64 {
    match (slot_of(slots, x), slot_of(slots, y)) {
        (Slot::Present { s: _, e }, Slot::Present { s, e: _ }) => s.saturating_sub(e),
        _ => i64::MAX,
    }
}

fn place_of(order: &[Itv], x: Itv) -> Option<usize> {
    for i in 0..order.len() {
        if order[i].0 == x.0 {
            return Some(i);
        }
    }
    None
}

/// The neighbour of an interval that it comes upon if it is moved by so much.
fn pushed(slots: &[Slot], order: &[Itv], x: Itv, by: i64) -> Option<Itv> {
    let i = place_of(order, x)?;
    if by > 0 {
        let next = *at(order, i.saturating_add(1))?;
        return if gap(slots, x, next) < by {
            Some(next)
        } else {
            None
        };
    }
    let last = *at(order, i.checked_sub(1)?)?;
    if gap(slots, last, x) < 0i64.saturating_sub(by) {
        return Some(last);
    }
    None
}

fn moved(slot: Slot, by: i64) -> Slot {
    match slot {
        Slot::Absent => Slot::Absent,
        Slot::Present { s, e } => Slot::Present {
            s: s.saturating_add(by),
            e: e.saturating_add(by),
        },
    }
}

fn move_slot(slots: &mut Vec<Slot>, i: usize, by: i64) {
    if i < slots.len() {
        slots[i] = moved(slots[i], by);
    }
}

impl Shifting {
    /// None where the objective wishes every interval sooner, or every one later.
    pub fn new(
        alloc: Global,
        model: &Model,
        intervals: &Chooser,
    ) -> Result<Option<Shifting>, NoMemory> {
        if !wishes_between(model, intervals) {
            return Ok(None);
        }
        let n = model.intervals().len();
        let mut moves = Vec::new(alloc);
        moves.resize(n, false)?;
        let mut queue = Vec::new(alloc);
        queue.reserve(n)?;
        Ok(Some(Shifting {
            moves,
            queue,
            failed: 0,
            is_all: !intervals.has_profiles(),
        }))
    }

    fn set(&mut self, i: usize, moves: bool) {
        if i < self.moves.len() {
            self.moves[i] = moves;
        }
    }

    fn moves_at(&self, i: usize) -> bool {
        self.moves.get(i).copied().unwrap_or(false)
    }

    fn clear(&mut self) {
        for i in 0..self.moves.len() {
            self.set(i, false);
        }
        self.queue.clear();
    }

    /// Lets an interval move too, if it is there.
    fn join(&mut self, slots: &[Slot], x: Itv) {
        let i = x.0 as usize;
        let is_there = matches!(slot_of(slots, x), Slot::Present { .. });
        if is_there && !self.moves_at(i) {
            self.set(i, true);
            // There is room for all.
            let _ = self.queue.push(x);
        }
    }

    fn join_each(&mut self, slots: &[Slot], parts: &[Itv]) {
        for x in parts {
            self.join(slots, *x);
        }
    }

    /// The parts of an interval move with it.
    fn join_parts(&mut self, model: &Model, links: &Links, slots: &[Slot], x: Itv) {
        for c in links.as_master(x) {
            if let Some((_, parts)) = alternative(model, *c) {
                self.join_each(slots, parts);
            }
        }
    }

    /// So does the interval that it is a part of.
    fn join_masters(&mut self, model: &Model, links: &Links, slots: &[Slot], x: Itv) {
        for c in links.as_part(x) {
            if let Some((master, _)) = alternative(model, *c) {
                self.join(slots, master);
            }
        }
    }

    /// So do those in its way.
    fn join_neighbours(&mut self, links: &Links, a: &Assignment, x: Itv, by: i64) {
        let slots = a.slots.as_slice();
        for p in links.sequences(x) {
            if let Some(order) = at(a.orders.as_slice(), p.0 as usize) {
                if let Some(y) = pushed(slots, order.as_slice(), x, by) {
                    self.join(slots, y);
                }
            }
        }
    }

    /// Which intervals move where one is moved by so much.
    fn gather(&mut self, model: &Model, links: &Links, a: &Assignment, x: Itv, by: i64) {
        self.clear();
        let slots = a.slots.as_slice();
        self.join(slots, x);
        for i in 0..slots.len() {
            let Some(y) = self.queue.get(i).copied() else {
                return;
            };
            self.join_parts(model, links, slots, y);
            self.join_masters(model, links, slots, y);
            self.join_neighbours(links, a, y, by);
        }
    }

    /// Moves them.
    fn apply(&self, a: Assignment, by: i64) -> Assignment {
        let Assignment {
            slots,
            orders,
            segs,
        } = a;
        let mut slots = slots.into_vec();
        for i in 0..slots.len() {
            if self.moves_at(i) {
                move_slot(&mut slots, i, by);
            }
        }
        Assignment {
            slots: List::from_vec(slots),
            orders,
            segs,
        }
    }

    /// Moves an interval, and what it comes upon, by so much, if that is better.
    fn try_move(&mut self, model: &Model, links: &Links, found: Found, x: Itv, by: i64) -> Found {
        let Found { assignment, value } = found;
        self.gather(model, links, &assignment, x, by);
        let assignment = self.apply(assignment, by);
        let better = self.better_value(model, &assignment, value);
        if better.is_some() {
            return Found {
                assignment,
                value: better,
            };
        }
        Found {
            assignment: self.apply(assignment, 0i64.saturating_sub(by)),
            value,
        }
    }

    /// The value, where it is a schedule that is better than another one.
    fn better_value(&mut self, model: &Model, a: &Assignment, than: Option<i64>) -> Option<i64> {
        let objective = model.objective()?;
        if !in_domain(model, a) {
            return None;
        }
        let new = value(model, a)?;
        if !beats(objective.sense, new, than?) || !all_hold(model, a, &mut self.failed) {
            return None;
        }
        Some(new)
    }

    /// Moves each interval by so much, where that is better.
    fn move_each(&mut self, model: &Model, links: &Links, found: Found, by: i64) -> Found {
        let mut found = found;
        for n in 0..model.intervals().len() {
            found = self.try_move(model, links, found, Itv(n as u32), by);
        }
        found
    }

    /// The same later and sooner, while it brings something.
    fn move_by(&mut self, model: &Model, links: &Links, found: Found, by: i64) -> Found {
        let mut found = found;
        for _ in 0..ROUNDS {
            let old = found.value;
            let later = self.move_each(model, links, found, by);
            found = self.move_each(model, links, later, 0i64.saturating_sub(by));
            if found.value == old {
                return found;
            }
        }
        found
    }

    /// Moves the intervals of a schedule to where the objective wishes them, in long steps and then in short
    /// ones, while it remains a schedule. Its orders stay.
    pub fn move_all(&mut self, model: &Model, links: &Links, found: Found) -> Found {
        let mut found = found;
        for step in &STEPS {
            found = self.move_by(model, links, found, *step);
        }
        found
    }
}
