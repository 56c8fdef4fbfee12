//! Whether an order or a presence that was told may have closed a walk that gains: heights of points are
//! kept, and lowered from the new arc on along those that it upsets, until they fall along all again or
//! the arc itself is upset (Cotton and Maler 2006). No promise hangs on this: it only says how urgent it
//! is to ask for walks.
use crate::sources::Sources;
use crate::ways::{Side, Way, point};
use refute_basic::{Arc, is_there, members_of};
use region::{Look, OrderCell, Region};
use sched_base::{Itv, List, Mat, NoMemory, Seq, at};
use sched_model::{Constraint, End, Model, distance};
use std::alloc::Global;

/// What was told: that one stands before another, or with twice the same that one is present.
#[derive(Clone, Copy, Debug)]
struct News {
    p: Seq,
    x: Itv,
    y: Itv,
}

/// A height that a point had.
#[derive(Clone, Copy, Debug)]
struct Old {
    point: usize,
    height: i64,
}

/// Why heights weren't lowered along an arc.
#[derive(Clone, Copy, Debug, PartialEq, Eq)]
enum Upset {
    /// The arc closes a walk that gains.
    Closed,
    /// It took too long, or there was no memory.
    Unknown,
}

/// What is known of a model, and of the region.
#[derive(Drop)]
pub struct Known<'a> {
    pub model: &'a Model,
    pub region: &'a Region,
    pub sources: &'a Sources,
    /// The constraints of each interval.
    pub touching: &'a [List<u32>],
}

/// Heights that fall along all arcs but those that were told of since.
#[derive(Drop)]
pub struct Guard {
    heights: Vec<i64>,
    news: Vec<News>,
    lowered: Vec<Old>,
    /// The intervals whose points were lowered, the first of them, and which they are.
    queue: Vec<u32>,
    queued: Vec<bool>,
    /// Whether there are no such heights.
    lost: bool,
}

/// The distance that a sequence keeps from one member to another.
fn distance_between(
    model: &Model,
    look: &Look<'_>,
    p: Seq,
    matrix: Option<Mat>,
    x: Itv,
    y: Itv,
) -> i64 {
    if matrix.is_none() {
        return 0;
    }
    let from = type_of(model, look, p, x);
    let to = type_of(model, look, p, y);
    distance(model, matrix, u64::from(from), u64::from(to))
}

/// The type of a member, and 0 where it has none.
fn type_of(model: &Model, look: &Look<'_>, p: Seq, x: Itv) -> u32 {
    let Some(place) = look.place(p, x) else {
        return 0;
    };
    let Some(d) = model.sequences().get(p.0 as usize) else {
        return 0;
    };
    match &d.types {
        None => 0,
        Some(types) => types.as_slice().get(place).copied().unwrap_or(0),
    }
}

/// The arc of two members of which the first is told to stand before the second, by a constraint, where
/// this is of their sequence.
fn arc_by(model: &Model, look: &Look<'_>, c: u32, p: Seq, x: Itv, y: Itv) -> Option<Arc> {
    let Constraint::NoOverlap {
        p: q,
        matrix,
        direct,
    } = at(model.constraints(), c as usize)?
    else {
        return None;
    };
    if q.0 != p.0 || !is_there(look, x) || !is_there(look, y) {
        return None;
    }
    let matrix = if *direct { None } else { *matrix };
    Some(Arc {
        tail: point(End::Finish, x),
        weight: distance_between(model, look, p, matrix, x, y),
        head: point(End::Start, y),
    })
}

/// The sequence of a constraint without overlap.
fn sequence_of(model: &Model, c: u32) -> Option<Seq> {
    match at(model.constraints(), c as usize) {
        Some(Constraint::NoOverlap { p, .. }) => Some(*p),
        _ => None,
    }
}

/// The arcs of the sizes of an interval.
fn sizes_of(look: &Look<'_>, x: Itv) -> Option<(Arc, Arc)> {
    if !is_there(look, x) || x.0 as usize >= look.len() {
        return None;
    }
    let (start, end) = (point(End::Start, x), point(End::Finish, x));
    let longer = Arc {
        tail: start,
        weight: look.pmin(x),
        head: end,
    };
    let shorter = Arc {
        tail: end,
        weight: 0i64.saturating_sub(look.pmax(x)),
        head: start,
    };
    Some((longer, shorter))
}

fn constraints_of<'a>(touching: &'a [List<u32>], x: Itv) -> &'a [u32] {
    match at(touching, x.0 as usize) {
        None => &[],
        Some(list) => list.as_slice(),
    }
}

impl Guard {
    pub fn new(alloc: Global, intervals: usize) -> Result<Guard, NoMemory> {
        Ok(Guard {
            heights: Vec::new(alloc),
            news: Vec::new(alloc),
            lowered: Vec::new(alloc),
            queue: Vec::new(alloc),
            queued: vec![in alloc; false; intervals]?,
            lost: true,
        })
    }

    fn put(&mut self, it: News) {
        if self.lost {
            return;
        }
        if self.news.push(it).is_err() {
            self.lost = true;
        }
    }

    /// The order of two members isn't as it was.
    pub fn note_order(&mut self, p: Seq, x: Itv, y: Itv) {
        self.put(News { p, x, y });
    }

    /// The presence of an interval isn't as it was.
    pub fn note_presence(&mut self, x: Itv) {
        self.put(News { p: Seq(0), x, y: x });
    }

    /// These heights fall along all arcs.
    pub fn settle(&mut self, heights: &[i64]) {
        self.news.clear();
        self.heights.clear();
        self.lost = self.heights.extend_from_slice(heights).is_err();
    }

    /// Whether nothing that was told closes a walk that gains, as far as is seen here.
    pub fn is_calm(&mut self, known: &Known<'_>) -> bool {
        let look = known.region.look(None, None);
        if self.lost || self.heights.len() != look.len().saturating_mul(2) {
            return false;
        }
        for _ in 0..self.news.len() {
            let Some(last) = self.news.last().copied() else {
                return true;
            };
            if let Err(upset) = self.take_in(known, &look, last) {
                self.lost = upset == Upset::Unknown;
                return false;
            }
            let _ = self.news.pop();
        }
        true
    }

    fn take_in(&mut self, known: &Known<'_>, look: &Look<'_>, it: News) -> Result<(), Upset> {
        if it.x.0 == it.y.0 {
            return self.take_presence(known, look, it.x);
        }
        match look.order(it.p, it.x, it.y) {
            OrderCell::Unknown => Ok(()),
            OrderCell::Forward => self.take_order(known, look, it.p, it.x, it.y),
            OrderCell::Backward => self.take_order(known, look, it.p, it.y, it.x),
        }
    }

    /// The arcs of two members, by each constraint of their sequence.
    fn take_order(
        &mut self,
        known: &Known<'_>,
        look: &Look<'_>,
        p: Seq,
        x: Itv,
        y: Itv,
    ) -> Result<(), Upset> {
        for c in constraints_of(known.touching, x) {
            let Some(arc) = arc_by(known.model, look, *c, p, x, y) else {
                continue;
            };
            self.take_arc(known, look, arc)?;
        }
        Ok(())
    }

    /// The arcs of an interval that is present.
    fn take_presence(&mut self, known: &Known<'_>, look: &Look<'_>, x: Itv) -> Result<(), Upset> {
        let Some((longer, shorter)) = sizes_of(look, x) else {
            return Ok(());
        };
        self.take_arc(known, look, longer)?;
        self.take_arc(known, look, shorter)?;
        self.take_ways(known, look, known.sources.movers(x, Side::Later))?;
        self.take_ways(known, look, known.sources.movers(x, Side::Earlier))?;
        for c in constraints_of(known.touching, x) {
            self.take_members(known, look, *c, x)?;
        }
        Ok(())
    }

    /// The arcs of its precedences.
    fn take_ways(&mut self, known: &Known<'_>, look: &Look<'_>, ways: &[Way]) -> Result<(), Upset> {
        for way in ways {
            if !is_there(look, way.first) || !is_there(look, way.second) {
                continue;
            }
            self.take_arc(known, look, way.arc())?;
        }
        Ok(())
    }

    /// Its arcs with the other members of a sequence.
    fn take_members(
        &mut self,
        known: &Known<'_>,
        look: &Look<'_>,
        c: u32,
        x: Itv,
    ) -> Result<(), Upset> {
        let Some(p) = sequence_of(known.model, c) else {
            return Ok(());
        };
        for y in members_of(known.model, p) {
            let arc = match look.order(p, x, *y) {
                OrderCell::Unknown => None,
                OrderCell::Forward => arc_by(known.model, look, c, p, x, *y),
                OrderCell::Backward => arc_by(known.model, look, c, p, *y, x),
            };
            let Some(arc) = arc else {
                continue;
            };
            self.take_arc(known, look, arc)?;
        }
        Ok(())
    }

    /// Lowers heights until they fall along an arc and along all others.
    fn take_arc(&mut self, known: &Known<'_>, look: &Look<'_>, arc: Arc) -> Result<(), Upset> {
        self.lowered.clear();
        self.queue.clear();
        let fallen = self.lower_all(known, look, arc);
        for k in &self.queue {
            if let Some(queued) = self.queued.get_mut(*k as usize) {
                *queued = false;
            }
        }
        if fallen.is_err() {
            self.restore();
        }
        fallen
    }

    /// Gives each point the height that it had.
    fn restore(&mut self) {
        for _ in 0..self.lowered.len() {
            let Some(old) = self.lowered.pop() else {
                return;
            };
            if let Some(height) = self.heights.get_mut(old.point) {
                *height = old.height;
            }
        }
    }

    fn lower_all(&mut self, known: &Known<'_>, look: &Look<'_>, first: Arc) -> Result<(), Upset> {
        self.lower(first, usize::MAX)?;
        for k in 0..look.len().saturating_mul(8) {
            let Some(x) = self.queue.get(k).copied() else {
                return Ok(());
            };
            if let Some(queued) = self.queued.get_mut(x as usize) {
                *queued = false;
            }
            self.lower_from(known, look, Itv(x), first.tail)?;
        }
        Err(Upset::Unknown)
    }

    /// Lowers the head of an arc so far that heights fall along it. The point `tail` must not be lowered.
    fn lower(&mut self, arc: Arc, tail: usize) -> Result<(), Upset> {
        let (Some(above), Some(height)) = (self.heights.get(arc.tail), self.heights.get(arc.head))
        else {
            return Err(Upset::Unknown);
        };
        let most = above.saturating_sub(arc.weight);
        let old = Old {
            point: arc.head,
            height: *height,
        };
        if old.height <= most {
            return Ok(());
        }
        if arc.head == tail {
            return Err(Upset::Closed);
        }
        if self.lowered.push(old).is_err() {
            return Err(Upset::Unknown);
        }
        if let Some(height) = self.heights.get_mut(arc.head) {
            *height = most;
        }
        self.enqueue(arc.head / 2)
    }

    fn enqueue(&mut self, x: usize) -> Result<(), Upset> {
        let Some(queued) = self.queued.get_mut(x) else {
            return Err(Upset::Unknown);
        };
        if *queued {
            return Ok(());
        }
        *queued = true;
        let Ok(x) = u32::try_from(x) else {
            return Err(Upset::Unknown);
        };
        if self.queue.push(x).is_err() {
            return Err(Upset::Unknown);
        }
        Ok(())
    }

    /// Lowers the heads of the arcs of an interval.
    fn lower_from(
        &mut self,
        known: &Known<'_>,
        look: &Look<'_>,
        x: Itv,
        tail: usize,
    ) -> Result<(), Upset> {
        let Some((longer, shorter)) = sizes_of(look, x) else {
            return Ok(());
        };
        self.lower(longer, tail)?;
        self.lower(shorter, tail)?;
        for way in known.sources.movers(x, Side::Earlier) {
            if !is_there(look, way.second) {
                continue;
            }
            self.lower(way.arc(), tail)?;
        }
        for c in constraints_of(known.touching, x) {
            self.lower_members(known, look, *c, x, tail)?;
        }
        Ok(())
    }

    /// The same of those members of a sequence before which it stands.
    fn lower_members(
        &mut self,
        known: &Known<'_>,
        look: &Look<'_>,
        c: u32,
        x: Itv,
        tail: usize,
    ) -> Result<(), Upset> {
        let Some(p) = sequence_of(known.model, c) else {
            return Ok(());
        };
        for y in members_of(known.model, p) {
            if look.order(p, x, *y) != OrderCell::Forward {
                continue;
            }
            let Some(arc) = arc_by(known.model, look, c, p, x, *y) else {
                continue;
            };
            self.lower(arc, tail)?;
        }
        Ok(())
    }
}
