//! Whether what PAIR finds of a sequence can wait until others are quiet: it is then an order of two,
//! or a bound that the size of an interval alone gives too.
ghost use Rattle.std.specs.Prelude.{◌≡◌, ◌<◌, ◌≤◌, length};

use crate::distances::Distances;
use crate::ways::{Table, Ways, set_at};
use findings::ends_at;
use place_sets::PlaceSet;
use region::{Look, OrderCell, Presence, Region};
use sched_base::{Itv, NoMemory, Seq};
use sched_model::Model;
use std::alloc::Global;

/// What is compared of a member, in moments, each in 32 bits, so that a sequence takes little room. Where
/// one who is absent, or isn't known to be present, isn't asked for a number, it is one that is never too
/// late, or too soon, for another.
#[derive(Clone, Copy, Debug)]
struct Window {
    /// The earliest completion.
    ect: i32,
    /// The same where the member is present.
    present_ect: i32,
    /// The latest end.
    emax: i32,
    /// The latest start.
    lst: i32,
    /// The same where the member is present.
    present_lst: i32,
    /// The earliest start.
    smin: i32,
    /// The greatest earliest completion that a guess at the end of a cell makes.
    highest_end: i32,
    /// The least latest start that one makes.
    lowest_start: i32,
}

impl Window {
    /// That of a member that is absent.
    const ABSENT: Window = Window {
        ect: i32::MIN,
        present_ect: i32::MIN,
        emax: i32::MIN,
        lst: i32::MAX,
        present_lst: i32::MAX,
        smin: i32::MAX,
        highest_end: i32::MIN,
        lowest_start: i32::MAX,
    };

    /// Whether all numbers are the same, told without a branch.
    fn is_same(self, other: Window) -> bool {
        let differ = (self.ect ^ other.ect)
            | (self.present_ect ^ other.present_ect)
            | (self.emax ^ other.emax)
            | (self.lst ^ other.lst)
            | (self.present_lst ^ other.present_lst)
            | (self.smin ^ other.smin)
            | (self.highest_end ^ other.highest_end)
            | (self.lowest_start ^ other.lowest_start);
        differ == 0
    }
}

/// A moment, or a sum of two, in 32 bits, where it has room there.
fn short(n: i64) -> i32 {
    i32::try_from(n).unwrap_or(if n < 0 { i32::MIN } else { i32::MAX })
}

fn window_at(look: &Look<'_>, x: Itv) -> Window
    requires { x.0 < length look.now.region.bounds }
{
    let ends = ends_at(look, x);
    if ends.presence == Presence::Absent {
        return Window::ABSENT;
    }
    let (ect, lst) = (short(ends.ect), short(ends.lst));
    let is_there = ends.presence == Presence::Present;
    Window {
        ect,
        present_ect: if is_there { ect } else { i32::MIN },
        emax: short(look.emax(x)),
        lst,
        present_lst: if is_there { lst } else { i32::MAX },
        smin: short(look.smin(x)),
        highest_end: short(ends.highest_end),
        lowest_start: short(ends.lowest_start),
    }
}

/// Whether a moment with a distance is later than another moment.
fn is_beyond(end: i32, n: i64, start: i32) -> bool {
    i64::from(end).saturating_add(n) > i64::from(start)
}

/// Whether two don't fit as they are if the first stands before the second, so far apart: the first
/// pushes the second to a later start, or the second the first to a sooner end, or both can't be.
fn is_pushed_by(c: Window, d: Window, n: i64) -> bool {
    is_beyond(c.present_ect, n, d.smin)
        | is_beyond(c.emax, n, d.present_lst)
        | is_beyond(c.ect, n, d.lst)
}

/// Whether two that are told to stand so, so far apart, leave something to find: the first pushes the second, or
/// the second the first, under a guess at the end of a cell at least.
fn is_unfit_by(c: Window, d: Window, n: i64) -> bool {
    is_beyond(c.present_ect, n, d.lowest_start) | is_beyond(c.highest_end, n, d.present_lst)
}

/// Whether two that are there can't stand so far apart, the first before the second.
fn is_refuted(c: Window, d: Window, n: i64) -> bool {
    is_beyond(c.present_ect, n, d.present_lst)
}

/// The same of two that keep no distance.
fn is_pushed(c: Window, d: Window) -> bool {
    (c.present_ect > d.smin) | (c.emax > d.present_lst) | (c.ect > d.lst)
}

/// Whether two fit as they are in neither order.
fn are_tight(c: Window, d: Window) -> bool {
    is_pushed(c, d) & is_pushed(d, c)
}

/// Whether two that are told to stand so leave something to find.
fn is_unfit(c: Window, d: Window) -> bool {
    (c.present_ect > d.lowest_start) | (c.highest_end > d.present_lst)
}

/// Whether two that are there fit in neither order.
fn do_clash(c: Window, d: Window) -> bool {
    (c.present_ect > d.present_lst) & (d.present_ect > c.present_lst)
}

/// The members of a sequence as they were read last, and for each, as a set of places, those with whom it fits
/// in neither order as they are, of these those with whom it can't be, those whom it isn't fit to stand before,
/// those whom it is too late for, those with whom its order was read since one of them had another, of these
/// those that it is told to stand before, and those with whom its order is open. Two are compared where one of
/// them may have moved, and their order is read where it may be another.
#[derive(Debug, Drop)]
pub struct Waiting<const W: usize> {
    distances: Distances,
    noted: Vec<Window>,
    tight: Table<W>,
    clashing: Table<W>,
    unfit: Ways<W>,
    late: Ways<W>,
    known: Vec<PlaceSet<W>>,
    before: Vec<PlaceSet<W>>,
    open: Vec<PlaceSet<W>>,
    /// Who is told to stand before some with whom it fits in neither order.
    telling: PlaceSet<W>,
}

/// The places of two of whom the first is told to stand before the second, or whose order is open though
/// the first can't stand before the second.
#[derive(Clone, Copy, Debug)]
pub struct Told {
    pub first: usize,
    pub second: usize,
    pub order: OrderCell,
}

impl<const W: usize> Waiting<W> {
    /// Room for as many members.
    pub fn new(
        alloc: Global,
        members: usize,
        distances: Distances,
    ) -> Result<Waiting<W>, NoMemory> {
        Ok(Waiting {
            distances,
            noted: vec![in alloc; Window::ABSENT; members]?,
            tight: Table::new(alloc, members)?,
            clashing: Table::new(alloc, members)?,
            unfit: Ways::new(alloc, members)?,
            late: Ways::new(alloc, members)?,
            known: vec![in alloc; PlaceSet::none(); members]?,
            before: vec![in alloc; PlaceSet::none(); members]?,
            open: vec![in alloc; PlaceSet::none(); members]?,
            telling: PlaceSet::none(),
        })
    }

    /// Whether all that PAIR finds now of a sequence without overlap, whose members these are, can wait; only those at some places, and the orders of those at others, can be other
    /// than they were read last.
    pub fn can_wait(
        &mut self,
        model: &Model,
        region: &Region,
        p: Seq,
        members: &[Itv],
        moved: PlaceSet<W>,
        turned: PlaceSet<W>,
    ) -> bool {
        if members.len() > self.noted.len() {
            return false;
        }
        let look = region.look(None, None);
        if !turned.is_empty() {
            take_out(&mut self.known, &turned);
            take_out(&mut self.before, &turned);
            take_out(&mut self.open, &turned);
        }
        let moved = note_members(&look, members, moved, &mut self.noted);
        self.compare_moved(model, moved);
        self.read_orders(&look, p, members, moved.or(&turned));
        self.clashing.is_empty() && self.telling.is_empty()
    }

    /// Compares those at these places with each.
    fn compare_moved(&mut self, model: &Model, moved: PlaceSet<W>) {
        let mut moved = moved;
        let noted = self.noted.as_slice();
        for _ in 0..noted.len() {
            let at = moved.next();
            // None is left.
            let Some(window) = noted.get(at) else {
                return;
            };
            let rows = if self.distances.are_none() {
                rows_of(at, *window, noted)
            } else {
                far_rows_of(model, &self.distances, at, *window, noted)
            };
            self.tight.put(at, rows.tight);
            self.clashing.put(at, rows.clashing);
            self.unfit.put(at, rows.unfit_forth, rows.unfit_back);
            self.late.put(at, rows.late_forth, rows.late_back);
        }
    }

    /// Two of whom something is found, where it was told so when it was asked last: the first of those
    /// from a place on, and then up to it, that is told to stand before some with whom it fits in neither
    /// order. Where there is none, and nobody is told to stand before one whom it isn't fit to stand before, the
    /// first in the same way whose order is open with one whom it is too late for.
    pub fn told(&self, from: usize) -> Option<Told> {
        let first = first_from(&self.telling, from);
        if let Some(before) = self.before.get(first) {
            let second = before.and(&self.tight.row(first)).first();
            return Some(Told {
                first,
                second,
                order: OrderCell::Forward,
            });
        }
        if !self.pushing().is_empty() {
            return None;
        }
        let first = first_from(&self.opening(), from);
        let second = self.open.get(first)?.and(&self.late.forth(first)).first();
        Some(Told {
            first,
            second,
            order: OrderCell::Unknown,
        })
    }

    /// Who is told to stand before some with whom it fits in neither order.
    fn telling(&self) -> PlaceSet<W> {
        let mut telling = PlaceSet::none();
        for k in 0..self.before.len() {
            telling.put_if(k, !self.before[k].and(&self.tight.row(k)).is_empty());
        }
        telling
    }

    /// Who is told to stand before some whom it isn't fit to stand before.
    fn pushing(&self) -> PlaceSet<W> {
        let mut pushing = PlaceSet::none();
        for k in 0..self.before.len() {
            pushing.put_if(k, !self.before[k].and(&self.unfit.forth(k)).is_empty());
        }
        pushing
    }

    /// Whose order is open with some whom it is too late for.
    fn opening(&self) -> PlaceSet<W> {
        let mut opening = PlaceSet::none();
        for k in 0..self.open.len() {
            opening.put_if(k, !self.open[k].and(&self.late.forth(k)).is_empty());
        }
        opening
    }

    /// Reads the orders that aren't known of those at these places with others, where they leave something to
    /// find whatever is told, or where nothing is.
    fn read_orders(&mut self, look: &Look<'_>, p: Seq, members: &[Itv], due: PlaceSet<W>) {
        let mut due = due;
        if due.is_empty() {
            return;
        }
        for _ in 0..members.len() {
            let k = due.next();
            // None is left.
            if k >= members.len() {
                break;
            }
            self.read_row(look, p, k, members);
        }
        self.telling = self.telling();
    }

    /// Notes the order of two.
    fn note_order(&mut self, at: usize, k: usize, order: OrderCell) {
        put_into(&mut self.known, at, k);
        put_into(&mut self.known, k, at);
        match order {
            OrderCell::Unknown => {
                put_into(&mut self.open, at, k);
                put_into(&mut self.open, k, at);
            }
            OrderCell::Forward => put_into(&mut self.before, at, k),
            OrderCell::Backward => put_into(&mut self.before, k, at),
        }
    }

    /// Reads the orders of one member.
    fn read_row(&mut self, look: &Look<'_>, p: Seq, at: usize, members: &[Itv])
        requires { at < length members.now }
    {
        let apart = self.unfit.either(at).or(&self.late.either(at));
        let mut others = apart.minus(&set_at(&self.known, at));
        for _ in 0..members.len() {
            let k = others.next();
            // None is left.
            if k >= members.len() {
                return;
            }
            self.note_order(at, k, look.order(p, members[at], members[k]));
        }
    }
}

/// Puts a member into the set of another.
fn put_into<const W: usize>(sets: &mut [PlaceSet<W>], at: usize, k: usize) {
    if at < sets.len() {
        sets[at].put(k);
    }
}

/// The first place of a set from one on, and then up to it; where it has none, a place that no list has.
fn first_from<const W: usize>(set: &PlaceSet<W>, from: usize) -> usize {
    let behind = set.from(from);
    if behind.is_empty() {
        return set.first();
    }
    behind.first()
}

/// Takes some out of the sets of each of them: an order that is another is of two of them.
fn take_out<const W: usize>(sets: &mut [PlaceSet<W>], places: &PlaceSet<W>) {
    for k in 0..sets.len() {
        let left = sets[k].minus(places);
        sets[k] = if places.contains(k) { left } else { sets[k] };
    }
}

/// Reads a member. Whether something else is known of it than before.
fn note_member(look: &Look<'_>, x: Itv, noted: &mut Window) -> bool {
    if x.0 as usize >= look.len() {
        return false;
    }
    let window = window_at(look, x);
    let is_new = !window.is_same(*noted);
    *noted = window;
    is_new
}

/// Reads the members at these places. The places of those of which something else is known than before.
fn note_members<const W: usize>(
    look: &Look<'_>,
    members: &[Itv],
    places: PlaceSet<W>,
    noted: &mut [Window],
) -> PlaceSet<W>
    requires room { length members.now ≤ length noted.old }
    ensures { length noted.new ≡ length noted.old }
{
    let mut places = places;
    let mut moved = PlaceSet::none();
    for _ in 0..members.len() {
        let k = places.next();
        // None is left.
        if k >= members.len() {
            return moved;
        }
        if note_member(look, members[k], &mut noted[k]) {
            moved.put(k);
        }
    }
    moved
}

/// With whom a member fits in neither order as they are, with whom of them it can't be, whom it isn't fit to
/// stand before, and who to stand before it, whom it is too late for, and who for it.
#[derive(Clone, Copy, Debug)]
struct Rows<const W: usize> {
    tight: PlaceSet<W>,
    clashing: PlaceSet<W>,
    unfit_forth: PlaceSet<W>,
    unfit_back: PlaceSet<W>,
    late_forth: PlaceSet<W>,
    late_back: PlaceSet<W>,
}

impl<const W: usize> Rows<W> {
    fn none() -> Rows<W> {
        Rows {
            tight: PlaceSet::none(),
            clashing: PlaceSet::none(),
            unfit_forth: PlaceSet::none(),
            unfit_back: PlaceSet::none(),
            late_forth: PlaceSet::none(),
            late_back: PlaceSet::none(),
        }
    }

    /// Without the member itself.
    fn without(self, at: usize) -> Rows<W> {
        let mut rows = self;
        rows.tight.take_out(at);
        rows.clashing.take_out(at);
        rows.unfit_forth.take_out(at);
        rows.unfit_back.take_out(at);
        rows.late_forth.take_out(at);
        rows.late_back.take_out(at);
        rows
    }
}

/// Those of the member at a place, of which this is noted.
fn rows_of<const W: usize>(at: usize, window: Window, noted: &[Window]) -> Rows<W> {
    let mut rows = Rows::none();
    for k in 0..noted.len() {
        let other = noted[k];
        let is_tight = are_tight(window, other);
        rows.tight.put_if(k, is_tight);
        rows.clashing.put_if(k, is_tight & do_clash(window, other));
        rows.unfit_forth.put_if(k, is_unfit(window, other));
        rows.unfit_back.put_if(k, is_unfit(other, window));
        rows.late_forth.put_if(k, window.ect > other.lst);
        rows.late_back.put_if(k, other.ect > window.lst);
    }
    rows.without(at)
}

/// The same where distances are kept.
fn far_rows_of<const W: usize>(
    model: &Model,
    distances: &Distances,
    at: usize,
    window: Window,
    noted: &[Window],
) -> Rows<W> {
    let mut rows = Rows::none();
    for k in 0..noted.len() {
        let other = noted[k];
        let (forth, back) = (
            distances.between(model, at, k),
            distances.between(model, k, at),
        );
        let is_tight = is_pushed_by(window, other, forth) & is_pushed_by(other, window, back);
        let do_clash = is_refuted(window, other, forth) & is_refuted(other, window, back);
        rows.tight.put_if(k, is_tight);
        rows.clashing.put_if(k, is_tight & do_clash);
        rows.unfit_forth
            .put_if(k, is_unfit_by(window, other, forth));
        rows.unfit_back.put_if(k, is_unfit_by(other, window, back));
        rows.late_forth
            .put_if(k, is_beyond(window.ect, forth, other.lst));
        rows.late_back
            .put_if(k, is_beyond(other.ect, back, window.lst));
    }
    rows.without(at)
}
