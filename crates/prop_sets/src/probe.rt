//! Whether OVERLOAD or DETECT finds anything of a sequence, told by what has moved since it was told last.
ghost use Rattle.std.specs.Prelude.{◌≡◌, ◌<◌, length, true};

use crate::known::{Numbers, numbers_of};
use crate::numbers::bounds_at;
use crate::reaches::moments_above;
use crate::times::SideTimes;
use place_sets::PlaceSet;
use region::{Look, Region};
use sched_base::{Itv, NoMemory};
use std::alloc::Global;
use theta_passes::Presence;

/// How many words hold the places of the longest sequence.
pub const WORDS: usize = 8;

/// Who is late, on which side, behind whom, and how far it is pushed.
#[derive(Clone, Copy, Debug)]
pub struct Hint {
    pub back: bool,
    pub place: usize,
    pub set: PlaceSet<WORDS>,
    pub far: u64,
}

/// What a sequence was told to be.
#[derive(Clone, Copy, Debug)]
pub enum Told {
    /// Nothing is found.
    Still,
    /// DETECT finds something of a member.
    Late(Hint),
    /// Something else is found, or it isn't known.
    Busy,
}

/// Which members of a sequence can't end before which others must start: those must come before them.
#[derive(Drop)]
struct Needs<const W: usize> {
    earliest_ends: Vec<i32>,
    latest_starts: Vec<i32>,
    /// For each member, who must come before it.
    before: Vec<PlaceSet<W>>,
    /// For each, before whom it must come.
    behind: Vec<PlaceSet<W>>,
}

/// The members of a sequence as they were read last.
#[derive(Drop)]
pub struct Probe<const W: usize> {
    numbers: Vec<Noted>,
    present: PlaceSet<W>,
    absent: PlaceSet<W>,
    needs: Needs<W>,
    first: SideTimes<W>,
    second: SideTimes<W>,
}

/// The numbers of a member, each in 32 bits, so that a sequence takes little room.
#[derive(Clone, Copy, Debug, PartialEq, Eq)]
struct Noted {
    presence: Presence,
    est: i32,
    lct: i32,
    lst: i32,
    ect: i32,
    p: i32,
}

impl Noted {
    const ABSENT: Noted = Noted {
        presence: Presence::Absent,
        est: 0,
        lct: 0,
        lst: 0,
        ect: 0,
        p: 0,
    };

    fn from(n: Numbers) -> Noted {
        Noted {
            presence: n.presence,
            est: short(n.est),
            lct: short(n.lct),
            lst: short(n.lst),
            ect: short(n.ect),
            p: short(n.p),
        }
    }

    /// Whether all numbers are the same, told without a branch.
    fn is_same(self, other: Noted) -> bool {
        let differ = (self.est ^ other.est)
            | (self.lct ^ other.lct)
            | (self.lst ^ other.lst)
            | (self.ect ^ other.ect)
            | (self.p ^ other.p);
        (differ == 0) & (self.presence == other.presence)
    }
}

/// A moment, or a sum of two, in 32 bits, where it has room there.
fn short(n: i64) -> i32 {
    i32::try_from(n).unwrap_or(if n < 0 { i32::MIN } else { i32::MAX })
}

/// Puts a member into the sets at some places, or takes it out where it was.
fn turn<const W: usize>(sets: &mut [PlaceSet<W>], places: PlaceSet<W>, at: usize) {
    let mut places = places;
    for _ in 0..sets.len() {
        let k = places.next();
        // None is left.
        if k >= sets.len() {
            return;
        }
        sets[k].turn(at);
    }
}

fn set_at<const W: usize>(sets: &[PlaceSet<W>], at: usize) -> PlaceSet<W> {
    if at < sets.len() {
        sets[at]
    } else {
        PlaceSet::none()
    }
}

impl<const W: usize> Needs<W> {
    /// Room for as many members, each with this set.
    fn new(alloc: Global, room: usize, none: PlaceSet<W>) -> Result<Needs<W>, NoMemory> {
        Ok(Needs {
            earliest_ends: vec![in alloc; 0; room]?,
            latest_starts: vec![in alloc; 0; room]?,
            before: vec![in alloc; none; room]?,
            behind: vec![in alloc; none; room]?,
        })
    }

    /// Whether there is room for a member at a place.
    fn has_room(&self, at: usize) -> bool
        ensures first { result ≡ true → at < length self.now.earliest_ends.items }
        ensures second { result ≡ true → at < length self.now.latest_starts.items }
        ensures third { result ≡ true → at < length self.now.before.items }
        ensures last { result ≡ true → at < length self.now.behind.items }
    {
        let n = self.earliest_ends.len();
        at < n && self.latest_starts.len() == n && self.before.len() == n && self.behind.len() == n
    }

    /// Notes the earliest end of a member. Who must come before it since.
    fn note_end(&mut self, at: usize, end: i32) -> PlaceSet<W> {
        if !self.has_room(at) || self.earliest_ends[at] == end {
            return PlaceSet::none();
        }
        self.earliest_ends[at] = end;
        let mut row = PlaceSet::below(&self.latest_starts, end);
        row.take_out(at);
        let old = std::mem::replace(&mut self.before[at], row);
        turn(&mut self.behind, row.xor(&old), at);
        row.minus(&old)
    }

    /// Notes the latest start of a member. Before whom it must come since.
    fn note_start(&mut self, at: usize, start: i32) -> PlaceSet<W> {
        if !self.has_room(at) || self.latest_starts[at] == start {
            return PlaceSet::none();
        }
        self.latest_starts[at] = start;
        let mut column = PlaceSet::above(&self.earliest_ends, start);
        column.take_out(at);
        let old = std::mem::replace(&mut self.behind[at], column);
        turn(&mut self.before, column.xor(&old), at);
        column.minus(&old)
    }

    fn before_of(&self, at: usize) -> PlaceSet<W> {
        set_at(&self.before, at)
    }

    fn behind_of(&self, at: usize) -> PlaceSet<W> {
        set_at(&self.behind, at)
    }
}

/// The hint of one who is late on a side behind a set.
fn hint_of<const W: usize>(back: bool, place: usize, on: &SideTimes<W>, set: &PlaceSet<W>) -> Hint {
    let part = on.latest_part(set);
    let start = match on.at_place(place) {
        None => part.end,
        // Under the guess that it starts as early as it may, it starts no later than this.
        Some(one) => i64::from(one.start.min(one.finish.saturating_sub(one.size))),
    };
    Hint {
        back,
        place,
        set: part.set.widened(),
        far: moments_above(part.end, start),
    }
}

impl<const W: usize> Probe<W> {
    /// Room for as many members.
    pub fn new(alloc: Global, members: usize) -> Result<Probe<W>, NoMemory> {
        let none = PlaceSet::none();
        Ok(Probe {
            numbers: vec![in alloc; Noted::ABSENT; members]?,
            present: none,
            absent: PlaceSet::all(),
            needs: Needs::new(alloc, members, none)?,
            first: SideTimes::new(alloc, members)?,
            second: SideTimes::new(alloc, members)?,
        })
    }

    /// Notes whether a member is there.
    fn note_presence(&mut self, k: usize, now: Presence) {
        self.present.take_out(k);
        self.present.put_if(k, now == Presence::Present);
        self.absent.take_out(k);
        self.absent.put_if(k, now == Presence::Absent);
    }

    /// Notes the numbers of a member.
    fn note(&mut self, k: usize, now: Noted) {
        if k >= self.numbers.len() {
            return;
        }
        let old = std::mem::replace(&mut self.numbers[k], now);
        if now.is_same(old) {
            return;
        }
        if now.presence != old.presence || now.p != old.p {
            self.note_presence(k, now.presence);
            self.first.ask_all();
            self.second.ask_all();
        }
        let before = self.needs.note_end(k, now.ect);
        let behind = self.needs.note_start(k, now.lst);
        let (start, finish) = (now.lct.wrapping_neg(), now.est.wrapping_neg());
        self.first
            .note(k, now.est, now.lct, now.p, &self.needs.behind_of(k));
        self.second
            .note(k, start, finish, now.p, &self.needs.before_of(k));
        self.first.due.put_all(&behind);
        self.first.due.put_if(k, !before.is_empty());
        self.second.due.put_all(&before);
        self.second.due.put_if(k, !behind.is_empty());
    }

    /// Reads the members at some places.
    fn read(&mut self, look: &Look<'_>, members: &[Itv], places: PlaceSet<W>) {
        let mut places = places;
        for _ in 0..members.len() {
            let k = places.next();
            // None is left.
            if k >= members.len() {
                return;
            }
            self.note(k, Noted::from(numbers_of(bounds_at(look, members[k]))));
        }
    }

    /// What the sequence is now, of which only the members at some places can be other than they were
    /// read last. Nothing is told of one that has a member of which it isn't known whether it is there.
    pub fn tell(&mut self, region: &Region, members: &[Itv], places: PlaceSet<W>) -> Told {
        if members.len() > self.numbers.len() {
            return Told::Busy;
        }
        self.read(&region.look(None, None), members, places);
        if !self.present.or(&self.absent).is_full() {
            return Told::Busy;
        }
        let present = self.present;
        if self.first.overloads(&self.second, &present)
            || self.second.overloads(&self.first, &present)
        {
            return Told::Busy;
        }
        if let Some(at) = self.first.first_late(&self.needs.before, &present) {
            let set = self.needs.before_of(at).and(&present);
            return Told::Late(hint_of(false, at, &self.first, &set));
        }
        if let Some(at) = self.second.first_late(&self.needs.behind, &present) {
            let set = self.needs.behind_of(at).and(&present);
            return Told::Late(hint_of(true, at, &self.second, &set));
        }
        Told::Still
    }
}
