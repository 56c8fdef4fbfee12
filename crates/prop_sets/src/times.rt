//! The members of a sequence on one side, in numbers, and with whose tests are to be made again.
ghost use Rattle.std.specs.Prelude.{◌≡◌, ◌<◌, ◌+◌, length};

use place_sets::PlaceSet;
use sched_base::NoMemory;
use std::alloc::Global;

/// A member on one side: its place, its earliest start, its latest completion and its size. Each has 32
/// bits, so that a sequence takes little room.
#[derive(Clone, Copy, Debug)]
pub struct Times {
    pub place: u32,
    pub start: i32,
    pub finish: i32,
    pub size: i32,
}

impl Times {
    /// The place.
    fn at(&self) -> usize {
        self.place as usize
    }
}

/// Some members, and the earliest completion of all of them.
#[derive(Clone, Copy, Debug)]
pub struct Part<const W: usize> {
    pub set: PlaceSet<W>,
    pub end: i64,
}

/// The members of a sequence on one side, where time goes on or is turned round. Sets of them are sets of
/// their places.
#[derive(Drop)]
pub struct SideTimes<const W: usize> {
    /// The earliest start first.
    members: Vec<Times>,
    /// Where the member at each place stands in that order.
    spots: Vec<u32>,
    /// Who may be late since for those that must come before it.
    pub due: PlaceSet<W>,
    /// With whose earliest start a set may begin that overloads since.
    begins: PlaceSet<W>,
}

/// Whether a member stands before another in the order: of those with one earliest start, the first place
/// comes first, as in the rows.
fn comes_first(one: Times, other: Times) -> bool {
    one.start < other.start || one.start == other.start && one.place < other.place
}

/// Changes the places of two neighbours in the order, and notes where they stand now.
fn swap(members: &mut [Times], spots: &mut [u32], k: usize)
    requires { k + 1 < length members.old }
    ensures { length members.new ≡ length members.old }
{
    let (one, other) = (members[k], members[k + 1]);
    members[k] = other;
    members[k + 1] = one;
    note_spot(spots, other, k);
    note_spot(spots, one, k + 1);
}

/// Notes where a member stands in the order.
fn note_spot(spots: &mut [u32], one: Times, k: usize) {
    if let Some(spot) = spots.get_mut(one.at()) {
        *spot = u32::try_from(k).unwrap_or(0);
    }
}

/// Moves a member back to its place in the order.
fn sink(members: &mut [Times], spots: &mut [u32], from: usize)
    requires { from < length members.old }
    ensures { length members.new ≡ length members.old }
{
    for k in (0..from).rev() {
        if comes_first(members[k], members[k + 1]) {
            return;
        }
        swap(members, spots, k);
    }
}

/// Moves a member on to its place in the order. Those behind which it comes now.
fn rise<const W: usize>(members: &mut [Times], spots: &mut [u32], from: usize) -> PlaceSet<W>
    requires { from < length members.old }
    ensures { length members.new ≡ length members.old }
{
    let mut passed = PlaceSet::none();
    for k in from..members.len() - 1 {
        if comes_first(members[k], members[k + 1]) {
            return passed;
        }
        swap(members, spots, k);
        passed.put(members[k].at());
    }
    passed
}

/// Each bit where a number isn't positive, and none where it is.
fn mask_unless_positive(n: i64) -> i64 {
    n.wrapping_sub(1) >> 63
}

impl<const W: usize> SideTimes<W> {
    /// Room for as many members.
    pub fn new(alloc: Global, room: usize) -> Result<SideTimes<W>, NoMemory> {
        let mut members = Vec::new(alloc);
        let mut spots = Vec::new(alloc);
        for place in 0..u32::try_from(room).unwrap_or(0) {
            members.push(Times {
                place,
                start: 0,
                finish: 0,
                size: 0,
            })?;
            spots.push(place)?;
        }
        Ok(SideTimes {
            members,
            spots,
            due: PlaceSet::none(),
            begins: PlaceSet::none(),
        })
    }

    /// All is to be tested.
    pub fn ask_all(&mut self) {
        self.due = PlaceSet::all();
        self.begins = PlaceSet::all();
    }

    /// Where the member at a place stands in the order.
    fn spot(&self, place: usize) -> usize {
        match self.spots.get(place) {
            None => usize::MAX,
            Some(spot) => *spot as usize,
        }
    }

    /// The member at a place.
    pub fn at_place(&self, place: usize) -> Option<Times> {
        let one = self.members.get(self.spot(place))?;
        Some(*one)
    }

    /// Notes the numbers of the member at a place, where those are given that it must come before.
    pub fn note(&mut self, place: usize, start: i32, finish: i32, size: i32, behind: &PlaceSet<W>) {
        let k = self.spot(place);
        if k >= self.members.len() {
            return;
        }
        let old = self.members[k];
        self.members[k] = Times {
            start,
            finish,
            size,
            ..old
        };
        if start < old.start {
            sink(&mut self.members, &mut self.spots, k);
            self.due.put(old.at());
        }
        if old.start < start {
            let passed = rise(&mut self.members, &mut self.spots, k);
            self.begins.put_all(&passed);
            self.begins.put(old.at());
            self.due.put_all(behind);
        }
    }

    /// Whether a set completes behind a moment.
    fn is_late(&self, start: i32, set: &PlaceSet<W>) -> bool {
        let mut sum: i64 = 0;
        let mut room: i64 = 0;
        for k in (0..self.members.len()).rev() {
            let one = &self.members[k];
            let mask = set.mask_at(one.place);
            sum = sum.wrapping_add(i64::from(one.size) & mask);
            let end = sum.wrapping_add(i64::from(one.start));
            room |= i64::from(start).wrapping_sub(end) & mask;
        }
        room < 0
    }

    /// The first that is present and late for those of the present ones that must come before it. Whoever
    /// isn't late is not to be asked about again.
    pub fn first_late(&mut self, before: &[PlaceSet<W>], present: &PlaceSet<W>) -> Option<usize> {
        let late = self.late_of(before, present);
        self.due = late;
        if late.is_empty() {
            return None;
        }
        self.first_of(&late)
    }

    /// Who of those that may be late since is.
    fn late_of(&self, before: &[PlaceSet<W>], present: &PlaceSet<W>) -> PlaceSet<W> {
        let mut due = self.due.and(present);
        let mut late = PlaceSet::none();
        for _ in 0..before.len() {
            let at = due.next();
            // None is left.
            if at >= before.len() {
                break;
            }
            if self.is_behind(at, &before[at].and(present)) {
                late.put(at);
            }
        }
        late
    }

    /// Whether a set completes behind the start of a member.
    fn is_behind(&self, place: usize, set: &PlaceSet<W>) -> bool {
        if set.is_empty() {
            return false;
        }
        match self.at_place(place) {
            None => false,
            Some(one) => self.is_late(one.start, set),
        }
    }

    /// The first of a set in the order.
    fn first_of(&self, set: &PlaceSet<W>) -> Option<usize> {
        for one in &self.members {
            if set.contains(one.at()) {
                return Some(one.at());
            }
        }
        None
    }

    /// Of a set the part that completes latest: those that start no earlier than one of it.
    pub fn latest_part(&self, set: &PlaceSet<W>) -> Part<W> {
        let mut part = Part {
            set: PlaceSet::none(),
            end: i64::MIN,
        };
        let mut seen = PlaceSet::none();
        let mut sum: i64 = 0;
        for k in (0..self.members.len()).rev() {
            let one = &self.members[k];
            if !set.contains(one.at()) {
                continue;
            }
            seen.put(one.at());
            sum = sum.wrapping_add(i64::from(one.size));
            let end = sum.wrapping_add(i64::from(one.start));
            if end > part.end {
                part = Part { set: seen, end };
            }
        }
        part
    }

    /// Whether a set of those present that begins at a moment on the other side overloads. On this side time
    /// is turned round.
    fn overloads_from(&self, begin: i32, present: &PlaceSet<W>) -> bool {
        let begin = i64::from(begin);
        let mut end = begin;
        let mut room: i64 = 0;
        for k in (0..self.members.len()).rev() {
            let one = &self.members[k];
            let starts = mask_unless_positive(begin.wrapping_add(i64::from(one.finish)));
            let mask = present.mask_at(one.place) & starts;
            end = end.wrapping_add(i64::from(one.size) & mask);
            room |= i64::from(one.start).wrapping_add(end).wrapping_neg() & mask;
        }
        room < 0
    }

    /// Whether a set of those present overloads.
    pub fn overloads(&mut self, other: &SideTimes<W>, present: &PlaceSet<W>) -> bool {
        let overloading = self.overloading(other, present);
        self.begins = overloading;
        !overloading.is_empty()
    }

    /// With whose earliest start a set begins that overloads, of those with whom one may since.
    fn overloading(&self, other: &SideTimes<W>, present: &PlaceSet<W>) -> PlaceSet<W> {
        let mut begins = self.begins.and(present);
        let mut overloading = PlaceSet::none();
        for _ in 0..self.members.len() {
            let at = begins.next();
            // None is left.
            if at >= self.members.len() {
                break;
            }
            if self.begins_overload(other, at, present) {
                overloading.put(at);
            }
        }
        overloading
    }

    /// Whether a set of those present that begins with the earliest start of a member overloads.
    fn begins_overload(&self, other: &SideTimes<W>, place: usize, present: &PlaceSet<W>) -> bool {
        match self.at_place(place) {
            None => false,
            Some(one) => other.overloads_from(one.start, present),
        }
    }
}
