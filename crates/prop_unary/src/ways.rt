//! Sets of places of those to whom each member of a sequence stands in some way.
use place_sets::PlaceSet;
use sched_base::NoMemory;
use std::alloc::Global;

/// The set at a place, which is empty where there is none.
pub fn set_at<const W: usize>(sets: &[PlaceSet<W>], at: usize) -> PlaceSet<W> {
    if at < sets.len() {
        sets[at]
    } else {
        PlaceSet::none()
    }
}

/// Of each member a set of places, where two stand in one another's or in neither's.
#[derive(Debug, Drop)]
pub struct Table<const W: usize> {
    rows: Vec<PlaceSet<W>>,
    /// Whose rows aren't empty.
    filled: PlaceSet<W>,
}

impl<const W: usize> Table<W> {
    /// Nobody stands so with another yet.
    pub fn new(alloc: Global, room: usize) -> Result<Table<W>, NoMemory> {
        Ok(Table {
            rows: vec![in alloc; PlaceSet::none(); room]?,
            filled: PlaceSet::none(),
        })
    }

    /// The row of a member.
    pub fn row(&self, at: usize) -> PlaceSet<W> {
        set_at(&self.rows, at)
    }

    /// Whether nobody stands so with another.
    pub fn is_empty(&self) -> bool {
        self.filled.is_empty()
    }

    /// Puts another row of a member in the place of its row.
    fn turn(&mut self, at: usize, row: PlaceSet<W>) {
        if at >= self.rows.len() {
            return;
        }
        self.rows[at] = row;
        if row.is_empty() {
            self.filled.take_out(at);
        } else {
            self.filled.put(at);
        }
    }

    /// Turns a member in the row of another.
    fn turn_in(&mut self, at: usize, k: usize) {
        let mut row = self.row(at);
        row.turn(k);
        self.turn(at, row);
    }

    /// Puts the row of a member, and what it says of others into theirs.
    pub fn put(&mut self, at: usize, row: PlaceSet<W>) {
        let mut changed = row.xor(&self.row(at));
        if changed.is_empty() {
            return;
        }
        for _ in 0..self.rows.len() {
            let k = changed.next();
            // None is left.
            if k >= self.rows.len() {
                break;
            }
            self.turn_in(k, at);
        }
        self.turn(at, row);
    }
}

/// Of each member those to whom it stands in some way, which may be another way than they stand to it, and
/// those who stand so to it.
#[derive(Debug, Drop)]
pub struct Ways<const W: usize> {
    forth: Table<W>,
    back: Table<W>,
}

/// Puts the row of a member, and turns it in those rows of another table whose members are in one of its old and
/// its new row alone.
fn cross<const W: usize>(table: &mut Table<W>, other: &mut Table<W>, at: usize, row: PlaceSet<W>) {
    let mut changed = row.xor(&table.row(at));
    if changed.is_empty() {
        return;
    }
    for _ in 0..other.rows.len() {
        let k = changed.next();
        // None is left.
        if k >= other.rows.len() {
            break;
        }
        other.turn_in(k, at);
    }
    table.turn(at, row);
}

impl<const W: usize> Ways<W> {
    /// Nobody stands so to another yet.
    pub fn new(alloc: Global, members: usize) -> Result<Ways<W>, NoMemory> {
        Ok(Ways {
            forth: Table::new(alloc, members)?,
            back: Table::new(alloc, members)?,
        })
    }

    /// To whom a member stands so, and who to it.
    pub fn put(&mut self, at: usize, forth: PlaceSet<W>, back: PlaceSet<W>) {
        cross(&mut self.forth, &mut self.back, at, forth);
        cross(&mut self.back, &mut self.forth, at, back);
    }

    /// To whom a member stands so.
    pub fn forth(&self, at: usize) -> PlaceSet<W> {
        self.forth.row(at)
    }

    /// To whom a member stands so, or who to it.
    pub fn either(&self, at: usize) -> PlaceSet<W> {
        self.forth.row(at).or(&self.back.row(at))
    }
}
