ghost use Rattle.std.specs.Prelude.{◌≡◌, ◌+◌, ◌*◌, ◌≤◌, ◌<◌, ◌&&◌, length, map, nat_le, nat_lt, slice_index_or, IfOk, IsTrue};
ghost use Rattle.std.specs.List.{list_all};
ghost use Rattle.sched_model.specs.Valid.{pair_count};
ghost use Rattle.region.specs.Orders.{order_place, place_of};
ghost use Rattle.region.specs.code.Flat.{AreRows, IsRow, fits_frame, members_at, pairs_before, pairs_in};

use crate::types::SizeRange;
use sched_base::{Itv, List, NoMemory, Seq};
use sched_model::SequenceDef;
use std::alloc::Global;
use std::marker::Model;

/// One sequence: its members, the place where its cells begin, and the place of each interval among
/// the members, which for another interval is how many these are.
#[derive(Debug, Drop)]
pub struct Row {
    pub members: List<Itv>,
    pub start: usize,
    places: List<u32>,
}

/// What doesn't change in a region: the declared ranges of sizes, and the sequences.
#[derive(Debug, Drop)]
pub struct Frame {
    sizes: List<SizeRange>,
    rows: List<Row>,
    /// How many numbers a region of this frame has.
    cells: usize,
}

impl Model for Frame {
    ghost use Rattle.std.specs.Prelude.{◌*◌, length, map};
    ghost use Rattle.region.specs.code.Flat.{Form, IsFrame};

    ghost Value = { Form };

    ghost view = { λ f. record { sizes = f.sizes; members = map (λ row. row.members) f.rows } };

    ghost invariant = { λ f. IsFrame f.sizes f.rows f.cells };
}

impl Frame {
    /// The frame of these ranges of sizes and these sequences.
    pub fn new(
        alloc: Global,
        sizes: List<SizeRange>,
        sequences: &[SequenceDef],
    ) -> Result<Frame, NoMemory>
        requires few { length sizes ≤ 2000 }
        requires sequences { IsTrue (nat_le (length sequences.now) 200 && list_all (fits_frame (length sizes)) sequences.now) }
        ensures { IfOk result (λ f. f ≡ record { sizes = sizes; members = map (λ d. d.members) sequences.now }) }
    {
        let (rows, cells) = rows(alloc, sizes.len(), sequences)?;
        Ok(Frame { sizes, rows, cells })
    }

    /// How many intervals there are.
    pub fn len(&self) -> usize
        ensures { result ≡ length self.now.sizes }
    {
        self.sizes.len()
    }

    /// The declared range of sizes of the interval of this number.
    pub fn size(&self, n: usize) -> SizeRange
        requires { n < length self.now.sizes }
        ensures { (d : SizeRange) → result ≡ slice_index_or self.now.sizes n d }
    {
        *self.sizes.get(n)
    }

    /// How many sequences there are.
    pub fn sequences(&self) -> usize
        ensures value { result ≡ length self.now.members }
        ensures few { result ≤ 200 }
    {
        self.rows.len()
    }

    /// How many numbers a region of this frame has.
    pub fn cells(&self) -> usize
        ensures { result ≡ 5 * length self.now.sizes + pairs_in self.now.members }
    {
        self.cells
    }

    /// The sequence of this number.
    pub fn row(&self, p: Seq) -> &Row
        requires { p.0 < length self.now.members }
        ensures members { result.now.members ≡ members_at self.now p }
        ensures row { IsRow (5 * length self.now.sizes + pairs_before self.now.members p.0) result.now }
    {
        self.rows.get(p.0 as usize)
    }
}

impl Row {
    /// The place of an interval among the members.
    pub fn place(&self, x: Itv) -> usize
        requires { (y : Itv) → slice_index_or self.now.places y.0 (length self.now.members) ≡ place_of self.now.members y }
        ensures value { result ≡ place_of self.now.members x }
        ensures within { result ≤ length self.now.members }
    {
        match self.places.as_slice().get(x.0 as usize) {
            Some(k) => *k as usize,
            None => self.members.len(),
        }
    }
}

fn copied(alloc: Global, members: &[Itv]) -> Result<List<Itv>, NoMemory>
    ensures { IfOk result (λ ms. ms ≡ members.now) }
{
    let mut list = Vec::new(alloc);
    list.extend_from_slice(members)?;
    Ok(List::from_vec(list))
}

/// Writes the place of each member; the first place where one stands twice.
fn note_places(places: &mut Vec<u32>, members: &[Itv])
    requires few { length members.now ≤ 500 }
    requires within { IsTrue (list_all (λ x. nat_lt x.0 (length places.old.items)) members.now) }
    requires blank { (x : Itv) → slice_index_or places.old.items x.0 (length members.now) ≡ length members.now }
    ensures { (x : Itv) → slice_index_or places.new.items x.0 (length members.now) ≡ place_of members.now x }
{
    let mut left = members.len();
    while left > 0 {
        left -= 1;
        places[members[left].0 as usize] = left as u32;
    }
}

/// The place of each of `n` intervals among the members.
fn places(alloc: Global, n: usize, members: &[Itv]) -> Result<List<u32>, NoMemory>
    requires few { length members.now ≤ 500 }
    requires within { IsTrue (list_all (λ x. nat_lt x.0 n) members.now) }
    ensures { IfOk result (λ ps. (x : Itv) → slice_index_or ps x.0 (length members.now) ≡ place_of members.now x) }
{
    let mut places = vec![in alloc; members.len() as u32; n]?;
    note_places(&mut places, members);
    Ok(List::from_vec(places))
}

fn row_of(alloc: Global, n: usize, start: usize, d: &SequenceDef) -> Result<Row, NoMemory>
    requires near { start ≤ 100000000 }
    requires fits { IsTrue (fits_frame n d.now) }
    ensures members { IfOk result (λ row. row.members ≡ d.now.members) }
    ensures row { IfOk result (IsRow start) }
{
    let members = d.members.as_slice();
    let places = places(alloc, n, members)?;
    let members = copied(alloc, members)?;
    Ok(Row {
        members,
        start,
        places,
    })
}

/// The rows of the sequences, behind the cells of `n` intervals, and where their cells end.
fn rows(alloc: Global, n: usize, sequences: &[SequenceDef]) -> Result<(List<Row>, usize), NoMemory>
    requires few { n ≤ 2000 }
    requires sequences { IsTrue (nat_le (length sequences.now) 200 && list_all (fits_frame n) sequences.now) }
    ensures members { IfOk result (λ r. map (λ row. row.members) r.0 ≡ map (λ d. d.members) sequences.now) }
    ensures rows { IfOk result (λ r. AreRows (5 * n) r.0) }
    ensures few { IfOk result (λ r. length r.0 ≤ 200) }
    ensures cells { IfOk result (λ r. r.1 ≡ 5 * n + pairs_in (map (λ row. row.members) r.0)) }
{
    let mut rows = Vec::new(alloc);
    let mut start = 5 * n;
    for d in sequences {
        rows.push(row_of(alloc, n, start, d)?)?;
        start += pair_count(d.members.len());
    }
    Ok((List::from_vec(rows), start))
}

/// How many cells stand before those of the member at place `j`.
fn pair_count(j: usize) -> usize
    requires { j ≤ 500 }
    ensures value { result ≡ pair_count j }
    ensures few { result ≤ 125000 }
{
    (j * j - j) / 2
}

/// The place of the cell of the members at the places `i` and `j`, which differ.
pub fn order_place(i: usize, j: usize) -> usize
    requires one { i ≤ 500 }
    requires other { j ≤ 500 }
    ensures value { result ≡ order_place i j }
    ensures few { result ≤ 125500 }
{
    if i < j {
        return pair_count(j) + i;
    }
    pair_count(i) + j
}
