//! The cells of a region as one list of numbers, and what is written into them.
ghost use Rattle.std.specs.Prelude.{◌≡◌, ◌+◌, ◌*◌, ◌++◌, ◌<◌, ◌≤◌, [], length, map, pos, slice_index_or, slice_set, IsTrue, IfOk, IsOk, OnOk, OnErr};
ghost use Rattle.std.specs.List.{flat_map};
ghost use Rattle.std.proofs.Math.ListN.{replicate};
ghost use Rattle.sched_model.specs.Valid.{is_moment, IsValid};
ghost use Rattle.region.specs.Cells.{unknown, cells_of};
ghost use Rattle.region.specs.declared.types.Topic.TheVariants.{Two};
ghost use Rattle.region.specs.declared.types.CellName.TheVariants.{Order};
ghost use Rattle.region.specs.Claims.{claim_cell, denial_cell};
ghost use Rattle.region.specs.Orders.{order_in, reversed};
ghost use Rattle.region.specs.Looks.{HasMoments};
ghost use Rattle.region.specs.Guesses.{assumed_cell, refused_cell};
ghost use Rattle.region.specs.code.Flat.{Form, number_at, pairs_in, AreCells, IsNamed, bounds_from, region_from, presence_from, order_from, number_place, claim_number, denial_number, assumed_number, refused_number, order_number, size_range, first_numbers, form_of, root_numbers, bounds_under, order_under};

use crate::claims::{as_present, claim_cell, denial_cell, guessed};
use crate::frame::{Frame, order_place};
use crate::types::{Bounds, CellName, Claim, OrderCell, Presence, SizeRange, Topic};
use sched_base::{Itv, List, NoMemory, Seq};
use sched_model::{IntervalDef, Model};
use std::alloc::Global;
use trail::Cells;

/// How many cells an interval has.
const CELLS_EACH: usize = 5;

// The numbers of presences.
const ABSENT: i64 = 0;

const PRESENT: i64 = 1;

const MAYBE: i64 = 2;

// The numbers of orders.
const UNKNOWN: i64 = 0;

const FORWARD: i64 = 1;

const BACKWARD: i64 = 2;

fn presence_from(number: i64) -> Presence
    ensures { result ≡ presence_from number }
{
    match number {
        0 => Presence::Absent,
        1 => Presence::Present,
        _ => Presence::Maybe,
    }
}

fn order_from(number: i64) -> OrderCell
    ensures { result ≡ order_from number }
{
    match number {
        1 => OrderCell::Forward,
        2 => OrderCell::Backward,
        _ => OrderCell::Unknown,
    }
}

/// What is told where the two are named the other way round.
fn reversed(order: OrderCell) -> OrderCell
    ensures { result ≡ reversed order }
{
    match order {
        OrderCell::Unknown => OrderCell::Unknown,
        OrderCell::Forward => OrderCell::Backward,
        OrderCell::Backward => OrderCell::Forward,
    }
}

/// The bounds of the interval of this number.
pub fn read_bounds(frame: &Frame, cells: &[i64], n: usize) -> Bounds
    requires within { n < length frame.now.sizes }
    requires cells { AreCells frame.now cells.now }
    ensures value { result ≡ slice_index_or (bounds_from frame.now.sizes cells.now) n unknown }
    ensures moments { HasMoments result }
{
    let first = CELLS_EACH * n;
    let size = frame.size(n);
    Bounds {
        presence: presence_from(cells[first]),
        smin: cells[first + 1],
        smax: cells[first + 2],
        emin: cells[first + 3],
        emax: cells[first + 4],
        pmin: size.least,
        pmax: size.greatest,
    }
}

/// One of the five numbers of an interval.
pub fn read_number(frame: &Frame, cells: &[i64], n: usize, k: usize) -> i64
    requires within { n < length frame.now.sizes }
    requires cells { AreCells frame.now cells.now }
    requires five { k < 5 }
    ensures value { result ≡ number_at cells.now (5 * n + k) }
    ensures moment { IsTrue (is_moment result) }
{
    cells[CELLS_EACH * n + k]
}

/// Whether the interval of this number is there.
pub fn read_presence(frame: &Frame, cells: &[i64], n: usize) -> Presence
    requires within { n < length frame.now.sizes }
    requires cells { AreCells frame.now cells.now }
    ensures { result ≡ (slice_index_or (bounds_from frame.now.sizes cells.now) n unknown).presence }
{
    presence_from(read_number(frame, cells, n, 0))
}

/// The declared least size of the interval of this number.
pub fn read_least(frame: &Frame, cells: &[i64], n: usize) -> i64
    requires within { n < length frame.now.sizes }
    requires cells { AreCells frame.now cells.now }
    ensures value { result ≡ (slice_index_or (bounds_from frame.now.sizes cells.now) n unknown).pmin }
    ensures moment { IsTrue (is_moment result) }
{
    frame.size(n).least
}

/// The declared greatest size of the interval of this number.
pub fn read_greatest(frame: &Frame, cells: &[i64], n: usize) -> i64
    requires within { n < length frame.now.sizes }
    requires cells { AreCells frame.now cells.now }
    ensures value { result ≡ (slice_index_or (bounds_from frame.now.sizes cells.now) n unknown).pmax }
    ensures moment { IsTrue (is_moment result) }
{
    frame.size(n).greatest
}

/// Which of two members of a sequence stands before the other; of one alone, and of others than
/// members, nothing is known.
pub fn read_order(frame: &Frame, cells: &[i64], p: Seq, x: Itv, y: Itv) -> OrderCell
    requires { AreCells frame.now cells.now }
    ensures { result ≡ order_in (cells_of (region_from frame.now cells.now) p) x y }
{
    if p.0 as usize >= frame.sequences() {
        return OrderCell::Unknown;
    }
    let row = frame.row(p);
    let members = row.members.len();
    let i = row.place(x);
    let j = row.place(y);
    if i == members || j == members || i == j {
        return OrderCell::Unknown;
    }
    let order = order_from(cells[row.start + order_place(i, j)]);
    if i < j { order } else { reversed(order) }
}

/// The bounds of the interval of this number where the topic is assumed.
pub fn bounds_under(topic: Topic, n: usize, c: Bounds) -> Bounds
    ensures { result ≡ bounds_under topic n c }
{
    match topic {
        Topic::One(x, claim) => {
            if x.0 as usize == n {
                guessed(claim, c)
            } else {
                c
            }
        }
        Topic::Two(_, x, y) => {
            if x.0 as usize == n || y.0 as usize == n {
                as_present(c)
            } else {
                c
            }
        }
    }
}

/// The least start of the interval of this number where the topic is assumed.
pub fn smin_under(topic: Topic, n: usize, smin: i64) -> i64
    ensures { (c : Bounds) → c.smin ≡ smin → result ≡ (bounds_under topic n c).smin }
{
    let Topic::One(x, Claim::StartGe(t)) = topic else {
        return smin;
    };
    if x.0 as usize == n { t } else { smin }
}

/// The greatest start of the interval of this number where the topic is assumed.
pub fn smax_under(topic: Topic, n: usize, smax: i64) -> i64
    ensures { (c : Bounds) → c.smax ≡ smax → result ≡ (bounds_under topic n c).smax }
{
    let Topic::One(x, Claim::StartLe(t)) = topic else {
        return smax;
    };
    if x.0 as usize == n { t } else { smax }
}

/// The least end of the interval of this number where the topic is assumed.
pub fn emin_under(topic: Topic, n: usize, emin: i64) -> i64
    ensures { (c : Bounds) → c.emin ≡ emin → result ≡ (bounds_under topic n c).emin }
{
    let Topic::One(x, Claim::EndGe(t)) = topic else {
        return emin;
    };
    if x.0 as usize == n { t } else { emin }
}

/// The greatest end of the interval of this number where the topic is assumed.
pub fn emax_under(topic: Topic, n: usize, emax: i64) -> i64
    ensures { (c : Bounds) → c.emax ≡ emax → result ≡ (bounds_under topic n c).emax }
{
    let Topic::One(x, Claim::EndLe(t)) = topic else {
        return emax;
    };
    if x.0 as usize == n { t } else { emax }
}

/// Whether the interval of this number is there, where the topic is assumed.
pub fn presence_under(topic: Topic, n: usize, presence: Presence) -> Presence
    ensures { (c : Bounds) → c.presence ≡ presence → result ≡ (bounds_under topic n c).presence }
{
    match topic {
        Topic::One(x, claim) => {
            if x.0 as usize != n {
                return presence;
            }
            match claim {
                Claim::Absent => Presence::Absent,
                _ => Presence::Present,
            }
        }
        Topic::Two(_, x, y) => {
            if x.0 as usize == n || y.0 as usize == n {
                Presence::Present
            } else {
                presence
            }
        }
    }
}

/// The order of two members where the topic is assumed.
pub fn order_under(topic: Topic, p: Seq, a: Itv, b: Itv, order: OrderCell) -> OrderCell
    ensures { result ≡ order_under topic p a b order }
{
    let Topic::Two(q, x, y) = topic else {
        return order;
    };
    if q != p {
        return order;
    }
    if x == a && y == b {
        return OrderCell::Forward;
    }
    if x == b && y == a {
        return OrderCell::Backward;
    }
    order
}

/// One number to write: the name of its cell, its place and the number.
#[derive(Clone, Copy, Debug)]
pub struct CellWrite {
    pub cell: CellName,
    pub place: usize,
    pub number: i64,
}

/// What a claim writes where it is ready.
fn claim_write(x: Itv, claim: Claim) -> CellWrite
    ensures cell { result.cell ≡ claim_cell x claim }
    ensures place { (f : Form) → result.place ≡ number_place f (claim_cell x claim) }
    ensures number { result.number ≡ claim_number claim }
{
    let first = CELLS_EACH * x.0 as usize;
    let cell = claim_cell(x, claim);
    let (place, number) = match claim {
        Claim::Present => (first, PRESENT),
        Claim::Absent => (first, ABSENT),
        Claim::StartLe(t) => (first + 2, t),
        Claim::StartGe(t) => (first + 1, t),
        Claim::EndLe(t) => (first + 4, t),
        Claim::EndGe(t) => (first + 3, t),
    };
    CellWrite {
        cell,
        place,
        number,
    }
}

/// What its fact writes.
fn denial_write(x: Itv, claim: Claim) -> CellWrite
    requires { IsTrue (is_moment (denial_number claim)) }
    ensures cell { result.cell ≡ denial_cell x claim }
    ensures place { (f : Form) → result.place ≡ number_place f (denial_cell x claim) }
    ensures number { result.number ≡ denial_number claim }
{
    let first = CELLS_EACH * x.0 as usize;
    let cell = denial_cell(x, claim);
    let (place, number) = match claim {
        Claim::Present => (first, ABSENT),
        Claim::Absent => (first, PRESENT),
        Claim::StartLe(t) => (first + 1, t + 1),
        Claim::StartGe(t) => (first + 2, t - 1),
        Claim::EndLe(t) => (first + 3, t + 1),
        Claim::EndGe(t) => (first + 4, t - 1),
    };
    CellWrite {
        cell,
        place,
        number,
    }
}

/// What tells the first of two members to stand before the second.
fn order_write(frame: &Frame, p: Seq, x: Itv, y: Itv) -> CellWrite
    requires { IsNamed frame.now (Two p x y) }
    ensures cell { result.cell ≡ Order p x y }
    ensures place { result.place ≡ number_place frame.now (Order p x y) }
    ensures number { result.number ≡ assumed_number frame.now (Two p x y) }
{
    let row = frame.row(p);
    let i = row.place(x);
    let j = row.place(y);
    CellWrite {
        cell: CellName::Order(p, x, y),
        place: row.start + order_place(i, j),
        number: if i < j { FORWARD } else { BACKWARD },
    }
}

/// What is written where a guess that splits is assumed.
pub fn assumed_write(frame: &Frame, topic: Topic) -> CellWrite
    requires { IsNamed frame.now topic }
    ensures cell { result.cell ≡ assumed_cell topic }
    ensures place { result.place ≡ number_place frame.now (assumed_cell topic) }
    ensures number { result.number ≡ assumed_number frame.now topic }
{
    match topic {
        Topic::One(x, claim) => claim_write(x, claim),
        Topic::Two(p, x, y) => order_write(frame, p, x, y),
    }
}

/// What a fact writes: of two members of which the first doesn't stand before the second, that the
/// second stands before the first.
pub fn refused_write(frame: &Frame, topic: Topic) -> CellWrite
    requires named { IsNamed frame.now topic }
    requires moment { IsTrue (is_moment (refused_number frame.now topic)) }
    ensures cell { result.cell ≡ refused_cell topic }
    ensures place { result.place ≡ number_place frame.now (refused_cell topic) }
    ensures number { result.number ≡ refused_number frame.now topic }
{
    match topic {
        Topic::One(x, claim) => denial_write(x, claim),
        Topic::Two(p, x, y) => order_write(frame, p, y, x),
    }
}

/// Writes a number into its cell, which is answered.
pub fn write(cells: &mut Cells, to: CellWrite) -> Result<CellName, NoMemory>
    requires { to.place < length cells.old.list }
    ensures cell { IfOk result (λ c. c ≡ to.cell) }
    ensures ok { OnOk result (cells.new ≡ record cells.old {
      list = slice_set cells.old.list to.place to.number;
      spare = cells.new.spare;
    }) }
    ensures err { OnErr result (cells.new ≡ cells.old) }
    ensures spends { cells.old.spare ≤ cells.new.spare + 1 }
    ensures given { 0 < cells.old.spare → IsOk result }
    ensures unsaved { cells.old.saved ≡ [] → IsOk result × (cells.new.spare ≡ cells.old.spare) }
{
    cells.set(to.place, to.number)?;
    Ok(to.cell)
}

fn size_range(d: &IntervalDef) -> SizeRange
    ensures { result ≡ size_range d.now }
{
    SizeRange {
        least: d.size_lo,
        greatest: d.size_hi,
    }
}

fn first_numbers(d: &IntervalDef) -> [i64; 5]
    ensures { result ≡ first_numbers d.now }
{
    if d.optional {
        return [MAYBE, d.start_lo, d.start_hi, d.end_lo, d.end_hi];
    }
    [PRESENT, d.start_lo, d.start_hi, d.end_lo, d.end_hi]
}

/// The ranges of sizes and the numbers of intervals as declared.
fn declared(alloc: Global, defs: &[IntervalDef]) -> Result<(List<SizeRange>, Vec<i64>), NoMemory>
    ensures sizes { IfOk result (λ r. r.0 ≡ map size_range defs.now) }
    ensures cells { IfOk result (λ r. r.1.items ≡ flat_map first_numbers defs.now) }
{
    let mut sizes = Vec::new(alloc);
    let mut cells = Vec::new(alloc);
    for d in defs {
        sizes.push(size_range(d))?;
        cells.extend_from_slice(&first_numbers(d))?;
    }
    Ok((List::from_vec(sizes), cells))
}

/// Behind them, that no order is known.
fn with_orders(frame: &Frame, cells: Vec<i64>) -> Result<List<i64>, NoMemory>
    requires { length cells.items ≡ 5 * length frame.now.sizes }
    ensures { IfOk result (λ r. r ≡ cells.items ++ replicate (pairs_in frame.now.members) (pos 0)) }
{
    let mut cells = cells;
    cells.resize(frame.cells(), UNKNOWN)?;
    Ok(List::from_vec(cells))
}

/// The frame of a model and the numbers of its root: each interval as declared, and no order known.
pub fn first_cells(alloc: Global, model: &Model) -> Result<(Frame, List<i64>), NoMemory>
    ensures frame { IfOk result (λ r. r.0 ≡ form_of model.now) }
    ensures cells { IfOk result (λ r. r.1 ≡ root_numbers model.now) }
    ensures valid { IsValid model.now }
{
    let (sizes, cells) = declared(alloc, model.intervals())?;
    let frame = Frame::new(alloc, sizes, model.sequences())?;
    let cells = with_orders(&frame, cells)?;
    Ok((frame, cells))
}
