ghost use Rattle.std.specs.Prelude.{◌≡◌, ℕ, ◌<◌, ◌≤◌, ◌+◌, ◌-◌, ◌||◌, ◌&&◌, not, nat_eq, int_lt, cond, length, IfOk, ℤ, pos, ◌+ℤ◌, ◌≤ℤ◌, neg_ℤ, ◌^◌};
ghost use Rattle.task_sets.specs.laws.Ects.{keep, up_from};
ghost use Rattle.task_sets.specs.laws.Sums.{pick};
ghost use Rattle.theta_passes.specs.code.Rows.{row_at, is_present, says_present, IsNearRow};
ghost use Rattle.theta_passes.specs.code.Parts.{members_with, part_has, cut_has, GivesTop, IsScanned, better_top, scan_with};

use crate::{Presence, Row};
use sched_base::NoMemory;
use std::alloc::Global;

/// Some of the members, by a test of their rows.
#[derive(Clone, Copy, Debug)]
pub enum Part {
    /// All that are present.
    Whole,
    /// Those present, and one more where one is given, that must end by a moment.
    Cut(Option<u32>, i64),
    /// Those present that must end by a moment, and one more whenever it ends.
    CutAnd(i64, u32),
    /// Those present, other than one, that must start before a moment.
    Before(u32, i64),
}

/// The place at which a set begins, and the earliest completion of that set.
#[derive(Clone, Copy, Debug)]
pub struct Top {
    pub place: usize,
    pub value: i64,
}

/// What a scan of the rows from the last one on has seen of a part.
#[derive(Clone, Copy, Debug)]
pub struct Scan {
    /// The sizes of the part's members.
    pub sum: i64,
    /// The latest of the earliest completions of the sets that begin at one of them.
    pub top: Option<Top>,
}

fn is_present(row: Row) -> bool
    ensures { result ≡ says_present row.presence }
{
    row.presence == Presence::Present
}

fn is_one(one: u32, k: usize) -> bool
    ensures { result ≡ nat_eq k one }
{
    k == one as usize
}

fn is_member(row: Row, with: Option<u32>, k: usize) -> bool
    ensures { result ≡ members_with (says_present row.presence) with k }
{
    match with {
        None => is_present(row),
        Some(one) => is_one(one, k) | is_present(row),
    }
}

fn is_in_cut(row: Row, end: i64) -> bool
    ensures { result ≡ cut_has (says_present row.presence) row end }
{
    is_present(row) & (row.lct <= end)
}

fn is_before(row: Row, i: u32, key: i64, k: usize) -> bool
    ensures { result ≡ (says_present row.presence && not (nat_eq k i) && int_lt row.lst key) }
{
    is_present(row) & !is_one(i, k) & (row.lst < key)
}

fn is_with(row: Row, with: Option<u32>, end: i64, k: usize) -> bool
    ensures { result ≡ cut_has (members_with (says_present row.presence) with k) row end }
{
    is_member(row, with, k) & (row.lct <= end)
}

fn has(rows: &[Row], part: Part, k: usize) -> bool
    requires { k < length rows.now }
    ensures { result ≡ part_has rows.now part k }
{
    let row = rows[k];
    match part {
        Part::Whole => is_present(row),
        Part::Cut(with, end) => is_with(row, with, end, k),
        Part::CutAnd(end, one) => is_one(one, k) | is_in_cut(row, end),
        Part::Before(i, key) => is_before(row, i, key, k),
    }
}

fn better_top(top: Option<Top>, place: usize, value: i64) -> Option<Top>
    ensures { result ≡ better_top top place value }
{
    match top {
        Some(best) if value <= best.value => Some(best),
        _ => Some(Top { place, value }),
    }
}

fn plus(a: i64, b: i64) -> i64
    requires from { neg_ℤ (pos (2 ^ 62)) ≤ℤ (a +ℤ b) }
    requires to { (a +ℤ b) ≤ℤ pos (2 ^ 62) }
    ensures { result ≡ a +ℤ b }
{
    a + b
}

/// A number, where it is taken, and else none of it.
fn taken(is_taken: bool, n: i64) -> i64
    requires { pos 0 ≤ℤ n }
    ensures value { result ≡ pick is_taken n }
    ensures low { pos 0 ≤ℤ result }
    ensures high { result ≤ℤ n }
{
    if is_taken { n } else { 0 }
}

fn top_with(is_taken: bool, top: Option<Top>, place: usize, value: i64) -> Option<Top>
    ensures { result ≡ cond is_taken (better_top top place value) top }
{
    let better = better_top(top, place, value);
    if is_taken { better } else { top }
}

/// The scan with one more member, if it is one of the part. Who is follows no pattern, so it takes no branch.
#[tactic(auto, using(crate::proofs::scans::Tops::one_added))]
fn added(scan: Scan, row: Row, k: usize, is_in: bool) -> Scan
    requires near { IsNearRow row }
    requires from { pos 0 ≤ℤ scan.sum }
    requires to { scan.sum ≤ℤ pos 1000000000000 }
    ensures { result ≡ cond is_in (scan_with scan row k) scan }
{
    let sum = plus(scan.sum, taken(is_in, row.p));
    let value = plus(row.est, sum);
    Scan {
        sum,
        top: top_with(is_in, scan.top, k, value),
    }
}

fn scan_at(rows: &[Row], part: Part, k: usize, scan: Scan) -> Scan
    requires few { length rows.now ≤ 500 }
    requires near { (j : ℕ) → IsNearRow (row_at rows.now j) }
    requires within { k < length rows.now }
    requires before { IsScanned rows.now (part_has rows.now part) (k + 1) scan }
    ensures { IsScanned rows.now (part_has rows.now part) k result }
{
    let is_in = has(rows, part, k);
    added(scan, rows[k], k, is_in)
}

/// Where the set of a part begins that has the latest of the earliest completions; with it go all of
/// the part that start no earlier. Inlined, so that each caller's kind of part has a loop of its own:
/// half of the time of a scan went into telling the kinds apart.
#[inline(always)]
#[tactic(auto, using(crate::proofs::scans::Tops::scan_start))]
pub fn top_of(rows: &[Row], part: Part) -> Option<Top>
    requires few { length rows.now ≤ 500 }
    requires near { (k : ℕ) → IsNearRow (row_at rows.now k) }
    ensures { GivesTop rows.now (part_has rows.now part) 0 result }
{
    let mut scan = Scan { sum: 0, top: None };
    let mut k = rows.len();
    while k > 0 {
        k -= 1;
        scan = scan_at(rows, part, k, scan);
    }
    scan.top
}

/// The places of a part from one on.
#[tactic(auto, using(crate::proofs::scans::Scanning::keep_pushed, crate::proofs::scans::Scanning::keep_passed, crate::proofs::scans::Scanning::keep_end))]
pub fn set_from(alloc: Global, rows: &[Row], part: Part, first: usize) -> Result<Vec<u32>, NoMemory>
    requires few { length rows.now ≤ 500 }
    requires within { first ≤ length rows.now }
    ensures { IfOk result (λ v. v.items ≡ keep (part_has rows.now part) (up_from first (length rows.now - first))) }
{
    let mut set = Vec::new(alloc);
    for k in first..rows.len() {
        if has(rows, part, k) {
            set.push(k as u32)?;
        }
    }
    Ok(set)
}
