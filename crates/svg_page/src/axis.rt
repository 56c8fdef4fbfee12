ghost use Rattle.std.specs.Prelude.{◌≡◌, ◌≤◌, fold, neg_ℤ};
ghost use Rattle.sched_model.specs.Data.{horizon};
ghost use Rattle.svg_page.specs.Axis.{axis_between, axis_of, lasting, later, part_of, place, sooner, width};

use sched_model::{H, Slot};

/// The moments that a page shows, from the first to the last.
#[derive(Clone, Copy, Debug, PartialEq, Eq)]
pub struct Axis {
    pub from: i64,
    pub to: i64,
}

fn sooner(t: i64, slot: Slot) -> i64
    ensures { result ≡ sooner t slot }
{
    match slot {
        Slot::Absent => t,
        Slot::Present { s, e: _ } => if s < t { s } else { t },
    }
}

fn later(t: i64, slot: Slot) -> i64
    ensures { result ≡ later t slot }
{
    match slot {
        Slot::Absent => t,
        Slot::Present { s: _, e } => if t < e { e } else { t },
    }
}

fn axis_between(s: i64, e: i64) -> Axis
    ensures { result ≡ axis_between s e }
{
    if s < e {
        return Axis { from: s, to: e };
    }
    if s < H {
        return Axis { from: s, to: s + 1 };
    }
    Axis { from: 0, to: 1 }
}

fn first_start(slots: &[Slot]) -> i64
    ensures { result ≡ fold sooner horizon slots.now }
{
    let mut t = H;
    for slot in slots {
        t = sooner(t, *slot);
    }
    t
}

fn last_end(slots: &[Slot]) -> i64
    ensures { result ≡ fold later (neg_ℤ horizon) slots.now }
{
    let mut t = -H;
    for slot in slots {
        t = later(t, *slot);
    }
    t
}

/// The axis from the first start to the last end.
pub fn axis_of(slots: &[Slot]) -> Axis
    ensures { result ≡ axis_of slots.now }
{
    axis_between(first_start(slots), last_end(slots))
}

/// How long it is from one moment to another, and 0 backwards.
fn lasting(s: i64, e: i64) -> u64
    ensures { result ≡ lasting s e }
{
    if s < e { e.abs_diff(s) } else { 0 }
}

/// How long the axis is.
pub fn axis_length(axis: Axis) -> u64
    ensures { result ≡ lasting axis.from axis.to }
{
    lasting(axis.from, axis.to)
}

fn part_of(n: u128, whole: u64) -> u128
    ensures { result ≡ part_of n whole }
{
    if whole == 0 {
        return 0;
    }
    n / u128::from(whole)
}

/// The place of a moment, in thousandths of the axis.
pub fn place(axis: Axis, t: i64) -> u128
    ensures { result ≡ place axis t }
{
    let part = part_of(1000 * u128::from(lasting(axis.from, t)), axis_length(axis));
    let whole: u128 = 1000;
    whole.min(part)
}

/// How wide what lasts from one moment to another is drawn.
pub fn width(axis: Axis, s: i64, e: i64) -> u128
    ensures { result ≡ width axis s e }
{
    let one: u128 = 1;
    one.max(place(axis, e).saturating_sub(place(axis, s)))
}
