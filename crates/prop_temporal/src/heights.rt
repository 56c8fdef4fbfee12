//! Heights of points, and whether they fall along arcs.
ghost use Rattle.std.specs.Prelude.{◌≡◌, ◌+ℤ◌, true, int_lt, length};
ghost use Rattle.prop_temporal.specs.code.Heights.{AllKeep, height_in, height_with};

use refute_basic::Arc;

/// Whether the tail stands less than the weight above the head.
pub fn is_late(weight: i64, head: i64, tail: i64) -> bool
    ensures { result ≡ int_lt tail (weight +ℤ head) }
{
    i128::from(tail) < i128::from(weight) + i128::from(head)
}

/// Whether the tail stands more than the weight above the head.
pub fn is_beyond(weight: i64, head: i64, tail: i64) -> bool
    ensures { result ≡ int_lt (weight +ℤ head) tail }
{
    i128::from(weight) + i128::from(head) < i128::from(tail)
}

pub fn height(heights: &[i64], p: usize) -> i64
    ensures { result ≡ height_in heights.now p }
{
    match heights.get(p) {
        None => 0,
        Some(h) => *h,
    }
}

/// Heights of the two points of an interval.
#[derive(Clone, Copy, Debug, PartialEq, Eq)]
pub struct Pair {
    pub start: i64,
    pub end: i64,
}

fn height_with(heights: &[i64], x: u32, pair: Pair, p: usize) -> i64
    ensures { result ≡ height_with heights.now x pair.start pair.end p }
{
    if p == 2 * (x as usize) {
        return pair.start;
    }
    if p == 2 * (x as usize) + 1 {
        return pair.end;
    }
    height(heights, p)
}

/// Whether along each arc the height falls by its weight at least, where the two points of an interval
/// have these heights.
pub fn hold_with(arcs: &[Arc], heights: &[i64], x: u32, pair: Pair) -> bool
    ensures { result ≡ true → AllKeep (height_with heights.now x pair.start pair.end) arcs.now }
{
    for k in 0..arcs.len() {
        let a = arcs[k];
        if is_late(
            a.weight,
            height_with(heights, x, pair, a.head),
            height_with(heights, x, pair, a.tail),
        ) {
            return false;
        }
    }
    true
}

/// The heights that an arc asks of the points of the interval.
fn raised(heights: &[i64], x: u32, pair: Pair, a: Arc) -> Pair {
    let asked = a
        .weight
        .saturating_add(height_with(heights, x, pair, a.head));
    if a.tail == 2 * (x as usize) {
        return Pair {
            start: pair.start.max(asked),
            end: pair.end,
        };
    }
    if a.tail == 2 * (x as usize) + 1 {
        return Pair {
            start: pair.start,
            end: pair.end.max(asked),
        };
    }
    pair
}

/// The least heights of the points of an interval that these arcs ask for, if any will do: each pass
/// takes over what one point asks of the other.
pub fn least_heights(arcs: &[Arc], heights: &[i64], x: u32) -> Pair {
    let mut pair = Pair {
        start: i64::MIN / 2,
        end: i64::MIN / 2,
    };
    for _ in 0..3 {
        for a in arcs {
            pair = raised(heights, x, pair, *a);
        }
    }
    pair
}
