ghost use Rattle.std.specs.Prelude.{◌≡◌, ◌<◌, ◌^◌, ◌++◌, ◌≤ℤ◌, OnOk, neg_ℤ, pos};
ghost use Rattle.svg_page.specs.Axis.{first_tick, on_axis, step_for, step_in, tick, tick_text, ticks, ticks_by};

use crate::axis::{Axis, axis_length, place};
use crate::text::{push, push_count, push_number};
use sched_base::NoMemory;

/// The round lengths of time: 1, 2 and 5 times a power of ten.
const ROUND_STEPS: [u32; 26] = [
    1,
    2,
    5,
    10,
    20,
    50,
    100,
    200,
    500,
    1_000,
    2_000,
    5_000,
    10_000,
    20_000,
    50_000,
    100_000,
    200_000,
    500_000,
    1_000_000,
    2_000_000,
    5_000_000,
    10_000_000,
    20_000_000,
    50_000_000,
    100_000_000,
    200_000_000,
];

/// The least of some lengths of which ten are so long.
fn step_in(steps: &[u32], long: u64) -> u32
    ensures { result ≡ step_in steps.now long }
{
    for k in steps {
        if long <= 10 * u64::from(*k) {
            return *k;
        }
    }
    500_000_000
}

/// The least round length of time of which ten are so long.
fn step_for(long: u64) -> u32
    ensures value { result ≡ step_for long }
    ensures some { 0 < result }
{
    let one: u32 = 1;
    one.max(step_in(&ROUND_STEPS, long))
}

fn push_tick_text(page: &mut Vec<u8>, height: u128, x: u128, t: i64) -> Result<(), NoMemory>
    ensures { OnOk result (page.new.items ≡ page.old.items ++ tick_text height x t) }
{
    push_count(page, b"<path class='g' d='M", x)?;
    push_count(page, b" -4V", height)?;
    push_count(page, b"'/><text text-anchor='middle' y='-8' x='", x)?;
    push_number(page, b"'>", t)?;
    push(page, b"</text>\n")
}

/// The moment, where it is on the axis.
fn on_axis(axis: Axis, t: i128) -> Option<i64>
    ensures { result ≡ on_axis axis t }
{
    if t < i128::from(axis.from) {
        return None;
    }
    if i128::from(axis.to) < t {
        return None;
    }
    Some(t as i64)
}

fn push_tick(page: &mut Vec<u8>, axis: Axis, height: u128, t: i128) -> Result<(), NoMemory>
    ensures { OnOk result (page.new.items ≡ page.old.items ++ tick axis height t) }
{
    match on_axis(axis, t) {
        None => Ok(()),
        Some(t) => push_tick_text(page, height, place(axis, t), t),
    }
}

/// The multiple of the step at the front of the axis, or next before or behind it.
fn first_tick(axis: Axis, step: u32) -> i128
    requires { 0 < step }
    ensures value { result ≡ first_tick axis.from (pos step) }
    ensures low { neg_ℤ (pos (2 ^ 63)) ≤ℤ result }
    ensures high { result ≤ℤ pos (2 ^ 63) }
{
    let from = i128::from(axis.from);
    from - from % i128::from(step)
}

fn push_ticks_by(page: &mut Vec<u8>, axis: Axis, height: u128, step: u32) -> Result<(), NoMemory>
    requires { 0 < step }
    ensures { OnOk result (page.new.items ≡ page.old.items ++ ticks_by axis height (pos step)) }
{
    let mut t = first_tick(axis, step);
    let mut left: u32 = 12;
    while left > 0 {
        push_tick(page, axis, height, t)?;
        t += i128::from(step);
        left -= 1;
    }
    Ok(())
}

/// The ticks of an axis, with lines so high.
pub fn push_ticks(page: &mut Vec<u8>, axis: Axis, height: u128) -> Result<(), NoMemory>
    ensures { OnOk result (page.new.items ≡ page.old.items ++ ticks axis height) }
{
    push_ticks_by(page, axis, height, step_for(axis_length(axis)))
}
