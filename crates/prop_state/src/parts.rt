//! How long the compulsory part of an interval may be, from its latest start to its earliest completion.
ghost use Rattle.std.specs.Prelude.{◌≡◌, ◌-ℤ◌, ◌≤ℤ◌, false, IsTrue};
ghost use Rattle.std.specs.Int.{int_max};
ghost use Rattle.region.specs.Cells.{bounds_of, says_absent};
ghost use Rattle.region.specs.Looks.{is_shifted};
ghost use Rattle.findings.specs.code.Numbers.{ends_in, HasShifts};
ghost use Rattle.prop_state.specs.code.Silence.{longest_part, IsCovered};
ghost use Rattle.prop_state.specs.code.Walks.{EachOf};

use crate::silence::is_absent;
use findings::{Ends, ends_in};
use refute_state::demand_at;
use region::Region;
use sched_base::Itv;
use sched_model::Model;

fn greater(a: i64, b: i64) -> i64
    ensures { result ≡ int_max a b }
{
    a.max(b)
}

fn difference(a: i64, b: i64) -> i64
    requires first { IsTrue (is_shifted a) }
    requires second { IsTrue (is_shifted b) }
    ensures { result ≡ a -ℤ b }
{
    a - b
}

fn longest_part(e: Ends) -> i64
    requires { HasShifts e }
    ensures { result ≡ longest_part e }
{
    greater(
        difference(e.highest_end, e.lst),
        difference(e.ect, e.lowest_start),
    )
}

/// The longest compulsory part of an interval, or less where it is absent.
fn part_in(region: &Region, x: Itv) -> i64
    ensures { says_absent (bounds_of region.now.region x).presence ≡ false → longest_part (ends_in region.now.region x) ≤ℤ result }
{
    let ends = ends_in(region, x);
    if is_absent(ends) {
        return 0;
    }
    longest_part(ends)
}

fn part_at(model: &Model, region: &Region, c: u32) -> i64
    ensures { IsCovered model.now region.now.region result c }
{
    match demand_at(model, c) {
        None => 0,
        Some(d) => part_in(region, d.x),
    }
}

/// The longest compulsory part of the demands of some constraints.
pub fn longest_of(model: &Model, region: &Region, cs: &[u32]) -> i64
    ensures { EachOf (IsCovered model.now region.now.region result) cs.now }
{
    let mut longest = 0;
    for c in cs {
        longest = greater(longest, part_at(model, region, *c));
    }
    longest
}
