ghost use Rattle.std.specs.Prelude.{◌≡◌};
ghost use Rattle.refute_hier.specs.Alt.{are_two, is_crowded, is_short, alt_case, alt_row};

use crate::parts::{Role, at_part, part_count, shows_absent, shows_present};
use region::Look;
use sched_base::{Itv, at};
use sched_model::{Constraint, Model};

fn are_two(look: &Look<'_>, i: u32, j: u32, a: Itv, parts: &[Itv]) -> bool
    ensures { result ≡ are_two look.now.region i j a parts.now }
{
    i < j && at_part(look, Role::IsThere, a, parts, i) && at_part(look, Role::IsThere, a, parts, j)
}

/// Whether more parts are present than the count.
pub fn is_crowded(look: &Look<'_>, count: i64, a: Itv, parts: &[Itv]) -> bool
    ensures { result ≡ is_crowded look.now.region count a parts.now }
{
    i128::from(count) < part_count(look, Role::IsThere, a, parts) as i128
}

/// Whether fewer parts can be present and match the interval than the count.
pub fn is_short(look: &Look<'_>, count: i64, a: Itv, parts: &[Itv]) -> bool
    ensures { result ≡ is_short look.now.region count a parts.now }
{
    (part_count(look, Role::MayMatch, a, parts) as i128) < i128::from(count)
}

fn alt_case(look: &Look<'_>, r: u32, i: u32, j: u32, count: i64, a: Itv, parts: &[Itv]) -> bool
    ensures { result ≡ alt_case look.now.region r i j count a parts.now }
{
    match r {
        1 => j == 0 && shows_absent(look, a) && at_part(look, Role::IsThere, a, parts, i),
        2 => count == 1 && are_two(look, i, j, a, parts),
        3 => i == 0 && j == 0 && shows_present(look, a) && is_short(look, count, a, parts),
        4 => j == 0 && !shows_absent(look, a) && at_part(look, Role::Clashes, a, parts, i),
        5 => i == 0 && j == 0 && is_crowded(look, count, a, parts),
        _ => false,
    }
}

/// Whether ALT refutes the look. It reads each part at most once.
pub fn alt(model: &Model, look: &Look<'_>, c: u32, r: u32, i: u32, j: u32) -> bool
    ensures { result ≡ alt_row model.now look.now c r i j }
{
    match at(model.constraints(), c as usize) {
        Some(Constraint::Alternative { a, parts, count }) => {
            alt_case(look, r, i, j, *count, *a, parts.as_slice())
        }
        _ => false,
    }
}
