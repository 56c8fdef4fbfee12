ghost use Rattle.std.specs.Prelude.{◌≡◌, ◌≤◌, length, IfOk, OnOk, true, pos, [], ◌++◌, ◌&&◌};
ghost use Rattle.std.specs.Ordering.{int_eq};
ghost use Rattle.calendar.specs.Steps.{are_steps, closed_of, ended, AreClosed};

use crate::step::{Pair, StepFn};
use sched_base::{H, List, NoMemory};
use std::alloc::Global;

/// Puts the range of moments before one behind the others, where the value is 0 on it and it has a
/// moment.
fn end_range(ranges: &mut Vec<Pair>, value: i64, from: i64, until: i64) -> Result<(), NoMemory>
    ensures { OnOk result (ranges.new.items ≡ ranges.old.items ++ ended value from until) }
{
    if value != 0 || until <= from {
        return Ok(());
    }
    ranges.push(Pair { t: from, v: until })?;
    Ok(())
}

/// Whether the value is 0 and stays so.
fn stays_closed(value: i64, next: i64) -> bool
    ensures { result ≡ (int_eq value (pos 0) && int_eq next (pos 0)) }
{
    value == 0 && next == 0
}

/// The closed ranges from the pairs.
#[tactic(auto, using(crate::proofs::Walk::none_yet, crate::proofs::Walk::on, crate::proofs::Walk::turned, crate::proofs::Walk::last))]
fn walk(alloc: Global, pairs: &[Pair]) -> Result<List<Pair>, NoMemory>
    ensures { IfOk result (λ rs. rs ≡ closed_of pairs.now) }
{
    let mut ranges = Vec::new(alloc);
    let mut from = -H;
    let mut value = 0;
    for pair in pairs {
        if stays_closed(value, pair.v) {
            continue;
        }
        end_range(&mut ranges, value, from, pair.t)?;
        from = pair.t;
        value = pair.v;
    }
    end_range(&mut ranges, value, from, H + 1)?;
    Ok(List::from_vec(ranges))
}

/// The closed ranges: in order, the ranges of moments at which the function is 0, each as long as it
/// can be. `t` of each is its first moment, `v` the first behind it. There are at most
/// 1,001.
pub fn closed(alloc: Global, f: &StepFn) -> Result<List<Pair>, NoMemory>
    requires steps { are_steps f.now.pairs ≡ true }
    ensures ranges { IfOk result (λ rs. rs ≡ closed_of f.now.pairs) }
    ensures meaning { IfOk result (λ rs. AreClosed f.now.pairs rs) }
    ensures few { IfOk result (λ rs. length rs ≤ 1001) }
{
    walk(alloc, f.pairs.as_slice())
}
