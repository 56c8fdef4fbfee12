ghost use Rattle.std.specs.Prelude.{◌≤◌, length, OnOk};
ghost use Rattle.std.specs.List.Sorted.{IsPermutation};
ghost use Rattle.energy_pass.specs.code.Rows.{AreRows};
ghost use Rattle.energy_pass.specs.code.Ends.{AreEnds, HasEnds, IsByEnd};

use crate::rows::Row;
use sched_base::NoMemory;

/// When a row completes, and its place among the rows.
#[derive(Clone, Copy, Debug, PartialEq, Eq)]
pub struct End {
    pub lct: i64,
    pub place: u32,
}

fn sort_ends(ends: &mut [End])
    ensures moved { IsPermutation ends.old ends.new }
    ensures by_end { IsByEnd ends.new }
{
    ends.sort_unstable_by_key(|e| e.lct);
}

/// The ends in the order of the rows.
#[tactic(auto, using(crate::proofs::Ending::none_yet, crate::proofs::Ending::one_more))]
fn all_ends(ends: &mut Vec<End>, rows: &[Row]) -> Result<(), NoMemory>
    requires { length rows.now ≤ 100000 }
    ensures { OnOk result (HasEnds rows.now (length rows.now) ends.new.items) }
{
    ends.clear();
    for k in 0..rows.len() {
        ends.push(End {
            lct: rows[k].lct,
            place: k as u32,
        })?;
    }
    Ok(())
}

/// The ends of all rows, the earliest first.
pub fn fill_ends(ends: &mut Vec<End>, rows: &[Row]) -> Result<(), NoMemory>
    requires rows { AreRows rows.now }
    ensures { OnOk result (AreEnds rows.now ends.new.items) }
{
    all_ends(ends, rows)?;
    sort_ends(ends.as_mut_slice());
    Ok(())
}
