ghost use Rattle.std.specs.Prelude.{◌≡◌, ◌<◌, ◌≤◌, length, slice_get, IfOk};
ghost use Rattle.task_sets.specs.laws.Ects.{keep, up_from};
ghost use Rattle.energy_pass.specs.code.Rows.{counts};
ghost use Rattle.prop_energy.specs.code.Rows.{counts_row, is_in_at};

use crate::rows::row_of;
use energy_pass::{Cut, Row};
use region::Look;
use sched_base::NoMemory;
use sched_model::Part;
use std::alloc::Global;

fn counts(cut: Cut, row: Option<Row>) -> bool
    ensures { result ≡ counts_row cut.start cut.end row }
{
    match row {
        None => false,
        Some(row) => cut.start <= row.est && row.lct <= cut.end,
    }
}

#[tactic(auto, using(crate::proofs::Rowing::in_by_row))]
fn is_in(look: &Look<'_>, parts: &[Part], cut: Cut, k: usize) -> bool
    requires { k < length parts.now }
    ensures { result ≡ is_in_at look.now.region parts.now cut.start cut.end k }
{
    counts(cut, row_of(look, parts[k]))
}

/// The places of the parts of a cut.
#[tactic(auto, using(crate::proofs::Keeping::one_kept, crate::proofs::Keeping::one_left, crate::proofs::Keeping::all_kept))]
pub fn members_of(
    alloc: Global,
    look: &Look<'_>,
    parts: &[Part],
    cut: Cut,
) -> Result<Vec<u32>, NoMemory>
    requires { length parts.now ≤ 100000 }
    ensures { IfOk result (λ v. v.items ≡ keep (is_in_at look.now.region parts.now cut.start cut.end) (up_from 0 (length parts.now))) }
{
    let mut set = Vec::new(alloc);
    for k in 0..parts.len() {
        if is_in(look, parts, cut, k) {
            set.push(k as u32)?;
        }
    }
    Ok(set)
}
