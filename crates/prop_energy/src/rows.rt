ghost use Rattle.std.specs.Prelude.{◌≡◌, ◌*ℤ◌, OnOk};
ghost use Rattle.sched_model.specs.declared.types.Shape.TheVariants.{PulseOf};
ghost use Rattle.region.specs.Cells.{says_present};
ghost use Rattle.prop_energy.specs.code.Rows.{row_of, rows_of};

use energy_pass::Row;
use region::{Bounds, Look, Presence};
use sched_base::{Itv, NoMemory};
use sched_model::{Part, Shape};

fn energy(h: i64, size: i64) -> i128
    ensures { result ≡ h *ℤ size }
{
    i128::from(h) * i128::from(size)
}

fn is_present(c: Bounds) -> bool
    ensures { result ≡ says_present c.presence }
{
    c.presence == Presence::Present
}

/// The row of the pulse of an interval that is there.
#[tactic(auto, using(crate::proofs::Rowing::row_past))]
fn pulse_row(look: &Look<'_>, a: Itv, h: i64) -> Option<Row>
    ensures { result ≡ row_of look.now.region (PulseOf a h) }
{
    if a.0 as usize >= look.len() {
        return None;
    }
    let c = look.bounds(a);
    if !is_present(c) {
        return None;
    }
    Some(Row {
        est: c.smin,
        lct: c.emax,
        energy: energy(h, c.pmin),
    })
}

/// The row of a part, where it is such a pulse.
pub fn row_of(look: &Look<'_>, part: Part) -> Option<Row>
    ensures { result ≡ row_of look.now.region part.shape }
{
    match part.shape {
        Shape::PulseOf { a, h } => pulse_row(look, a, h),
        _ => None,
    }
}

/// Puts the rows of all parts in the place of others.
#[tactic(auto, using(crate::proofs::Gathering::one_pushed, crate::proofs::Gathering::one_passed, crate::proofs::Gathering::all_gathered))]
pub fn fill_rows(rows: &mut Vec<Row>, look: &Look<'_>, parts: &[Part]) -> Result<(), NoMemory>
    ensures { OnOk result (rows.new.items ≡ rows_of look.now.region parts.now) }
{
    rows.clear();
    for part in parts {
        if let Some(row) = row_of(look, *part) {
            rows.push(row)?;
        }
    }
    Ok(())
}
