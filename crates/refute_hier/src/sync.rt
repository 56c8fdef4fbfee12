ghost use Rattle.std.specs.Prelude.{◌≡◌};
ghost use Rattle.refute_hier.specs.Sync.{sync_case, sync_row};

use crate::parts::{Role, at_part, shows_present};
use region::Look;
use sched_base::{Itv, at};
use sched_model::{Constraint, Model};

fn sync_case(look: &Look<'_>, i: u32, a: Itv, parts: &[Itv]) -> bool
    ensures { result ≡ sync_case look.now.region i a parts.now }
{
    shows_present(look, a) && at_part(look, Role::Clashes, a, parts, i)
}

/// Whether SYNC refutes the look.
pub fn sync(model: &Model, look: &Look<'_>, c: u32, i: u32) -> bool
    ensures { result ≡ sync_row model.now look.now c i }
{
    match at(model.constraints(), c as usize) {
        Some(Constraint::Synchronize { a, parts }) => sync_case(look, i, *a, parts.as_slice()),
        _ => false,
    }
}
