//! What is remembered of a function: rows of which nothing was found.
ghost use Rattle.std.specs.Prelude.{◌≡◌, true};
ghost use Rattle.prop_energy.specs.code.Known.{IsQuiet};

use energy_pass::Row;
use sched_base::{Cum, NoMemory, at};
use std::alloc::Global;

/// Rows of which no set needs more than a capacity offers.
#[derive(Debug, Drop)]
pub struct Known {
    rows: Vec<Row>,
    capacity: i64,
}

impl std::marker::Model for Known {
    ghost use Rattle.prop_energy.specs.code.Known.{IsQuiet, Still};

    ghost Value = { Still };

    ghost view = { λ k. record { rows = k.rows.items; capacity = k.capacity } };

    ghost invariant = { λ k. IsQuiet k.rows.items k.capacity };
}

fn is_same(a: Row, b: Row) -> bool
    ensures { result ≡ true → a ≡ b }
{
    a.est == b.est && a.lct == b.lct && a.energy == b.energy
}

#[tactic(auto, using(crate::proofs::Remembering::none_same, crate::proofs::Remembering::more_same, crate::proofs::Remembering::all_same))]
fn are_same(old: &[Row], now: &[Row]) -> bool
    ensures { result ≡ true → old.now ≡ now.now }
{
    if old.len() != now.len() {
        return false;
    }
    for k in 0..old.len() {
        if !is_same(old[k], now[k]) {
            return false;
        }
    }
    true
}

impl Known {
    /// No rows, which need nothing.
    #[tactic(auto, using(crate::proofs::Remembering::none_over))]
    pub fn new(alloc: Global) -> Known {
        Known {
            rows: Vec::new(alloc),
            capacity: 0,
        }
    }

    /// Whether it is of these rows and this capacity.
    fn says(&self, rows: &[Row], capacity: i64) -> bool
        ensures { result ≡ true → IsQuiet rows.now capacity }
    {
        self.capacity == capacity && are_same(&self.rows, rows)
    }

    /// Keeps these rows in the place of others.
    #[tactic(auto, using(crate::proofs::Remembering::none_over))]
    fn keep(&mut self, rows: &[Row], capacity: i64) -> Result<(), NoMemory>
        requires { IsQuiet rows.now capacity }
    {
        self.rows.clear();
        self.capacity = capacity;
        self.rows.extend_from_slice(rows)?;
        Ok(())
    }
}

/// Whether these rows of a function were asked last, with this capacity, and nothing was found.
pub fn is_known(known: &[Known], f: Cum, rows: &[Row], capacity: i64) -> bool
    ensures { result ≡ true → IsQuiet rows.now capacity }
{
    match at(known, f.0 as usize) {
        None => false,
        Some(known) => known.says(rows, capacity),
    }
}

/// Remembers them. Nothing hangs on it.
pub fn remember(known: &mut [Known], f: Cum, rows: &[Row], capacity: i64) -> Result<(), NoMemory>
    requires { IsQuiet rows.now capacity }
{
    let place = f.0 as usize;
    if place >= known.len() {
        return Ok(());
    }
    known[place].keep(rows, capacity)
}
