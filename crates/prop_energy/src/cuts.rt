ghost use Rattle.std.specs.Prelude.{IfOk};
ghost use Rattle.envelope.specs.code.Bars.{IsCapacity};
ghost use Rattle.energy_pass.specs.code.Rows.{AreRows, GivesOver};
ghost use Rattle.prop_energy.specs.code.Rows.{rows_of};

use crate::known::{Known, is_known, remember};
use crate::rows::fill_rows;
use energy_pass::{Cut, EnergyPass, Row};
use region::Look;
use sched_base::{Cum, NoMemory};
use sched_model::Part;
use std::alloc::Global;

/// What is asked for cuts, with memory that each call uses again.
#[derive(Debug, Drop)]
pub struct Asker {
    /// What is remembered of each function.
    known: Vec<Known>,
    rows: Vec<Row>,
    sorted: Vec<Row>,
    pass: EnergyPass,
}

/// A cut of which a set needs more than is offered; none exactly where no set does.
fn overfull(
    pass: &mut EnergyPass,
    sorted: &mut Vec<Row>,
    rows: &[Row],
    capacity: i64,
) -> Result<Option<Cut>, NoMemory>
    requires rows { AreRows rows.now }
    requires capacity { IsCapacity capacity }
    ensures { IfOk result (GivesOver rows.now capacity) }
{
    sorted.clear();
    sorted.extend_from_slice(rows)?;
    pass.overfull(sorted.as_mut_slice(), capacity)
}

/// The same for the rows of a function, where they aren't remembered.
fn ask(
    known: &mut [Known],
    pass: &mut EnergyPass,
    sorted: &mut Vec<Row>,
    rows: &[Row],
    f: Cum,
    capacity: i64,
) -> Result<Option<Cut>, NoMemory>
    requires rows { AreRows rows.now }
    requires capacity { IsCapacity capacity }
    ensures { IfOk result (GivesOver rows.now capacity) }
{
    if is_known(known, f, rows, capacity) {
        return Ok(None);
    }
    let cut = overfull(pass, sorted, rows, capacity)?;
    if cut.is_none() {
        remember(known, f, rows, capacity)?;
    }
    Ok(cut)
}

impl Asker {
    /// Nothing is remembered of so many functions.
    pub fn new(alloc: Global, count: usize) -> Result<Asker, NoMemory> {
        let mut known = Vec::new(alloc);
        for _ in 0..count {
            known.push(Known::new(alloc))?;
        }
        Ok(Asker {
            known,
            rows: Vec::new(alloc),
            sorted: Vec::new(alloc),
            pass: EnergyPass::new(alloc),
        })
    }

    /// A cut of the parts of a function of which a set needs more than is offered; none exactly where no set
    /// does.
    pub fn cut_of(
        &mut self,
        look: &Look<'_>,
        parts: &[Part],
        f: Cum,
        capacity: i64,
    ) -> Result<Option<Cut>, NoMemory>
        requires rows { AreRows (rows_of look.now.region parts.now) }
        requires capacity { IsCapacity capacity }
        ensures { IfOk result (GivesOver (rows_of look.now.region parts.now) capacity) }
    {
        fill_rows(&mut self.rows, look, parts)?;
        ask(
            &mut self.known,
            &mut self.pass,
            &mut self.sorted,
            &self.rows,
            f,
            capacity,
        )
    }
}
