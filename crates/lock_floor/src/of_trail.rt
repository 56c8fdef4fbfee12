//! A list of numbers with saves.
ghost use Rattle.std.specs.Prelude.{◌≡◌, ◌+◌, ◌≤◌, ◌<◌, ◌++◌, ◌∷◌, [], length, IfOk, IsOk, OnOk, OnErr, slice_set, slice_index_or, ℤ};
ghost use Rattle.trail.specs.code.Trail.{Regains};

use sched_base::NoMemory;
use std::alloc::Global;
use trail::Cells;

pub fn new(alloc: Global, first: &[i64]) -> Result<Cells, NoMemory>
    ensures { IfOk result (λ c. c
        ≡ record { list = first.now; saved = []; promised = []; spare = c.spare }) }
{
    Cells::new(alloc, first)
}

pub fn get(cells: &Cells, i: usize) -> i64
    requires { i < length cells.now.list }
    ensures { (default : ℤ) → result ≡ slice_index_or cells.now.list i default }
{
    cells.get(i)
}

pub fn set(cells: &mut Cells, i: usize, v: i64) -> Result<(), NoMemory>
    requires { i < length cells.old.list }
    ensures ok { OnOk result (cells.new
        ≡ record cells.old { list = slice_set cells.old.list i v; spare = cells.new.spare }) }
    ensures err { OnErr result (cells.new ≡ cells.old) }
    ensures spends { cells.old.spare ≤ cells.new.spare + 1 }

    // Where it can't be refused.
    ensures given { 0 < cells.old.spare → IsOk result }
    ensures unsaved { cells.old.saved ≡ [] → IsOk result × (cells.new.spare ≡ cells.old.spare) }
{
    cells.set(i, v)
}

pub fn save(cells: &mut Cells) -> Result<(), NoMemory>
    ensures ok { OnOk result (cells.new ≡ record cells.old {
      saved = cells.old.saved ++ cells.old.list ∷ [];
      promised = cells.old.promised ++ cells.old.spare ∷ [];
      spare = cells.new.spare;
    }) }
    ensures err { OnErr result (cells.new ≡ cells.old) }
    ensures spends { cells.old.spare ≤ cells.new.spare + 1 }
    ensures given { 0 < cells.old.spare → IsOk result }
{
    cells.save()
}

pub fn undo(cells: &mut Cells)
    requires { 0 < length cells.old.saved }
    ensures list { cells.old.saved ≡ cells.new.saved ++ cells.new.list ∷ [] }
    ensures spare { Regains cells.old cells.new }
{
    cells.undo();
}

pub fn reserve(cells: &mut Cells, n: usize) -> Result<(), NoMemory>
    ensures ok { OnOk result (n ≤ cells.new.spare) }
    ensures same { cells.new ≡ record cells.old { spare = cells.new.spare } }
    ensures grows { cells.old.spare ≤ cells.new.spare }
    ensures given { n ≤ cells.old.spare → IsOk result }
{
    cells.reserve(n)
}
