ghost use Rattle.std.specs.Prelude.{◌≡◌, ◌++◌, ◌≤◌, false, map, flat_map, IfOk, OnOk};
ghost use Rattle.cpo_elab.specs.Named.{itvs_of};
ghost use Rattle.cpo_elab.specs.Literals.{size_of, int_of};
ghost use Rattle.cpo_elab.specs.Held.{some_int};
ghost use Rattle.cpo_elab.specs.Judged.{is_large, is_negative};
ghost use Rattle.cpo_elab.specs.Elaborated.{types_in};
ghost use Rattle.cpo_elab.specs.Stages.{pairs_of};

use crate::draft::Draft;
use crate::literals::{int_of, size_of};
use calendar::Pair;
use cpo_text::{Int, StepPair};
use sched_base::{Itv, List, NoMemory};
use std::alloc::Global;

/// The intervals of some names.
pub fn itvs_of(alloc: Global, draft: &Draft, names: &[List<u8>]) -> Result<List<Itv>, NoMemory>
    ensures { IfOk result (λ xs. xs ≡ itvs_of draft.now names.now) }
{
    let mut found = Vec::new(alloc);
    for name in names {
        found.push(draft.itv_of(name.as_slice()))?;
    }
    Ok(List::from_vec(found))
}

fn type_in(i: Int) -> u32
    requires large { is_large (int_of i) ≡ false }
    requires negative { is_negative (int_of i) ≡ false }
    ensures { result ≡ size_of i.size }
{
    size_of(i.size) as u32
}

/// The types of the members of a sequence.
pub fn types_in(alloc: Global, types: &[Int]) -> Result<List<u32>, NoMemory>
    requires large { some_int is_large types.now ≡ false }
    requires negative { some_int is_negative types.now ≡ false }
    ensures { IfOk result (λ ts. ts ≡ types_in types.now) }
{
    let mut found = Vec::new(alloc);
    for i in types {
        found.push(type_in(*i))?;
    }
    Ok(List::from_vec(found))
}

fn push_ints(found: &mut Vec<i64>, row: &[Int]) -> Result<(), NoMemory>
    ensures { OnOk result (found.new.items ≡ found.old.items ++ map int_of row.now) }
{
    for i in row {
        found.push(int_of(*i))?;
    }
    Ok(())
}

/// The cells of a matrix, row after row.
pub fn cells_in(alloc: Global, rows: &[List<Int>]) -> Result<List<i64>, NoMemory>
    ensures { IfOk result (λ zs. zs ≡ flat_map (map int_of) rows.now) }
{
    let mut found = Vec::new(alloc);
    for row in rows {
        push_ints(&mut found, row.as_slice())?;
    }
    Ok(List::from_vec(found))
}

/// The pairs of a step function.
pub fn pairs_of(alloc: Global, pairs: &[StepPair]) -> Result<List<Pair>, NoMemory>
    ensures { IfOk result (λ ps. ps ≡ pairs_of pairs.now) }
{
    let mut found = Vec::new(alloc);
    for pair in pairs {
        found.push(Pair {
            t: int_of(pair.moment),
            v: int_of(pair.value),
        })?;
    }
    Ok(List::from_vec(found))
}
