//! Which constraints name each interval, or a sequence of which it is a member.
ghost use Rattle.std.specs.Prelude.{◌≡◌, ◌<◌, ◌++◌, ◌∷◌, [], length, get_or, slice_set, IfOk, OnOk};
ghost use Rattle.sched_model.specs.Data.{Data};
ghost use Rattle.prop_temporal.specs.code.Heights.{AreTouched};
ghost use Rattle.prop_temporal.specs.code.Tables.{FitEach};
ghost use Rattle.prop_temporal.specs.code.Touches.{Touches, AreTouchedBy};

use crate::members::members_at;
use sched_base::{Itv, List, NoMemory};
use sched_model::Model;
use std::alloc::Global;

fn touch(touching: &mut Vec<List<u32>>, x: usize, c: u32) -> Result<(), NoMemory>
    requires { x < length touching.old.items }
    ensures { OnOk result (touching.new.items ≡ slice_set touching.old.items x (get_or touching.old.items x [] ++ c ∷ [])) }
{
    touching[x].push(c)
}

/// The constraint names these intervals.
fn touch_all(touching: &mut Vec<List<u32>>, ends: &[Itv], c: u32) -> Result<(), NoMemory>
    ensures { OnOk result (Touches touching.old.items touching.new.items ends.now c) }
{
    for x in ends {
        let x = x.0 as usize;
        if x < touching.len() {
            touch(touching, x, c)?;
        }
    }
    Ok(())
}

fn untouched(alloc: Global, n: usize) -> Result<Vec<List<u32>>, NoMemory>
    ensures { IfOk result (λ v. length v.items ≡ n) }
{
    let mut touching = Vec::new(alloc);
    for _ in 0..n {
        touching.push(List::new(alloc))?;
    }
    Ok(touching)
}

/// The constraints of each interval, from the intervals of each precedence.
pub fn touching_of(
    alloc: Global,
    model: &Model,
    ends: &[List<Itv>],
) -> Result<Vec<List<u32>>, NoMemory>
    requires { FitEach model.now.constraints ends.now }
    ensures { IfOk result (λ v. AreTouched model.now v.items) }
{
    let mut touching = untouched(alloc, model.intervals().len())?;
    for c in 0..model.constraints().len() as u32 {
        touch_all(&mut touching, ends[c as usize].as_slice(), c)?;
        touch_all(&mut touching, members_at(model, c), c)?;
    }
    Ok(touching)
}
