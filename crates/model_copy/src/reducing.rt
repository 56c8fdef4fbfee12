ghost use Rattle.std.specs.Prelude.{◌≡◌, IfOk};
ghost use Rattle.sched_model.specs.declared.types.Assignment.{Assignment};
ghost use Rattle.sched_model.specs.Solution.{IsSolution, Meets};
ghost use Rattle.sched_model.specs.code.Model.{data_of};
ghost use Rattle.model_copy.specs.code.Reduced.{reduced, Rises};

use crate::constraints::copy_constraints;
use crate::things::{copy_cumuls, copy_intervals, copy_matrices, copy_sequences, copy_states};
use sched_base::{Con, List, NoMemory};
use sched_model::{Model, Parts};
use std::alloc::Global;

/// Copies of the model's things, and of these of its constraints.
fn parts_of(alloc: Global, model: &Model, keep: &[Con]) -> Result<Parts, NoMemory>
    ensures { IfOk result (λ p. data_of p ≡ reduced model.now keep.now) }
{
    Ok(Parts {
        intervals: copy_intervals(alloc, model.intervals())?,
        matrices: copy_matrices(alloc, model.matrices())?,
        sequences: copy_sequences(alloc, model.sequences())?,
        cumuls: copy_cumuls(alloc, model.cumuls())?,
        states: copy_states(alloc, model.states())?,
        constraints: copy_constraints(alloc, model.constraints(), keep)?,
        objective: None,
    })
}

/// A copy of the model with these of its constraints alone, in their order, and without objective.
/// Whatever is a solution of it makes each of them hold. An id that names no constraint of the model
/// is passed over.
pub fn reduce(alloc: Global, model: &Model, keep: &List<Con>) -> Result<Model, NoMemory>
    requires { Rises keep.now }
    ensures value { IfOk result (λ r. r ≡ reduced model.now keep.now) }
    ensures meets { IfOk result (λ r. (a : Assignment) → IsSolution r a → Meets model.now keep.now a) }
{
    // Called for its clause alone.
    let _ = model.intervals();
    let parts = parts_of(alloc, model, keep.as_slice())?;
    Ok(Model::of(parts))
}
