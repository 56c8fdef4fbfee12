//! A model with some of its constraints alone.
ghost use Rattle.std.specs.Prelude.{◌≡◌, IfOk};
ghost use Rattle.sched_model.specs.declared.types.Assignment.{Assignment};
ghost use Rattle.sched_model.specs.Solution.{IsSolution, Meets};
ghost use Rattle.model_copy.specs.code.Reduced.{reduced, Rises};

use sched_base::{Con, List, NoMemory};
use sched_model::Model;
use std::alloc::Global;

pub fn reduce(alloc: Global, model: &Model, keep: &List<Con>) -> Result<Model, NoMemory>
    requires { Rises keep.now }
    ensures value { IfOk result (λ r. r ≡ reduced model.now keep.now) }
    ensures meets { IfOk result (λ r. (a : Assignment) → IsSolution r a → Meets model.now keep.now a) }
{
    model_copy::reduce(alloc, model, keep)
}
