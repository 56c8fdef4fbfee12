//! The propagators of sequences, by two and three members.
ghost use Rattle.std.specs.Prelude.{IfOk, ◌<◌, IfNone, IfSome};
ghost use Rattle.sched_model.specs.Data.{Data};
ghost use Rattle.region.specs.Looks.{IsRegionOf};
ghost use Rattle.refute_seq.specs.OnSequence.{refutes};
ghost use Rattle.findings.specs.Found.{IsFinding};
ghost use Rattle.prop_unary.specs.code.Tables.{IsFor};
ghost use Rattle.prop_unary.specs.code.Tasks.{size_of, quiet};

use findings::Finding;
use prop_unary::PropUnary;
use refute_seq::SeqWitness;
use region::Region;
use sched_base::NoMemory;
use sched_model::Model;
use std::alloc::Global;

pub fn new_propagators(alloc: Global, model: &Model) -> Result<PropUnary, NoMemory>
    ensures { IfOk result (λ p. IsFor p model.now) }
{
    PropUnary::new(alloc, model)
}

pub fn next(
    propagators: &mut PropUnary,
    k: u32,
    model: &Model,
    region: &Region,
    best: Option<i64>,
) -> Option<Finding<SeqWitness>>
    requires of { IsFor propagators.old model.now }
    requires below { k < size_of model.now }
    requires region { IsRegionOf model.now region.now.region }
    ensures kept { (m : Data) → IsFor propagators.old m → IsFor propagators.new m }
    ensures none { IfNone result (quiet model.now k region.now.region best) }
    ensures some { IfSome result (IsFinding refutes model.now region.now.region best) }
    ensures busy { IfSome result (λ f. quiet model.now k region.now.region best → ⊥) }
{
    propagators.next(k, model, region, best)
}
