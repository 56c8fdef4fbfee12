//! The propagators of sizes, expressions and the objective.
ghost use Rattle.std.specs.Prelude.{IfOk, ◌<◌, IfNone, IfSome};
ghost use Rattle.sched_model.specs.Data.{Data};
ghost use Rattle.region.specs.Looks.{IsRegionOf};
ghost use Rattle.refute_basic.specs.Basic.{refutes};
ghost use Rattle.findings.specs.Found.{IsFinding};
ghost use Rattle.prop_basic.specs.code.Tables.{IsFor};
ghost use Rattle.prop_basic.specs.code.Tasks.{size_of, quiet};

use findings::Finding;
use prop_basic::PropBasic;
use refute_basic::BasicWitness;
use region::Region;
use sched_base::NoMemory;
use sched_model::Model;
use std::alloc::Global;

pub fn new_propagators(alloc: Global, model: &Model) -> Result<PropBasic, NoMemory>
    ensures { IfOk result (λ p. IsFor p model.now) }
{
    PropBasic::new(alloc, model)
}

pub fn next(
    propagators: &mut PropBasic,
    k: u32,
    model: &Model,
    region: &Region,
    best: Option<i64>,
) -> Option<Finding<BasicWitness>>
    requires of { IsFor propagators.old model.now }
    requires below { k < size_of model.now }
    requires region { IsRegionOf model.now region.now.region }
    ensures kept { (m : Data) → IsFor propagators.old m → IsFor propagators.new m }
    ensures none { IfNone result (quiet model.now k region.now.region best) }
    ensures some { IfSome result (IsFinding refutes model.now region.now.region best) }
    ensures busy { IfSome result (λ f. quiet model.now k region.now.region best → ⊥) }
{
    propagators.next(k, model, region, best)
}
