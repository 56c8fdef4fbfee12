//! The propagators of parts and of the members of sequences.
ghost use Rattle.std.specs.Prelude.{IfOk, ◌<◌, IfNone, IfSome};
ghost use Rattle.sched_model.specs.Data.{Data};
ghost use Rattle.region.specs.Looks.{IsRegionOf};
ghost use Rattle.refute_hier.specs.Hier.{refutes};
ghost use Rattle.findings.specs.Found.{IsFinding};
ghost use Rattle.prop_hier.specs.code.Tables.{IsFor};
ghost use Rattle.prop_hier.specs.code.Tasks.{size_of, quiet};

use findings::Finding;
use prop_hier::PropHier;
use refute_hier::HierWitness;
use region::Region;
use sched_base::NoMemory;
use sched_model::Model;
use std::alloc::Global;

pub fn new_propagators(alloc: Global, model: &Model) -> Result<PropHier, NoMemory>
    ensures { IfOk result (λ p. IsFor p model.now) }
{
    PropHier::new(alloc, model)
}

pub fn next(
    propagators: &mut PropHier,
    k: u32,
    model: &Model,
    region: &Region,
    best: Option<i64>,
) -> Option<Finding<HierWitness>>
    requires of { IsFor propagators.old model.now }
    requires below { k < size_of model.now }
    requires region { IsRegionOf model.now region.now.region }
    ensures kept { (m : Data) → IsFor propagators.old m → IsFor propagators.new m }
    ensures none { IfNone result (quiet model.now k region.now.region best) }
    ensures some { IfSome result (IsFinding refutes model.now region.now.region best) }
    ensures busy { IfSome result (λ f. quiet model.now k region.now.region best → ⊥) }
{
    propagators.next(k, model, region, best)
}
