//! The propagators of sequences, by sets of members.
ghost use Rattle.std.specs.Prelude.{◌≡◌, IfOk, ◌<◌, IfNone, IfSome};
ghost use Rattle.sched_model.specs.Data.{Data};
ghost use Rattle.region.specs.Looks.{IsRegionOf};
ghost use Rattle.refute_seq.specs.OnSequence.{refutes};
ghost use Rattle.findings.specs.Found.{IsFinding};
ghost use Rattle.prop_sets.specs.code.Tables.{IsFor};
ghost use Rattle.prop_sets.specs.code.Tasks.{size_of, quiet};

use findings::Finding;
use prop_sets::PropSets;
use refute_seq::SeqWitness;
use region::Region;
use sched_base::NoMemory;
use sched_model::Model;
use std::alloc::Global;

pub fn new_propagators(alloc: Global, model: &Model, later: bool) -> Result<PropSets, NoMemory>
    ensures made { IfOk result (λ p. IsFor p model.now) }
    ensures round { IfOk result (λ p. p.later ≡ later) }
{
    PropSets::new(alloc, model, later)
}

pub fn next(
    propagators: &mut PropSets,
    k: u32,
    model: &Model,
    region: &Region,
    best: Option<i64>,
) -> Result<Option<Finding<SeqWitness>>, NoMemory>
    requires of { IsFor propagators.old model.now }
    requires below { k < size_of model.now }
    requires region { IsRegionOf model.now region.now.region }
    ensures kept { (m : Data) → IsFor propagators.old m → IsFor propagators.new m }
    ensures same { propagators.new.later ≡ propagators.old.later }
    ensures none { IfOk result (λ o. IfNone o (quiet propagators.old.later model.now k region.now.region best)) }
    ensures some { IfOk result (λ o. IfSome o (IsFinding refutes model.now region.now.region best)) }
    ensures busy { IfOk result (λ o. IfSome o (λ f. quiet propagators.old.later model.now k region.now.region best → ⊥)) }
{
    propagators.next(k, model, region, best)
}
