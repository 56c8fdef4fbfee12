//! Energies under a capacity: the tree of their envelope, the pass over them, and the search.
ghost use Rattle.std.specs.Prelude.{◌≡◌, length, replicate, IfOk, IsTrue, ◌↔◌, ◌<◌, slice_set, false};
ghost use Rattle.region.specs.Looks.{IsRegionOf};
ghost use Rattle.envelope.specs.code.Bars.{AreBars, IsCapacity, is_on, GivesEnvelope};
ghost use Rattle.energy_pass.specs.code.Rows.{AreRows, GivesOver};
ghost use Rattle.prop_energy.specs.code.Bounds.{IsFor};
ghost use Rattle.prop_energy.specs.code.Found.{GivesOverload};

use energy_pass::{Cut, EnergyPass, Row};
use prop_energy::{Bar, EnergyWitness, EnvelopeTree, PropEnergy};
use region::Region;
use sched_base::NoMemory;
use sched_model::Model;
use std::alloc::Global;

pub fn new_tree(alloc: Global, bars: &[Bar], capacity: i64) -> Result<EnvelopeTree, NoMemory>
    requires bars { AreBars bars.now }
    requires capacity { IsCapacity capacity }
    ensures { IfOk result (λ t.
        t ≡ record { bars = bars.now; capacity = capacity; on = replicate (length bars.now) false }) }
{
    EnvelopeTree::new(alloc, bars, capacity)
}

pub fn refill(tree: EnvelopeTree, bars: &[Bar], capacity: i64) -> Result<EnvelopeTree, NoMemory>
    requires bars { AreBars bars.now }
    requires capacity { IsCapacity capacity }
    ensures { IfOk result (λ t.
        t ≡ record { bars = bars.now; capacity = capacity; on = replicate (length bars.now) false }) }
{
    tree.refill(bars, capacity)
}

pub fn takes(bars: &[Bar]) -> bool
    ensures { IsTrue result ↔ AreBars bars.now }
{
    EnvelopeTree::takes(bars)
}

pub fn paint(tree: &mut EnvelopeTree, k: u32, on: bool)
    requires { k < length tree.old.bars }
    ensures painted { tree.new ≡ record tree.old { on = slice_set tree.old.on k on } }
    ensures on { is_on tree.new k ≡ on }
{
    tree.paint(k, on);
}

pub fn envelope(tree: &EnvelopeTree) -> Option<i128>
    ensures { GivesEnvelope tree.now result }
{
    tree.envelope()
}

pub fn overfull(
    pass: &mut EnergyPass,
    rows: &mut [Row],
    capacity: i64,
) -> Result<Option<Cut>, NoMemory>
    requires rows { AreRows rows.old }
    requires capacity { IsCapacity capacity }
    ensures { IfOk result (GivesOver rows.old capacity) }
{
    pass.overfull(rows, capacity)
}

pub fn new_search(alloc: Global, model: &Model) -> Result<PropEnergy, NoMemory>
    ensures { IfOk result (λ p. IsFor p model.now) }
{
    PropEnergy::new(alloc, model)
}

pub fn overload(
    search: &mut PropEnergy,
    model: &Model,
    region: &Region,
) -> Result<Option<EnergyWitness>, NoMemory>
    requires of { IsFor search.old model.now }
    requires region { IsRegionOf model.now region.now.region }
    ensures kept { search.new ≡ search.old }
    ensures found { IfOk result (GivesOverload model.now region.now.region) }
{
    search.overload(model, region)
}
