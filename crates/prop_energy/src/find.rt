ghost use Rattle.std.specs.Prelude.{◌≡◌, ◌<◌, IfOk, slice_index_or};
ghost use Rattle.sched_model.specs.Data.{Data};
ghost use Rattle.sched_model.specs.Valid.{IsValid};
ghost use Rattle.region.specs.Looks.{IsRegionOf};
ghost use Rattle.envelope.specs.code.Bars.{IsCapacity};
ghost use Rattle.prop_energy.specs.code.Bounds.{IsFor, IsBoundIn};
ghost use Rattle.prop_energy.specs.code.Found.{GivesOverload, GivesSet, FoundBy};

use crate::bounds::{Bound, bounds_of};
use crate::cuts::Asker;
use crate::members::members_of;
use refute_cumul::parts_of;
use refute_energy::EnergyWitness;
use region::{Look, Region};
use sched_base::{Con, List, NoMemory};
use sched_model::{Model, Part};
use std::alloc::Global;

/// The search for overloads of energy in the regions of one model. It uses its memory again, and remembers
/// of each function the numbers with which nothing was found last, so that what hasn't moved costs one
/// comparison a part.
#[derive(Debug, Drop)]
pub struct PropEnergy {
    alloc: Global,
    bounds: Vec<Bound>,
    asker: Asker,
}

impl std::marker::Model for PropEnergy {
    ghost use Rattle.std.specs.Prelude.{List as Lists};
    ghost use Rattle.prop_energy.specs.declared.bounds.Bound.{Bound as Bounds};

    ghost Value = { Lists Bounds };

    ghost view = { λ p. p.bounds.items };
}

/// A set of parts of a function that passes a bound on it; none exactly where no set does.
fn set_of(
    asker: &mut Asker,
    alloc: Global,
    model: &Model,
    look: &Look<'_>,
    bound: Bound,
) -> Result<Option<List<u32>>, NoMemory>
    requires valid { IsValid model.now }
    requires of { IsRegionOf model.now look.now.region }
    requires capacity { IsCapacity bound.hi }
    ensures { IfOk result (GivesSet model.now look.now bound.f bound.hi) }
{
    let parts = parts_of(model, bound.f);
    let Some(cut) = asker.cut_of(look, parts, bound.f, bound.hi)? else {
        return Ok(None);
    };
    Ok(Some(List::from_vec(members_of(alloc, look, parts, cut)?)))
}

/// What a bound refutes by energy.
fn found_by(
    asker: &mut Asker,
    alloc: Global,
    model: &Model,
    look: &Look<'_>,
    bound: Bound,
) -> Result<Option<EnergyWitness>, NoMemory>
    requires valid { IsValid model.now }
    requires of { IsRegionOf model.now look.now.region }
    requires bound { IsBoundIn model.now bound }
    ensures { IfOk result (FoundBy model.now look.now bound) }
{
    let Some(set) = set_of(asker, alloc, model, look, bound)? else {
        return Ok(None);
    };
    Ok(Some(EnergyWitness {
        c: Con(bound.c),
        parts: set,
    }))
}

/// What the first bound of which something is found refutes.
#[tactic(auto, using(crate::proofs::Finding::tried_none, crate::proofs::Finding::tried_more, crate::proofs::Finding::found_any))]
fn first_of(
    asker: &mut Asker,
    alloc: Global,
    bounds: &[Bound],
    model: &Model,
    look: &Look<'_>,
) -> Result<Option<EnergyWitness>, NoMemory>
    requires valid { IsValid model.now }
    requires bounds { IsFor bounds.now model.now }
    requires of { IsRegionOf model.now look.now.region }
    ensures { IfOk result (GivesOverload model.now look.now.region) }
{
    for k in 0..bounds.len() {
        let found = found_by(asker, alloc, model, look, bounds[k])?;
        if found.is_some() {
            return Ok(found);
        }
    }
    Ok(None)
}

impl PropEnergy {
    /// The search for a model: its capacities, one after another.
    pub fn new(alloc: Global, model: &Model) -> Result<PropEnergy, NoMemory>
        ensures { IfOk result (λ p. IsFor p model.now) }
    {
        let bounds = bounds_of(alloc, model)?;
        let asker = Asker::new(alloc, model.cumuls().len())?;
        Ok(PropEnergy {
            alloc,
            bounds,
            asker,
        })
    }

    /// A witness of an overload of energy, which refutes the region; none exactly where there is none. For each
    /// capacity whose parts have moved since nothing was found of them it takes time near n log n of their
    /// number.
    pub fn overload(
        &mut self,
        model: &Model,
        region: &Region,
    ) -> Result<Option<EnergyWitness>, NoMemory>
        requires of { IsFor self.old model.now }
        requires region { IsRegionOf model.now region.now.region }
        ensures kept { self.new ≡ self.old }
        ensures found { IfOk result (GivesOverload model.now region.now.region) }
    {
        // Called for its clause alone: the model is valid.
        let _ = model.constraints();
        let look = region.look(None, None);
        first_of(&mut self.asker, self.alloc, &self.bounds, model, &look)
    }
}
