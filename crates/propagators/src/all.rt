ghost use Rattle.std.specs.Prelude.{◌+◌, ◌<◌, ◌^◌, ℤ, Option, IfOk};
ghost use Rattle.sched_model.specs.Data.{Data};
ghost use Rattle.sched_model.specs.Valid.{IsValid};
ghost use Rattle.region.specs.Cells.{Region};
ghost use Rattle.region.specs.Looks.{IsRegionOf};
ghost use Rattle.engine.specs.code.Engines.{IsFor, AreQuiet, AreAwake};
ghost use Rattle.propagators.specs.Quiet.{IsQuietRegion};

use crate::basic::FromBasic;
use crate::cumul::FromCumul;
use crate::hier::FromHier;
use crate::sets::{FromLaterSets, FromSets};
use crate::state::FromState;
use crate::temporal::FromTemporal;
use crate::unary::FromUnary;
use engine::{Both, Engine, Propagator};
use sched_base::NoMemory;
use sched_model::Model;
use std::alloc::Global;

/// The propagators of cumulative and state functions.
pub type OfFunctions = Both<FromCumul, FromState>;

/// Those of sets of members of sequences, in two rounds, and of functions.
pub type OfSets = Both<FromSets, Both<FromLaterSets, OfFunctions>>;

/// Those of sequences, by few members at a time and by sets, and of functions.
pub type OfMany = Both<FromUnary, OfSets>;

/// Those of an interval and its parts, of sequences, and of functions.
pub type OfGroups = Both<FromHier, OfMany>;

/// All propagators. A further crate of propagators is joined to these by `engine::Both`.
pub type All = Both<FromBasic, Both<FromTemporal, OfGroups>>;

/// The propagators of one kind and then those of another, unless memory was refused for some.
///
/// In a function that knows of neither kind what it is, since each way out of one that does lets go
/// of all their parts.
fn joined<A: Propagator, B: Propagator>(
    model: &Model,
    first: Result<A, NoMemory>,
    second: Result<B, NoMemory>,
) -> Result<Both<A, B>, NoMemory>
    requires few { A.size model.now + B.size model.now < 2 ^ 32 }
    requires first { IfOk first (λ p. A.is_of p model.now) }
    requires second { IfOk second (λ p. B.is_of p model.now) }
    ensures { IfOk result (λ p. ⟦<Both<A, B> as Propagator>⟧.is_of p model.now) }
{
    // It is named for the clauses alone.
    let _ = model;
    let first = first?;
    let second = second?;
    match Both::new(first, second) {
        Some(both) => Ok(both),
        None => unreachable!(),
    }
}

/// The engine over all propagators of a model, each of them awake.
pub fn start(alloc: Global, model: &Model) -> Result<Engine<All>, NoMemory>
    ensures made { IfOk result (IsFor ⟦<All as Propagator>⟧ model.now) }
    ensures awake { IfOk result (AreAwake ⟦<All as Propagator>⟧ model.now) }
{
    // The model is valid by its type, so it has few intervals, constraints and sequences.
    let _ = model.intervals();
    let functions = joined(
        model,
        FromCumul::new(alloc, model),
        FromState::new(alloc, model),
    );
    let behind = joined(model, FromLaterSets::new(alloc, model), functions);
    let many = joined(model, FromSets::new(alloc, model), behind);
    let grouped = joined(model, FromUnary::new(alloc, model), many);
    let last = joined(model, FromHier::new(alloc, model), grouped);
    let others = joined(model, FromTemporal::new(alloc, model), last);
    let all = joined(model, FromBasic::new(alloc, model), others)?;
    Engine::new(alloc, all, model)
}

/// Where all propagators of a valid model are quiet, the region is: whatever witness of a kind that derives refutes
/// it, or refutes it under an open end guess that the witness's row lists, has a propagator that
/// finds this.
pub fn covers()
    ensures { (m : Data) (r : Region) (best : Option ℤ) → IsValid m → IsRegionOf m r → AreQuiet ⟦<All as Propagator>⟧ m r best → IsQuietRegion m r best }
{}
