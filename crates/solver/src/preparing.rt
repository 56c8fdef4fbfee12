ghost use Rattle.engine.specs.code.Engines.{AreAwake, IsFor};
ghost use Rattle.solver.specs.code.Searching.{IsHolding};

use crate::hints::Hints;
use crate::rehearsal::Rehearsal;
use crate::starts::Budget;
use crate::turns::Turns;
use engine::{Engine, Propagator};
use propagators::start;
use sched_base::NoMemory;
use sched_model::Model;
use std::alloc::Global;

/// A preparation has at most so many nodes.
const MOST_NODES: u64 = 20_000;

/// Where sequences have more pairs of members in all, it has as many times fewer, since a node then costs
/// as many times more.
const FEW_PAIRS: u64 = 5_000;

/// Where they have so many, a node costs so much that one schedule is enough.
const MANY_PAIRS: u64 = 50_000;

/// So many nodes leave the first start two for each interval, and some that are refuted.
fn least_nodes(model: &Model) -> u64 {
    (model.intervals().len() as u64)
        .saturating_mul(5)
        .saturating_div(2)
        .saturating_add(200)
}

/// A preparation that may have at most so many nodes.
fn budget_for(model: &Model, pairs: u64, most: u64) -> Budget {
    let share = most.saturating_mul(FEW_PAIRS) / pairs.max(FEW_PAIRS);
    let whole = most.min(share.max(least_nodes(model)));
    Budget {
        whole,
        left: whole,
        is_short: pairs >= MANY_PAIRS,
        is_over: false,
    }
}

/// Looks for schedules, the first ones by simple rules.
fn search_for<P: Propagator>(
    alloc: Global,
    model: &Model,
    rehearsal: &mut Rehearsal<P>,
    pairs: u64,
    budget: Budget,
) -> Result<(), NoMemory>
    requires { IsHolding P.Propagator model.now rehearsal.old.search }
{
    let mut budget = budget;
    rehearsal.make_starts(alloc, model, pairs, &mut budget)?;
    // A run that looks at everything goes down pair by pair.
    let is_near = pairs > budget.whole;
    let mut turns = Turns::new(alloc, model, is_near)?;
    turns.take_each(alloc, model, rehearsal, &mut budget)
}

fn rehearse<P: Propagator>(
    alloc: Global,
    model: &Model,
    engine: Engine<P>,
    hints: Hints,
    budget: Budget,
) -> Result<Hints, NoMemory>
    requires made { IsFor P.Propagator model.now engine }
    requires awake { AreAwake P.Propagator model.now engine }
{
    let pairs = hints.pairs;
    let mut rehearsal = Rehearsal::new(alloc, model, engine, hints)?;
    search_for(alloc, model, &mut rehearsal, pairs, budget)?;
    Ok(rehearsal.into_hints())
}

/// Searches without a log, so that the search with one knows where to look first: at most a fifth as
/// many nodes as that one may open, and at most 20,000, or fewer where there are many pairs of members. It
/// begins with schedules that simple rules find, and then takes turns between runs that look at everything
/// and runs near the best schedule. It ends where nothing is left to look for, and where there are 50,000
/// pairs or more at the first schedule.
pub fn prepare(alloc: Global, model: &Model, nodes: u64) -> Result<Hints, NoMemory> {
    let most = (nodes / 5).min(MOST_NODES);
    let hints = Hints::new(alloc, model, most)?;
    if most == 0 {
        return Ok(hints);
    }
    let engine = start(alloc, model)?;
    // The model is valid by its type.
    let _ = model.intervals();
    let budget = budget_for(model, hints.pairs, most);
    rehearse(alloc, model, engine, hints, budget)
}
