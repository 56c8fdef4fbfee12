ghost use Rattle.std.specs.Prelude.{◌≡◌, ◌<◌, ◌≤◌, ◌^◌, ℤ, Option, true, IsTrue};
ghost use Rattle.region.specs.Cells.{Region as Cells};
ghost use Rattle.region.specs.Looks.{IsRegionOf};
ghost use Rattle.engine.specs.code.Engines.{AreQuiet, AreAwake, IsFor};
ghost use Rattle.propagators.specs.Quiet.{IsQuietRegion};
ghost use Rattle.restart_rules.specs.Restarts.{limits_of};
ghost use Rattle.solver.specs.Versions.{version_of};
ghost use Rattle.solver.specs.code.Solving.{Gives};

use crate::answer::answer_from;
use crate::fault::SolveFault;
use crate::hints::Hints;
use crate::log_lines::LogLines;
use crate::preparing::prepare;
use crate::state::Search;
use engine::{Engine, Propagator};
use kernel::loses_nothing;
use logtext::{LogExtra, LogWriter, Version};
use propagators::{covers, start};
use sched_base::Desk;
use sched_model::{Model, Solved};
use std::alloc::Global;

/// The version of the log of a search that begins anew at most so often.
fn version_of(restarts: u32) -> Version
    ensures { result ≡ version_of restarts }
{
    if restarts == 0 {
        return Version::One;
    }
    Version::Two
}

/// The search with these propagators, all of them awake.
fn solve_with<P: Propagator, D: Desk>(
    alloc: Global,
    model: &Model,
    engine: Engine<P>,
    hints: Hints,
    nodes: u64,
    restarts: u32,
    desk: &mut D,
) -> Result<Solved, SolveFault>
    requires made { IsFor P.Propagator model.now engine }
    requires awake { AreAwake P.Propagator model.now engine }
    requires covers { (r : Cells) (best : Option ℤ) → IsRegionOf model.now r → AreQuiet P.Propagator model.now r best → IsQuietRegion model.now r best }
    requires some { 0 < nodes }
    requires few { nodes ≤ 2 ^ 62 }
    requires created { (D.state desk.old).created ≡ true }
    ensures { Gives model.now (limits_of nodes restarts) result (D.state desk.old) (D.state desk.new) }
{
    let mut search = Search::new(alloc, model, engine, hints)?;
    let mut writer = LogWriter::new();
    writer.write_head(version_of(restarts), desk)?;
    let mut lines = LogLines { writer, desk };
    let ended = search.run(alloc, model, nodes, restarts, &mut lines);
    let LogLines { mut writer, desk } = lines;
    let more = ended?;
    writer.write_end(desk)?;
    loses_nothing::<LogExtra>();
    let Search { found, nodes, .. } = search;
    Ok(Solved {
        nodes,
        answer: answer_from(more, found),
    })
}

/// Looks for a best solution of a model by branch and bound, and writes the log of the search. It
/// opens at most `nodes` nodes, after a preparation that looks at a fifth as many regions at most, and
/// at no more than 20,000. After 100 nodes it begins anew, with its weights and the schedule that it
/// follows, and then each time after twice as many as before, at most `restarts` times; where that is 0
/// it writes a log of version 1, and else one of version 2. It keeps one region with saves, so its
/// memory grows with the depth of the search. At each node it derives until no propagator finds anything, or 16 lines for each cell of the
/// region were put; what is left it splits. First an open presence, of the interval that was named most
/// where regions were refuted. Then the order of the tightest pair of present members of a sequence
/// without overlap, for the weights of both. Then a bound of the interval that was cut last, while it
/// is open, or of the one with the greatest least start, its start before its end, at the middle; in a
/// model with cumulative or state functions a bound of the one with the greatest weight for what is
/// open of it. Orders of other sequences come last. What is tried first follows the last schedule. `Fault` comes only where the desk
/// failed; the log is then, as after `NoMemory`, a front part of a log's text.
pub fn solve<D: Desk>(
    alloc: Global,
    model: &Model,
    nodes: u64,
    restarts: u32,
    desk: &mut D,
) -> Result<Solved, SolveFault>
    requires some { 0 < nodes }
    requires few { nodes ≤ 2 ^ 62 }
    requires created { (D.state desk.old).created ≡ true }
    ensures { Gives model.now (limits_of nodes restarts) result (D.state desk.old) (D.state desk.new) }
{
    let hints = prepare(alloc, model, nodes)?;
    let engine = start(alloc, model)?;
    // The model is valid by its type.
    let _ = model.intervals();
    covers();
    solve_with(alloc, model, engine, hints, nodes, restarts, desk)
}
