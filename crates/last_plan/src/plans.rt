ghost use Rattle.std.specs.Prelude.{◌≡◌};
ghost use Rattle.sched_model.specs.Data.{Data};
ghost use Rattle.kernel.specs.Promises.{Ready};
ghost use Rattle.replay.specs.LastSchedule.{found_schedule};
ghost use Rattle.last_plan.specs.Plans.{PlanMeans};
ghost use Rattle.last_plan.specs.code.Answers.{answer_of, IsPlanOf, IsPlanWith};

use crate::counts::Counts;
use crate::tally::Tally;
use kernel::{Found, Kernel};
use region::Refuter;
use sched_model::{Answer, Assignment, Solved, Verdict};

/// What a log shows: the answer of a search that stopped here, and counts of its lines.
#[derive(Debug, Drop)]
pub struct Plan {
    pub solved: Solved,
    pub counts: Counts,
}

fn schedule_of(found: Option<Found>) -> Option<Assignment>
    ensures { result ≡ found_schedule found }
{
    match found {
        None => None,
        Some(
            Found {
                assignment,
                value: _,
            },
        ) => Some(assignment),
    }
}

/// The answer with this verdict, and with the schedule found last.
fn answer_of(verdict: Verdict, schedule: Option<Assignment>) -> Answer
    ensures { result ≡ answer_of verdict schedule }
{
    let Some(schedule) = schedule else {
        return match verdict {
            Verdict::Unclosed { best: _ } => Answer::Unfinished(None),
            _ => Answer::Infeasible,
        };
    };
    match verdict {
        Verdict::Optimal(v) => Answer::Optimal(v, schedule),
        Verdict::Feasible => Answer::Feasible(schedule),
        Verdict::Infeasible => Answer::Infeasible,
        Verdict::Unclosed { best: None } => Answer::Unfinished(None),
        Verdict::Unclosed { best: Some(v) } => Answer::Unfinished(Some((v, schedule))),
    }
}

/// What a state with this verdict, and the counts of the lines that led to it, show.
fn plan_with<X: Refuter>(verdict: Verdict, kernel: Kernel<X>, tally: Tally<'_>) -> Plan
    ensures { IsPlanWith verdict kernel tally.entry.counts result }
{
    let nodes = kernel.nodes();
    let answer = answer_of(verdict, schedule_of(kernel.into_found()));
    Plan {
        solved: Solved { nodes, answer },
        counts: tally.into_counts(),
    }
}

/// What the state after the last line of a log, and the counts of its lines, show.
pub fn plan_of<X: Refuter>(kernel: Kernel<X>, tally: Tally<'_>) -> Plan
    ensures is { IsPlanOf kernel tally.entry.counts result }
    ensures means { (m : Data) → Ready m kernel → PlanMeans m result }
{
    let verdict = kernel.verdict();
    plan_with(verdict, kernel, tally)
}
