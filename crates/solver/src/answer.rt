ghost use Rattle.std.specs.Prelude.{◌≡◌};
ghost use Rattle.solver.specs.code.Searching.{valued, best_answer, closed_answer, answer_from};

use kernel::Found;
use sched_model::{Answer, Assignment};

fn valued(found: Option<Found>) -> Option<(i64, Assignment)>
    ensures { result ≡ valued found }
{
    let Found { assignment, value } = found?;
    let value = value?;
    Some((value, assignment))
}

fn best_answer(value: Option<i64>, assignment: Assignment) -> Answer
    ensures { result ≡ best_answer value assignment }
{
    match value {
        None => Answer::Feasible(assignment),
        Some(value) => Answer::Optimal(value, assignment),
    }
}

fn closed_answer(found: Option<Found>) -> Answer
    ensures { result ≡ closed_answer found }
{
    match found {
        None => Answer::Infeasible,
        Some(Found { assignment, value }) => best_answer(value, assignment),
    }
}

/// The answer of a search, by whether a region is left, and the solution that it found last.
pub fn answer_from(more: bool, found: Option<Found>) -> Answer
    ensures { result ≡ answer_from more found }
{
    if more {
        return Answer::Unfinished(valued(found));
    }
    closed_answer(found)
}
