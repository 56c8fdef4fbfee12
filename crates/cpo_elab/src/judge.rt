ghost use Rattle.std.specs.Prelude.{◌≡◌, ◌+◌, ℕ, None, IfOk};
ghost use Rattle.std.specs.List.{list_any};
ghost use Rattle.cpo_elab.specs.Factors.{factor_of};
ghost use Rattle.cpo_elab.specs.Judged.{aims_again, has_no_hull, is_crowded, has_crowded};
ghost use Rattle.cpo_elab.specs.code.Judging.{early_number, late_number, written_in, Judges};

use crate::draft::Draft;
use crate::factors::{Factor, factor_of};
use crate::fits::{has_twice, misfits};
use crate::flaws::{has_negative, has_reversed};
use crate::holding::{Written, exprs_in, leaves_bound};
use crate::limits::passes_limit;
use crate::stage::Stage;
use crate::uses::{defines_again, uses_unknown, uses_wrong};
use cpo_text::{Cause, Constrained, Logic, Statement};
use sched_base::NoMemory;
use std::alloc::Global;

/// What a statement deserves.
#[derive(Drop)]
pub enum Judgement {
    /// The number of a refusal.
    Refused(u32),
    /// No refusal. The expressions that it holds are here.
    Taken(Written),
}

fn aims_again(draft: &Draft, s: &Statement) -> bool
    ensures { result ≡ aims_again draft.now s.now }
{
    match s {
        Statement::Aim(_, _) => draft.model().objective().is_some(),
        Statement::Rank(_, _) => draft.model().objective().is_some(),
        _ => false,
    }
}

fn has_no_hull(draft: &Draft, s: &Statement, written: &Written) -> bool
    requires { written.now ≡ written_in draft.now s.now }
    ensures { result ≡ has_no_hull draft.now s.now }
{
    let _ = s;
    leaves_bound(draft, written)
}

fn is_crowded(e: &Logic) -> bool
    ensures { result ≡ is_crowded (factor_of e.now) }
{
    match factor_of(e) {
        Factor::Crowded => true,
        _ => false,
    }
}

fn some_crowded(es: &[Logic]) -> bool
    ensures { result ≡ list_any (λ e. is_crowded (factor_of e)) es.now }
{
    es.iter().any(|e| is_crowded(e))
}

/// Whether a product has two factors that name an interval.
fn has_crowded(s: &Statement) -> bool
    ensures { result ≡ has_crowded s.now }
{
    match s {
        Statement::Constrain(Constrained::Holds(e)) => is_crowded(e),
        Statement::Aim(_, e) => is_crowded(e),
        Statement::Rank(_, es) => some_crowded(es.as_slice()),
        _ => false,
    }
}

/// The number that a statement deserves behind so many others by the tests that need no expression
/// of a model. The nodes of one are counted on its tree, so that none is built beyond the limit.
fn early_number(
    alloc: Global,
    stage: &Stage,
    before: u32,
    s: &Statement,
) -> Result<Option<u32>, NoMemory>
    ensures { IfOk result (λ o. o ≡ early_number stage.now (before + 1) s.now) }
{
    let draft = stage.draft();
    if defines_again(stage, s) {
        return Ok(Some(Cause::DefinedAgain as u32));
    }
    if uses_unknown(stage, s) {
        return Ok(Some(Cause::UnknownName as u32));
    }
    if uses_wrong(stage, s) {
        return Ok(Some(Cause::WrongName as u32));
    }
    if has_reversed(s) {
        return Ok(Some(Cause::ReversedPair as u32));
    }
    if has_negative(s) {
        return Ok(Some(Cause::NegativeAmount as u32));
    }
    if misfits(draft, s) {
        return Ok(Some(Cause::Misfit as u32));
    }
    if has_twice(alloc, draft, s)? {
        return Ok(Some(Cause::TwiceInList as u32));
    }
    if passes_limit(stage, before, s) {
        return Ok(Some(Cause::LimitPassed as u32));
    }
    if aims_again(draft, s) {
        return Ok(Some(Cause::SecondObjective as u32));
    }
    Ok(None)
}

/// The number that the last two tests give a statement, whose expressions are `written`.
fn late_number(stage: &Stage, s: &Statement, written: &Written) -> Option<u32>
    requires { written.now ≡ written_in stage.now.model s.now }
    ensures { result ≡ late_number stage.now s.now }
{
    if has_no_hull(stage.draft(), s, written) {
        return Some(Cause::NoHull as u32);
    }
    if has_crowded(s) {
        return Some(Cause::LeftOut as u32);
    }
    None
}

/// The expressions of a statement, where the last two tests give no number.
///
/// In a function of its own, since each way out of one that owns an expression lets it go.
#[tactic(auto, using(crate::proofs::judging::Ordered::late_decides))]
fn judgement_of(stage: &Stage, s: &Statement, written: Written) -> Judgement
    requires { written ≡ written_in stage.now.model s.now }
    ensures { (k : ℕ) → early_number stage.now k s.now ≡ None → Judges stage.now k s.now result }
{
    match late_number(stage, s, &written) {
        Some(number) => Judgement::Refused(number),
        None => Judgement::Taken(written),
    }
}

/// What a statement deserves behind so many others.
pub fn judgement_in(
    alloc: Global,
    stage: &Stage,
    before: u32,
    s: &Statement,
) -> Result<Judgement, NoMemory>
    ensures { IfOk result (λ j. Judges stage.now (before + 1) s.now j) }
{
    match early_number(alloc, stage, before, s)? {
        Some(number) => Ok(Judgement::Refused(number)),
        None => {
            let written = exprs_in(alloc, stage.draft(), s)?;
            Ok(judgement_of(stage, s, written))
        }
    }
}
