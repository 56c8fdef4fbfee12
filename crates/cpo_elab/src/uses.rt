ghost use Rattle.std.specs.Prelude.{◌≡◌, ◌||◌, map};
ghost use Rattle.std.specs.List.{list_any};
ghost use Rattle.sched_model.specs.Words.{passes};
ghost use Rattle.sched_model.specs.Data.{has, members_of};
ghost use Rattle.cpo_elab.specs.declared.names.Sort.TheVariants as of;
ghost use Rattle.cpo_elab.specs.Named.{some_in_logic, some_in_cpart, some_in_cumul, some_in_over, some_in_moments, some_in_definition, some_in_constraint, some_name};
ghost use Rattle.cpo_elab.specs.Judged.{defines_again, uses_unknown, is_no_member, asks_others, lacks_member, uses_wrong};
ghost use Rattle.cpo_elab.specs.Stages.{function_in};
ghost use Rattle.cpo_elab.specs.code.Drafts.{fails, function_fails};

use crate::draft::Draft;
use crate::names::Sort;
use crate::stage::Stage;
use cpo_text::{
    Constrained, Cpart, Cumul, Definition, Logic, Moments, Over, Signed, Spaced, Statement,
};
use sched_base::{Itv, List, Seq};
use sched_model::Model;

/// What is asked of a name that is used: that it is defined, or that it is of the sort that its
/// place asks for.
#[derive(Clone, Copy, Debug, PartialEq, Eq)]
pub enum Asked {
    Known,
    OfItsSort,
}

/// Whether a name isn't as it is asked to be.
fn fails(stage: &Stage, asked: Asked, sort: Sort, name: &[u8]) -> bool
    ensures { result ≡ fails stage.now asked sort name.now }
{
    match asked {
        Asked::Known => !stage.is_known(name),
        Asked::OfItsSort => stage.draft().number_of(sort, name).is_none(),
    }
}

/// The same of the name of a step function.
fn function_fails(stage: &Stage, asked: Asked, name: &[u8]) -> bool
    ensures { result ≡ function_fails stage.now asked name.now }
{
    match asked {
        Asked::Known => !stage.is_known(name),
        Asked::OfItsSort => !stage.is_function(name),
    }
}

/// The same of the step function that a statement uses.
fn used_function_fails(stage: &Stage, asked: Asked, s: &Statement) -> bool
    ensures { result ≡ passes (function_fails stage.now asked) (function_in s.now) }
{
    match s {
        Statement::Forbid(_, _, f) => function_fails(stage, asked, f.as_slice()),
        _ => false,
    }
}

fn any_fails(stage: &Stage, asked: Asked, names: &[List<u8>]) -> bool
    ensures { result ≡ list_any (fails stage.now asked of.Interval) names.now }
{
    names.iter().any(|name| fails(stage, asked, Sort::Interval, name.as_slice()))
}

/// Whether one of two intervals fails.
fn two_fail(stage: &Stage, asked: Asked, a: &[u8], b: &[u8]) -> bool
    ensures { result ≡ (fails stage.now asked of.Interval a.now || fails stage.now asked of.Interval b.now) }
{
    fails(stage, asked, Sort::Interval, a) || fails(stage, asked, Sort::Interval, b)
}

#[cycle(logic_fails)]
fn logic_fails(stage: &Stage, asked: Asked, e: &Logic) -> bool
    ensures { result ≡ some_in_logic (fails stage.now asked) e.now }
{
    match e {
        Logic::Lit(_) => false,
        Logic::Group(part) => logic_fails(stage, asked, part.get()),
        Logic::PresenceOf(a) => fails(stage, asked, Sort::Interval, a.as_slice()),
        Logic::Measured(_, a, _) => fails(stage, asked, Sort::Interval, a.as_slice()),
        Logic::Gathered(_, parts) => any_logic_fails(stage, asked, parts.as_slice()),
        Logic::Linked(_, parts) => any_logic_fails(stage, asked, parts.as_slice()),
        Logic::Neg(part) => logic_fails(stage, asked, part.get()),
        Logic::Sum(parts) => any_logic_fails(stage, asked, parts.as_slice()),
        Logic::Compare(_, a, b) => {
            logic_fails(stage, asked, a.get()) || logic_fails(stage, asked, b.get())
        }
        Logic::Not(part) => logic_fails(stage, asked, part.get()),
        Logic::Implies(a, b) => {
            logic_fails(stage, asked, a.get()) || logic_fails(stage, asked, b.get())
        }
    }
}

#[cycle(logic_fails)]
fn any_logic_fails(stage: &Stage, asked: Asked, parts: &[Logic]) -> bool
    ensures { result ≡ list_any (λ b. b) (map (some_in_logic (fails stage.now asked)) parts.now) }
{
    for part in parts {
        if logic_fails(stage, asked, part) {
            return true;
        }
    }
    false
}

fn some_logic_fails(stage: &Stage, asked: Asked, es: &[Logic]) -> bool
    ensures { result ≡ list_any (some_in_logic (fails stage.now asked)) es.now }
{
    es.iter().any(|e| logic_fails(stage, asked, e))
}

fn cpart_fails(stage: &Stage, asked: Asked, part: &Cpart) -> bool
    ensures { result ≡ some_in_cpart (fails stage.now asked) part.now }
{
    match part {
        Cpart::Named(f) => fails(stage, asked, Sort::Cumulated, f.as_slice()),
        Cpart::Pulse(_, _, _) => false,
        Cpart::PulseOf(a, _) => fails(stage, asked, Sort::Interval, a.as_slice()),
        Cpart::Step(_, _) => false,
        Cpart::StepAtStart(a, _) => fails(stage, asked, Sort::Interval, a.as_slice()),
        Cpart::StepAtEnd(a, _) => fails(stage, asked, Sort::Interval, a.as_slice()),
    }
}

fn any_part_fails(stage: &Stage, asked: Asked, parts: &[Signed]) -> bool
    ensures { result ≡ list_any (λ s. some_in_cpart (fails stage.now asked) s.part) parts.now }
{
    parts.iter().any(|s| cpart_fails(stage, asked, &s.part))
}

fn cumul_fails(stage: &Stage, asked: Asked, c: &Cumul) -> bool
    ensures { result ≡ some_in_cumul (fails stage.now asked) c.now }
{
    cpart_fails(stage, asked, &c.first.part) || any_part_fails(stage, asked, c.more.as_slice())
}

fn over_fails(stage: &Stage, asked: Asked, over: &Over) -> bool
    ensures { result ≡ some_in_over (fails stage.now asked) over.now }
{
    match over {
        Over::Named(p) => fails(stage, asked, Sort::Sequence, p.as_slice()),
        Over::Listed(names) => any_fails(stage, asked, names.as_slice()),
    }
}

fn spacing_fails(stage: &Stage, asked: Asked, spaced: &Option<Spaced>) -> bool
    ensures { result ≡ passes (λ s. fails stage.now asked of.Matrix s.matrix) spaced.now }
{
    match spaced {
        None => false,
        Some(spaced) => fails(stage, asked, Sort::Matrix, spaced.matrix.as_slice()),
    }
}

fn moments_fail(stage: &Stage, asked: Asked, moments: &Moments) -> bool
    ensures { result ≡ some_in_moments (fails stage.now asked) moments.now }
{
    match moments {
        Moments::From(_, _) => false,
        Moments::During(a) => fails(stage, asked, Sort::Interval, a.as_slice()),
    }
}

fn definition_fails(stage: &Stage, asked: Asked, d: &Definition) -> bool
    ensures { result ≡ some_in_definition (fails stage.now asked) d.now }
{
    match d {
        Definition::IntervalVar(_) => false,
        Definition::SequenceVar(names, _) => any_fails(stage, asked, names.as_slice()),
        Definition::TransitionMatrix(_) => false,
        Definition::StateFunction(None) => false,
        Definition::StateFunction(Some(x)) => fails(stage, asked, Sort::Matrix, x.as_slice()),
        Definition::StepFunction(_) => false,
        Definition::Cumulative(c) => cumul_fails(stage, asked, c),
    }
}

fn constraint_fails(stage: &Stage, asked: Asked, c: &Constrained) -> bool
    ensures { result ≡ some_in_constraint (fails stage.now asked) c.now }
{
    match c {
        Constrained::Between(_, a, b, _) => two_fail(stage, asked, a.as_slice(), b.as_slice()),
        Constrained::Parts(_, a, names) => {
            fails(stage, asked, Sort::Interval, a.as_slice())
                || any_fails(stage, asked, names.as_slice())
        }
        Constrained::Alternative(a, names, _) => {
            fails(stage, asked, Sort::Interval, a.as_slice())
                || any_fails(stage, asked, names.as_slice())
        }
        Constrained::NoOverlap(over, spaced) => {
            over_fails(stage, asked, over) || spacing_fails(stage, asked, spaced)
        }
        Constrained::Extreme(_, p, a) => {
            fails(stage, asked, Sort::Sequence, p.as_slice())
                || fails(stage, asked, Sort::Interval, a.as_slice())
        }
        Constrained::Ordered(_, p, a, b) => {
            fails(stage, asked, Sort::Sequence, p.as_slice())
                || two_fail(stage, asked, a.as_slice(), b.as_slice())
        }
        Constrained::Bounded(f, _, _) => cumul_fails(stage, asked, f),
        Constrained::AlwaysIn(f, moments, _, _) => {
            cumul_fails(stage, asked, f) || moments_fail(stage, asked, moments)
        }
        Constrained::AlwaysEqual(g, a, _, _) => {
            fails(stage, asked, Sort::State, g.as_slice())
                || fails(stage, asked, Sort::Interval, a.as_slice())
        }
        Constrained::AlwaysNoState(g, a) => {
            fails(stage, asked, Sort::State, g.as_slice())
                || fails(stage, asked, Sort::Interval, a.as_slice())
        }
        Constrained::Holds(e) => logic_fails(stage, asked, e),
    }
}

/// Whether some name that a statement uses, but for that of a step function, isn't as it is asked
/// to be.
fn statement_fails(stage: &Stage, asked: Asked, s: &Statement) -> bool
    ensures { result ≡ some_name (fails stage.now asked) s.now }
{
    match s {
        Statement::Empty => false,
        Statement::Define(_, d) => definition_fails(stage, asked, d),
        Statement::Constrain(c) => constraint_fails(stage, asked, c),
        Statement::Forbid(_, a, _) => fails(stage, asked, Sort::Interval, a.as_slice()),
        Statement::Aim(_, e) => logic_fails(stage, asked, e),
        Statement::Rank(_, es) => some_logic_fails(stage, asked, es.as_slice()),
    }
}

/// Whether a name is defined that is defined already.
pub fn defines_again(stage: &Stage, s: &Statement) -> bool
    ensures { result ≡ defines_again stage.now s.now }
{
    match s {
        Statement::Define(name, _) => stage.is_known(name.as_slice()),
        _ => false,
    }
}

/// Whether a name is used that no earlier statement defines.
pub fn uses_unknown(stage: &Stage, s: &Statement) -> bool
    ensures { result ≡ uses_unknown stage.now s.now }
{
    used_function_fails(stage, Asked::Known, s) || statement_fails(stage, Asked::Known, s)
}

fn members_of(model: &Model, p: Seq) -> &[Itv]
    ensures { result.now ≡ members_of model.now p }
{
    match model.sequences().get(p.0 as usize) {
        None => &[],
        Some(d) => d.members.as_slice(),
    }
}

fn has(members: &[Itv], a: Itv) -> bool
    ensures { result ≡ has members.now a }
{
    members.iter().any(|x| a.0 == x.0)
}

fn is_no_member(draft: &Draft, p: &[u8], a: &[u8]) -> bool
    ensures { result ≡ is_no_member draft.now p.now a.now }
{
    !has(members_of(draft.model(), draft.seq_of(p)), draft.itv_of(a))
}

fn asks_others(draft: &Draft, c: &Constrained) -> bool
    ensures { result ≡ asks_others draft.now c.now }
{
    match c {
        Constrained::Extreme(_, p, a) => is_no_member(draft, p.as_slice(), a.as_slice()),
        Constrained::Ordered(_, p, a, b) => {
            is_no_member(draft, p.as_slice(), a.as_slice())
                || is_no_member(draft, p.as_slice(), b.as_slice())
        }
        _ => false,
    }
}

/// Whether an interval is no member of the sequence that is named with it.
fn lacks_member(draft: &Draft, s: &Statement) -> bool
    ensures { result ≡ lacks_member draft.now s.now }
{
    match s {
        Statement::Constrain(c) => asks_others(draft, c),
        _ => false,
    }
}

/// Whether a name is used that is of another sort than its place asks for, or an interval that is
/// no member of the sequence named with it.
pub fn uses_wrong(stage: &Stage, s: &Statement) -> bool
    ensures { result ≡ uses_wrong stage.now s.now }
{
    used_function_fails(stage, Asked::OfItsSort, s)
        || statement_fails(stage, Asked::OfItsSort, s)
        || lacks_member(stage.draft(), s)
}
