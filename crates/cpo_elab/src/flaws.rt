ghost use Rattle.std.specs.Prelude.{◌≡◌, not, option_map};
ghost use Rattle.std.specs.List.{list_any};
ghost use Rattle.sched_model.specs.Words.{passes};
ghost use Rattle.sched_model.specs.Bounds.{is_moment};
ghost use Rattle.cpo_elab.specs.Literals.{int_of};
ghost use Rattle.cpo_elab.specs.Held.{ivarg_range, cpart_moments, window_moments, some_range, some_moments, some_bound, levels_in, least_size, some_size, cpart_height, some_height, some_int, some_in_rows, some_amount};
ghost use Rattle.cpo_elab.specs.Judged.{is_outside, is_large, has_reversed, has_negative};
ghost use Rattle.cpo_elab.specs.Stages.{steps_in, pairs_of};
ghost use Rattle.calendar.specs.Steps.{rises as are_rising};
ghost use Rattle.cpo_elab.specs.code.Drafts.{is_flawed_pair, is_flawed};

use crate::literals::{int_of, range_of};
use crate::rising::rises;
use cpo_text::{
    Constrained, Cpart, Cumul, Definition, Int, Ivarg, Moments, Signed, Statement, StepPair,
};
use sched_base::List;
use sched_model::is_moment;

/// What may be wrong with two numbers: the first is above the second, or one is outside the bounds
/// on moments.
#[derive(Clone, Copy, Debug, PartialEq, Eq)]
pub enum PairFlaw {
    Reversed,
    Outside,
}

/// What may be wrong with a size, a count, a height, a type, a distance, a state or a value of a step
/// function.
#[derive(Clone, Copy, Debug, PartialEq, Eq)]
pub enum AmountFlaw {
    Negative,
    Large,
}

/// The greatest height, type, distance or state.
const AMOUNT_LIMIT: i64 = 1_000_000;

fn is_flawed_pair(flaw: PairFlaw, r: (i64, i64)) -> bool
    ensures { result ≡ is_flawed_pair flaw r }
{
    match flaw {
        PairFlaw::Reversed => r.1 < r.0,
        PairFlaw::Outside => !is_moment(r.0) || !is_moment(r.1),
    }
}

fn is_flawed(flaw: AmountFlaw, z: i64) -> bool
    ensures { result ≡ is_flawed flaw z }
{
    match flaw {
        AmountFlaw::Negative => z < 0,
        AmountFlaw::Large => AMOUNT_LIMIT < z,
    }
}

fn pair_if_any(flaw: PairFlaw, r: Option<(i64, i64)>) -> bool
    ensures { result ≡ passes (is_flawed_pair flaw) r }
{
    match r {
        None => false,
        Some(r) => is_flawed_pair(flaw, r),
    }
}

fn amount_if_any(flaw: AmountFlaw, z: Option<i64>) -> bool
    ensures { result ≡ passes (is_flawed flaw) z }
{
    match z {
        None => false,
        Some(z) => is_flawed(flaw, z),
    }
}

/// The ends of the range of an argument.
pub fn ivarg_range(a: Ivarg) -> Option<(i64, i64)>
    ensures { result ≡ ivarg_range a }
{
    match a {
        Ivarg::Optional => None,
        Ivarg::Start(r) => Some(range_of(r)),
        Ivarg::End(r) => Some(range_of(r)),
        Ivarg::Size(r) => Some(range_of(r)),
    }
}

fn least_size(a: Ivarg) -> Option<i64>
    ensures { result ≡ least_size a }
{
    match a {
        Ivarg::Size(r) => Some(range_of(r).0),
        _ => None,
    }
}

fn cpart_moments(part: &Cpart) -> Option<(i64, i64)>
    ensures { result ≡ cpart_moments part.now }
{
    match part {
        Cpart::Pulse(u, v, _) => Some((int_of(*u), int_of(*v))),
        Cpart::Step(u, _) => Some((int_of(*u), int_of(*u))),
        _ => None,
    }
}

fn window_moments(moments: &Moments) -> Option<(i64, i64)>
    ensures { result ≡ window_moments moments.now }
{
    match moments {
        Moments::From(u, v) => Some((int_of(*u), int_of(*v))),
        Moments::During(_) => None,
    }
}

fn levels_in(s: &Statement) -> Option<(i64, i64)>
    ensures { result ≡ levels_in s.now }
{
    match s {
        Statement::Constrain(Constrained::AlwaysIn(_, _, lo, hi)) => {
            Some((int_of(*lo), int_of(*hi)))
        }
        _ => None,
    }
}

fn cpart_height(part: &Cpart) -> Option<i64>
    ensures { result ≡ cpart_height part.now }
{
    match part {
        Cpart::Named(_) => None,
        Cpart::Pulse(_, _, h) => Some(int_of(*h)),
        Cpart::PulseOf(_, h) => Some(int_of(*h)),
        Cpart::Step(_, h) => Some(int_of(*h)),
        Cpart::StepAtStart(_, h) => Some(int_of(*h)),
        Cpart::StepAtEnd(_, h) => Some(int_of(*h)),
    }
}

fn some_range(flaw: PairFlaw, args: &[Ivarg]) -> bool
    ensures { result ≡ some_range (is_flawed_pair flaw) args.now }
{
    args.iter().any(|a| pair_if_any(flaw, ivarg_range(*a)))
}

fn some_later_moments(flaw: PairFlaw, parts: &[Signed]) -> bool
    ensures { result ≡ list_any (λ s. passes (is_flawed_pair flaw) (cpart_moments s.part)) parts.now }
{
    parts
        .iter()
        .any(|s| pair_if_any(flaw, cpart_moments(&s.part)))
}

fn some_moments(flaw: PairFlaw, c: &Cumul) -> bool
    ensures { result ≡ some_moments (is_flawed_pair flaw) c.now }
{
    pair_if_any(flaw, cpart_moments(&c.first.part)) || some_later_moments(flaw, c.more.as_slice())
}

/// Whether a moment of a step function has the flaw, as a pair with itself.
fn some_step(flaw: PairFlaw, pairs: &[StepPair]) -> bool
    ensures { result ≡ list_any (λ p. is_flawed_pair flaw (int_of p.moment, int_of p.moment)) pairs.now }
{
    pairs.iter().any(|p| is_flawed_pair(flaw, (int_of(p.moment), int_of(p.moment))))
}

/// Whether a range or a pair of moments has the flaw.
fn some_bound(flaw: PairFlaw, s: &Statement) -> bool
    ensures { result ≡ some_bound (is_flawed_pair flaw) s.now }
{
    match s {
        Statement::Define(_, Definition::IntervalVar(args)) => some_range(flaw, args.as_slice()),
        Statement::Define(_, Definition::StepFunction(pairs)) => some_step(flaw, pairs.as_slice()),
        Statement::Define(_, Definition::Cumulative(c)) => some_moments(flaw, c),
        Statement::Constrain(Constrained::Bounded(f, _, _)) => some_moments(flaw, f),
        Statement::Constrain(Constrained::AlwaysIn(f, moments, _, _)) => {
            pair_if_any(flaw, window_moments(moments)) || some_moments(flaw, f)
        }
        _ => false,
    }
}

/// Whether an end of a range, or a moment, is outside the bounds on moments.
pub fn is_outside(s: &Statement) -> bool
    ensures { result ≡ some_bound is_outside s.now }
{
    some_bound(PairFlaw::Outside, s)
}

/// Whether a moment of a step function isn't later than those before it.
fn has_fall(s: &Statement) -> bool
    ensures { result ≡ not (are_rising (pairs_of (steps_in s.now))) }
{
    match s {
        Statement::Define(_, Definition::StepFunction(pairs)) => !rises(pairs.as_slice()),
        _ => false,
    }
}

/// Whether a range, a pair of moments or a pair of levels has its ends turned round, or the moments
/// of a step function don't rise.
pub fn has_reversed(s: &Statement) -> bool
    ensures { result ≡ has_reversed s.now }
{
    has_fall(s)
        || some_bound(PairFlaw::Reversed, s)
        || pair_if_any(PairFlaw::Reversed, levels_in(s))
}

fn some_least_size(flaw: AmountFlaw, args: &[Ivarg]) -> bool
    ensures { result ≡ list_any (λ a. passes (is_flawed flaw) (least_size a)) args.now }
{
    args.iter().any(|a| amount_if_any(flaw, least_size(*a)))
}

/// Whether the count of an alternative has the flaw, where one is written.
fn some_count(flaw: AmountFlaw, count: Option<Int>) -> bool
    ensures { result ≡ passes (is_flawed flaw) (option_map int_of count) }
{
    match count {
        None => false,
        Some(n) => is_flawed(flaw, int_of(n)),
    }
}

fn some_size(flaw: AmountFlaw, s: &Statement) -> bool
    ensures { result ≡ some_size (is_flawed flaw) s.now }
{
    match s {
        Statement::Define(_, Definition::IntervalVar(args)) => {
            some_least_size(flaw, args.as_slice())
        }
        Statement::Constrain(Constrained::Alternative(_, _, count)) => some_count(flaw, *count),
        _ => false,
    }
}

fn some_later_height(flaw: AmountFlaw, parts: &[Signed]) -> bool
    ensures { result ≡ list_any (λ s. passes (is_flawed flaw) (cpart_height s.part)) parts.now }
{
    parts
        .iter()
        .any(|s| amount_if_any(flaw, cpart_height(&s.part)))
}

fn some_height(flaw: AmountFlaw, c: &Cumul) -> bool
    ensures { result ≡ some_height (is_flawed flaw) c.now }
{
    amount_if_any(flaw, cpart_height(&c.first.part)) || some_later_height(flaw, c.more.as_slice())
}

fn some_int(flaw: AmountFlaw, ints: &[Int]) -> bool
    ensures { result ≡ some_int (is_flawed flaw) ints.now }
{
    ints.iter().any(|i| is_flawed(flaw, int_of(*i)))
}

fn some_value(flaw: AmountFlaw, pairs: &[StepPair]) -> bool
    ensures { result ≡ list_any (λ p. is_flawed flaw (int_of p.value)) pairs.now }
{
    pairs.iter().any(|p| is_flawed(flaw, int_of(p.value)))
}

fn some_in_rows(flaw: AmountFlaw, rows: &[List<Int>]) -> bool
    ensures { result ≡ some_in_rows (is_flawed flaw) rows.now }
{
    rows.iter().any(|row| some_int(flaw, row.as_slice()))
}

/// Whether a height, a type, a distance or a state has the flaw.
fn some_amount(flaw: AmountFlaw, s: &Statement) -> bool
    ensures { result ≡ some_amount (is_flawed flaw) s.now }
{
    match s {
        Statement::Define(_, Definition::SequenceVar(_, Some(types))) => {
            some_int(flaw, types.as_slice())
        }
        Statement::Define(_, Definition::TransitionMatrix(rows)) => {
            some_in_rows(flaw, rows.as_slice())
        }
        Statement::Define(_, Definition::StepFunction(pairs)) => some_value(flaw, pairs.as_slice()),
        Statement::Define(_, Definition::Cumulative(c)) => some_height(flaw, c),
        Statement::Constrain(Constrained::Bounded(f, _, _)) => some_height(flaw, f),
        Statement::Constrain(Constrained::AlwaysIn(f, _, _, _)) => some_height(flaw, f),
        Statement::Constrain(Constrained::AlwaysEqual(_, _, v, _)) => is_flawed(flaw, int_of(*v)),
        _ => false,
    }
}

/// Whether a height, a type, a distance or a state is too large.
pub fn has_large(s: &Statement) -> bool
    ensures { result ≡ some_amount is_large s.now }
{
    some_amount(AmountFlaw::Large, s)
}

/// Whether a size, a count, a height, a type, a distance or a state is negative.
pub fn has_negative(s: &Statement) -> bool
    ensures { result ≡ has_negative s.now }
{
    some_size(AmountFlaw::Negative, s) || some_amount(AmountFlaw::Negative, s)
}
