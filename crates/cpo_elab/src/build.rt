ghost use Rattle.std.specs.Prelude.{◌≡◌, ◌≤◌, ◌<◌, false, true, [], ◌∷◌, length, map, None, is_none, IfOk, option_map};
ghost use Rattle.sched_model.specs.Words.{passes};
ghost use Rattle.sched_model.specs.Data.{with_constraint, with_objective};
ghost use Rattle.sched_model.specs.Valid.{IsValid};
ghost use Rattle.cpo_text.specs.declared.tree.Statement.TheVariants.{Define};
ghost use Rattle.cpo_elab.specs.Named.{is_defined};
ghost use Rattle.cpo_elab.specs.Held.{some_amount, some_int, rows_in, logic_held, logics_in, criteria_in};
ghost use Rattle.cpo_elab.specs.Elaborated.{types_in, sequence_named, matrix_named, state_named, cumul_named, defined, constraint_of, named_itself, with_unnamed, with_listed, with_written, expr_of, objective_of, after};
ghost use Rattle.cpo_elab.specs.code.Items.{with_item, item_name, with_any, IsUnnamed};
ghost use Rattle.cpo_elab.specs.Judged.{is_large, is_negative, aims_again};
ghost use Rattle.cpo_elab.specs.declared.holding.Written.TheVariants.{Several};
ghost use Rattle.cpo_elab.specs.code.Calendars.{is_of_calendars};
ghost use Rattle.cpo_elab.specs.code.Judging.{written_in, IsClear};
ghost use Rattle.cpo_elab.specs.Shaped.{is_shaped};

use crate::constraints::{constraint_of, is_unnamed, sense_of};
use crate::copies::{cells_in, itvs_of, types_in};
use crate::draft::Draft;
use crate::holding::Written;
use crate::interval::interval_of;
use crate::item::Item;
use crate::parts::parts_in;
use cpo_text::{Constrained, Cumul, Definition, Int, Over, Sense, Statement};
use sched_base::{List, NoMemory};
use sched_model::{Constraint, CumulDef, Expr, MatrixDef, Objective, SequenceDef, StateDef};
use std::alloc::Global;

fn copy(alloc: Global, name: &[u8]) -> Result<List<u8>, NoMemory>
    ensures { IfOk result (λ n. n ≡ name.now) }
{
    Ok(List::from_vec(Vec::from_slice(alloc, name)?))
}

fn types_if_any(alloc: Global, types: &Option<List<Int>>) -> Result<Option<List<u32>>, NoMemory>
    requires large { passes (some_int is_large) types.now ≡ false }
    requires negative { passes (some_int is_negative) types.now ≡ false }
    ensures { IfOk result (λ o. o ≡ option_map types_in types.now) }
{
    match types {
        None => Ok(None),
        Some(types) => Ok(Some(types_in(alloc, types.as_slice())?)),
    }
}

fn sequence_named(
    alloc: Global,
    draft: &Draft,
    name: &[u8],
    members: &[List<u8>],
    types: &Option<List<Int>>,
) -> Result<SequenceDef, NoMemory>
    requires large { passes (some_int is_large) types.now ≡ false }
    requires negative { passes (some_int is_negative) types.now ≡ false }
    ensures { IfOk result (λ d. d ≡ sequence_named draft.now (Some name.now) members.now types.now) }
{
    let name = copy(alloc, name)?;
    let members = itvs_of(alloc, draft, members)?;
    let types = types_if_any(alloc, types)?;
    Ok(SequenceDef {
        name: Some(name),
        members,
        types,
    })
}

fn matrix_named(alloc: Global, name: &[u8], rows: &[List<Int>]) -> Result<MatrixDef, NoMemory>
    requires { length rows.now ≤ 200 }
    ensures { IfOk result (λ d. d ≡ matrix_named name.now rows.now) }
{
    Ok(MatrixDef {
        name: copy(alloc, name)?,
        size: rows.len() as u32,
        cells: cells_in(alloc, rows)?,
    })
}

fn state_named(
    alloc: Global,
    draft: &Draft,
    name: &[u8],
    matrix: &Option<List<u8>>,
) -> Result<StateDef, NoMemory>
    ensures { IfOk result (λ d. d ≡ state_named draft.now name.now matrix.now) }
{
    let name = copy(alloc, name)?;
    match matrix {
        None => Ok(StateDef { name, matrix: None }),
        Some(x) => Ok(StateDef {
            name,
            matrix: Some(draft.mat_of(x.as_slice())),
        }),
    }
}

fn cumul_named(alloc: Global, draft: &Draft, name: &[u8], c: &Cumul) -> Result<CumulDef, NoMemory>
    ensures { IfOk result (λ d. d ≡ cumul_named draft.now (Some name.now) c.now) }
{
    Ok(CumulDef {
        name: Some(copy(alloc, name)?),
        parts: parts_in(alloc, draft, c)?,
    })
}

/// The thing that a definition names.
fn item_of(alloc: Global, draft: &Draft, name: &[u8], d: &Definition) -> Result<Item, NoMemory>
    requires own { is_of_calendars (Define name.now d.now) ≡ false }
    requires large { some_amount is_large (Define name.now d.now) ≡ false }
    requires negative { some_amount is_negative (Define name.now d.now) ≡ false }
    requires rows { length (rows_in (Define name.now d.now)) ≤ 200 }
    ensures item { IfOk result (λ x. with_item x draft.now ≡ defined draft.now name.now d.now) }
    ensures name { IfOk result (λ x. item_name x ≡ Some name.now) }
{
    match d {
        Definition::IntervalVar(args) => {
            let def = interval_of(alloc, name, args.as_slice())?;
            Ok(Item::Interval(def))
        }
        Definition::SequenceVar(members, types) => {
            let def = sequence_named(alloc, draft, name, members.as_slice(), types)?;
            Ok(Item::Sequence(def))
        }
        Definition::TransitionMatrix(rows) => {
            let def = matrix_named(alloc, name, rows.as_slice())?;
            Ok(Item::Matrix(def))
        }
        Definition::StateFunction(matrix) => {
            let def = state_named(alloc, draft, name, matrix)?;
            Ok(Item::State(def))
        }
        Definition::StepFunction(_) => unreachable!(),
        Definition::Cumulative(c) => {
            let def = cumul_named(alloc, draft, name, c)?;
            Ok(Item::Cumulated(def))
        }
    }
}

/// The draft with a definition.
///
/// What can fail stands in functions that borrow the draft or take it whole, since each other way
/// out of one that owns it lets it go.
fn define(alloc: Global, draft: Draft, name: &[u8], d: &Definition) -> Result<Draft, NoMemory>
    requires own { is_of_calendars (Define name.now d.now) ≡ false }
    requires valid { IsValid (defined draft name.now d.now) }
    requires fresh { is_defined draft name.now ≡ false }
    requires large { some_amount is_large (Define name.now d.now) ≡ false }
    requires negative { some_amount is_negative (Define name.now d.now) ≡ false }
    requires rows { length (rows_in (Define name.now d.now)) ≤ 200 }
    ensures { IfOk result (λ e. e ≡ defined draft name.now d.now) }
{
    let item = item_of(alloc, &draft, name, d)?;
    draft.with_named(alloc, name, item)
}

/// The sequence of a list, which has no name.
fn listed(alloc: Global, draft: &Draft, over: &Over) -> Result<Option<Item>, NoMemory>
    ensures item { IfOk result (λ o. with_any o draft.now ≡ with_listed draft.now over.now) }
    ensures name { IfOk result (λ o. IsUnnamed o) }
{
    match over {
        Over::Named(_) => Ok(None),
        Over::Listed(names) => {
            let members = itvs_of(alloc, draft, names.as_slice())?;
            Ok(Some(Item::Sequence(SequenceDef {
                name: None,
                members,
                types: None,
            })))
        }
    }
}

/// The function of a cumulative expression, where that has no name.
fn unnamed(alloc: Global, draft: &Draft, c: &Cumul) -> Result<Option<Item>, NoMemory>
    ensures item { IfOk result (λ o. with_any o draft.now ≡ with_unnamed draft.now c.now (named_itself c.now)) }
    ensures name { IfOk result (λ o. IsUnnamed o) }
{
    if !is_unnamed(c) {
        return Ok(None);
    }
    let parts = parts_in(alloc, draft, c)?;
    Ok(Some(Item::Cumulated(CumulDef { name: None, parts })))
}

/// What a constraint writes without a name.
fn written(alloc: Global, draft: &Draft, c: &Constrained) -> Result<Option<Item>, NoMemory>
    ensures item { IfOk result (λ o. with_any o draft.now ≡ with_written draft.now c.now) }
    ensures name { IfOk result (λ o. IsUnnamed o) }
{
    match c {
        Constrained::NoOverlap(over, _) => listed(alloc, draft, over),
        Constrained::Bounded(f, _, _) => unnamed(alloc, draft, f),
        Constrained::AlwaysIn(f, _, _, _) => unnamed(alloc, draft, f),
        _ => Ok(None),
    }
}

/// A constraint that is no expression, and what it writes without a name.
fn constraint_with(
    alloc: Global,
    draft: &Draft,
    c: &Constrained,
) -> Result<(Option<Item>, Constraint), NoMemory>
    requires { logic_held c.now ≡ None }
    ensures item { IfOk result (λ x. with_any x.0 draft.now ≡ with_written draft.now c.now) }
    ensures name { IfOk result (λ x. IsUnnamed x.0) }
    ensures constraint { IfOk result (λ x. x.1 ≡ constraint_of draft.now c.now) }
{
    let constraint = constraint_of(alloc, draft, c)?;
    let item = written(alloc, draft, c)?;
    Ok((item, constraint))
}

/// The draft with a constraint that is no expression.
fn constrain(alloc: Global, draft: Draft, c: &Constrained) -> Result<Draft, NoMemory>
    requires plain { logic_held c.now ≡ None }
    requires written { IsValid (with_written draft c.now) }
    requires valid { IsValid (with_constraint (constraint_of draft c.now) (with_written draft c.now)) }
    ensures { IfOk result (λ e. e ≡ with_constraint (constraint_of draft c.now) (with_written draft c.now)) }
{
    let (item, constraint) = constraint_with(alloc, &draft, c)?;
    draft.with_constraint(item, constraint)
}

/// The draft with a statement that holds no expression.
#[tactic(auto, using(crate::proofs::judging::Written::some_criteria))]
fn with_plain(alloc: Global, draft: Draft, s: &Statement) -> Result<Draft, NoMemory>
    requires plain { logics_in s.now ≡ [] }
    requires own { is_of_calendars s.now ≡ false }
    requires valid { IsValid draft }
    requires shaped { is_shaped s.now ≡ true }
    requires clear { IsClear draft s.now }
    ensures { IfOk result (λ e. e ≡ after draft s.now) }
{
    match s {
        Statement::Empty => Ok(draft),
        Statement::Define(name, d) => define(alloc, draft, name.as_slice(), d),
        Statement::Constrain(c) => constrain(alloc, draft, c),
        Statement::Forbid(_, _, _) => unreachable!(),
        Statement::Aim(_, _) => unreachable!(),
        Statement::Rank(_, _) => unreachable!(),
    }
}

/// The draft with an objective that is one expression.
fn with_single(alloc: Global, draft: Draft, sense: Sense, expr: Expr) -> Draft
    requires valid { IsValid (with_objective (objective_of draft sense (expr ∷ [])) draft) }
    requires single { draft.objective ≡ None }
    ensures { result ≡ with_objective (objective_of draft sense (expr ∷ [])) draft }
{
    draft.with_objective(Objective {
        sense: sense_of(sense),
        expr,
        criteria: List::new(alloc),
    })
}

/// The draft with a statement that holds this expression alone.
#[tactic(auto, using(crate::proofs::judging::Written::one_constraint, crate::proofs::judging::Written::one_aim, crate::proofs::judging::Written::one_criterion))]
fn with_expr(alloc: Global, draft: Draft, s: &Statement, expr: Expr) -> Result<Draft, NoMemory>
    requires held { map (expr_of draft) (logics_in s.now) ≡ expr ∷ [] }
    requires valid { IsValid draft }
    requires after { IsValid (after draft s.now) }
    requires single { aims_again draft s.now ≡ false }
    ensures { IfOk result (λ e. e ≡ after draft s.now) }
{
    match s {
        Statement::Constrain(_) => draft.with_constraint(None, Constraint::Logic(expr)),
        Statement::Aim(sense, _) => Ok(with_single(alloc, draft, *sense, expr)),
        Statement::Rank(sense, _) => Ok(with_single(alloc, draft, *sense, expr)),
        _ => unreachable!(),
    }
}

/// The draft with an objective that has these criteria and this rank of them.
#[tactic(auto, using(crate::proofs::judging::Written::several_aim))]
fn with_criteria(draft: Draft, s: &Statement, criteria: List<Expr>, rank: Option<Expr>) -> Draft
    requires held { written_in draft s.now ≡ Several criteria rank }
    requires many { 1 < length (criteria_in s.now) }
    requires rank { is_none rank ≡ false }
    requires after { IsValid (after draft s.now) }
    requires single { aims_again draft s.now ≡ false }
    ensures { result ≡ after draft s.now }
{
    let Some(expr) = rank else { unreachable!() };
    match s {
        Statement::Rank(sense, _) => draft.with_objective(Objective {
            sense: sense_of(*sense),
            expr,
            criteria,
        }),
        _ => unreachable!(),
    }
}

/// The draft with a statement that is of no calendar and deserves no number behind some others,
/// whatever step functions stand beside the model. The expressions that the statement holds are
/// `written`.
pub fn with_statement(
    alloc: Global,
    draft: Draft,
    s: &Statement,
    written: Written,
) -> Result<Draft, NoMemory>
    requires own { is_of_calendars s.now ≡ false }
    requires written { written ≡ written_in draft s.now }
    requires valid { IsValid draft }
    requires shaped { is_shaped s.now ≡ true }
    requires clear { IsClear draft s.now }
    ensures { IfOk result (λ e. e ≡ after draft s.now) }
{
    match written {
        Written::Nothing => with_plain(alloc, draft, s),
        Written::One(expr) => with_expr(alloc, draft, s, expr),
        Written::Several(criteria, rank) => Ok(with_criteria(draft, s, criteria, rank)),
    }
}
