ghost use Rattle.std.specs.Prelude.{◌≡◌, [], ◌∷◌, not, length, nat_eq, nat_lt, IfOk};
ghost use Rattle.std.specs.List.{list_all};
ghost use Rattle.std.specs.Option.{option_copied};
ghost use Rattle.sched_model.specs.Data.{sequence_of, state_matrix, matrix_of};
ghost use Rattle.sched_model.specs.Domain.{is_row};
ghost use Rattle.sched_model.specs.Valid.{are_distinct, fits_types};
ghost use Rattle.cpo_elab.specs.Named.{itvs_of};
ghost use Rattle.cpo_elab.specs.Held.{list_in_definition, list_in_constraint, listed_in};
ghost use Rattle.cpo_elab.specs.Judged.{is_square, has_rows_for, is_matched, has_rows, misfits, has_twice};

use crate::draft::Draft;
use crate::literals::int_of;
use cpo_text::{Constrained, Definition, Int, Over, Statement};
use indexmap::IndexSet;
use sched_base::{List, Mat, NoMemory, Seq, Stf, at};
use sched_model::Model;
use std::alloc::Global;

fn are_of_length(rows: &[List<Int>], n: usize) -> bool
    ensures { result ≡ list_all (λ row. nat_eq (length row) n) rows.now }
{
    rows.iter().all(|row| row.len() == n)
}

/// Whether there are rows, and each is as long as there are rows.
fn is_square(rows: &[List<Int>]) -> bool
    ensures { result ≡ is_square rows.now }
{
    1 <= rows.len() && are_of_length(rows, rows.len())
}

fn is_matched(d: &Definition) -> bool
    ensures { result ≡ is_matched d.now }
{
    match d {
        Definition::TransitionMatrix(rows) => is_square(rows.as_slice()),
        Definition::SequenceVar(names, Some(types)) => types.len() == names.len(),
        _ => true,
    }
}

fn types_of(model: &Model, p: Seq) -> Option<&List<u32>>
    ensures { option_copied result ≡ (sequence_of model.now p).types }
{
    match model.sequences().get(p.0 as usize) {
        None => None,
        Some(d) => d.types.as_ref(),
    }
}

fn are_below(types: &[u32], size: u32) -> bool
    ensures { result ≡ list_all (λ t. nat_lt t size) types.now }
{
    types.iter().all(|t| *t < size)
}

/// Whether a sequence has types, and each of them is a row of the matrix.
fn fits_types(model: &Model, p: Seq, x: Mat) -> bool
    ensures { result ≡ fits_types model.now p x }
{
    if (x.0 as usize) >= model.matrices().len() {
        return false;
    }
    match types_of(model, p) {
        None => false,
        Some(types) => match at(model.matrices(), x.0 as usize) {
            None => false,
            Some(d) => are_below(types.as_slice(), d.size),
        },
    }
}

fn has_rows_for(draft: &Draft, over: &Over, x: &[u8]) -> bool
    ensures { result ≡ has_rows_for draft.now over.now x.now }
{
    match over {
        Over::Named(p) => { fits_types(draft.model(), draft.seq_of(p.as_slice()), draft.mat_of(x)) }
        Over::Listed(_) => false,
    }
}

fn state_matrix(model: &Model, g: Stf) -> Option<Mat>
    ensures { result ≡ state_matrix model.now g }
{
    match model.states().get(g.0 as usize) {
        None => None,
        Some(d) => d.matrix,
    }
}

fn is_row(model: &Model, matrix: Option<Mat>, v: i64) -> bool
    ensures { result ≡ is_row (matrix_of model.now matrix) v }
{
    match matrix {
        None => true,
        Some(x) => match at(model.matrices(), x.0 as usize) {
            None => true,
            Some(d) => v < i64::from(d.size),
        },
    }
}

fn has_rows(draft: &Draft, c: &Constrained) -> bool
    ensures { result ≡ has_rows draft.now c.now }
{
    match c {
        Constrained::NoOverlap(over, Some(spaced)) => {
            has_rows_for(draft, over, spaced.matrix.as_slice())
        }
        Constrained::AlwaysEqual(g, _, v, _) => {
            let matrix = state_matrix(draft.model(), draft.stf_of(g.as_slice()));
            is_row(draft.model(), matrix, int_of(*v))
        }
        _ => true,
    }
}

/// Whether a matrix isn't square, there are more or fewer types than members, or a type or a state
/// is no row of the matrix.
pub fn misfits(draft: &Draft, s: &Statement) -> bool
    ensures { result ≡ misfits draft.now s.now }
{
    match s {
        Statement::Define(_, d) => !is_matched(d),
        Statement::Constrain(c) => !has_rows(draft, c),
        _ => false,
    }
}

/// Whether an interval has two of the names.
fn any_twice(alloc: Global, draft: &Draft, names: &[List<u8>]) -> Result<bool, NoMemory>
    ensures { IfOk result (λ b. b ≡ not (are_distinct (itvs_of draft.now names.now))) }
{
    let mut seen = IndexSet::new(alloc);
    for name in names {
        let a = draft.itv_of(name.as_slice());
        if !seen.insert(a.0)? {
            return Ok(true);
        }
    }
    Ok(false)
}

fn over_has_twice(alloc: Global, draft: &Draft, over: &Over) -> Result<bool, NoMemory>
    ensures { IfOk result (λ b. b ≡ not (are_distinct (itvs_of draft.now (listed_in over.now)))) }
{
    match over {
        Over::Named(_) => Ok(false),
        Over::Listed(names) => any_twice(alloc, draft, names.as_slice()),
    }
}

/// Whether both names are of one interval.
#[tactic(auto, using(crate::proofs::named::Distinct::of_two))]
fn are_same(draft: &Draft, a: &[u8], b: &[u8]) -> bool
    ensures { result ≡ not (are_distinct (itvs_of draft.now (a.now ∷ b.now ∷ []))) }
{
    draft.itv_of(a).0 == draft.itv_of(b).0
}

fn definition_has_twice(alloc: Global, draft: &Draft, d: &Definition) -> Result<bool, NoMemory>
    ensures { IfOk result (λ b. b ≡ not (are_distinct (itvs_of draft.now (list_in_definition d.now)))) }
{
    match d {
        Definition::SequenceVar(names, _) => any_twice(alloc, draft, names.as_slice()),
        _ => Ok(false),
    }
}

fn constraint_has_twice(alloc: Global, draft: &Draft, c: &Constrained) -> Result<bool, NoMemory>
    ensures { IfOk result (λ b. b ≡ not (are_distinct (itvs_of draft.now (list_in_constraint c.now)))) }
{
    match c {
        Constrained::Parts(_, _, names) => any_twice(alloc, draft, names.as_slice()),
        Constrained::Alternative(_, names, _) => any_twice(alloc, draft, names.as_slice()),
        Constrained::NoOverlap(over, _) => over_has_twice(alloc, draft, over),
        Constrained::Ordered(_, _, a, b) => Ok(are_same(draft, a.as_slice(), b.as_slice())),
        _ => Ok(false),
    }
}

/// Whether an interval stands twice in one list, or twice in `before` or `prev`.
pub fn has_twice(alloc: Global, draft: &Draft, s: &Statement) -> Result<bool, NoMemory>
    ensures { IfOk result (λ b. b ≡ has_twice draft.now s.now) }
{
    match s {
        Statement::Define(_, d) => definition_has_twice(alloc, draft, d),
        Statement::Constrain(c) => constraint_has_twice(alloc, draft, c),
        _ => Ok(false),
    }
}
