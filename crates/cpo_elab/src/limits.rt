ghost use Rattle.std.specs.Prelude.{◌≡◌, ◌+◌, ◌≤◌, ◌&&◌, ℕ, List, length, sum_by, nat_le, nat_lt};
ghost use Rattle.sched_model.specs.Words.{passes, passes_if_any};
ghost use Rattle.sched_model.specs.Data.{with_interval, with_matrix, with_sequence, with_cumul, with_state};
ghost use Rattle.sched_model.specs.Valid.{cell_count, node_total, node_count, pair_count, nodes_of, is_within_limits};
ghost use Rattle.sched_model.specs.declared.types.IntervalDef.{IntervalDef};
ghost use Rattle.sched_model.specs.declared.types.MatrixDef.{MatrixDef};
ghost use Rattle.sched_model.specs.declared.types.SequenceDef.{SequenceDef};
ghost use Rattle.sched_model.specs.declared.types.CumulDef.{CumulDef};
ghost use Rattle.sched_model.specs.declared.types.StateDef.{StateDef};
ghost use Rattle.cpo_text.specs.declared.tree.Statement.TheVariants.{Define, Constrain, Forbid};
ghost use Rattle.cpo_elab.specs.Named.{itv_of, name_defined};
ghost use Rattle.cpo_elab.specs.Held.{listed_in, logic_held, criteria_in, members_defined, members_written, rows_in};
ghost use Rattle.cpo_elab.specs.Elaborated.{expr_of, named_itself, with_unnamed, with_listed, with_written, after};
ghost use Rattle.sched_model.specs.declared.types.Constraint.{Constraint};
ghost use Rattle.calendar.specs.Rules.{rules_of, with_constraints};
ghost use Rattle.cpo_elab.specs.Stages.{steps_in, demand_of};
ghost use Rattle.cpo_elab.specs.Judged.{is_wide, leaves_room, passes_limit};
ghost use Rattle.cpo_elab.specs.code.Drafts.{capped};

use crate::constraints::is_unnamed;
use crate::counts::{pair_count, parts_count};
use crate::draft::{Draft, demand_of};
use crate::flaws::{has_large, is_outside};
use crate::stage::Stage;
use crate::steps::Calendar;
use crate::tree_nodes::{all_nodes, tree_nodes};
use calendar::made_nodes;
use cpo_text::{Constrained, Cumul, Definition, Forbidden, Logic, Over, Statement};

/// The most statements that a text may have, empty ones counted.
pub const STATEMENT_LIMIT: u32 = 100_000;

/// The most bytes that a name may have.
const NAME_LIMIT: usize = 64;

const INTERVAL_LIMIT: usize = 2_000;

const SEQUENCE_LIMIT: usize = 200;

/// The most members of a sequence.
const MEMBER_LIMIT: usize = 500;

const MATRIX_LIMIT: usize = 200;

/// The most rows of a matrix.
const ROW_LIMIT: usize = 200;

const CUMUL_LIMIT: usize = 2_000;

const STATE_LIMIT: usize = 200;

const CONSTRAINT_LIMIT: usize = 20_000;

/// The most step functions.
const FUNCTION_LIMIT: usize = 200;

/// The most pairs of a step function.
const PAIR_LIMIT: usize = 1_000;

/// The most expressions of an objective.
const CRITERIA_LIMIT: usize = 8;

/// The most cells: five for each interval, and one for each two members of a sequence.
const CELL_LIMIT: usize = 1_000_000;

fn is_long(s: &Statement) -> bool
    ensures { result ≡ passes (λ n. nat_lt 64 (length n)) (name_defined s.now) }
{
    match s {
        Statement::Define(name, _) => NAME_LIMIT < name.len(),
        _ => false,
    }
}

fn has_many_rows(s: &Statement) -> bool
    ensures { result ≡ nat_lt 200 (length (rows_in s.now)) }
{
    match s {
        Statement::Define(_, Definition::TransitionMatrix(rows)) => ROW_LIMIT < rows.len(),
        _ => false,
    }
}

fn has_many_pairs(s: &Statement) -> bool
    ensures { result ≡ nat_lt 1000 (length (steps_in s.now)) }
{
    match s {
        Statement::Define(_, Definition::StepFunction(pairs)) => PAIR_LIMIT < pairs.len(),
        _ => false,
    }
}

fn has_many_criteria(s: &Statement) -> bool
    ensures { result ≡ nat_lt 8 (length (criteria_in s.now)) }
{
    match s {
        Statement::Rank(_, es) => CRITERIA_LIMIT < es.len(),
        _ => false,
    }
}

/// Whether an objective has too many expressions, a name is too long, a moment is outside the
/// bounds, an amount is too large, a matrix has too many rows, or a step function too many pairs.
fn is_wide(s: &Statement) -> bool
    ensures { result ≡ is_wide s.now }
{
    if has_many_criteria(s) {
        return true;
    }
    if has_many_pairs(s) {
        return true;
    }
    if is_long(s) {
        return true;
    }
    if is_outside(s) {
        return true;
    }
    if has_large(s) {
        return true;
    }
    has_many_rows(s)
}

fn has_interval_room(draft: &Draft) -> bool
    ensures { result ≡ (nat_lt (length draft.now.intervals) 2000 && nat_le (cell_count draft.now) 999995) }
{
    draft.model().intervals().len() < INTERVAL_LIMIT && draft.cells() <= CELL_LIMIT - 5
}

/// Whether there is room for one more interval.
fn interval_fits(draft: &Draft) -> bool
    ensures { (d : IntervalDef) → result ≡ is_within_limits (with_interval d draft.now) }
{
    // Called for its clause alone.
    let _ = draft.model();
    has_interval_room(draft)
}

fn has_sequence_room(draft: &Draft, members: usize) -> bool
    requires { members ≤ 500 }
    ensures { result ≡ (nat_lt (length draft.now.sequences) 200 && nat_le (cell_count draft.now + pair_count members) 1000000) }
{
    draft.model().sequences().len() < SEQUENCE_LIMIT
        && draft.cells() + pair_count(members) <= CELL_LIMIT
}

/// Whether there is room for one more sequence, of so many members.
fn sequence_fits(draft: &Draft, members: usize) -> bool
    requires { members ≤ 500 }
    ensures { (d : SequenceDef) → length d.members ≡ members → result ≡ is_within_limits (with_sequence d draft.now) }
{
    // Called for its clause alone.
    let _ = draft.model();
    has_sequence_room(draft, members)
}

fn has_matrix_room(draft: &Draft) -> bool
    ensures { result ≡ nat_lt (length draft.now.matrices) 200 }
{
    draft.model().matrices().len() < MATRIX_LIMIT
}

fn matrix_fits(draft: &Draft) -> bool
    ensures { (d : MatrixDef) → result ≡ is_within_limits (with_matrix d draft.now) }
{
    // Called for its clause alone.
    let _ = draft.model();
    has_matrix_room(draft)
}

fn has_state_room(draft: &Draft) -> bool
    ensures { result ≡ nat_lt (length draft.now.states) 200 }
{
    draft.model().states().len() < STATE_LIMIT
}

fn state_fits(draft: &Draft) -> bool
    ensures { (d : StateDef) → result ≡ is_within_limits (with_state d draft.now) }
{
    // Called for its clause alone.
    let _ = draft.model();
    has_state_room(draft)
}

/// Whether there is room for so many nodes or parts.
fn nodes_fit(draft: &Draft, count: u64) -> bool
    ensures { (n : ℕ) → count ≡ capped n → result ≡ nat_le (node_total draft.now + n) 100000 }
{
    has_node_room(draft.room() as u64, count)
}

fn has_node_room(room: u64, count: u64) -> bool
    ensures { result ≡ nat_le count room }
{
    count <= room
}

fn has_cumul_room(draft: &Draft) -> bool
    ensures { result ≡ nat_lt (length draft.now.cumuls) 2000 }
{
    draft.model().cumuls().len() < CUMUL_LIMIT
}

fn both(a: bool, b: bool) -> bool
    ensures { result ≡ (a && b) }
{
    a && b
}

/// Whether there is room for one more function, of so many parts.
fn cumul_fits(draft: &Draft, parts: u64) -> bool
    ensures { (d : CumulDef) → parts ≡ capped (length d.parts) → result ≡ is_within_limits (with_cumul d draft.now) }
{
    // Called for its clause alone.
    let _ = draft.model();
    both(has_cumul_room(draft), nodes_fit(draft, parts))
}

fn function_fits(stage: &Stage) -> bool
    ensures { result ≡ nat_lt (length stage.now.steps) 200 }
{
    stage.functions() < FUNCTION_LIMIT
}

/// Whether there is room for a definition.
fn definition_fits(stage: &Stage, name: &[u8], d: &Definition) -> bool
    ensures { result ≡ leaves_room stage.now (Define name.now d.now) }
{
    let _ = name;
    let draft = stage.draft();
    match d {
        Definition::IntervalVar(_) => interval_fits(draft),
        Definition::SequenceVar(names, _) => {
            if MEMBER_LIMIT < names.len() {
                return false;
            }
            sequence_fits(draft, names.len())
        }
        Definition::TransitionMatrix(_) => matrix_fits(draft),
        Definition::StateFunction(_) => state_fits(draft),
        Definition::StepFunction(_) => function_fits(stage),
        Definition::Cumulative(c) => cumul_fits(draft, parts_count(draft, c)),
    }
}

/// Whether there is room for the sequence of a list.
fn listed_fits(draft: &Draft, over: &Over) -> bool
    ensures { result ≡ (nat_le (length (listed_in over.now)) 500 && is_within_limits (with_listed draft.now over.now)) }
{
    // Called for its clause alone.
    let _ = draft.model();
    match over {
        Over::Named(_) => true,
        Over::Listed(names) => {
            if MEMBER_LIMIT < names.len() {
                return false;
            }
            sequence_fits(draft, names.len())
        }
    }
}

/// Whether there is room for the function of a cumulative expression, where it has no name.
fn unnamed_fits(draft: &Draft, c: &Cumul) -> bool
    ensures { result ≡ is_within_limits (with_unnamed draft.now c.now (named_itself c.now)) }
{
    // Called for its clause alone.
    let _ = draft.model();
    if !is_unnamed(c) {
        return true;
    }
    cumul_fits(draft, parts_count(draft, c))
}

/// Whether there is room for what a constraint writes without a name.
fn written_fits(draft: &Draft, c: &Constrained) -> bool
    ensures { result ≡ (nat_le (length (members_written c.now)) 500 && is_within_limits (with_written draft.now c.now)) }
{
    // Called for its clause alone.
    let _ = draft.model();
    match c {
        Constrained::NoOverlap(over, _) => listed_fits(draft, over),
        Constrained::Bounded(f, _, _) => unnamed_fits(draft, f),
        Constrained::AlwaysIn(f, _, _, _) => unnamed_fits(draft, f),
        _ => true,
    }
}

fn has_constraint_room(draft: &Draft) -> bool
    ensures { result ≡ nat_lt (length draft.now.constraints) 20000 }
{
    draft.model().constraints().len() < CONSTRAINT_LIMIT
}

/// Whether there is room for the nodes of an expression, which are counted on its tree.
fn expr_fits(draft: &Draft, e: &Logic) -> bool
    ensures { result ≡ nat_le (node_total draft.now + node_count (expr_of draft.now e.now)) 100000 }
{
    nodes_fit(draft, tree_nodes(e))
}

/// Whether there is room for the nodes of the expressions of an objective.
fn criteria_fit(draft: &Draft, es: &[Logic]) -> bool
    ensures { result ≡ nat_le (node_total draft.now + sum_by (λ e. node_count (expr_of draft.now e)) es.now) 100000 }
{
    nodes_fit(draft, all_nodes(es))
}

/// Whether there is room for the nodes of the expression of a constraint, if it is one.
fn held_fits(draft: &Draft, c: &Constrained) -> bool
    ensures { result ≡ passes_if_any (λ e. nat_le (node_total draft.now + node_count (expr_of draft.now e)) 100000) (logic_held c.now) }
{
    match c {
        Constrained::Holds(e) => expr_fits(draft, e),
        _ => true,
    }
}

/// Whether there is room for a constraint, with what it writes without a name.
fn constraint_fits(draft: &Draft, c: &Constrained) -> bool
    ensures { result ≡ (nat_le (length (members_written c.now)) 500 && is_within_limits (after draft.now (Constrain c.now))) }
{
    let room = both(has_constraint_room(draft), written_fits(draft, c));
    both(room, held_fits(draft, c))
}

fn has_rules_room(draft: &Draft, count: usize) -> bool
    requires { count ≤ 1001 }
    ensures { result ≡ nat_le (length draft.now.constraints + count) 20000 }
{
    draft.model().constraints().len() + count <= CONSTRAINT_LIMIT
}

/// Whether there is room for so many constraints more, which have so many nodes.
fn rules_fit(draft: &Draft, count: usize, nodes: u64) -> bool
    requires { count ≤ 1001 }
    ensures { (cs : List Constraint) → length cs ≡ count → sum_by nodes_of cs ≡ nodes → result ≡ is_within_limits (with_constraints cs draft.now) }
{
    // Called for its clause alone.
    let _ = draft.model();
    both(
        has_rules_room(draft, count),
        has_node_room(draft.room() as u64, nodes),
    )
}

/// Whether there is room for the constraints that a calendar's sentence becomes.
fn calendar_fits(draft: &Draft, word: Forbidden, a: &[u8], calendar: &Calendar) -> bool
    ensures { result ≡ is_within_limits (with_constraints (rules_of (demand_of word) (itv_of draft.now a.now) calendar.now) draft.now) }
{
    let _ = a;
    let ranges = calendar.ranges();
    let nodes = made_nodes(demand_of(word), ranges);
    rules_fit(draft, ranges.len(), nodes)
}

fn sentence_fits(stage: &Stage, word: Forbidden, a: &[u8], f: &[u8]) -> bool
    ensures { result ≡ leaves_room stage.now (Forbid word a.now f.now) }
{
    match stage.function(f) {
        None => true,
        Some(calendar) => calendar_fits(stage.draft(), word, a, calendar),
    }
}

/// Whether the model has room for what a statement adds.
fn leaves_room(stage: &Stage, s: &Statement) -> bool
    ensures { result ≡ leaves_room stage.now s.now }
{
    let draft = stage.draft();
    // Called for its clause alone.
    let _ = draft.model();
    match s {
        Statement::Empty => true,
        Statement::Define(name, d) => definition_fits(stage, name.as_slice(), d),
        Statement::Constrain(c) => constraint_fits(draft, c),
        Statement::Forbid(word, a, f) => sentence_fits(stage, *word, a.as_slice(), f.as_slice()),
        Statement::Aim(_, e) => expr_fits(draft, e),
        Statement::Rank(_, es) => criteria_fit(draft, es.as_slice()),
    }
}

/// Whether a limit is passed by a statement, with `before` statements in front of it.
pub fn passes_limit(stage: &Stage, before: u32, s: &Statement) -> bool
    ensures { result ≡ passes_limit stage.now (before + 1) s.now }
{
    if STATEMENT_LIMIT <= before {
        return true;
    }
    if is_wide(s) {
        return true;
    }
    !leaves_room(stage, s)
}
