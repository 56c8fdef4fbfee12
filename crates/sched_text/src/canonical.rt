//! The canonical text of a model, statement by statement.
ghost use Rattle.std.specs.Prelude.{◌≡◌, ◌++◌, ◌∷◌, [], codes, flat_map};
ghost use Rattle.sched_base.specs.Calls.{Writes};
ghost use Rattle.sched_text.specs.Canonical.{statement, interval_text, matrix_text, named_sequence_text, named_cumul_text, state_text, constraint_text, sense_word, aim_text, objective_text, canonical_text};
ghost use Rattle.sched_text.specs.code.Printing.{Prints};

use crate::constraints::put_constraint;
use crate::definitions::{
    put_cumul_def, put_interval_def, put_matrix_def, put_sequence_def, put_state_def,
};
use crate::expressions::{put_gathered, put_whole};
use crate::page::{Page, finish, new_page, put_text};
use crate::pieces::put_open;
use sched_base::{Desk, Failed, Port};
use sched_model::{
    Constraint, CumulDef, IntervalDef, MatrixDef, Model, Objective, Sense, SequenceDef, StateDef,
};

fn put_intervals<D: Desk>(page: &mut Page, desk: &mut D, defs: &[IntervalDef])
    ensures { Prints (flat_map interval_text defs.now) page.old page.new (D.state desk.old) (D.state desk.new) }
{
    for d in defs {
        put_interval_def(page, desk, d);
    }
}

fn put_matrices<D: Desk>(page: &mut Page, desk: &mut D, defs: &[MatrixDef])
    ensures { Prints (flat_map matrix_text defs.now) page.old page.new (D.state desk.old) (D.state desk.new) }
{
    for d in defs {
        put_matrix_def(page, desk, d);
    }
}

fn put_sequences<D: Desk>(page: &mut Page, desk: &mut D, model: &Model, defs: &[SequenceDef])
    ensures { Prints (flat_map (named_sequence_text model.now) defs.now) page.old page.new (D.state desk.old) (D.state desk.new) }
{
    for d in defs {
        put_sequence_def(page, desk, model, d);
    }
}

fn put_cumuls<D: Desk>(page: &mut Page, desk: &mut D, model: &Model, defs: &[CumulDef])
    ensures { Prints (flat_map (named_cumul_text model.now) defs.now) page.old page.new (D.state desk.old) (D.state desk.new) }
{
    for d in defs {
        put_cumul_def(page, desk, model, d);
    }
}

fn put_states<D: Desk>(page: &mut Page, desk: &mut D, model: &Model, defs: &[StateDef])
    ensures { Prints (flat_map (state_text model.now) defs.now) page.old page.new (D.state desk.old) (D.state desk.new) }
{
    for d in defs {
        put_state_def(page, desk, model, d);
    }
}

fn put_statement<D: Desk>(page: &mut Page, desk: &mut D, model: &Model, c: &Constraint)
    ensures { Prints (statement (constraint_text model.now c.now)) page.old page.new (D.state desk.old) (D.state desk.new) }
{
    put_constraint(page, desk, model, c);
    put_text(page, desk, b";\n");
}

fn put_constraints<D: Desk>(page: &mut Page, desk: &mut D, model: &Model, all: &[Constraint])
    ensures { Prints (flat_map (λ c. statement (constraint_text model.now c)) all.now) page.old page.new (D.state desk.old) (D.state desk.new) }
{
    for c in all {
        put_statement(page, desk, model, c);
    }
}

fn word_of(sense: Sense) -> &'static [u8]
    ensures { result.now ≡ sense_word sense }
{
    match sense {
        Sense::Minimize => b"minimize",
        Sense::Maximize => b"maximize",
    }
}

/// The expression of an objective, or its criteria.
fn put_aim<D: Desk>(page: &mut Page, desk: &mut D, model: &Model, o: &Objective)
    ensures { Prints (aim_text model.now o.now) page.old page.new (D.state desk.old) (D.state desk.new) }
{
    if o.criteria.is_empty() {
        put_whole(page, desk, model, &o.expr);
        return;
    }
    put_gathered(page, desk, model, b"staticLex", o.criteria.as_slice());
}

fn put_objective<D: Desk>(page: &mut Page, desk: &mut D, model: &Model)
    ensures { Prints (objective_text model.now model.now.objective) page.old page.new (D.state desk.old) (D.state desk.new) }
{
    let Some(o) = model.objective() else {
        return;
    };
    put_open(page, desk, word_of(o.sense));
    put_aim(page, desk, model, o);
    put_text(page, desk, b");\n");
}

fn put_model<D: Desk>(page: &mut Page, desk: &mut D, model: &Model)
    ensures { Prints (canonical_text model.now) page.old page.new (D.state desk.old) (D.state desk.new) }
{
    put_intervals(page, desk, model.intervals());
    put_matrices(page, desk, model.matrices());
    put_sequences(page, desk, model, model.sequences());
    put_cumuls(page, desk, model, model.cumuls());
    put_states(page, desk, model, model.states());
    put_constraints(page, desk, model, model.constraints());
    put_objective(page, desk, model);
}

/// Writes the canonical text of a model to standard output, as one write does. One statement stands
/// in a line: intervals, matrices, named sequences, named cumulative functions, state functions,
/// constraints, and the objective. It takes no memory.
pub fn print_model<D: Desk>(model: &Model, desk: &mut D) -> Result<(), Failed>
    ensures { Writes Port.Out (canonical_text model.now) result (D.state desk.old) (D.state desk.new) }
{
    let mut page = new_page();
    put_model(&mut page, desk, model);
    finish(page, desk)
}
