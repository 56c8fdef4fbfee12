//! Texts of answers and of models.
ghost use Rattle.std.specs.Prelude.{◌≡◌, ◌++◌, OnOk};
ghost use Rattle.sched_base.specs.Calls.{Writes};
ghost use Rattle.sched_text.specs.Answers.{values_word, answer_text, summary_text, check_text};
ghost use Rattle.sched_text.specs.Canonical.{canonical_text};
ghost use Rattle.sched_text.specs.code.Told.{AnswersAreTold};

use sched_base::{Desk, Failed, NoMemory, Port};
use sched_model::{Model, Solved, Verdict};

pub fn write_answer<D: Desk>(model: &Model, solved: &Solved, desk: &mut D) -> Result<(), Failed>
    ensures { Writes Port.Out (answer_text model.now solved.now) result (D.state desk.old) (D.state desk.new) }
{
    sched_text::write_answer(model, solved, desk)
}

pub fn write_summary<D: Desk>(model: &Model, solved: &Solved, desk: &mut D) -> Result<(), Failed>
    ensures { Writes Port.Out (summary_text model.now solved.now) result (D.state desk.old) (D.state desk.new) }
{
    sched_text::write_summary(model, solved, desk)
}

pub fn write_accepted<D: Desk>(
    model: &Model,
    verdict: Verdict,
    nodes: u64,
    desk: &mut D,
) -> Result<(), Failed>
    ensures { Writes Port.Out (check_text model.now verdict nodes) result (D.state desk.old) (D.state desk.new) }
{
    sched_text::write_accepted(model, verdict, nodes, desk)
}

pub fn push_values(bytes: &mut Vec<u8>, model: &Model, v: i64) -> Result<(), NoMemory>
    ensures { OnOk result (bytes.new.items ≡ bytes.old.items ++ values_word model.now v) }
{
    sched_text::push_values(bytes, model, v)
}

pub fn print_model<D: Desk>(model: &Model, desk: &mut D) -> Result<(), Failed>
    ensures { Writes Port.Out (canonical_text model.now) result (D.state desk.old) (D.state desk.new) }
{
    sched_text::print_model(model, desk)
}

pub fn answer_is_told()
    ensures { AnswersAreTold }
{
    sched_text::answer_is_told();
}
