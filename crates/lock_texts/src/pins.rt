//! The laws in full, so that none is emptied by its name.
ghost use Rattle.std.specs.Prelude.{◌≡◌, ◌≤◌, ◌<◌, ◌^◌, ℕ, true, List};
ghost use Rattle.sched_model.specs.declared.types.Assignment.{Assignment};
ghost use Rattle.sched_model.specs.declared.types.Solved.{Solved};
ghost use Rattle.sched_model.specs.Data.{Data};
ghost use Rattle.sched_model.specs.Valid.{IsValid};
ghost use Rattle.sched_model.specs.Domain.{is_in_domain};
ghost use Rattle.cpo_elab.specs.Answers.{Answer};
ghost use Rattle.cpo_elab.specs.Deserves.{Deserves};
ghost use Rattle.sched_text.specs.Answers.{answer_text};
ghost use Rattle.sched_text.specs.code.Told.{IsPrintable};
ghost use Rattle.read_schedule.specs.Promises.{Shows};
ghost use Rattle.read_schedule.specs.Schedules.{Spells};

/// Each text deserves one model or one refusal.
pub fn a_text_has_one_meaning()
    ensures one { (text : List ℕ) (a b : Answer) → Deserves text a → Deserves text b → a ≡ b }
    ensures some { (text : List ℕ) → (a : Answer) × Deserves text a }
{
    cpo_elab::answer_is_determined();
}

/// Two answers with one text are one.
pub fn an_answer_has_one_text()
    ensures { (m : Data) (s t : Solved) → IsValid m → s.nodes < 2 ^ 64 → t.nodes < 2 ^ 64 → IsPrintable m s.answer → IsPrintable m t.answer → answer_text m s ≡ answer_text m t → s ≡ t }
{
    sched_text::answer_is_told();
}

/// A text spells one schedule at most.
pub fn a_schedule_text_spells_one()
    ensures { (m : Data) (bytes : List ℕ) (a b : Assignment) → IsValid m → Spells m bytes a → Spells m bytes b → a ≡ b }
{
    read_schedule::schedule_is_told();
}

/// An answer that shows a schedule is a text of it.
pub fn an_answer_spells_its_schedule()
    ensures { (m : Data) (s : Solved) (a : Assignment) → IsValid m → s.nodes ≤ 2 ^ 62 → Shows m s.answer a → is_in_domain m a ≡ true → Spells m (answer_text m s) a }
{
    read_schedule::answer_is_schedule();
}
