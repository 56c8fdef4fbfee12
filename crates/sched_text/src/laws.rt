ghost use Rattle.sched_text.specs.code.Told.{AnswersAreTold};

/// Stands for a law of the definitions: of one model, two answers with one text are one answer.
pub fn answer_is_told()
    ensures { AnswersAreTold }
{}
