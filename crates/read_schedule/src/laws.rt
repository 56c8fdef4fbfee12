ghost use Rattle.read_schedule.specs.Promises.{AnswersAreSchedules, SchedulesAreTold};

/// Stands for a law of the definitions: a text spells one assignment of a model at most.
pub fn schedule_is_told()
    ensures { SchedulesAreTold }
{}

/// Stands for a law of the definitions: the text of an answer that shows a schedule is a schedule
/// text, and spells that schedule.
pub fn answer_is_schedule()
    ensures { AnswersAreSchedules }
{}
