ghost use Rattle.commands.specs.AnswersVerify.{AnswersVerify};
ghost use Rattle.commands.specs.Complete.{RunsAreComplete};

use checker::judgement_is_determined;
use cpo_elab::answer_is_determined;
use read_back::deserved_models_are_written;
use read_schedule::{answer_is_schedule, schedule_is_told};

/// Stands for a law of the definitions: an answer that is right and shows a schedule is printed as a
/// schedule text, which spells this schedule, a solution. So `verify` takes it as it stands.
pub fn answer_verifies()
    ensures { AnswersVerify }
{
    answer_is_schedule();
}

/// Stands for a law of the definitions: where no fault is counted and memory is there, a run whose
/// files are as they should be comes to its answer.
pub fn runs_are_complete()
    ensures { RunsAreComplete }
{
    answer_is_determined();
    deserved_models_are_written();
    schedule_is_told();
    judgement_is_determined();
}
