ghost use Rattle.read_back.specs.Laws.{CanonicalIsJudged, CanonicalIsSaid, DeservedAreWritten, ExpressionsAreFormed, ExpressionsAreSaid, ExpressionsNameIntervals, ExpressionsReturn, FactorsReturn, ReadsBack, SaidIsRead};

use cpo_elab::{answer_is_determined, named_first_is_sound, statements_keep_models_valid};

/// Stands for a law: what a text deserves is valid, and as a text can write it.
pub fn deserved_models_are_written()
    ensures { DeservedAreWritten }
{
    answer_is_determined();
    statements_keep_models_valid();
    named_first_is_sound();
}

/// Stands for a law: a text that says the words of some statements is read as these.
pub fn said_text_is_read()
    ensures { SaidIsRead }
{}

/// Stands for laws of the trees of expressions: each means the expression that it was made of.
fn expressions_return()
    ensures expressions { ExpressionsReturn }
    ensures factors { FactorsReturn }
    ensures intervals { ExpressionsNameIntervals }
{}

/// Stands for a law: these trees have the brackets that the grammar asks for.
fn expressions_are_formed()
    ensures { ExpressionsAreFormed }
{}

/// Stands for a law: the text of an expression says the words of its tree.
fn expressions_are_said()
    ensures { ExpressionsAreSaid }
{}

/// Stands for a law: the canonical text says the words of its statements, and these are formed.
fn canonical_text_is_said()
    ensures { CanonicalIsSaid }
{
    expressions_are_said();
    expressions_are_formed();
}

/// Stands for a law: the statements of the canonical text are judged to be the model.
pub fn canonical_statements_are_judged()
    ensures { CanonicalIsJudged }
{
    expressions_return();
    named_first_is_sound();
}

/// Stands for a law: where a text deserves a model, the canonical text of the model deserves it
/// too, if it passes no limit on texts.
pub fn canonical_text_reads_back()
    ensures { ReadsBack }
{
    deserved_models_are_written();
    canonical_text_is_said();
    said_text_is_read();
    canonical_statements_are_judged();
}
