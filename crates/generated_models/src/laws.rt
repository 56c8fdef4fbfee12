ghost use Rattle.generated_models.specs.Laws.{GeneratedDeserve, ShopsAreJudged, ShopsAreSaid, ShopsAreWritten};

use read_back::{canonical_statements_are_judged, said_text_is_read};

/// Stands for a law: the model of a job shop is valid, and as a text can write it.
fn shops_are_written()
    ensures { ShopsAreWritten }
{}

/// Stands for a law: a generated text says the words of its statements, and passes no limit on
/// texts.
fn shops_are_said()
    ensures { ShopsAreSaid }
{}

/// Stands for a law: the statements of a generated text are judged as the canonical ones of its
/// model, which spell out what may be left out.
fn shops_are_judged()
    ensures { ShopsAreJudged }
{}

/// Stands for a law: every generated text deserves the model of its job shop.
pub fn generated_texts_deserve()
    ensures { GeneratedDeserve }
{
    shops_are_written();
    shops_are_said();
    shops_are_judged();
    said_text_is_read();
    canonical_statements_are_judged();
}
