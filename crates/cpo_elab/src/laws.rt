ghost use Rattle.cpo_elab.specs.Laws.{AtMostOneAnswer, OnlyWordsCount, OnlyToldCount, SomeAnswer, TextsAreShaped, ModelsSayTheirTexts};

use cpo_text::reading_is_determined;

/// Stands for laws of the definitions: a text deserves one answer, its words alone decide it, and the
/// model that it deserves asks what it asks.
pub fn answer_is_determined()
    ensures one { AtMostOneAnswer }
    ensures words { OnlyWordsCount }
    ensures told { OnlyToldCount }
    ensures some { SomeAnswer }
    ensures shaped { TextsAreShaped }
    ensures models { ModelsSayTheirTexts }
{
    reading_is_determined();
}
