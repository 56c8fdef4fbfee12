//! What texts of models mean.
ghost use Rattle.std.specs.Prelude.{◌≡◌, true, IfOk};
ghost use Rattle.cpo_elab.specs.Stages.{empty_stage};
ghost use Rattle.cpo_elab.specs.Answers.{Gives, judged};
ghost use Rattle.cpo_elab.specs.Asked.{MeansText};
ghost use Rattle.cpo_elab.specs.Deserves.{GivesDeserved};
ghost use Rattle.cpo_elab.specs.Shaped.{are_shaped};
ghost use Rattle.cpo_elab.specs.Laws.{AtMostOneAnswer, OnlyWordsCount, OnlyToldCount, SomeAnswer, TextsAreShaped, ModelsSayTheirTexts};
ghost use Rattle.cpo_elab.specs.NamedFirstLaws.{NamedFirstIsValid, SequencesStay, CumulsStay, SequencesLookAlike, PartsLookAlike, NothingMoves};
ghost use Rattle.cpo_elab.specs.code.ValidLaws.{StatementsKeepValid, WrittenKeepsValid};

use cpo_text::{ReadFault, Tree};
use sched_model::Model;
use std::alloc::Global;

pub fn elaborate(alloc: Global, tree: &Tree) -> Result<Model, ReadFault>
    requires { are_shaped tree.now.statements ≡ true }
    ensures answer { Gives result (judged empty_stage 1 tree.now.statements) }
    ensures meaning { IfOk result (λ m. MeansText tree.now.statements m) }
{
    cpo_elab::elaborate(alloc, tree)
}

pub fn read_model(alloc: Global, text: &[u8]) -> Result<Model, ReadFault>
    ensures { GivesDeserved text.now result }
{
    cpo_elab::read_model(alloc, text)
}

pub fn answer_is_determined()
    ensures one { AtMostOneAnswer }
    ensures words { OnlyWordsCount }
    ensures told { OnlyToldCount }
    ensures some { SomeAnswer }
    ensures shaped { TextsAreShaped }
    ensures models { ModelsSayTheirTexts }
{
    cpo_elab::answer_is_determined();
}

pub fn named_first_is_sound()
    ensures valid { NamedFirstIsValid }
    ensures sequences { SequencesStay }
    ensures cumuls { CumulsStay }
    ensures members { SequencesLookAlike }
    ensures parts { PartsLookAlike }
    ensures nothing { NothingMoves }
{
    cpo_elab::named_first_is_sound();
}

pub fn statements_keep_models_valid()
    ensures statements { StatementsKeepValid }
    ensures written { WrittenKeepsValid }
{
    cpo_elab::statements_keep_models_valid();
}
