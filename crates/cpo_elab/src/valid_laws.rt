ghost use Rattle.cpo_elab.specs.code.ValidLaws.{StatementsKeepValid, WrittenKeepsValid};

/// Stands for laws of the definitions: a statement that deserves no refusal keeps a model valid.
pub fn statements_keep_models_valid()
    ensures statements { StatementsKeepValid }
    ensures written { WrittenKeepsValid }
{}
