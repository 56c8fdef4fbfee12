ghost use Rattle.cpo_text.specs.Laws.{PiecesAreDetermined, EachByteInOnePiece, TokensAreDetermined, BadByteIsDetermined, EveryTextHasTokensOrBadByte, NotBoth, StatementsAreDetermined, GrammarIsDecided, ReadingsAreDetermined};

/// Stands for laws of the definitions: what a text is read as is no choice of the reader.
pub fn reading_is_determined()
    ensures pieces { PiecesAreDetermined }
    ensures bytes { EachByteInOnePiece }
    ensures tokens { TokensAreDetermined }
    ensures bad_byte { BadByteIsDetermined }
    ensures every_text { EveryTextHasTokensOrBadByte }
    ensures not_both { NotBoth }
    ensures statements { StatementsAreDetermined }
    ensures grammar { GrammarIsDecided }
    ensures readings { ReadingsAreDetermined }
{}
