//! Texts of models, as they are written.
ghost use Rattle.cpo_text.specs.Reads.{Reads};
ghost use Rattle.cpo_text.specs.Laws.{PiecesAreDetermined, EachByteInOnePiece, TokensAreDetermined, BadByteIsDetermined, EveryTextHasTokensOrBadByte, NotBoth, StatementsAreDetermined, GrammarIsDecided, ReadingsAreDetermined};

use cpo_text::{ReadFault, Tree};
use std::alloc::Global;

pub fn read_text(alloc: Global, text: &[u8]) -> Result<Tree, ReadFault>
    ensures { Reads text.now result }
{
    cpo_text::read_text(alloc, text)
}

pub fn reading_is_determined()
    ensures pieces { PiecesAreDetermined }
    ensures bytes { EachByteInOnePiece }
    ensures tokens { TokensAreDetermined }
    ensures bad_byte { BadByteIsDetermined }
    ensures every_text { EveryTextHasTokensOrBadByte }
    ensures not_both { NotBoth }
    ensures statements { StatementsAreDetermined }
    ensures grammar { GrammarIsDecided }
    ensures readings { ReadingsAreDetermined }
{
    cpo_text::reading_is_determined();
}
