ghost use Rattle.logtext.specs.code.Promises.{SpellingsAreTold, SpellingsEndOnce};
ghost use Rattle.logtext.specs.Lifted.{SameStep, SameSteps, SameSpelling, SameFit};

use region::Refuter;

/// Stands for laws of the definitions: two lines of a log with spellings in front of one text are
/// one line, and the same text stands behind it; each spelling ends at its only line feed.
pub fn spelling_is_determined<X: Refuter>()
    ensures told { SpellingsAreTold X.Witness.numbers X.Witness.is_valid }
    ensures ends { SpellingsEndOnce X.Witness.numbers X.Witness.is_valid }
{}

/// Stands for laws of the definitions: a line without an extra witness has the same spelling and the same
/// step, and may stand in a log alike, whether logs may hold witnesses of energy or no extra witness at all.
pub fn plain_lines_stay()
    ensures step { SameStep }
    ensures steps { SameSteps }
    ensures spelling { SameSpelling }
    ensures fit { SameFit }
{}
