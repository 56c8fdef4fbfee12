ghost use Rattle.cpo_elab.specs.NamedFirstLaws.{NamedFirstIsValid, SequencesStay, CumulsStay, SequencesLookAlike, PartsLookAlike, NothingMoves};

/// Stands for laws of the numbers of sequences and cumulative functions.
pub fn named_first_is_sound()
    ensures valid { NamedFirstIsValid }
    ensures sequences { SequencesStay }
    ensures cumuls { CumulsStay }
    ensures members { SequencesLookAlike }
    ensures parts { PartsLookAlike }
    ensures nothing { NothingMoves }
{}
