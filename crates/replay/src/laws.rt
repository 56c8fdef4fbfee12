ghost use Rattle.replay.specs.Laws.{OneVerdict, OneLine, NotBoth, NeverTooLong, WholeLogIsAccepted, AcceptedMeans};

use kernel::loses_nothing;
use logtext::spelling_is_determined;
use region::Refuter;

/// Stands for laws of the definitions: bytes have one judgement, a log that is written whole is
/// accepted, and what is accepted means what it says.
pub fn judgement_is_determined<X: Refuter>()
    ensures one_verdict { OneVerdict X.refuting X.Witness.numbers X.Witness.is_valid }
    ensures one_line { OneLine X.refuting X.Witness.numbers X.Witness.is_valid }
    ensures not_both { NotBoth X.refuting X.Witness.numbers X.Witness.is_valid }
    ensures never_too_long { NeverTooLong X.refuting X.Witness.numbers X.Witness.is_valid }
    ensures whole { WholeLogIsAccepted X.refuting X.Witness.numbers X.Witness.is_valid }
    ensures means { AcceptedMeans X.refuting X.Witness.numbers X.Witness.is_valid }
{
    spelling_is_determined::<X>();
    loses_nothing::<X>();
}
