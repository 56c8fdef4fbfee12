ghost use Rattle.checker.specs.Laws.{OneVerdict, OneLine, NotBoth, NeverTooLong, WholeLogIsAccepted, AcceptedMeans};

use logtext::LogExtra;

/// Stands for laws of the definitions: bytes have one judgement, a log that is written whole is
/// accepted, and what is accepted means what it says.
pub fn judgement_is_determined()
    ensures one_verdict { OneVerdict }
    ensures one_line { OneLine }
    ensures not_both { NotBoth }
    ensures never_too_long { NeverTooLong }
    ensures whole { WholeLogIsAccepted }
    ensures means { AcceptedMeans }
{
    replay::judgement_is_determined::<LogExtra>();
}
