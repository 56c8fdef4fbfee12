ghost use Rattle.std.specs.Prelude.{◌≡◌};
ghost use Rattle.calendar.specs.Steps.{rises};
ghost use Rattle.cpo_elab.specs.Literals.{int_of};
ghost use Rattle.cpo_elab.specs.Stages.{pairs_of};
ghost use Rattle.cpo_elab.specs.code.Calendars.{rise_from};

use crate::literals::int_of;
use cpo_text::StepPair;

/// Whether each moment is later than the one before.
#[tactic(auto, using(crate::proofs::values::Rising::turn, crate::proofs::values::Rising::stop, crate::proofs::values::Rising::end))]
fn rise_behind(first: StepPair, rest: &[StepPair]) -> bool
    ensures { result ≡ rise_from (int_of first.moment) (pairs_of rest.now) }
{
    let mut last = int_of(first.moment);
    for pair in rest {
        let moment = int_of(pair.moment);
        if moment <= last {
            return false;
        }
        last = moment;
    }
    true
}

/// Whether each moment of a step function is later than those before it.
#[tactic(auto, using(crate::proofs::values::Rising::none_rise))]
pub fn rises(pairs: &[StepPair]) -> bool
    ensures { result ≡ rises (pairs_of pairs.now) }
{
    if pairs.len() == 0 {
        return true;
    }
    rise_behind(pairs[0], &pairs[1..])
}
