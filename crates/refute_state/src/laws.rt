ghost use Rattle.refute_state.specs.laws.Making.{DemandsAreGrouped};
ghost use Rattle.refute_state.specs.laws.Longest.{SegmentsAreLongest};

/// Stands for a law of the definitions: of the groups from which canonical segments are made, each is
/// made of demands of one state that no moment cuts apart, and of one state no two share a moment.
#[tactic(auto, using(crate::specs::laws::Making::are_groups))]
pub fn demands_are_grouped()
    ensures { DemandsAreGrouped }
{}

/// Stands for a law of the definitions: where some segments make the state constraints hold, the
/// canonical segments of a state function are exactly the longest that agree with all that is asked of
/// it. Each goes from the start of a demand to the end of one, has in it each demand with which it
/// shares a moment, as that demand wants to lie in a segment, and no moment where no state is wanted.
pub fn segments_are_longest()
    ensures { SegmentsAreLongest }
{}
