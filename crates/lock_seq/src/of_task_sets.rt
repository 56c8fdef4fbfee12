//! The laws of rows over sets of tasks.
ghost use Rattle.task_sets.specs.laws.Laws.{OverloadCuts, EdgeCuts, NotEndCuts, DetectCuts, EdgeBackCuts, NotStartCuts, OverloadSound, EdgeSound, NotEndSound, DetectSound};

pub fn cuts_decide() -> bool
    ensures overload { OverloadCuts }
    ensures edge { EdgeCuts }
    ensures not_end { NotEndCuts }
    ensures detect { DetectCuts }
    ensures edge_back { EdgeBackCuts }
    ensures not_start { NotStartCuts }
{
    task_sets::laws::cuts_decide()
}

pub fn rows_refute() -> bool
    ensures overload { OverloadSound }
    ensures edge { EdgeSound }
    ensures not_end { NotEndSound }
    ensures detect { DetectSound }
{
    task_sets::laws::rows_refute()
}
