//! Closed walks of positive weight.
ghost use Rattle.std.specs.Prelude.{length, IfOk, IfSome, IfNone};
ghost use Rattle.cycles.specs.code.Walks.{IsGain, HasHeights};
ghost use Rattle.cycles.specs.code.Search.{AreOn};

use cycles::GainSearch;
use refute_basic::Arc;
use sched_base::{List, NoMemory};
use std::alloc::Global;

pub fn find(
    gains: &mut GainSearch,
    alloc: Global,
    arcs: &[Arc],
    first: &[i64],
) -> Result<Option<List<usize>>, NoMemory>
    requires { AreOn (length first.now) arcs.now }
    ensures some { IfOk result (λ o. IfSome o (λ walk. IsGain arcs.now (length first.now) walk)) }
    ensures none { IfOk result (λ o. IfNone o (HasHeights arcs.now)) }
{
    gains.find(alloc, arcs, first)
}
