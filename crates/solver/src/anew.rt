//! How a search that writes its log begins anew.
ghost use Rattle.std.specs.Prelude.{◌≡◌, ◌<◌, ◌≤◌, ◌^◌, ℕ, true, false, OnOk};
ghost use Rattle.restart_rules.specs.Restarts.{is_over};
ghost use Rattle.restart_rules.specs.code.Stretches.{Plan, begun_anew, plan_of};
ghost use Rattle.solver.specs.code.Searching.{IsLogged, IsReady, StaysOn, state_in};

use crate::fault::SolveFault;
use crate::log_to::LogTo;
use crate::state::Search;
use engine::Propagator;
use kernel::Line;
use restart_rules::Stretches;
use sched_model::Model;
use std::alloc::Global;

impl<P: Propagator> Search<P> {
    /// Writes that the search begins anew, and goes back to the root with what was found.
    fn begin_anew<L: LogTo>(
        &mut self,
        alloc: Global,
        model: &Model,
        lines: &mut L,
    ) -> Result<(), SolveFault>
        requires ready { IsReady P.Propagator model.now self.old }
        requires lines { L.ready lines.old }
        ensures ready { OnOk result (IsReady P.Propagator model.now self.new) }
        ensures lines { OnOk result (L.ready lines.new) }
        ensures nodes { OnOk result (self.new.nodes ≡ self.old.nodes) }
        ensures logged { (from : L) (plan : Plan) → self.old.nodes < plan.limits.nodes → is_over plan.limits.restarts plan.stretch ≡ true
            → IsLogged L.LogTo.own model.now plan from lines.old 0 (state_in true self.old) → StaysOn L.LogTo.own L.Lines model.now (begun_anew plan) from lines.new self.new result }
    {
        lines.write(&Line::Restart)?;
        self.restart(alloc, model)?;
        Ok(())
    }

    /// The same where a stretch is over, and another may begin, of so many restarts.
    pub fn begin_anew_if_over<L: LogTo>(
        &mut self,
        alloc: Global,
        model: &Model,
        restarts: u32,
        stretches: &mut Stretches,
        lines: &mut L,
    ) -> Result<(), SolveFault>
        requires closed { stretches.old.closed < 2 ^ 63 }
        requires ready { IsReady P.Propagator model.now self.old }
        requires lines { L.ready lines.old }
        ensures ready { OnOk result (IsReady P.Propagator model.now self.new) }
        ensures lines { OnOk result (L.ready lines.new) }
        ensures nodes { OnOk result (self.new.nodes ≡ self.old.nodes) }
        ensures closed { stretches.new.closed ≤ stretches.old.closed }
        ensures ongoing { is_over restarts stretches.new ≡ false }
        ensures logged { (from : L) (nodes : ℕ) → self.old.nodes < nodes → IsLogged L.LogTo.own model.now (plan_of nodes restarts stretches.old) from lines.old 0 (state_in true self.old)
            → StaysOn L.LogTo.own L.Lines model.now (plan_of nodes restarts stretches.new) from lines.new self.new result }
    {
        if !stretches.is_over(restarts) {
            return Ok(());
        }
        stretches.begin();
        self.begin_anew(alloc, model, lines)
    }
}
