//! What of a schedule is kept where a neighbourhood of it is searched.
ghost use Rattle.std.specs.Prelude.{IsTrue, IfOk, OnOk};
ghost use Rattle.solver.specs.code.Searching.{IsHolding, IsReady};

use crate::neighbourhood::Neighbourhood;
use crate::rehearsal::Rehearsal;
use branching::Pole;
use engine::Propagator;
use region::{Guess, Presence};
use sched_base::{Itv, NoMemory, Seq, at};
use sched_model::{Assignment, Model, Slot};

fn slot_of(schedule: &Assignment, x: Itv) -> Slot {
    at(schedule.slots.as_slice(), x.0 as usize)
        .copied()
        .unwrap_or(Slot::Absent)
}

/// How many intervals a schedule has.
fn count_of(schedule: &Assignment) -> u32 {
    u32::try_from(schedule.slots.len()).unwrap_or(u32::MAX)
}

/// The first start of an interval that may move.
fn first_free(schedule: &Assignment, neighbourhood: &Neighbourhood) -> i64 {
    let mut first = i64::MAX;
    for n in 0..count_of(schedule) {
        if let Slot::Present { s, .. } = slot_of(schedule, Itv(n)) {
            if neighbourhood.is_free(Itv(n)) {
                first = first.min(s);
            }
        }
    }
    first
}

impl<P: Propagator> Rehearsal<P> {
    fn is_optional(&self, x: Itv) -> bool {
        let look = self.search.region.look(None, None);
        (x.0 as usize) < look.len() && look.presence(x) == Presence::Maybe
    }

    /// Assumes the presence that the schedule gives an interval.
    fn keep_presence(
        &mut self,
        model: &Model,
        schedule: &Assignment,
        x: Itv,
    ) -> Result<(), NoMemory>
        requires { IsReady P.Propagator model.now self.old.search }
        ensures { OnOk result (IsReady P.Propagator model.now self.new.search) }
    {
        if !self.is_optional(x) {
            return Ok(());
        }
        let guess = match slot_of(schedule, x) {
            Slot::Absent => Guess::Absent(x),
            Slot::Present { .. } => Guess::Present(x),
        };
        self.assume(model, guess)
    }

    fn keep_presences(
        &mut self,
        model: &Model,
        schedule: &Assignment,
        neighbourhood: &Neighbourhood,
    ) -> Result<(), NoMemory>
        requires { IsReady P.Propagator model.now self.old.search }
        ensures { OnOk result (IsReady P.Propagator model.now self.new.search) }
    {
        for n in 0..count_of(schedule) {
            if neighbourhood.is_free(Itv(n)) {
                continue;
            }
            self.keep_presence(model, schedule, Itv(n))?;
        }
        Ok(())
    }

    /// Assumes the orders of a member of a sequence and those that stand behind it.
    fn keep_later(
        &mut self,
        model: &Model,
        neighbourhood: &Neighbourhood,
        p: Seq,
        x: Itv,
        later: &[Itv],
    ) -> Result<(), NoMemory>
        requires { IsReady P.Propagator model.now self.old.search }
        ensures { OnOk result (IsReady P.Propagator model.now self.new.search) }
    {
        if neighbourhood.is_free(x) {
            return Ok(());
        }
        for y in later {
            if neighbourhood.is_free(*y) {
                continue;
            }
            self.assume(model, Guess::Before(p, x, *y))?;
        }
        Ok(())
    }

    fn keep_order(
        &mut self,
        model: &Model,
        neighbourhood: &Neighbourhood,
        p: Seq,
        order: &[Itv],
    ) -> Result<(), NoMemory>
        requires { IsReady P.Propagator model.now self.old.search }
        ensures { OnOk result (IsReady P.Propagator model.now self.new.search) }
    {
        for i in 0..order.len() {
            self.keep_later(model, neighbourhood, p, order[i], &order[i + 1..])?;
        }
        Ok(())
    }

    fn keep_orders(
        &mut self,
        model: &Model,
        schedule: &Assignment,
        neighbourhood: &Neighbourhood,
    ) -> Result<(), NoMemory>
        requires { IsReady P.Propagator model.now self.old.search }
        ensures { OnOk result (IsReady P.Propagator model.now self.new.search) }
    {
        for p in neighbourhood.sequences() {
            let Some(order) = at(schedule.orders.as_slice(), p.0 as usize) else {
                continue;
            };
            self.keep_order(model, neighbourhood, *p, order.as_slice())?;
        }
        Ok(())
    }

    fn assume_if(&mut self, model: &Model, wanted: bool, guess: Guess) -> Result<(), NoMemory>
        requires { IsReady P.Propagator model.now self.old.search }
        ensures { OnOk result (IsReady P.Propagator model.now self.new.search) }
    {
        if !wanted {
            return Ok(());
        }
        self.assume(model, guess)
    }

    /// Keeps an interval from a worse place than it has: not later than in the schedule where the
    /// objective wants it soon, and not sooner where it wants it late, or where nothing before it moves.
    fn keep_place(
        &mut self,
        model: &Model,
        schedule: &Assignment,
        x: Itv,
        first: i64,
    ) -> Result<(), NoMemory>
        requires { IsReady P.Propagator model.now self.old.search }
        ensures { OnOk result (IsReady P.Propagator model.now self.new.search) }
    {
        let Slot::Present { s, e } = slot_of(schedule, x) else {
            return Ok(());
        };
        let pole = self.search.intervals.goal().pole(x);
        self.assume_if(model, pole != Pole::Later, Guess::StartLe(x, s))?;
        let stays = pole == Pole::Later || e <= first;
        self.assume_if(model, stays, Guess::StartGe(x, s))
    }

    fn keep_places(
        &mut self,
        model: &Model,
        schedule: &Assignment,
        neighbourhood: &Neighbourhood,
    ) -> Result<(), NoMemory>
        requires { IsReady P.Propagator model.now self.old.search }
        ensures { OnOk result (IsReady P.Propagator model.now self.new.search) }
    {
        // Else orders say when.
        if !self.search.intervals.has_profiles() && !neighbourhood.sequences().is_empty() {
            return Ok(());
        }
        let first = first_free(schedule, neighbourhood);
        for n in 0..count_of(schedule) {
            if neighbourhood.is_free(Itv(n)) {
                continue;
            }
            self.keep_place(model, schedule, Itv(n), first)?;
        }
        Ok(())
    }

    /// Derives what follows, if anything was assumed; whether the region is worth a search.
    fn derive_if_any(&mut self, model: &Model) -> Result<bool, NoMemory>
        requires { IsReady P.Propagator model.now self.old.search }
        ensures ready { IfOk result (λ b. IsTrue b → IsReady P.Propagator model.now self.new.search) }
        ensures holding { OnOk result (IsHolding P.Propagator model.now self.new.search) }
    {
        if self.search.marks.is_empty() {
            return Ok(true);
        }
        self.derive_root(model)
    }

    /// Assumes at the root what is kept of a schedule: who is there, the orders, and, where orders don't
    /// say when, also the places. Whether anything is left to look at.
    pub fn keep_rest(
        &mut self,
        model: &Model,
        schedule: &Assignment,
        neighbourhood: &Neighbourhood,
    ) -> Result<bool, NoMemory>
        requires { IsReady P.Propagator model.now self.old.search }
        ensures ready { IfOk result (λ b. IsTrue b → IsReady P.Propagator model.now self.new.search) }
        ensures kept { OnOk result (IsHolding P.Propagator model.now self.new.search) }
    {
        self.keep_presences(model, schedule, neighbourhood)?;
        if !self.derive_if_any(model)? {
            return Ok(false);
        }
        self.keep_orders(model, schedule, neighbourhood)?;
        self.keep_places(model, schedule, neighbourhood)?;
        self.derive_root(model)
    }
}
