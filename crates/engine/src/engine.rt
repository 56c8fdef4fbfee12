ghost use Rattle.std.specs.Prelude.{◌≡◌, ◌<◌, true, false, ℕ, ℤ, Option, IsTrue, Ok, Err, IfOk, IfSome, IfNone, OnOk, OnErr};
ghost use Rattle.sched_base.specs.Calls.{Rose};
ghost use Rattle.sched_model.specs.Data.{Data};
ghost use Rattle.region.specs.Cells.{Region as Cells, is_settled};
ghost use Rattle.region.specs.Looks.{IsRegionOf};
ghost use Rattle.region.specs.code.Held.{IsHeldOf};
ghost use Rattle.findings.specs.Found.{IsFinding};
ghost use Rattle.kernel.specs.Derives.{IsDerived};
ghost use Rattle.wake_levels.specs.code.Waking.{is_awake};
ghost use Rattle.wake_levels.specs.code.Calm.{WakesEach};
ghost use Rattle.engine.specs.Plain.{refutes_plain};
ghost use Rattle.engine.specs.code.Changes.{AreSameBut};
ghost use Rattle.engine.specs.code.Watching.{watchers_of};
ghost use Rattle.engine.specs.code.Engines.{IsFor, IsCalm, AreQuiet, AreAwake, NoneAwake};
ghost use Rattle.engine.specs.Runs.{cap_at, Led, Ran, Broke};
ghost use Rattle.engine.specs.code.Ending.{IsEnd, IfQuiet};
ghost use Rattle.engine.specs.declared.stops.Stop.TheVariants as stop;
ghost use Rattle.engine.specs.declared.stops.EngineFault.TheVariants as fault;

use crate::lines::Lines;
use crate::propagator::Propagator;
use crate::stops::{EngineFault, Stop};
use crate::turns::{find, sleep};
use crate::watchers::Watchers;
use findings::Finding;
use kernel::{Line, NoWitness, Witness};
use region::{CellName, Fact, Guess, Region};
use sched_base::{List, NoMemory};
use sched_model::Model;
use std::alloc::Global;
use wake_levels::WakeLevels;

/// How many levels there are. What is late waits on the last but one, so that on the last whoever
/// costs most is asked when nothing else is left to find.
const LEVELS: usize = 4;

/// A run puts at most so many lines for each cell of its region.
const LINES_A_CELL: u128 = 16;

/// Propagators, which of them are awake, and whom a change wakes.
#[derive(Drop)]
pub struct Engine<P: Propagator> {
    propagators: P,
    watchers: Watchers,
    homes: List<u8>,
    levels: WakeLevels,
}

impl<P: Propagator> std::marker::Model for Engine<P> {
    ghost use Rattle.engine.specs.code.Noted.{AreBelow};
    ghost use Rattle.engine.specs.code.Engines.{EngineValue};

    ghost Value = { EngineValue P };

    ghost view = { λ e. record { propagators = e.propagators; watching = e.watchers; waking = e.levels } };

    ghost invariant = { λ e. AreBelow e.levels.below e.watchers };
}

/// The level on which each is woken.
fn homes_of<P: Propagator>(alloc: Global, propagators: &P) -> Result<List<u8>, NoMemory> {
    let mut homes = List::new(alloc);
    for k in 0..propagators.count() {
        homes.push(propagators.level(k))?;
    }
    Ok(homes)
}

impl<P: Propagator> Engine<P> {
    /// The engine over these propagators of a model, all of them awake.
    pub fn new(alloc: Global, propagators: P, model: &Model) -> Result<Engine<P>, NoMemory>
        requires { P.is_of propagators model.now }
        ensures made { IfOk result (IsFor P.Propagator model.now) }
        ensures awake { IfOk result (AreAwake P.Propagator model.now) }
    {
        let watchers = Watchers::new(alloc, &propagators, model)?;
        let homes = homes_of(alloc, &propagators)?;
        let mut levels = WakeLevels::new(alloc, propagators.count(), LEVELS)?;
        levels.wake_all(homes.as_slice());
        Ok(Engine {
            propagators,
            watchers,
            homes,
            levels,
        })
    }

    fn plain_wake(&mut self, cell: CellName)
        ensures same { self.new ≡ record self.old { waking = self.new.waking } }
        ensures wakes { WakesEach (watchers_of self.old.watching cell) self.old.waking self.new.waking }
    {
        self.levels
            .wake_each(self.watchers.of(cell), self.homes.as_slice());
    }

    fn plain_wake_best(&mut self)
        ensures same { self.new ≡ record self.old { waking = self.new.waking } }
        ensures wakes { WakesEach self.old.watching.by_best self.old.waking self.new.waking }
    {
        self.levels
            .wake_each(self.watchers.of_best(), self.homes.as_slice());
    }

    /// Wakes whoever watches the best value.
    pub fn wake_best(&mut self)
        ensures made { (m : Data) → IsFor P.Propagator m self.old → IsFor P.Propagator m self.new }
        ensures kept { (k : ℕ) → IsTrue (is_awake self.old.waking k) → IsTrue (is_awake self.new.waking k) }
        ensures calm { (m : Data) (r : Cells) (b c : Option ℤ) → IsFor P.Propagator m self.old → IsRegionOf m r
            → IsCalm P.Propagator m r b self.old → IsCalm P.Propagator m r c self.new }
    {
        self.plain_wake_best();
    }

    fn plain_wake_all(&mut self)
        ensures same { self.new ≡ record self.old { waking = self.new.waking } }
        ensures below { self.new.waking.below ≡ self.old.waking.below }
        ensures kept { (k : ℕ) → IsTrue (is_awake self.old.waking k) → IsTrue (is_awake self.new.waking k) }
        ensures all { (k : ℕ) → k < self.old.waking.below → IsTrue (is_awake self.new.waking k) }
    {
        self.levels.wake_all(self.homes.as_slice());
    }

    /// Wakes every propagator.
    pub fn wake_all(&mut self)
        ensures made { (m : Data) → IsFor P.Propagator m self.old → IsFor P.Propagator m self.new }
        ensures kept { (k : ℕ) → IsTrue (is_awake self.old.waking k) → IsTrue (is_awake self.new.waking k) }
        ensures awake { (m : Data) → IsFor P.Propagator m self.old → AreAwake P.Propagator m self.new }
    {
        self.plain_wake_all();
    }

    /// Tells the propagators of a cell that isn't as it was.
    #[tactic(auto, using(crate::proofs::Waking::told_for, crate::proofs::Waking::told_calm))]
    fn note_change(&mut self, cell: CellName)
        ensures same { self.new.waking ≡ self.old.waking }
        ensures made { (m : Data) → IsFor P.Propagator m self.old → IsFor P.Propagator m self.new }
        ensures calm { (m : Data) (r : Cells) (best : Option ℤ) → IsCalm P.Propagator m r best self.old → IsCalm P.Propagator m r best self.new }
    {
        self.propagators.note_change(cell);
    }

    /// Wakes whoever watches the cell, which isn't as it was, and tells all of it. So where a region
    /// differs in it alone from another for which all that weren't awake were quiet, all that aren't awake
    /// now are quiet for it.
    pub fn wake(&mut self, cell: CellName)
        ensures made { (m : Data) → IsFor P.Propagator m self.old → IsFor P.Propagator m self.new }
        ensures kept { (k : ℕ) → IsTrue (is_awake self.old.waking k) → IsTrue (is_awake self.new.waking k) }
        ensures calm { (m : Data) (r q : Cells) (best : Option ℤ) → IsFor P.Propagator m self.old → IsRegionOf m r → IsRegionOf m q → AreSameBut cell r q
            → IsCalm P.Propagator m r best self.old → IsCalm P.Propagator m q best self.new }
    {
        self.plain_wake(cell);
        self.note_change(cell);
    }

    /// Tells the propagators that cells may have changed of which they were told nothing, as where a region
    /// is gone back to.
    #[tactic(auto, using(crate::proofs::Waking::told_for, crate::proofs::Waking::told_calm))]
    pub fn forget_changes(&mut self)
        ensures made { (m : Data) → IsFor P.Propagator m self.old → IsFor P.Propagator m self.new }
        ensures calm { (m : Data) (r : Cells) (best : Option ℤ) → IsCalm P.Propagator m r best self.old → IsCalm P.Propagator m r best self.new }
    {
        self.propagators.forget_changes();
    }

    /// Puts every propagator to sleep. It is for a region of which nothing is left to derive.
    pub fn rest(&mut self)
        ensures made { (m : Data) → IsFor P.Propagator m self.old → IsFor P.Propagator m self.new }
        ensures calm { (m : Data) (r : Cells) (best : Option ℤ) → AreQuiet P.Propagator m r best → IsCalm P.Propagator m r best self.new }
    {
        sleep(&mut self.levels);
    }

    fn find(
        &mut self,
        model: &Model,
        region: &Region,
        best: Option<i64>,
    ) -> Result<Option<Finding<Witness<NoWitness>>>, NoMemory>
        requires made { IsFor P.Propagator model.now self.old }
        requires of { IsHeldOf model.now region.now }
        requires calm { IsCalm P.Propagator model.now region.now.region best self.old }
        ensures made { IsFor P.Propagator model.now self.new }
        ensures calm { IsCalm P.Propagator model.now region.now.region best self.new }
        ensures none { IfOk result (λ o. IfNone o (AreQuiet P.Propagator model.now region.now.region best × NoneAwake P.Propagator model.now self.new)) }
        ensures some { IfOk result (λ o. IfSome o (λ f. IsFinding refutes_plain model.now region.now.region best f)) }
    {
        find(&mut self.propagators, &mut self.levels, model, region, best)
    }

    /// Puts the line that derives a fact, and learns it.
    fn learn<L: Lines>(
        &mut self,
        model: &Model,
        region: &mut Region,
        best: Option<i64>,
        g: Guess,
        witness: Witness<NoWitness>,
        lines: &mut L,
    ) -> Result<(), EngineFault>
        requires made { IsFor P.Propagator model.now self.old }
        requires of { IsHeldOf model.now region.old }
        requires calm { IsCalm P.Propagator model.now region.old.region best self.old }
        requires ready { L.ready lines.old }
        requires derived { IsDerived refutes_plain model.now best region.old.region g witness }
        ensures made { IsFor P.Propagator model.now self.new }
        ensures of { IsHeldOf model.now region.new }
        ensures saved { region.new.saved ≡ region.old.saved }
        ensures promised { region.new.promised ≡ region.old.promised }
        ensures calm { OnOk result (IsCalm P.Propagator model.now region.new.region best self.new) }
        ensures learnt { OnOk result (Led L.Lines model.now best 1 lines.old lines.new region.old.region region.new.region) }
        ensures broke { OnErr result (Broke L.Lines model.now best 1 lines.old lines.new region.old.region region.new.region) }
        ensures fault { result ≡ Err fault.Lines → Rose (L.faults lines.old) (L.faults lines.new) × (L.calm lines.old ≡ true → ⊥) }
    {
        // Called for its clause alone.
        let _ = model.intervals();
        lines.put(&Line::Derive(g, witness))?;
        let cell = region.learn(Fact(g))?;
        self.wake(cell);
        Ok(())
    }

    /// One finding: its fact is learnt, or it ends the run.
    fn turn<L: Lines>(
        &mut self,
        model: &Model,
        region: &mut Region,
        best: Option<i64>,
        lines: &mut L,
    ) -> Result<Option<Stop>, EngineFault>
        requires made { IsFor P.Propagator model.now self.old }
        requires of { IsHeldOf model.now region.old }
        requires calm { IsCalm P.Propagator model.now region.old.region best self.old }
        requires ready { L.ready lines.old }
        ensures made { IsFor P.Propagator model.now self.new }
        ensures of { IsHeldOf model.now region.new }
        ensures saved { region.new.saved ≡ region.old.saved }
        ensures promised { region.new.promised ≡ region.old.promised }
        ensures calm { OnOk result (IsCalm P.Propagator model.now region.new.region best self.new) }
        ensures learnt { IfOk result (λ o. IfNone o ((is_settled region.old.region ≡ false) × Led L.Lines model.now best 1 lines.old lines.new region.old.region region.new.region)) }
        ensures ends { IfOk result (λ o. IfSome o (IsEnd (AreQuiet P.Propagator model.now region.new.region best) model.now best region.new.region)) }
        ensures asleep { IfOk result (λ o. IfSome o (IfQuiet (NoneAwake P.Propagator model.now self.new))) }
        ensures same { IfOk result (λ o. IfSome o (λ stop. (region.new ≡ region.old) × (lines.new ≡ lines.old))) }
        ensures broke { OnErr result (Broke L.Lines model.now best 1 lines.old lines.new region.old.region region.new.region) }
        ensures fault { result ≡ Err fault.Lines → Rose (L.faults lines.old) (L.faults lines.new) × (L.calm lines.old ≡ true → ⊥) }
    {
        let Some(f) = self.find(model, region, best)? else {
            return Ok(Some(Stop::Quiet));
        };
        let Finding { guess, witness } = f;
        let Some(g) = guess else {
            return Ok(Some(Stop::Failed(witness)));
        };
        self.learn(model, region, best, g, witness, lines)?;
        Ok(None)
    }

    /// What ends a run of a settled region, of which no fact is left to learn.
    fn close(&mut self, model: &Model, region: &Region, best: Option<i64>) -> Result<Stop, NoMemory>
        requires made { IsFor P.Propagator model.now self.old }
        requires of { IsHeldOf model.now region.now }
        requires calm { IsCalm P.Propagator model.now region.now.region best self.old }
        requires settled { IsTrue (is_settled region.now.region) }
        ensures made { IsFor P.Propagator model.now self.new }
        ensures calm { IsCalm P.Propagator model.now region.now.region best self.new }
        ensures ends { IfOk result (IsEnd (AreQuiet P.Propagator model.now region.now.region best) model.now best region.now.region) }
        ensures asleep { IfOk result (IfQuiet (NoneAwake P.Propagator model.now self.new)) }
    {
        match self.find(model, region, best)? {
            None => Ok(Stop::Quiet),
            Some(f) => Ok(Stop::Failed(f.witness)),
        }
    }

    fn drive<L: Lines>(
        &mut self,
        model: &Model,
        region: &mut Region,
        best: Option<i64>,
        lines: &mut L,
    ) -> Result<Stop, EngineFault>
        requires made { IsFor P.Propagator model.now self.old }
        requires of { IsHeldOf model.now region.old }
        requires calm { IsCalm P.Propagator model.now region.old.region best self.old }
        requires ready { L.ready lines.old }
        ensures made { IsFor P.Propagator model.now self.new }
        ensures of { IsHeldOf model.now region.new }
        ensures saved { region.new.saved ≡ region.old.saved }
        ensures promised { region.new.promised ≡ region.old.promised }
        ensures calm { OnOk result (IsCalm P.Propagator model.now region.new.region best self.new) }
        ensures ran { IfOk result (Ran L.Lines (AreQuiet P.Propagator model.now region.new.region best) model.now best lines.old lines.new region.old.region region.new.region) }
        ensures asleep { IfOk result (IfQuiet (NoneAwake P.Propagator model.now self.new)) }
        ensures broke { OnErr result (Broke L.Lines model.now best (cap_at region.old.region) lines.old lines.new region.old.region region.new.region) }
        ensures fault { result ≡ Err fault.Lines → Rose (L.faults lines.old) (L.faults lines.new) × (L.calm lines.old ≡ true → ⊥) }
    {
        let most = LINES_A_CELL * u128::from(region.cells());
        let mut put: u128 = 0;
        while put < most {
            if let Some(stop) = self.turn(model, region, best, lines)? {
                return Ok(stop);
            }
            put += 1;
        }
        if !region.settled() {
            return Ok(Stop::Capped);
        }
        Ok(self.close(model, region, best)?)
    }

    /// Derives until every propagator is quiet, a witness refutes the region, or 16 lines were put
    /// for each of its cells and it isn't settled. Each fact is one line, put before it is learnt. A
    /// fault of `Lines` comes only where a put failed. After a fault every propagator is awake.
    pub fn run<L: Lines>(
        &mut self,
        model: &Model,
        region: &mut Region,
        best: Option<i64>,
        lines: &mut L,
    ) -> Result<Stop, EngineFault>
        requires made { IsFor P.Propagator model.now self.old }
        requires of { IsHeldOf model.now region.old }
        requires calm { IsCalm P.Propagator model.now region.old.region best self.old }
        requires ready { L.ready lines.old }
        ensures made { IsFor P.Propagator model.now self.new }
        ensures of { IsHeldOf model.now region.new }
        ensures saved { region.new.saved ≡ region.old.saved }
        ensures promised { region.new.promised ≡ region.old.promised }
        ensures calm { IsCalm P.Propagator model.now region.new.region best self.new }
        ensures ran { IfOk result (Ran L.Lines (AreQuiet P.Propagator model.now region.new.region best) model.now best lines.old lines.new region.old.region region.new.region) }
        ensures none_awake { result ≡ Ok stop.Quiet → NoneAwake P.Propagator model.now self.new }
        ensures broke { OnErr result (Broke L.Lines model.now best (cap_at region.old.region) lines.old lines.new region.old.region region.new.region) }
        ensures fault { result ≡ Err fault.Lines → Rose (L.faults lines.old) (L.faults lines.new) × (L.calm lines.old ≡ true → ⊥) }
        ensures awake { OnErr result (AreAwake P.Propagator model.now self.new) }
    {
        let answer = self.drive(model, region, best, lines);
        if answer.is_err() {
            self.wake_all();
        }
        answer
    }
}
