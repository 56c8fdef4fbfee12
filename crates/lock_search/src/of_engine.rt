//! The engine, and the interfaces of propagators and of the place where lines go.
ghost use Rattle.std.specs.Prelude.{◌≡◌, ◌<◌, IfOk, IfSome, IfNone, IsTrue, ◌∷◌, [], true, IsOk, OnOk, OnErr, ◌+◌, ◌≤◌, ◌^◌, ℕ, ℤ, Option, Ok, Err};
ghost use Rattle.sched_base.specs.Calls.{Rose};
ghost use Rattle.wake_levels.specs.code.Waking.{is_awake};
ghost use Rattle.sched_model.specs.Data.{Data};
ghost use Rattle.region.specs.Looks.{IsRegionOf};
ghost use Rattle.region.specs.declared.types.CellName.{CellName};
ghost use Rattle.region.specs.Cells.{Region as Cells};
ghost use Rattle.region.specs.code.Held.{IsHeldOf};
ghost use Rattle.kernel.specs.Fit.{is_fit};
ghost use Rattle.kernel.specs.NoExtra.{is_valid};
ghost use Rattle.findings.specs.Found.{IsFinding};
ghost use Rattle.engine.specs.Plain.{refutes_plain};
ghost use Rattle.engine.specs.code.Watched.{names_presence, names_bound, names_order};
ghost use Rattle.engine.specs.code.Engines.{IsFor, AreAwake, IsCalm, AreQuiet, NoneAwake};
ghost use Rattle.engine.specs.code.Changes.{AreSameBut};
ghost use Rattle.engine.specs.Runs.{cap_at, Ran, Broke};
ghost use Rattle.engine.specs.laws.Caps.{CapIsTheModels};
ghost use Rattle.engine.specs.declared.stops.Stop.TheVariants as stop;
ghost use Rattle.engine.specs.declared.stops.EngineFault.TheVariants as fault;

use engine::{Both, Engine, EngineFault, Lines, Propagator, Stop};
use findings::Finding;
use kernel::{Line, NoWitness, Witness};
use region::{CellName, Region};
use sched_base::{Failed, Itv, NoMemory, Seq};
use sched_model::Model;
use std::alloc::Global;

pub fn count<P: Propagator>(propagators: &P) -> u32
    ensures { (m : Data) → P.is_of propagators.now m → result ≡ P.size m }
{
    propagators.count()
}

pub fn next<P: Propagator>(
    propagators: &mut P,
    k: u32,
    model: &Model,
    region: &Region,
    best: Option<i64>,
) -> Result<Option<Finding<Witness<NoWitness>>>, NoMemory>
    requires of { P.is_of propagators.old model.now }
    requires below { k < P.size model.now }
    requires region { IsRegionOf model.now region.now.region }
    ensures kept { P.is_of propagators.new model.now }
    ensures none { IfOk result (λ o. IfNone o (P.quiet model.now k region.now.region best)) }
    ensures some { IfOk result (λ o. IfSome o (λ f. IsFinding refutes_plain model.now region.now.region best f)) }
    ensures busy { IfOk result (λ o. IfSome o (λ f. P.quiet model.now k region.now.region best → ⊥)) }
{
    propagators.next(k, model, region, best)
}

pub fn watched_presences<P: Propagator>(propagators: &P, k: u32) -> &[Itv]
    requires { (m : Data) × P.is_of propagators.now m × (k < P.size m) }
    ensures { (m : Data) → P.is_of propagators.now m → (c : CellName) → IsTrue (P.watching m k c) → names_presence result.now c }
{
    propagators.watched_presences(k)
}

pub fn watched_bounds<P: Propagator>(propagators: &P, k: u32) -> &[Itv]
    requires { (m : Data) × P.is_of propagators.now m × (k < P.size m) }
    ensures { (m : Data) → P.is_of propagators.now m → (c : CellName) → IsTrue (P.watching m k c) → names_bound result.now c }
{
    propagators.watched_bounds(k)
}

pub fn watched_orders<P: Propagator>(propagators: &P, k: u32) -> &[Seq]
    requires { (m : Data) × P.is_of propagators.now m × (k < P.size m) }
    ensures { (m : Data) → P.is_of propagators.now m → (c : CellName) → IsTrue (P.watching m k c) → names_order result.now c }
{
    propagators.watched_orders(k)
}

pub fn watches_best<P: Propagator>(propagators: &P, k: u32) -> bool
    ensures { (m : Data) → P.is_of propagators.now m → result ≡ P.watching_best m k }
{
    propagators.watches_best(k)
}

pub fn put<L: Lines>(lines: &mut L, line: &Line<NoWitness>) -> Result<(), Failed>
    requires ready { L.ready lines.old }
    requires fit { IsTrue (is_fit is_valid line.now) }
    ensures ok { OnOk result (L.puts lines.old (line.now ∷ []) lines.new) }
    ensures broke { OnErr result (L.breaks lines.old [] line.now lines.new) }
    ensures rose { OnErr result (Rose (L.faults lines.old) (L.faults lines.new)) }
    ensures calm { L.calm lines.old ≡ true → IsOk result }
{
    lines.put(line)
}

pub fn new_both<A: Propagator, B: Propagator>(first: A, second: B) -> Option<Both<A, B>>
    ensures some { (m : Data) → A.is_of first m → B.is_of second m → IfSome result (λ p. A.is_of p.first m × B.is_of p.second m × (A.size m + B.size m < 2 ^ 32) × (p.split ≡ A.size m)) }
    ensures none { (m : Data) → A.is_of first m → B.is_of second m → IfNone result (2 ^ 32 ≤ A.size m + B.size m) }
{
    Both::new(first, second)
}

pub fn new_engine<P: Propagator>(
    alloc: Global,
    propagators: P,
    model: &Model,
) -> Result<Engine<P>, NoMemory>
    requires { P.is_of propagators model.now }
    ensures made { IfOk result (IsFor P.Propagator model.now) }
    ensures awake { IfOk result (AreAwake P.Propagator model.now) }
{
    Engine::new(alloc, propagators, model)
}

pub fn wake<P: Propagator>(engine: &mut Engine<P>, cell: CellName)
    ensures made { (m : Data) → IsFor P.Propagator m engine.old → IsFor P.Propagator m engine.new }
    ensures kept { (k : ℕ) → IsTrue (is_awake engine.old.waking k) → IsTrue (is_awake engine.new.waking k) }
    ensures calm { (m : Data) (r q : Cells) (best : Option ℤ) → IsFor P.Propagator m engine.old → IsRegionOf m r → IsRegionOf m q → AreSameBut cell r q
        → IsCalm P.Propagator m r best engine.old → IsCalm P.Propagator m q best engine.new }
{
    engine.wake(cell);
}

pub fn wake_best<P: Propagator>(engine: &mut Engine<P>)
    ensures made { (m : Data) → IsFor P.Propagator m engine.old → IsFor P.Propagator m engine.new }
    ensures kept { (k : ℕ) → IsTrue (is_awake engine.old.waking k) → IsTrue (is_awake engine.new.waking k) }
    ensures calm { (m : Data) (r : Cells) (b c : Option ℤ) → IsFor P.Propagator m engine.old → IsRegionOf m r
        → IsCalm P.Propagator m r b engine.old → IsCalm P.Propagator m r c engine.new }
{
    engine.wake_best();
}

pub fn wake_all<P: Propagator>(engine: &mut Engine<P>)
    ensures made { (m : Data) → IsFor P.Propagator m engine.old → IsFor P.Propagator m engine.new }
    ensures kept { (k : ℕ) → IsTrue (is_awake engine.old.waking k) → IsTrue (is_awake engine.new.waking k) }
    ensures awake { (m : Data) → IsFor P.Propagator m engine.old → AreAwake P.Propagator m engine.new }
{
    engine.wake_all();
}

pub fn forget_changes<P: Propagator>(engine: &mut Engine<P>)
    ensures made { (m : Data) → IsFor P.Propagator m engine.old → IsFor P.Propagator m engine.new }
    ensures calm { (m : Data) (r : Cells) (best : Option ℤ) → IsCalm P.Propagator m r best engine.old → IsCalm P.Propagator m r best engine.new }
{
    engine.forget_changes();
}

pub fn run<P: Propagator, L: Lines>(
    engine: &mut Engine<P>,
    model: &Model,
    region: &mut Region,
    best: Option<i64>,
    lines: &mut L,
) -> Result<Stop, EngineFault>
    requires made { IsFor P.Propagator model.now engine.old }
    requires of { IsHeldOf model.now region.old }
    requires calm { IsCalm P.Propagator model.now region.old.region best engine.old }
    requires ready { L.ready lines.old }
    ensures made { IsFor P.Propagator model.now engine.new }
    ensures of { IsHeldOf model.now region.new }
    ensures saved { region.new.saved ≡ region.old.saved }
    ensures promised { region.new.promised ≡ region.old.promised }
    ensures calm { IsCalm P.Propagator model.now region.new.region best engine.new }
    ensures ran { IfOk result (Ran L.Lines (AreQuiet P.Propagator model.now region.new.region best) model.now best lines.old lines.new region.old.region region.new.region) }
    ensures none_awake { result ≡ Ok stop.Quiet → NoneAwake P.Propagator model.now engine.new }
    ensures broke { OnErr result (Broke L.Lines model.now best (cap_at region.old.region) lines.old lines.new region.old.region region.new.region) }
    ensures fault { result ≡ Err fault.Lines → Rose (L.faults lines.old) (L.faults lines.new) × (L.calm lines.old ≡ true → ⊥) }
    ensures awake { OnErr result (AreAwake P.Propagator model.now engine.new) }
{
    engine.run(model, region, best, lines)
}

pub fn cap_is_the_models()
    ensures { CapIsTheModels }
{
    engine::cap_is_the_models();
}
