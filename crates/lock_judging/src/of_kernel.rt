//! The steps of a log, its verdict, and the regions that wait.
ghost use Rattle.std.specs.Prelude.{◌≡◌, IfOk, ◌<◌, ◌^◌, Err, false, IfSome, option_map, option_copied, [], length, ◌≤◌, ◌∷◌, ◌++◌, IsTrue, OnOk, OnErr, IfNone, List, None, is_some};
ghost use Rattle.sched_model.specs.Data.{Data};
ghost use Rattle.sched_model.specs.Valid.{IsValid};
ghost use Rattle.region.specs.Looks.{IsRegionOf};
ghost use Rattle.region.specs.code.Held.{Held};
ghost use Rattle.region.specs.Guesses.{splits, with_guess, with_fact, guess_cell, guess_holds};
ghost use Rattle.region.specs.Narrows.{Narrows};
ghost use Rattle.kernel.specs.Steps.{opening, step, takes_memory, Gives, verdict_of, best_of, LogState, Steps, open_regions, restarts_in};
ghost use Rattle.kernel.specs.laws.Budget.{budget_with};
ghost use Rattle.kernel.specs.Promises.{Ready, Means, LosesNothing};
ghost use Rattle.kernel.specs.Refuting.{refutes_with};
ghost use Rattle.kernel.specs.declared.types.StepFault.TheVariants.{NoMemory as Memory};
ghost use Rattle.kernel.specs.Agenda.{first_in};
ghost use Rattle.kernel.specs.code.Open.{AreOpenOf, advanced, in_front};
ghost use Rattle.kernel.specs.code.Pending.{ArePending, after_saved, Takes};
ghost use Rattle.kernel.specs.declared.types.Line.{Line};
ghost use Rattle.sched_base.specs.declared.ids.Con.{Con};
ghost use Rattle.sched_model.specs.declared.types.Assignment.{Assignment};
ghost use Rattle.sched_model.specs.declared.types.Verdict.TheVariants.{Infeasible};
ghost use Rattle.sched_model.specs.Solution.{Meets};
ghost use Rattle.kernel.specs.Named.{named_with};
ghost use Rattle.kernel.specs.Used.{IsUsed, used_in};

use kernel::{Found, Kernel, Line, Open, Pending, StepFault, Verdict};
use region::{CellName, Guess, Look, Refuter, Region};
use sched_base::NoMemory;
use sched_model::Model;
use std::alloc::Global;

pub fn new_kernel<X: Refuter>(alloc: Global, model: &Model) -> Result<Kernel<X>, NoMemory>
    ensures state { IfOk result (λ k. k ≡ opening model.now) }
    ensures ready { IfOk result (λ k. Ready model.now k) }
{
    Kernel::new(alloc, model)
}

pub fn step<X: Refuter>(
    kernel: &mut Kernel<X>,
    alloc: Global,
    model: &Model,
    line: Line<X::Witness>,
) -> Result<(), StepFault>
    requires nodes { kernel.old.nodes < 2 ^ 63 }
    requires ready { Ready model.now kernel.old }
    ensures step { Gives result (step (refutes_with X.refuting) model.now line kernel.old) kernel.old kernel.new }
    ensures memory { takes_memory line ≡ false → result ≡ Err Memory → ⊥ }
    ensures ready { Ready model.now kernel.new }
{
    kernel.step(alloc, model, line)
}

pub fn verdict<X: Refuter>(kernel: &Kernel<X>) -> Verdict
    ensures value { result ≡ verdict_of kernel.now }
    ensures means { (m : Data) → Ready m kernel.now → Means m result }
{
    kernel.verdict()
}

pub fn nodes<X: Refuter>(kernel: &Kernel<X>) -> u64
    ensures { result ≡ kernel.now.nodes }
{
    kernel.nodes()
}

pub fn best<X: Refuter>(kernel: &Kernel<X>) -> Option<i64>
    ensures { result ≡ best_of kernel.now.found }
{
    kernel.best()
}

pub fn first<X: Refuter>(kernel: &Kernel<X>) -> Option<&Region>
    ensures first { option_map (λ r. r.now.region) result ≡ first_in kernel.now.current kernel.now.waiting }
    ensures of { (m : Data) → Ready m kernel.now → IfSome result (λ r. IsRegionOf m r.now.region) }
{
    kernel.first()
}

pub fn found<X: Refuter>(kernel: &Kernel<X>) -> Option<&Found>
    ensures { option_copied result ≡ kernel.now.found }
{
    kernel.found()
}

pub fn into_found<X: Refuter>(kernel: Kernel<X>) -> Option<Found>
    ensures { result ≡ kernel.found }
{
    kernel.into_found()
}

pub fn into_open<X: Refuter>(kernel: Kernel<X>) -> Open
    ensures value { result ≡ record { front = None; behind = open_regions kernel; best = best_of kernel.found } }
    ensures of { (m : Data) → Ready m kernel → AreOpenOf m result }
{
    kernel.into_open()
}

pub fn advance_open(regions: &mut Open) -> bool
    ensures next { regions.new ≡ advanced regions.old }
    ensures left { result ≡ is_some regions.new.front }
{
    regions.advance()
}

pub fn look_at_open(regions: &Open) -> Option<Look<'_>>
    ensures shows { result ≡ in_front regions.now }
    ensures of { (m : Data) → AreOpenOf m regions.now → IfSome result (λ l. IsRegionOf m l.region) }
{
    regions.look()
}

pub fn new_pending(alloc: Global) -> Pending
    ensures none { result ≡ [] }
    ensures pending { (h : Held) → h.saved ≡ [] → h.promised ≡ [] → ArePending h result }
{
    Pending::new(alloc)
}

pub fn pending_len(pending: &Pending) -> usize
    ensures count { result ≡ length pending.now }
    ensures waiting { (h : Held) → ArePending h pending.now → length (after_saved h.saved pending.now) ≡ result }
    ensures saves { (h : Held) → ArePending h pending.now → length h.saved ≡ result }
{
    pending.len()
}

pub fn pending_split(
    pending: &mut Pending,
    region: &mut Region,
    g: Guess,
) -> Result<CellName, NoMemory>
    requires pending { ArePending region.old pending.old }
    requires splits { IsTrue (splits region.old.region g) }
    ensures pending { ArePending region.new pending.new }
    ensures cell { IfOk result (λ c. c ≡ guess_cell g) }
    ensures region { OnOk result (region.new.region ≡ with_guess g region.old.region) }
    ensures narrows { OnOk result (Narrows (guess_cell g) (guess_holds g) region.old.region region.new.region) }
    ensures saved { OnOk result (region.new.saved ≡ region.old.saved ++ region.old.region ∷ []) }
    ensures guesses { OnOk result (pending.new ≡ pending.old ++ g ∷ []) }
    ensures next { OnOk result (after_saved region.new.saved pending.new ≡ with_fact g region.old.region ∷ after_saved region.old.saved pending.old) }
    ensures err { OnErr result (region.new ≡ record region.old { spare = region.new.spare }) }
    ensures err_spare { OnErr result (region.old.spare ≤ region.new.spare) }
    ensures err_guesses { OnErr result (pending.new ≡ pending.old) }
{
    pending.split(region, g)
}

pub fn pending_next(pending: &mut Pending, region: &mut Region) -> Option<CellName>
    requires { ArePending region.old pending.old }
    ensures pending { ArePending region.new pending.new }
    ensures takes { IfSome result (λ cell. Takes cell region.old region.new pending.old pending.new) }
    ensures next { IfSome result (λ cell. region.new.region ∷ after_saved region.new.saved pending.new ≡ after_saved region.old.saved pending.old) }
    ensures none { IfNone result (after_saved region.old.saved pending.old ≡ []) }
    ensures none_region { IfNone result (region.new ≡ region.old) }
    ensures none_guesses { IfNone result (pending.new ≡ pending.old) }
{
    pending.next(region)
}

pub fn loses_nothing<X: Refuter>()
    ensures keeps { (m : Data) (lines : List (Line X.Witness)) (s : LogState) → IsValid m
        → Steps (refutes_with X.refuting) m (opening m) lines s → LosesNothing m s.found (open_regions s) }
    ensures verdict { (m : Data) (lines : List (Line X.Witness)) (s : LogState) → IsValid m
        → Steps (refutes_with X.refuting) m (opening m) lines s → Means m (verdict_of s) }
    ensures few { (m : Data) (lines : List (Line X.Witness)) (s : LogState) → IsValid m
        → Steps (refutes_with X.refuting) m (opening m) lines s → s.nodes < budget_with m (restarts_in lines) }
{
    kernel::loses_nothing::<X>();
}

pub fn uses_enough<X: Refuter>()
    ensures leaves { (m : Data) (lines : List (Line X.Witness)) (s : LogState) → IsValid m
        → Steps (refutes_with X.refuting) m (opening m) lines s → verdict_of s ≡ Infeasible → (a : Assignment) → Meets m (used_in (named_with X.named) lines) a → ⊥ }
    ensures core { (m : Data) (used core : List Con) (a : Assignment) → IsUsed m used core → Meets m core a → Meets m used a }
{
    kernel::uses_enough::<X>();
}
