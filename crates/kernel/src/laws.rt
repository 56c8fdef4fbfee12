ghost use Rattle.std.specs.Prelude.{◌≡◌, ◌<◌, List};
ghost use Rattle.sched_base.specs.declared.ids.Con.{Con};
ghost use Rattle.sched_model.specs.declared.types.Assignment.{Assignment};
ghost use Rattle.sched_model.specs.declared.types.Verdict.TheVariants.{Infeasible};
ghost use Rattle.sched_model.specs.Data.{Data};
ghost use Rattle.sched_model.specs.Valid.{IsValid};
ghost use Rattle.sched_model.specs.Solution.{Meets};
ghost use Rattle.kernel.specs.laws.Budget.{budget_with};
ghost use Rattle.kernel.specs.declared.types.Line.{Line};
ghost use Rattle.kernel.specs.Named.{named_with};
ghost use Rattle.kernel.specs.Used.{IsUsed, used_in};
ghost use Rattle.kernel.specs.Refuting.{refutes_with};
ghost use Rattle.kernel.specs.Steps.{LogState, Steps, opening, open_regions, restarts_in, verdict_of};
ghost use Rattle.kernel.specs.Promises.{LosesNothing, Means};

use region::Refuter;

/// Whatever lines step one after another from the opening state: what was found is a solution, each
/// better one is allowed by a region that is left, each such region has a point that no other has,
/// the verdict means what it says, and fewer nodes than the budget of the restarts among
/// them were opened.
pub fn loses_nothing<X: Refuter>()
    ensures keeps { (m : Data) (lines : List (Line X.Witness)) (s : LogState) → IsValid m
        → Steps (refutes_with X.refuting) m (opening m) lines s → LosesNothing m s.found (open_regions s) }
    ensures verdict { (m : Data) (lines : List (Line X.Witness)) (s : LogState) → IsValid m
        → Steps (refutes_with X.refuting) m (opening m) lines s → Means m (verdict_of s) }
    ensures few { (m : Data) (lines : List (Line X.Witness)) (s : LogState) → IsValid m
        → Steps (refutes_with X.refuting) m (opening m) lines s → s.nodes < budget_with m (restarts_in lines) }
{}

/// Whatever lines step one after another from the opening state to one that shows no solution: the
/// domain and the constraints that their witnesses name leave nothing.
pub fn uses_enough<X: Refuter>()
    ensures leaves { (m : Data) (lines : List (Line X.Witness)) (s : LogState) → IsValid m
        → Steps (refutes_with X.refuting) m (opening m) lines s → verdict_of s ≡ Infeasible → (a : Assignment) → Meets m (used_in (named_with X.named) lines) a → ⊥ }
    ensures core { (m : Data) (used core : List Con) (a : Assignment) → IsUsed m used core → Meets m core a → Meets m used a }
{}
