ghost use Rattle.std.specs.Prelude.{◌≡◌, ℤ, Option, Some, None};
ghost use Rattle.sched_model.specs.Data.{Data};
ghost use Rattle.sched_model.specs.declared.types.Verdict.TheVariants.{Optimal, Infeasible};
ghost use Rattle.kernel.specs.Steps.{LogState, verdict_of};
ghost use Rattle.kernel.specs.Promises.{Ready};
ghost use Rattle.bound_report.specs.Bound.{IsBound};

/// A state has one bound. Of one that shows an optimum it is that value; where there is no solution,
/// and without an objective, there is none.
pub fn bound_by_verdict()
    ensures one { (m : Data) (s : LogState) (b c : Option ℤ) → IsBound m s b → IsBound m s c → b ≡ c }
    ensures optimal { (m : Data) (s : LogState) (v : ℤ) → Ready m s → verdict_of s ≡ Optimal v → IsBound m s (Some v) }
    ensures infeasible { (m : Data) (s : LogState) → Ready m s → verdict_of s ≡ Infeasible → IsBound m s None }
    ensures plain { (m : Data) (s : LogState) → m.objective ≡ None → IsBound m s None }
{}
