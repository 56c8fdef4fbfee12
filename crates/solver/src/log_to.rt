use engine::Lines;
use kernel::Line;
use logtext::LogWitness;
use sched_base::Failed;

/// Where a search puts the lines of its log. The engine puts those that derive, which have no extra
/// witness; the search puts those that end nodes, which may have one.
pub trait LogTo: Lines {
    ghost use Rattle.std.specs.Prelude.{◌≡◌, ◌∷◌, ◌++◌, [], List, map, true, IsTrue, IsOk, OnOk, OnErr};
    ghost use Rattle.sched_base.specs.Calls.{Rose};
    ghost use Rattle.kernel.specs.Fit.{is_fit};
    ghost use Rattle.engine.specs.Plain.{Plain};
    ghost use Rattle.logtext.specs.Extra.{log_valid};
    ghost use Rattle.logtext.specs.Lifted.{lifted};
    ghost use Rattle.logtext.specs.Logs.{PlainLine};

    /// From the first state these lines of a log were put, one after another, and none failed, and the
    /// second is the state then.
    ghost writes: { Self → List PlainLine → Self → Type 0 };

    /// From the first state these lines of a log were put, then the put of one more failed, and the
    /// second is the state then.
    ghost cuts_off: { Self → List PlainLine → PlainLine → Self → Type 0 };

    /// Puts a line that a log may hold.
    fn write(&mut self, line: &Line<LogWitness>) -> Result<(), Failed>
        requires ready { Self.ready self.old }
        requires fit { IsTrue (is_fit log_valid line.now) }
        ensures ok { OnOk result (writes self.old (line.now ∷ []) self.new) }
        ensures broke { OnErr result (cuts_off self.old [] line.now self.new) }
        ensures rose { OnErr result (Rose (Self.faults self.old) (Self.faults self.new)) }
        ensures calm { Self.calm self.old ≡ true → IsOk result };

    ghost lifts: { (a b : Self) (xs : List Plain) → Self.puts a xs b → writes a (map lifted xs) b };

    ghost lifts_broken: { (a b : Self) (xs : List Plain) (line : Plain) → Self.breaks a xs line b → cuts_off a (map lifted xs) (lifted line) b };

    ghost writes_more: { (a b c : Self) (xs ys : List PlainLine) → writes a xs b → writes b ys c → writes a (xs ++ ys) c };

    ghost then_cuts_off: { (a b c : Self) (xs ys : List PlainLine) (line : PlainLine) → writes a xs b → cuts_off b ys line c → cuts_off a (xs ++ ys) line c };

    ghost is_ready_still: { (a b : Self) (xs : List PlainLine) → writes a xs b → Self.ready a → Self.ready b };

    ghost is_calm_still: { (a b : Self) (xs : List PlainLine) → writes a xs b → Self.calm b ≡ Self.calm a };

    ghost has_same_faults: { (a b : Self) (xs : List PlainLine) → writes a xs b → Self.faults b ≡ Self.faults a };
}
