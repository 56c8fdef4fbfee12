ghost use Rattle.std.specs.Prelude.{◌≡◌, ◌≤◌, length, [], ◌∷◌, ◌++◌, true, None, IfOk, OnOk, option_map};
ghost use Rattle.std.specs.Str.{bytes_eq};
ghost use Rattle.std.specs.Map.{lookup};
ghost use Rattle.calendar.specs.Steps.{are_steps, closed_of};

use calendar::{Pair, StepFn, closed};
use indexmap::IndexMap;
use sched_base::{List, NoMemory};
use std::alloc::Global;
use std::marker::Model;

/// A step function with its closed ranges, which are made once.
#[derive(Drop)]
pub struct Calendar {
    function: StepFn,
    ranges: List<Pair>,
}

impl Model for Calendar {
    ghost use Rattle.std.specs.Prelude.{List};
    ghost use Rattle.calendar.specs.declared.step.Pair.{Pair};
    ghost use Rattle.cpo_elab.specs.code.Calendars.{IsCalendar};

    ghost Value = { List Pair };

    ghost view = { λ c. c.function.pairs };

    ghost invariant = { λ c. IsCalendar c.function.pairs c.ranges };
}

impl Calendar {
    pub fn new(alloc: Global, pairs: List<Pair>) -> Result<Calendar, NoMemory>
        requires { are_steps pairs ≡ true }
        ensures { IfOk result (λ c. c ≡ pairs) }
    {
        let function = StepFn { pairs };
        let ranges = closed(alloc, &function)?;
        Ok(Calendar { function, ranges })
    }

    pub fn function(&self) -> &StepFn
        ensures pairs { result.now.pairs ≡ self.now }
        ensures steps { are_steps self.now ≡ true }
    {
        &self.function
    }

    /// The ranges of moments at which the function is 0, in order.
    pub fn ranges(&self) -> &[Pair]
        ensures closed { result.now ≡ closed_of self.now }
        ensures few { length result.now ≤ 1001 }
    {
        self.ranges.as_slice()
    }
}

/// The step functions of the statements read so far, each by its name.
#[derive(Drop)]
pub struct Steps {
    functions: IndexMap<Vec<u8>, Calendar>,
}

impl Model for Steps {
    ghost use Rattle.std.specs.Prelude.{List, ℕ, map};
    ghost use Rattle.calendar.specs.declared.step.Pair.{Pair};

    ghost Value = { List (List ℕ × List Pair) };

    ghost view = { λ s. map (λ e. (e.0.items, e.1)) s.functions.entries };
}

impl Steps {
    /// No step functions, which takes no memory.
    pub fn new(alloc: Global) -> Steps
        ensures { result ≡ [] }
    {
        Steps {
            functions: IndexMap::new(alloc),
        }
    }

    pub fn len(&self) -> usize
        ensures { result ≡ length self.now }
    {
        self.functions.len()
    }

    /// The step function of a name, if it has one.
    pub fn find(&self, name: &[u8]) -> Option<&Calendar>
        ensures { option_map (λ c. c.now) result ≡ lookup (bytes_eq name.now) self.now }
    {
        self.functions.get(name)
    }

    /// Gives a new name its step function.
    pub fn push(&mut self, name: Vec<u8>, calendar: Calendar) -> Result<(), NoMemory>
        requires { lookup (bytes_eq name.items) self.old ≡ None }
        ensures { OnOk result (self.new ≡ self.old ++ (name.items, calendar) ∷ []) }
    {
        let _ = self.functions.insert(name, calendar)?;
        Ok(())
    }
}
