ghost use Rattle.std.specs.Prelude.{◌≡◌, ℕ, [], ◌∷◌, ◌++◌, length, true, false, None, IfOk, OnOk, is_some, option_map, unwrap_or};
ghost use Rattle.std.specs.Str.{bytes_eq};
ghost use Rattle.std.specs.Map.{lookup};
ghost use Rattle.sched_model.specs.Valid.{is_itv, is_within_limits};
ghost use Rattle.calendar.specs.Steps.{are_steps};
ghost use Rattle.calendar.specs.Rules.{rules_of, with_constraints};
ghost use Rattle.cpo_text.specs.declared.tree.Statement.TheVariants.{Define};
ghost use Rattle.cpo_elab.specs.Named.{itv_of};
ghost use Rattle.cpo_elab.specs.Elaborated.{after};
ghost use Rattle.cpo_elab.specs.code.Judging.{written_in};
ghost use Rattle.cpo_elab.specs.Stages.{empty_stage, pairs_named, is_function, is_known, pairs_of, demand_of, made_in, reached};
ghost use Rattle.cpo_elab.specs.Judged.{number_in};
ghost use Rattle.cpo_elab.specs.Shaped.{is_shaped};
ghost use Rattle.cpo_elab.specs.code.Calendars.{is_of_calendars};

use crate::build::with_statement;
use crate::copies::pairs_of;
use crate::draft::Draft;
use crate::holding::Written;
use crate::steps::{Calendar, Steps};
use cpo_text::{Definition, Forbidden, Statement, StepPair};
use sched_base::NoMemory;
use sched_model::Model;
use std::alloc::Global;

/// What stands behind the statements read so far: the draft of their model and, since no model has
/// step functions, these beside it.
#[derive(Drop)]
pub struct Stage {
    draft: Draft,
    steps: Steps,
}

impl std::marker::Model for Stage {
    ghost use Rattle.cpo_elab.specs.Stages as stages;
    ghost use Rattle.sched_model.specs.contracts.types.Expr as e;
    ghost use Rattle.std.specs.Coded.{codes};

    ghost Value = { stages.Stage };

    ghost coded = { Prim.hlevel (codes, e.the_row.coded) };

    ghost view = { λ s. record { model = s.draft; steps = s.steps } };
}

/// Adds a step function and its name.
///
/// In a function of its own, so that a stage is owned over one exit alone.
fn add_function(
    alloc: Global,
    steps: &mut Steps,
    name: &[u8],
    pairs: &[StepPair],
) -> Result<(), NoMemory>
    requires steps { are_steps (pairs_of pairs.now) ≡ true }
    requires fresh { lookup (bytes_eq name.now) steps.old ≡ None }
    ensures { OnOk result (steps.new ≡ steps.old ++ (name.now, pairs_of pairs.now) ∷ []) }
{
    let pairs = pairs_of(alloc, pairs)?;
    let calendar = Calendar::new(alloc, pairs)?;
    let name = Vec::from_slice(alloc, name)?;
    steps.push(name, calendar)
}

/// The draft with the constraints of a calendar's sentence.
fn forbidding(
    alloc: Global,
    draft: Draft,
    steps: &Steps,
    word: Forbidden,
    a: &[u8],
    f: &[u8],
) -> Result<Draft, NoMemory>
    requires known { is_some (lookup (bytes_eq f.now) steps.now) ≡ true }
    requires there { is_itv draft (itv_of draft a.now) ≡ true }
    requires limits { is_within_limits (with_constraints (rules_of (demand_of word) (itv_of draft a.now) (unwrap_or (lookup (bytes_eq f.now) steps.now) [])) draft) ≡ true }
    ensures { IfOk result (λ d. d ≡ with_constraints (rules_of (demand_of word) (itv_of draft a.now) (unwrap_or (lookup (bytes_eq f.now) steps.now) [])) draft) }
{
    match steps.find(f) {
        None => unreachable!(),
        Some(calendar) => {
            let a = draft.itv_of(a);
            draft.with_calendar(alloc, word, a, calendar)
        }
    }
}

impl Stage {
    /// The stage of no statements, which takes no memory.
    pub fn new(alloc: Global) -> Stage
        ensures { result ≡ empty_stage }
    {
        Stage {
            draft: Draft::new(alloc),
            steps: Steps::new(alloc),
        }
    }

    pub fn into_model(self) -> Model
        ensures { result ≡ self.model }
    {
        let Stage { draft, steps: _ } = self;
        draft.into_model()
    }

    pub fn draft(&self) -> &Draft
        ensures { result.now ≡ self.now.model }
    {
        &self.draft
    }

    /// How many step functions there are.
    pub fn functions(&self) -> usize
        ensures { result ≡ length self.now.steps }
    {
        self.steps.len()
    }

    /// The step function of a name, if it has one.
    pub fn function(&self, name: &[u8]) -> Option<&Calendar>
        ensures { option_map (λ c. c.now) result ≡ pairs_named self.now name.now }
    {
        self.steps.find(name)
    }

    pub fn is_function(&self, name: &[u8]) -> bool
        ensures { result ≡ is_function self.now name.now }
    {
        self.function(name).is_some()
    }

    pub fn is_known(&self, name: &[u8]) -> bool
        ensures { result ≡ is_known self.now name.now }
    {
        self.is_function(name) || self.draft.is_defined(name)
    }

    fn with_function(
        self,
        alloc: Global,
        name: &[u8],
        pairs: &[StepPair],
    ) -> Result<Stage, NoMemory>
        requires steps { are_steps (pairs_of pairs.now) ≡ true }
        requires fresh { pairs_named self name.now ≡ None }
        ensures { IfOk result (λ st. st ≡ record { model = self.model; steps = self.steps ++ (name.now, pairs_of pairs.now) ∷ [] }) }
    {
        let Stage { draft, mut steps } = self;
        add_function(alloc, &mut steps, name, pairs)?;
        Ok(Stage { draft, steps })
    }

    fn with_sentence(
        self,
        alloc: Global,
        word: Forbidden,
        a: &[u8],
        f: &[u8],
    ) -> Result<Stage, NoMemory>
        requires known { is_function self f.now ≡ true }
        requires there { is_itv self.model (itv_of self.model a.now) ≡ true }
        requires limits { is_within_limits (with_constraints (made_in self word a.now f.now) self.model) ≡ true }
        ensures { IfOk result (λ st. st ≡ record { model = with_constraints (made_in self word a.now f.now) self.model; steps = self.steps }) }
    {
        let Stage { draft, steps } = self;
        let draft = forbidding(alloc, draft, &steps, word, a, f)?;
        Ok(Stage { draft, steps })
    }

    /// The stage with a statement that is of no calendar.
    fn with_plain(self, alloc: Global, s: &Statement, written: Written) -> Result<Stage, NoMemory>
        requires own { is_of_calendars s.now ≡ false }
        requires written { written ≡ written_in self.model s.now }
        requires shaped { is_shaped s.now ≡ true }
        requires clear { (k : ℕ) × (number_in self k s.now ≡ None) }
        ensures { IfOk result (λ st. st ≡ record { model = after self.model s.now; steps = self.steps }) }
    {
        let Stage { draft, steps } = self;
        // Called for its clause alone.
        let _ = draft.model();
        let draft = with_statement(alloc, draft, s, written)?;
        Ok(Stage { draft, steps })
    }

    /// The stage with a definition, which is the statement.
    fn with_definition(
        self,
        alloc: Global,
        s: &Statement,
        name: &[u8],
        d: &Definition,
        written: Written,
    ) -> Result<Stage, NoMemory>
        requires is { s.now ≡ Define name.now d.now }
        requires written { written ≡ written_in self.model s.now }
        requires shaped { is_shaped s.now ≡ true }
        requires clear { (k : ℕ) × (number_in self k s.now ≡ None) }
        ensures { IfOk result (λ st. st ≡ reached self s.now) }
    {
        match d {
            Definition::StepFunction(pairs) => self.with_function(alloc, name, pairs.as_slice()),
            _ => self.with_plain(alloc, s, written),
        }
    }

    /// The stage with a statement that deserves no number behind some others. The expressions
    /// that the statement holds are `written`.
    pub fn with(self, alloc: Global, s: &Statement, written: Written) -> Result<Stage, NoMemory>
        requires written { written ≡ written_in self.model s.now }
        requires shaped { is_shaped s.now ≡ true }
        requires clear { (k : ℕ) × (number_in self k s.now ≡ None) }
        ensures { IfOk result (λ st. st ≡ reached self s.now) }
    {
        match s {
            Statement::Define(name, d) => {
                self.with_definition(alloc, s, name.as_slice(), d, written)
            }
            Statement::Forbid(word, a, f) => {
                self.with_sentence(alloc, *word, a.as_slice(), f.as_slice())
            }
            _ => self.with_plain(alloc, s, written),
        }
    }
}
