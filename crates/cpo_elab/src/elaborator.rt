ghost use Rattle.std.specs.Prelude.{◌≡◌, ◌+◌, true, None, IfOk};
ghost use Rattle.cpo_text.specs.declared.text.ReadFault.TheVariants as fault;
ghost use Rattle.cpo_elab.specs.Stages.{reached};
ghost use Rattle.cpo_elab.specs.Judged.{number_in};
ghost use Rattle.cpo_elab.specs.Shaped.{is_shaped, is_shaped_form};
ghost use Rattle.cpo_elab.specs.code.Judging.{written_in, Judges};
ghost use Rattle.cpo_elab.specs.code.Steps.{first_state, TakesStatement, Takes};

use crate::holding::Written;
use crate::judge::{Judgement, judgement_in};
use crate::stage::Stage;
use cpo_text::{Form, ReadFault, Reading, Refusal, Statement};
use sched_base::NoMemory;
use sched_model::Model;
use std::alloc::Global;

/// What stands behind the statements read so far, and their number.
#[derive(Drop)]
pub struct Elaborator {
    stage: Stage,
    statements: u32,
}

impl std::marker::Model for Elaborator {
    ghost use Rattle.cpo_elab.specs.code.Steps.{State, IsInStep};
    ghost use Rattle.sched_model.specs.contracts.types.Expr as e;
    ghost use Rattle.std.specs.Coded.{codes};

    ghost Value = { State };

    ghost coded = { Prim.hlevel (codes, e.the_row.coded) };

    ghost view = { λ e. record { stage = e.stage; statements = e.statements } };

    ghost invariant = { λ e. IsInStep (record { stage = e.stage; statements = e.statements }) };
}

impl Elaborator {
    /// The elaborator of no statements, which takes no memory.
    pub fn new(alloc: Global) -> Elaborator
        ensures { result ≡ first_state }
    {
        Elaborator {
            stage: Stage::new(alloc),
            statements: 0,
        }
    }

    pub fn into_model(self) -> Model
        ensures { result ≡ self.stage.model }
    {
        let Elaborator {
            stage,
            statements: _,
        } = self;
        stage.into_model()
    }

    /// The number of the next statement, counted from 1.
    fn next(&self) -> u32
        ensures { result ≡ self.now.statements + 1 }
    {
        self.statements + 1
    }

    /// What the next statement deserves.
    fn judgement(&self, alloc: Global, s: &Statement) -> Result<Judgement, NoMemory>
        ensures { IfOk result (λ j. Judges self.now.stage (self.now.statements + 1) s.now j) }
    {
        judgement_in(alloc, &self.stage, self.statements, s)
    }

    /// The elaborator with a statement that deserves no number, and with the expressions that the
    /// statement holds.
    fn with(self, alloc: Global, s: &Statement, written: Written) -> Result<Elaborator, NoMemory>
        requires written { written ≡ written_in self.stage.model s.now }
        requires shaped { is_shaped s.now ≡ true }
        requires clear { number_in self.stage (self.statements + 1) s.now ≡ None }
        ensures { IfOk result (λ e. e ≡ record { stage = reached self.stage s.now; statements = self.statements + 1 }) }
    {
        let Elaborator { stage, statements } = self;
        Ok(Elaborator {
            stage: stage.with(alloc, s, written)?,
            statements: statements + 1,
        })
    }

    /// Takes the next statement, where its words alone deserve no number.
    fn take_statement(self, alloc: Global, s: &Statement, at: u64) -> Result<Elaborator, ReadFault>
        requires { is_shaped s.now ≡ true }
        ensures { TakesStatement self s.now at result }
    {
        let statement = self.next();
        match self.judgement(alloc, s)? {
            Judgement::Refused(number) => Err(refused(number, statement, at)),
            Judgement::Taken(written) => Ok(self.with(alloc, s, written)?),
        }
    }

    /// Takes the next statement of a text.
    pub fn take(self, alloc: Global, reading: &Reading) -> Result<Elaborator, ReadFault>
        requires { is_shaped_form reading.now.form ≡ true }
        ensures { Takes self reading.now result }
    {
        let statement = self.next();
        let at = reading.at;
        match &reading.form {
            Form::Number(number) => Err(refused(*number, statement, at)),
            Form::Tree(s) => self.take_statement(alloc, s, at),
        }
    }
}

fn refused(number: u32, statement: u32, at: u64) -> ReadFault
    ensures { result ≡ fault.Refused (record { number = number; statement = statement; at = at }) }
{
    ReadFault::Refused(Refusal {
        number,
        statement,
        at,
    })
}
