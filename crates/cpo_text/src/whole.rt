ghost use Rattle.std.specs.Prelude.{◌≡◌, ◌≤◌, [], length, IfOk};
ghost use Rattle.cpo_text.specs.Runs.{runs, words_of};
ghost use Rattle.cpo_text.specs.code.Lexing.{tokens_from};
ghost use Rattle.cpo_text.specs.code.Places.{left};
ghost use Rattle.cpo_text.specs.code.Surveys.{first_run, after_run};
ghost use Rattle.cpo_text.specs.Reads.{HasForm, AreReadings, told, Reads};

use crate::fault::Fault;
use crate::place::Place;
use crate::refusal::Cause;
use crate::scan::scan;
use crate::statement::statement;
use crate::survey::survey_run;
use crate::text::{Form, ReadFault, Reading, Refusal, TEXT_LIMIT, TOLD_LIMIT, Tree};
use sched_base::{List, NoMemory};
use std::alloc::Global;

/// The statement that begins at a place, as its words alone tell it, and the place behind it.
fn read_form(alloc: Global, place: Place<'_>) -> Result<(Form, Place<'_>), NoMemory>
    ensures form { IfOk result (λ x. HasForm (words_of (first_run (left place.entry))) x.0) }
    ensures behind { IfOk result (λ x. left x.1 ≡ after_run (left place.entry)) }
{
    let (survey, behind) = survey_run(place);
    if let Some(number) = survey.early() {
        return Ok((Form::Number(number), behind));
    }
    match statement(alloc, place) {
        Err(Fault::NoMemory) => Err(NoMemory),
        Err(Fault::Outside) => Ok((Form::Number(Cause::OutsideGrammar as u32), behind)),
        Ok((tree, _)) => {
            if survey.large {
                // By a call, so that no part of the tree is let go of by itself.
                drop(tree);
                Ok((Form::Number(Cause::LargeLiteral as u32), behind))
            } else {
                Ok((Form::Tree(tree), behind))
            }
        }
    }
}

/// The statements of a text, up to the last that is told.
fn statements(alloc: Global, text: &[u8], readings: &mut List<Reading>) -> Result<(), NoMemory>
    requires short { length text.now ≤ 16777216 }
    requires none { readings.old ≡ [] }
    ensures { IfOk result (λ _. AreReadings (told (runs (tokens_from 0 text.now))) readings.new) }
{
    let mut here = Place::start(text).onto();
    while let Some((token, _)) = here.next() {
        if readings.len() >= TOLD_LIMIT {
            return Ok(());
        }
        let (form, behind) = read_form(alloc, here)?;
        readings.push(Reading {
            at: token.at as u64,
            form,
        })?;
        here = behind.onto();
    }
    Ok(())
}

/// Reads a text whole. It is refused where it is longer than its limit (number 11 of the table of
/// refusals, statement 0), and else where it has a byte at which no token, blank or comment begins
/// (number 1, in the statement that its semicolons count); what its statements deserve stands in
/// the tree. Each byte is looked at a few times at most.
pub fn read_text(alloc: Global, text: &[u8]) -> Result<Tree, ReadFault>
    ensures { Reads text.now result }
{
    if text.len() > TEXT_LIMIT {
        return Err(ReadFault::Refused(Refusal {
            number: Cause::LimitPassed as u32,
            statement: 0,
            at: TEXT_LIMIT as u64,
        }));
    }
    match scan(text) {
        Err(refusal) => Err(ReadFault::Refused(refusal)),
        Ok(()) => {
            let mut readings = List::new(alloc);
            match statements(alloc, text, &mut readings) {
                Ok(()) => Ok(Tree {
                    statements: readings,
                }),
                Err(e) => {
                    drop(readings);
                    Err(e.into())
                }
            }
        }
    }
}
