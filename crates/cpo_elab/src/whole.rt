ghost use Rattle.std.specs.Prelude.{◌≡◌, true, IfOk};
ghost use Rattle.cpo_elab.specs.Stages.{empty_stage};
ghost use Rattle.cpo_elab.specs.Answers.{Gives, judged};
ghost use Rattle.cpo_elab.specs.Asked.{MeansText};
ghost use Rattle.cpo_elab.specs.Deserves.{GivesDeserved};
ghost use Rattle.cpo_elab.specs.Shaped.{are_shaped};

use crate::elaborator::Elaborator;
use crate::named_first::named_first;
use cpo_text::{ReadFault, Tree, read_text};
use sched_model::Model;
use std::alloc::Global;

/// The statements of a text one after another.
fn judged(alloc: Global, tree: &Tree) -> Result<Model, ReadFault>
    requires { are_shaped tree.now.statements ≡ true }
    ensures { Gives result (judged empty_stage 1 tree.now.statements) }
{
    let mut so_far = Elaborator::new(alloc);
    for reading in tree.statements.as_slice() {
        so_far = so_far.take(alloc, reading)?;
    }
    Ok(named_first(alloc, so_far.into_model())?)
}

/// The model of the statements of a text, or the refusal of the first statement that deserves
/// one, with its number in the table of refusals, its place counted from 1, and its offset. The
/// trees are as the grammar has them, which those of every text are.
///
/// A sentence of a calendar stands in the model as constraints, at its place among the others. An
/// assignment in the domain of the model is a solution exactly where every constraint and every
/// sentence of a calendar holds that the text writes.
#[tactic(auto, using(crate::proofs::judging::Asking::elaborated_means))]
pub fn elaborate(alloc: Global, tree: &Tree) -> Result<Model, ReadFault>
    requires { are_shaped tree.now.statements ≡ true }
    ensures answer { Gives result (judged empty_stage 1 tree.now.statements) }
    ensures meaning { IfOk result (λ m. MeansText tree.now.statements m) }
{
    judged(alloc, tree)
}

/// The model of a text, or the refusal that the text deserves.
pub fn read_model(alloc: Global, text: &[u8]) -> Result<Model, ReadFault>
    ensures { GivesDeserved text.now result }
{
    match read_text(alloc, text) {
        Ok(tree) => elaborate(alloc, &tree),
        Err(fault) => Err(fault),
    }
}
