//! How much room a profile needs.
ghost use Rattle.refute_cumul.specs.code.Sides.{HasRoom};

use sched_model::Model;

/// How many parts a cumulative function of the model has at most.
#[tactic(auto, using(crate::specs::laws::Sides::few_parts, crate::specs::laws::Sides::has_room))]
pub fn most_parts(model: &Model) -> u32
    ensures { HasRoom model.now result }
{
    let mut most = 0;
    for d in model.cumuls() {
        most = most.max(d.parts.len() as u32);
    }
    most
}
