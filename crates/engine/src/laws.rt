ghost use Rattle.engine.specs.laws.Caps.{CapIsTheModels};

/// Stands for a law of the definitions: all regions of a model have one cap, which is the model's.
#[tactic(auto, using(crate::specs::laws::Caps::cap_law))]
pub fn cap_is_the_models()
    ensures { CapIsTheModels }
{}
