ghost use Rattle.std.specs.Prelude.{◌↔◌, ℤ, Option};
ghost use Rattle.sched_model.specs.Data.{Data};
ghost use Rattle.region.specs.Cells.{Region};
ghost use Rattle.region.specs.Looks.{IsRegionOf};
ghost use Rattle.findings.specs.Found.{IsQuiet};
ghost use Rattle.engine.specs.Plain.{refutes_plain};
ghost use Rattle.propagators.specs.Every.{lists_every};
ghost use Rattle.propagators.specs.Quiet.{is_derived, IsQuietRegion};
ghost use Rattle.propagators.specs.laws.Owned.{EachIsOwned};

/// Stands for a law of the definitions: whatever witness of a kind that derives refutes, a propagator
/// looks after it.
#[tactic(auto, using(crate::specs::laws::Owned::each_owned))]
pub fn each_witness_has_an_owner()
    ensures { EachIsOwned }
{}

/// Stands for a law of the definitions: a region of a model is quiet exactly where it is by longer
/// lists of guesses, of which those that no row lists tell its witness nothing that a listed one
/// doesn't.
#[tactic(auto, using(crate::specs::laws::Everywhere::listed_suffice))]
pub fn listed_guesses_suffice()
    ensures { (m : Data) (r : Region) (best : Option ℤ) → IsRegionOf m r → IsQuietRegion m r best ↔ IsQuiet refutes_plain lists_every is_derived m r best }
{}
