//! The laws in full, so that none is emptied by its name.
ghost use Rattle.std.specs.Prelude.{◌≡◌, ℕ, true, List};
ghost use Rattle.sched_model.specs.Data.{Data};
ghost use Rattle.cpo_elab.specs.Answers.Answer.{Accepted};
ghost use Rattle.cpo_elab.specs.Deserves.{Deserves};
ghost use Rattle.sched_text.specs.Canonical.{canonical_text};
ghost use Rattle.read_back.specs.Laws.{IsWithinText};
ghost use Rattle.modelgen.specs.Generated.{are_within, generated_text};
ghost use Rattle.generated_models.specs.Shops.{shop_model};

/// A model that a text deserves is deserved by its canonical text too.
pub fn a_canonical_text_reads_back()
    ensures { (text : List ℕ) (m : Data) → Deserves text (Accepted m) → IsWithinText m → Deserves (canonical_text m) (Accepted m) }
{
    read_back::canonical_text_reads_back();
}

/// A generated text deserves the model of its job shop.
pub fn a_generated_text_deserves_its_shop()
    ensures { (seed jobs machines : ℕ) → are_within jobs machines ≡ true → Deserves (generated_text seed jobs machines) (Accepted (shop_model seed jobs machines)) }
{
    generated_models::generated_texts_deserve();
}
