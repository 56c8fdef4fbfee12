//! The law that generated texts deserve their models.
ghost use Rattle.generated_models.specs.Laws.{GeneratedDeserve};

pub fn generated_texts_deserve()
    ensures { GeneratedDeserve }
{
    generated_models::generated_texts_deserve();
}
