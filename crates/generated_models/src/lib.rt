//! The law that every generated text deserves the model of its job shop, in steps. There is no code
//! here that runs: each function stands for a law of the definitions, and is called where the law is
//! used.
//! The lemmas of proofs/ are in three groups, one for each step: `ShopValid` and `ShopWritten` (the
//! model), `ShopSaid` (the text and its words) and `Judged` (its statements beside the canonical
//! ones).
#![tactic(auto)]

mod laws;

pub use laws::generated_texts_deserve;
