//! The law that the canonical text of a model reads back to it, in steps. There is no code here that
//! runs: each function stands for a law of the definitions, and is called where the law is used.
//! The lemmas of proofs/ are in five groups, one for each step: `Lex` (a text that says words is read
//! as them), `Expr` (expressions), `Said` (the canonical text says the words of its statements),
//! `Judge` (these statements are judged to be the model) and `Written` (what a text deserves is as a
//! text can write it). Files without such a prefix are shared.
#![tactic(auto)]

mod laws;

pub use laws::{
    canonical_statements_are_judged, canonical_text_reads_back, deserved_models_are_written,
    said_text_is_read,
};
