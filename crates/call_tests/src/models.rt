//! What is asked of the model of a text. Each way out of a function that owns a model makes its proof
//! longer, so one function owns the model and asks once.
use cpo_elab::read_model;
use sched_model::Model;
use std::alloc::Global;

/// Rows that are so of a model, or not.
pub trait Rows {
    /// The number of the first row that isn't so.
    fn wrong(&self, alloc: Global, model: &Model) -> Option<usize>;
}

/// The number of the first row that isn't so of the model of a text, and the greatest one where it has
/// none.
pub fn first_wrong<R: Rows>(alloc: Global, text: &str, rows: &R) -> Option<usize> {
    match read_model(alloc, text.as_bytes()) {
        Ok(model) => rows.wrong(alloc, &model),
        Err(_) => Some(usize::MAX),
    }
}

/// The number of the only row, where it isn't so.
pub fn unless(so: bool) -> Option<usize> {
    if so { None } else { Some(0) }
}
