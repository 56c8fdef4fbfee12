//! The distances between members of a sequence, by the places of these.
use sched_base::{Mat, NoMemory, Seq};
use sched_model::{Model, distance};
use std::alloc::Global;

/// The matrix of a constraint without overlap, and the types of the members of its sequence, at their
/// places. Nothing hangs on it.
#[derive(Debug, Drop)]
pub struct Distances {
    matrix: Option<Mat>,
    types: Vec<u32>,
}

impl Distances {
    /// Those of a sequence under a matrix.
    pub fn new(
        alloc: Global,
        model: &Model,
        p: Seq,
        matrix: Option<Mat>,
    ) -> Result<Distances, NoMemory> {
        let mut types = Vec::new(alloc);
        if let Some(d) = model.sequences().get(p.0 as usize) {
            if let Some(list) = &d.types {
                types.extend_from_slice(list.as_slice())?;
            }
        }
        Ok(Distances { matrix, types })
    }

    /// Whether the constraint has no matrix.
    pub fn are_none(&self) -> bool {
        self.matrix.is_none()
    }

    fn type_at(&self, k: usize) -> u64 {
        u64::from(self.types.get(k).copied().unwrap_or(0))
    }

    /// The distance from the member at one place to that at another.
    pub fn between(&self, model: &Model, i: usize, k: usize) -> i64 {
        distance(model, self.matrix, self.type_at(i), self.type_at(k)).max(0)
    }
}
