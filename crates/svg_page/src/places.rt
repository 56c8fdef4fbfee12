//! The names of sequences: one without a name has its place in the text.
ghost use Rattle.std.specs.Prelude.{◌≡◌, IfOk};
ghost use Rattle.svg_page.specs.Bars.{is_overlap_of, overlap_from, placed_name, sequence_name};

use crate::text::push_count;
use sched_base::NoMemory;
use sched_model::{Constraint, Model, Name};
use std::alloc::Global;

fn is_overlap_of(i: usize, constraint: &Constraint) -> bool
    ensures { result ≡ is_overlap_of i constraint.now }
{
    match constraint {
        Constraint::NoOverlap {
            p,
            matrix: _,
            direct: _,
        } => p.0 as usize == i,
        _ => false,
    }
}

/// The first constraint by which the members of a sequence don't overlap.
#[tactic(auto, using(crate::proofs::Placing::overlap_here, crate::proofs::Placing::overlap_behind, crate::proofs::Placing::no_overlap))]
fn overlap_of(model: &Model, i: usize) -> Option<usize>
    ensures { result ≡ overlap_from i 0 model.now.constraints }
{
    let constraints = model.constraints();
    for k in 0..constraints.len() {
        if is_overlap_of(i, &constraints[k]) {
            return Some(k);
        }
    }
    None
}

fn placed_name(alloc: Global, i: usize, place: Option<usize>) -> Result<Vec<u8>, NoMemory>
    ensures { IfOk result (λ v. v.items ≡ placed_name i place) }
{
    let mut bytes = Vec::new(alloc);
    match place {
        None => push_count(&mut bytes, b"#", i as u128)?,
        Some(c) => push_count(&mut bytes, b"constraint ", c as u128)?,
    }
    Ok(bytes)
}

/// The name of a sequence, or its place.
pub fn sequence_name(
    alloc: Global,
    model: &Model,
    i: usize,
    name: &Option<Name>,
) -> Result<Vec<u8>, NoMemory>
    ensures { IfOk result (λ v. v.items ≡ sequence_name model.now i name.now) }
{
    match name {
        None => placed_name(alloc, i, overlap_of(model, i)),
        Some(name) => {
            let name = Vec::from_slice(alloc, name.as_slice())?;
            Ok(name)
        }
    }
}
