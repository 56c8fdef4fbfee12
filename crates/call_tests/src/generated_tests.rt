//! Generated models at their limits.
use crate::models::{Rows, first_wrong, unless};
use modelgen::{GenFault, generate};
use sched_base::NoMemory;
use sched_model::Model;
use std::alloc::Global;
use std::test::Fail;

/// The seed, jobs and machines, and whether there may be so many of them.
const SIZES: [(u64, u32, u32, bool); 6] = [
    (7, 0, 1, false),
    (7, 501, 1, false),
    (7, 1, 0, false),
    (7, 1, 201, false),
    (7, 500, 5, false),
    (u64::MAX, 500, 4, true),
];

/// Whether a model of this size is made, or refused for it.
fn is_made(alloc: Global, seed: u64, jobs: u32, machines: u32) -> Result<bool, NoMemory> {
    match generate(alloc, seed, jobs, machines) {
        Ok(_) => Ok(true),
        Err(GenFault::Limit) => Ok(false),
        Err(GenFault::NoMemory) => Err(NoMemory),
    }
}

fn wrong_size(alloc: Global) -> Result<Option<usize>, NoMemory> {
    for (n, row) in SIZES.iter().enumerate() {
        let (seed, jobs, machines, want) = *row;
        if is_made(alloc, seed, jobs, machines)? != want {
            return Ok(Some(n));
        }
    }
    Ok(None)
}

#[test]
fn keeps_the_limits(rt: HostRuntime) -> Result<(), Fail> {
    assert_eq!(rt; wrong_size(rt.alloc())?, None);
    Ok(())
}

/// How many intervals and sequences a model has.
#[derive(Clone, Copy)]
struct Counts(usize, usize);

impl Rows for Counts {
    fn wrong(&self, _: Global, model: &Model) -> Option<usize> {
        unless(model.intervals().len() == self.0 && model.sequences().len() == self.1)
    }
}

fn has(alloc: Global, jobs: u32, machines: u32, counts: &Counts) -> Result<bool, GenFault> {
    let made = generate(alloc, 0, jobs, machines)?;
    match std::str::from_utf8(made.as_slice()) {
        Ok(text) => Ok(first_wrong(alloc, text, counts).is_none()),
        Err(_) => Ok(false),
    }
}

/// The largest of each side is still a text of the language.
#[test]
fn reads_the_largest(rt: HostRuntime) -> Result<(), Fail> {
    assert!(rt; has(rt.alloc(), 10, 200, &Counts(2000, 200))?);
    Ok(())
}
