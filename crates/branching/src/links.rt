//! Which intervals belong together.
use sched_base::{Itv, List, NoMemory, Seq, at};
use sched_model::{Constraint, Model};
use std::alloc::Global;

/// Of each interval the alternatives that it is a part of, those whose master it is, and the sequences
/// without overlap that it is a member of.
#[derive(Drop)]
pub struct Links {
    as_part: Vec<List<u32>>,
    as_master: Vec<List<u32>>,
    sequences: Vec<List<Seq>>,
}

/// The master and the parts of an alternative.
pub fn alternative(model: &Model, c: u32) -> Option<(Itv, &[Itv])> {
    match at(model.constraints(), c as usize)? {
        Constraint::Alternative { a, parts, .. } => Some((*a, parts.as_slice())),
        _ => None,
    }
}

/// An empty list for each interval.
fn lists<T: Drop>(alloc: Global, n: usize) -> Result<Vec<List<T>>, NoMemory> {
    let mut lists = Vec::with_capacity(alloc, n)?;
    for _ in 0..n {
        lists.push(List::new(alloc))?;
    }
    Ok(lists)
}

/// Puts an item to those of an interval.
fn put<T: Drop>(lists: &mut [List<T>], x: Itv, item: T) -> Result<(), NoMemory> {
    let i = x.0 as usize;
    if i < lists.len() {
        lists[i].push(item)?;
    }
    Ok(())
}

fn of<T: Drop>(lists: &[List<T>], x: Itv) -> &[T] {
    match lists.get(x.0 as usize) {
        None => &[],
        Some(list) => list.as_slice(),
    }
}

impl Links {
    fn put_alternative(&mut self, c: u32, a: Itv, parts: &[Itv]) -> Result<(), NoMemory> {
        put(&mut self.as_master, a, c)?;
        for x in parts {
            put(&mut self.as_part, *x, c)?;
        }
        Ok(())
    }

    fn put_members(&mut self, p: Seq, members: &[Itv]) -> Result<(), NoMemory> {
        for x in members {
            put(&mut self.sequences, *x, p)?;
        }
        Ok(())
    }

    fn put_constraint(&mut self, model: &Model, c: u32) -> Result<(), NoMemory> {
        match at(model.constraints(), c as usize) {
            Some(Constraint::Alternative { a, parts, .. }) => {
                self.put_alternative(c, *a, parts.as_slice())
            }
            Some(Constraint::NoOverlap { p, .. }) => {
                self.put_members(*p, refute_seq::members_of(model, *p))
            }
            _ => Ok(()),
        }
    }

    /// The links of a model.
    pub fn new(alloc: Global, model: &Model) -> Result<Links, NoMemory> {
        let n = model.intervals().len();
        let mut links = Links {
            as_part: lists(alloc, n)?,
            as_master: lists(alloc, n)?,
            sequences: lists(alloc, n)?,
        };
        for c in 0..model.constraints().len() {
            links.put_constraint(model, c as u32)?;
        }
        Ok(links)
    }

    /// The alternatives that an interval is a part of.
    pub fn as_part(&self, x: Itv) -> &[u32] {
        of(&self.as_part, x)
    }

    /// Those whose master it is.
    pub fn as_master(&self, x: Itv) -> &[u32] {
        of(&self.as_master, x)
    }

    /// The sequences without overlap that it is a member of.
    pub fn sequences(&self, x: Itv) -> &[Seq] {
        of(&self.sequences, x)
    }
}
