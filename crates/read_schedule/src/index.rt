ghost use Rattle.std.specs.Prelude.{◌≡◌, ◌≤◌, [], ◌∷◌, ◌++◌, true, length, None, OnOk, IfOk};
ghost use Rattle.std.specs.Str.{bytes_eq};
ghost use Rattle.std.specs.Map.{lookup};
ghost use Rattle.sched_model.specs.Words.{pairwise};
ghost use Rattle.read_schedule.specs.code.Reads.{differ, names_in, numbered};

use indexmap::IndexMap;
use sched_base::{Itv, NoMemory};
use sched_model::IntervalDef;
use std::alloc::Global;
use std::marker::Model;

/// Names and whose they are.
#[derive(Drop)]
pub struct Index {
    names: IndexMap<Vec<u8>, Itv>,
}

impl Model for Index {
    ghost use Rattle.std.specs.Prelude.{List, ℕ, map};
    ghost use Rattle.sched_base.specs.declared.ids.Itv.{Itv};

    ghost Value = { List (List ℕ × Itv) };

    ghost view = { λ s. map (λ e. (e.0.items, e.1)) s.names.entries };
}

impl Index {
    fn new(alloc: Global) -> Index
        ensures { result ≡ [] }
    {
        Index {
            names: IndexMap::new(alloc),
        }
    }

    /// Whose the name is, if it is one's.
    pub fn find(&self, name: &[u8]) -> Option<Itv>
        ensures { result ≡ lookup (bytes_eq name.now) self.now }
    {
        match self.names.get(name) {
            None => None,
            Some(x) => Some(*x),
        }
    }

    fn push(&mut self, name: Vec<u8>, x: Itv) -> Result<(), NoMemory>
        requires { lookup (bytes_eq name.items) self.old ≡ None }
        ensures { OnOk result (self.new ≡ self.old ++ (name.items, x) ∷ []) }
    {
        let _ = self.names.insert(name, x)?;
        Ok(())
    }
}

fn copied(alloc: Global, name: &[u8]) -> Result<Vec<u8>, NoMemory>
    ensures { IfOk result (λ v. v.items ≡ name.now) }
{
    let mut bytes = Vec::new(alloc);
    bytes.extend_from_slice(name)?;
    Ok(bytes)
}

fn index_all(alloc: Global, defs: &[IntervalDef]) -> Result<Index, NoMemory>
    requires distinct { pairwise differ (names_in defs.now) ≡ true }
    requires few { length defs.now ≤ 2000 }
    ensures { IfOk result (λ t. t ≡ numbered 0 defs.now) }
{
    let mut index = Index::new(alloc);
    for i in 0..defs.len() {
        let name = copied(alloc, defs[i].name.as_slice())?;
        index.push(name, Itv(i as u32))?;
    }
    Ok(index)
}

/// The names of the intervals.
pub fn index_of(alloc: Global, model: &sched_model::Model) -> Result<Index, NoMemory>
    ensures { IfOk result (λ t. t ≡ numbered 0 model.now.intervals) }
{
    index_all(alloc, model.intervals())
}
