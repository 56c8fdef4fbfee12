ghost use Rattle.std.specs.Prelude.{◌≡◌, [], ◌∷◌, ◌++◌, None, OnOk};
ghost use Rattle.std.specs.Str.{bytes_eq};
ghost use Rattle.std.specs.Map.{lookup};
ghost use Rattle.cpo_elab.specs.code.Drafts.{same_sort};

use indexmap::IndexMap;
use sched_base::NoMemory;
use std::alloc::Global;
use std::marker::Model;

/// The sorts of things that have names and numbers.
#[derive(Clone, Copy, Debug, PartialEq, Eq)]
pub enum Sort {
    Interval,
    Matrix,
    Sequence,
    /// A cumulative function.
    Cumulated,
    /// A state function.
    State,
}

pub fn same_sort(x: Sort, y: Sort) -> bool
    ensures { result ≡ same_sort x y }
{
    match (x, y) {
        (Sort::Interval, Sort::Interval) => true,
        (Sort::Matrix, Sort::Matrix) => true,
        (Sort::Sequence, Sort::Sequence) => true,
        (Sort::Cumulated, Sort::Cumulated) => true,
        (Sort::State, Sort::State) => true,
        (_, _) => false,
    }
}

/// What a name stands for: the thing of a sort that has this number.
#[derive(Clone, Copy, Debug, PartialEq, Eq)]
pub struct Meaning {
    pub sort: Sort,
    pub id: u32,
}

/// Names in the order in which they were defined, each with its meaning.
#[derive(Drop)]
pub struct Names {
    names: IndexMap<Vec<u8>, Meaning>,
}

impl Model for Names {
    ghost use Rattle.std.specs.Prelude.{List, ℕ, map};
    ghost use Rattle.cpo_elab.specs.declared.names.Meaning.{Meaning};

    ghost Value = { List (List ℕ × Meaning) };

    ghost view = { λ s. map (λ e. (e.0.items, e.1)) s.names.entries };
}

impl Names {
    /// No names, which takes no memory.
    pub fn new(alloc: Global) -> Names
        ensures { result ≡ [] }
    {
        Names {
            names: IndexMap::new(alloc),
        }
    }

    /// The meaning of a name, if it has one.
    pub fn find(&self, name: &[u8]) -> Option<Meaning>
        ensures { result ≡ lookup (bytes_eq name.now) self.now }
    {
        match self.names.get(name) {
            None => None,
            Some(meaning) => Some(*meaning),
        }
    }

    /// Gives a new name its meaning.
    pub fn push(&mut self, name: Vec<u8>, meaning: Meaning) -> Result<(), NoMemory>
        requires { lookup (bytes_eq name.items) self.old ≡ None }
        ensures { OnOk result (self.new ≡ self.old ++ (name.items, meaning) ∷ []) }
    {
        let _ = self.names.insert(name, meaning)?;
        Ok(())
    }
}
