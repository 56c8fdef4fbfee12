ghost use Rattle.std.specs.Prelude.{◌≡◌, ◌≤◌, IfOk};
ghost use Rattle.sched_model.specs.Valid.{IsValid};
ghost use Rattle.cpo_elab.specs.code.Items.{with_item, item_sort, next_id, item_members, item_cells, item_nodes, any_members, any_cells, any_nodes};

use crate::counts::pair_count;
use crate::names::Sort;
use sched_base::NoMemory;
use sched_model::{CumulDef, IntervalDef, MatrixDef, Model, SequenceDef, StateDef};

/// A thing that can have a name, before a model has it.
#[derive(Drop)]
pub enum Item {
    Interval(IntervalDef),
    Matrix(MatrixDef),
    Sequence(SequenceDef),
    /// A cumulative function.
    Cumulated(CumulDef),
    /// A state function.
    State(StateDef),
}

impl Item {
    pub fn sort(&self) -> Sort
        ensures { result ≡ item_sort self.now }
    {
        match self {
            Item::Interval(_) => Sort::Interval,
            Item::Matrix(_) => Sort::Matrix,
            Item::Sequence(_) => Sort::Sequence,
            Item::Cumulated(_) => Sort::Cumulated,
            Item::State(_) => Sort::State,
        }
    }

    /// The cells that it brings: five for an interval, and one for each two members of a sequence.
    pub fn cells(&self) -> usize
        requires { item_members self.now ≤ 500 }
        ensures count { result ≡ item_cells self.now }
        ensures few { result ≤ 250000 }
    {
        match self {
            Item::Interval(_) => 5,
            Item::Sequence(def) => pair_count(def.members.len()),
            _ => 0,
        }
    }

    /// The nodes that it brings: the parts of a cumulative function.
    pub fn nodes(&self) -> usize
        ensures { result ≡ item_nodes self.now }
    {
        match self {
            Item::Cumulated(def) => def.parts.len(),
            _ => 0,
        }
    }

    /// Adds it to a model, and answers its number there.
    pub fn add_to(self, model: &mut Model) -> Result<u32, NoMemory>
        requires { IsValid (with_item self model.old) }
        ensures id { IfOk result (λ id. id ≡ next_id self model.old) }
        ensures model { IfOk result (λ _. model.new ≡ with_item self model.old) }
    {
        match self {
            Item::Interval(def) => Ok(model.add_interval(def)?.0),
            Item::Matrix(def) => Ok(model.add_matrix(def)?.0),
            Item::Sequence(def) => Ok(model.add_sequence(def)?.0),
            Item::Cumulated(def) => Ok(model.add_cumul(def)?.0),
            Item::State(def) => Ok(model.add_state(def)?.0),
        }
    }
}

pub fn any_cells(item: &Option<Item>) -> usize
    requires { any_members item.now ≤ 500 }
    ensures count { result ≡ any_cells item.now }
    ensures few { result ≤ 250000 }
{
    match item {
        None => 0,
        Some(item) => item.cells(),
    }
}

pub fn any_nodes(item: &Option<Item>) -> usize
    ensures { result ≡ any_nodes item.now }
{
    match item {
        None => 0,
        Some(item) => item.nodes(),
    }
}
