ghost use Rattle.std.specs.Prelude.{◌≡◌, ◌+◌, ◌≤◌, length, [], ◌∷◌, ◌++◌, false, true, Some, None, IfOk, OnOk};
ghost use Rattle.std.specs.Str.{bytes_eq};
ghost use Rattle.std.specs.Map.{lookup};
ghost use Rattle.sched_model.specs.Data.{empty_model, with_constraint, with_objective};
ghost use Rattle.sched_model.specs.Valid.{IsValid, cell_count, node_total, is_itv, is_within_limits};
ghost use Rattle.cpo_elab.specs.Named.{number_of, id_of, is_defined, itv_of, mat_of, seq_of, cum_of, stf_of};
ghost use Rattle.cpo_elab.specs.Judged.{node_limit};
ghost use Rattle.calendar.specs.Steps.{are_steps};
ghost use Rattle.calendar.specs.Rules.{rules_of, with_constraints};
ghost use Rattle.cpo_elab.specs.Stages.{demand_of};
ghost use Rattle.cpo_elab.specs.code.Items.{with_item, item_name, item_sort, next_id, with_any, IsUnnamed};

use crate::counts::{constraint_nodes, criteria_nodes};
use crate::item::{Item, any_cells, any_nodes};
use crate::names::{Meaning, Names, Sort, same_sort};
use crate::steps::Calendar;
use calendar::{Demand, StepFn, forbid_extent, forbid_start, made_nodes};
use cpo_text::Forbidden;
use sched_base::{Cum, Itv, Mat, NoMemory, Seq, Stf};
use sched_model::{Constraint, Model, Objective};
use std::alloc::Global;

/// The nodes that the expressions of a model and the parts of its cumulative functions may have
/// together.
pub const NODE_LIMIT: usize = 100_000;

/// The model of the statements read so far, with the meanings of its names, the number of its
/// cells, and how many more nodes it may have.
#[derive(Drop)]
pub struct Draft {
    model: Model,
    names: Names,
    cells: usize,
    room: usize,
}

impl std::marker::Model for Draft {
    ghost use Rattle.sched_model.specs.Data.{Data};
    ghost use Rattle.cpo_elab.specs.code.Drafts.{IsDraft};
    ghost use Rattle.sched_model.specs.contracts.types.Expr as e;
    ghost use Rattle.std.specs.Coded.{codes};

    ghost Value = { Data };

    ghost coded = { Prim.hlevel (codes, e.the_row.coded) };

    ghost view = { λ d. d.model };

    ghost invariant = { λ d. IsDraft d.names d.cells d.room d.model };
}

/// Adds a thing and its name. After an error the two may not fit each other.
///
/// In a function of its own, so that a draft is owned over one exit alone.
fn add_item(
    alloc: Global,
    model: &mut Model,
    names: &mut Names,
    name: &[u8],
    item: Item,
) -> Result<(), NoMemory>
    requires valid { IsValid (with_item item model.old) }
    requires fresh { lookup (bytes_eq name.now) names.old ≡ None }
    ensures model { OnOk result (model.new ≡ with_item item model.old) }
    ensures names { OnOk result (names.new ≡ names.old ++ (name.now, record { sort = item_sort item; id = next_id item model.old }) ∷ []) }
{
    let sort = item.sort();
    let id = item.add_to(model)?;
    let name = Vec::from_slice(alloc, name)?;
    names.push(name, Meaning { sort, id })?;
    Ok(())
}

/// Adds what a constraint writes without a name. After an error the model is as it was.
fn add_any(model: &mut Model, written: Option<Item>) -> Result<(), NoMemory>
    requires { IsValid (with_any written model.old) }
    ensures { OnOk result (model.new ≡ with_any written model.old) }
{
    match written {
        None => Ok(()),
        Some(item) => {
            let _ = item.add_to(model)?;
            Ok(())
        }
    }
}

/// Adds a constraint behind what it writes without a name.
fn add_constraint(model: &mut Model, written: Option<Item>, c: Constraint) -> Result<(), NoMemory>
    requires written { IsValid (with_any written model.old) }
    requires valid { IsValid (with_constraint c (with_any written model.old)) }
    ensures { OnOk result (model.new ≡ with_constraint c (with_any written model.old)) }
{
    add_any(model, written)?;
    let _ = model.add_constraint(c)?;
    Ok(())
}

pub fn demand_of(word: Forbidden) -> Demand
    ensures { result ≡ demand_of word }
{
    match word {
        Forbidden::Start => Demand::Start,
        Forbidden::Extent => Demand::Extent,
    }
}

/// Adds the constraints of a calendar's sentence. After an error the model has the first of them.
fn add_calendar(
    alloc: Global,
    model: &mut Model,
    word: Forbidden,
    a: Itv,
    f: &StepFn,
) -> Result<(), NoMemory>
    requires steps { are_steps f.now.pairs ≡ true }
    requires valid { IsValid (with_constraints (rules_of (demand_of word) a f.now.pairs) model.old) }
    ensures { OnOk result (model.new ≡ with_constraints (rules_of (demand_of word) a f.now.pairs) model.old) }
{
    match word {
        Forbidden::Start => forbid_start(alloc, model, a, f),
        Forbidden::Extent => forbid_extent(alloc, model, a, f),
    }
}

impl Draft {
    /// The draft of no statements, which takes no memory.
    pub fn new(alloc: Global) -> Draft
        ensures { result ≡ empty_model }
    {
        Draft {
            model: Model::new(alloc),
            names: Names::new(alloc),
            cells: 0,
            room: NODE_LIMIT,
        }
    }

    pub fn into_model(self) -> Model
        ensures { result ≡ self }
    {
        let Draft {
            model,
            names: _,
            cells: _,
            room: _,
        } = self;
        model
    }

    pub fn model(&self) -> &Model
        ensures same { result.now ≡ self.now }
        ensures valid { IsValid self.now }
    {
        &self.model
    }

    /// The number of cells: five for each interval, and one for each two members of a sequence.
    pub fn cells(&self) -> usize
        ensures count { result ≡ cell_count self.now }
        ensures few { result ≤ 1000000 }
    {
        self.cells
    }

    /// How many more nodes the model may have.
    pub fn room(&self) -> usize
        ensures { result + node_total self.now ≡ node_limit }
    {
        self.room
    }

    /// The number of the thing of this sort that has the name.
    pub fn number_of(&self, sort: Sort, name: &[u8]) -> Option<u32>
        ensures { result ≡ number_of self.now sort name.now }
    {
        match self.names.find(name) {
            None => None,
            Some(meaning) => {
                if same_sort(meaning.sort, sort) {
                    Some(meaning.id)
                } else {
                    None
                }
            }
        }
    }

    pub fn is_defined(&self, name: &[u8]) -> bool
        ensures { result ≡ is_defined self.now name.now }
    {
        self.names.find(name).is_some()
    }

    /// The number of a name, and 0 where it has none.
    fn id_of(&self, sort: Sort, name: &[u8]) -> u32
        ensures { result ≡ id_of self.now sort name.now }
    {
        self.number_of(sort, name).unwrap_or(0)
    }

    pub fn itv_of(&self, name: &[u8]) -> Itv
        ensures { result ≡ itv_of self.now name.now }
    {
        Itv(self.id_of(Sort::Interval, name))
    }

    pub fn mat_of(&self, name: &[u8]) -> Mat
        ensures { result ≡ mat_of self.now name.now }
    {
        Mat(self.id_of(Sort::Matrix, name))
    }

    pub fn seq_of(&self, name: &[u8]) -> Seq
        ensures { result ≡ seq_of self.now name.now }
    {
        Seq(self.id_of(Sort::Sequence, name))
    }

    pub fn cum_of(&self, name: &[u8]) -> Cum
        ensures { result ≡ cum_of self.now name.now }
    {
        Cum(self.id_of(Sort::Cumulated, name))
    }

    pub fn stf_of(&self, name: &[u8]) -> Stf
        ensures { result ≡ stf_of self.now name.now }
    {
        Stf(self.id_of(Sort::State, name))
    }

    /// The number that the next sequence gets.
    pub fn next_seq(&self) -> Seq
        ensures { result ≡ record { 0 = length self.now.sequences } }
    {
        Seq(self.model.sequences().len() as u32)
    }

    /// The number that the next cumulative function gets.
    pub fn next_cum(&self) -> Cum
        ensures { result ≡ record { 0 = length self.now.cumuls } }
    {
        Cum(self.model.cumuls().len() as u32)
    }

    /// With a thing that has a name, which is new.
    pub fn with_named(self, alloc: Global, name: &[u8], item: Item) -> Result<Draft, NoMemory>
        requires valid { IsValid (with_item item self) }
        requires fresh { is_defined self name.now ≡ false }
        requires named { item_name item ≡ Some name.now }
        ensures { IfOk result (λ d. d ≡ with_item item self) }
    {
        let more = item.cells();
        let nodes = item.nodes();
        let Draft {
            mut model,
            mut names,
            cells,
            room,
        } = self;
        add_item(alloc, &mut model, &mut names, name, item)?;
        let cells = cells + more;
        let room = room - nodes;
        Ok(Draft {
            model,
            names,
            cells,
            room,
        })
    }

    /// With a constraint, and with what it writes without a name in front of it.
    pub fn with_constraint(self, written: Option<Item>, c: Constraint) -> Result<Draft, NoMemory>
        requires written { IsValid (with_any written self) }
        requires unnamed { IsUnnamed written }
        requires valid { IsValid (with_constraint c (with_any written self)) }
        ensures { IfOk result (λ d. d ≡ with_constraint c (with_any written self)) }
    {
        let more = any_cells(&written);
        let nodes = any_nodes(&written);
        let count = constraint_nodes(&c) as usize;
        let Draft {
            mut model,
            names,
            cells,
            room,
        } = self;
        add_constraint(&mut model, written, c)?;
        let cells = cells + more;
        let left = room - nodes;
        let room = left - count;
        Ok(Draft {
            model,
            names,
            cells,
            room,
        })
    }

    /// With the constraints of a calendar's sentence on an interval, for which there is room.
    pub fn with_calendar(
        self,
        alloc: Global,
        word: Forbidden,
        a: Itv,
        calendar: &Calendar,
    ) -> Result<Draft, NoMemory>
        requires there { is_itv self a ≡ true }
        requires limits { is_within_limits (with_constraints (rules_of (demand_of word) a calendar.now) self) ≡ true }
        ensures { IfOk result (λ d. d ≡ with_constraints (rules_of (demand_of word) a calendar.now) self) }
    {
        let count = made_nodes(demand_of(word), calendar.ranges()) as usize;
        let function = calendar.function();
        let Draft {
            mut model,
            names,
            cells,
            room,
        } = self;
        add_calendar(alloc, &mut model, word, a, function)?;
        let room = room - count;
        Ok(Draft {
            model,
            names,
            cells,
            room,
        })
    }

    /// With an objective, where there is none.
    pub fn with_objective(self, o: Objective) -> Draft
        requires valid { IsValid (with_objective o self) }
        requires first { self.objective ≡ None }
        ensures { result ≡ with_objective o self }
    {
        let count = criteria_nodes(&o) as usize;
        let Draft {
            mut model,
            names,
            cells,
            room,
        } = self;
        model.set_objective(o);
        let room = room - count;
        Draft {
            model,
            names,
            cells,
            room,
        }
    }
}
