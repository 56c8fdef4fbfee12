//! The arcs that a look shows, with their names.
ghost use Rattle.std.specs.Prelude.{◌≡◌, ◌≤ℤ◌, ◌^◌, pos, neg_ℤ, true, length, slice_get, OnOk};
ghost use Rattle.region.specs.Looks.{IsRegionOf};
ghost use Rattle.refute_basic.specs.Witness.{is_name};
ghost use Rattle.prop_temporal.specs.code.Members.{members_at};
ghost use Rattle.prop_temporal.specs.code.Shown.{AreShown, HasTried, Tries, TriesAll, IsOfConstraint, IsOfInterval, IsOfPrecedence, IsOfOrder, IsOfSide, IsOfMember, name, member_name};
ghost use Rattle.prop_temporal.specs.laws.Own.{HasOwn};

use crate::members::{is_told, members_at};
use refute_basic::{Arc, ArcName, edge_of, is_there};
use region::Look;
use sched_base::{Itv, NoMemory};
use sched_model::Model;
use std::alloc::Global;

/// Arcs and their names, both in the same order.
#[derive(Debug, Drop)]
pub struct Shown {
    names: Vec<ArcName>,
    arcs: Vec<Arc>,
}

impl std::marker::Model for Shown {
    ghost use Rattle.prop_temporal.specs.code.Shown.{Shown};

    ghost Value = { Shown };

    ghost view = { λ s. record { names = s.names.items; arcs = s.arcs.items } };
}

/// The arc itself, whose weight is a number of 64 bits.
fn weighed(e: Arc) -> Arc
    ensures same { result ≡ e }
    ensures lower { neg_ℤ (pos (2 ^ 63)) ≤ℤ e.weight }
    ensures upper { e.weight ≤ℤ pos (2 ^ 63) }
{
    e
}

pub fn named(kind: u32, x: u32, y: u32) -> ArcName
    ensures value { result ≡ name kind x y }
    ensures valid { is_name result ≡ true }
{
    ArcName { kind, x, y, z: 0 }
}

pub fn named_member(behind: bool, u: u32, x: Itv, y: Itv) -> ArcName
    ensures value { result ≡ member_name behind u x.0 y.0 }
    ensures valid { is_name result ≡ true }
    ensures kind { result.kind ≡ 3 }
{
    let (first, second) = if behind { (y, x) } else { (x, y) };
    ArcName {
        kind: 3,
        x: u,
        y: first.0,
        z: second.0,
    }
}

impl Shown {
    pub fn new(alloc: Global) -> Shown {
        Shown {
            names: Vec::new(alloc),
            arcs: Vec::new(alloc),
        }
    }

    pub fn arcs(&self) -> &[Arc]
        ensures { result.now ≡ self.now.arcs }
    {
        &self.arcs
    }

    pub fn names(&self) -> &[ArcName]
        ensures { result.now ≡ self.now.names }
    {
        &self.names
    }

    /// Takes an arc, if the look shows it.
    fn try_name(&mut self, model: &Model, look: &Look<'_>, i: ArcName) -> Result<(), NoMemory>
        requires of { IsRegionOf model.now look.now.region }
        requires valid { is_name i ≡ true }
        ensures { OnOk result (Tries model.now look.now.region i self.old self.new) }
    {
        let Some(e) = edge_of(model, look, i) else {
            return Ok(());
        };
        self.names.push(i)?;
        self.arcs.push(weighed(e))?;
        Ok(())
    }

    /// Takes the arc of two members of a sequence, if the look shows it. Most orders aren't told, and
    /// such a one is passed soon.
    #[tactic(auto, using(crate::specs::laws::Collecting::not_told))]
    fn try_told(&mut self, model: &Model, look: &Look<'_>, i: ArcName) -> Result<(), NoMemory>
        requires of { IsRegionOf model.now look.now.region }
        requires valid { is_name i ≡ true }
        requires kind { i.kind ≡ 3 }
        ensures { OnOk result (Tries model.now look.now.region i self.old self.new) }
    {
        if !is_told(model, look, i) {
            return Ok(());
        }
        self.try_name(model, look, i)
    }

    fn try_precedence(&mut self, model: &Model, look: &Look<'_>, u: u32) -> Result<(), NoMemory>
        requires { IsRegionOf model.now look.now.region }
        ensures { OnOk result (TriesAll model.now look.now.region (IsOfPrecedence u) self.old self.new) }
    {
        self.try_name(model, look, named(0, u, 0))?;
        self.try_name(model, look, named(0, u, 1))?;
        Ok(())
    }

    /// The arcs of one member of a sequence with those behind it, or before it: one that isn't present has
    /// none.
    fn try_side(
        &mut self,
        model: &Model,
        look: &Look<'_>,
        behind: bool,
        u: u32,
        x: Itv,
        members: &[Itv],
    ) -> Result<(), NoMemory>
        requires of { IsRegionOf model.now look.now.region }
        requires members { members.now ≡ members_at model.now (slice_get model.now.constraints u) }
        ensures { OnOk result (TriesAll model.now look.now.region (IsOfSide behind u x.0) self.old self.new) }
    {
        for y in members {
            if !is_there(look, *y) {
                continue;
            }
            self.try_told(model, look, named_member(behind, u, x, *y))?;
        }
        Ok(())
    }

    /// The arcs of each two members of a sequence: a member that isn't present has none.
    fn try_order(
        &mut self,
        model: &Model,
        look: &Look<'_>,
        u: u32,
        members: &[Itv],
    ) -> Result<(), NoMemory>
        requires of { IsRegionOf model.now look.now.region }
        requires members { members.now ≡ members_at model.now (slice_get model.now.constraints u) }
        ensures { OnOk result (TriesAll model.now look.now.region (IsOfOrder u) self.old self.new) }
    {
        for x in members {
            if !is_there(look, *x) {
                continue;
            }
            self.try_side(model, look, false, u, *x, members)?;
        }
        Ok(())
    }

    fn try_constraint(&mut self, model: &Model, look: &Look<'_>, u: u32) -> Result<(), NoMemory>
        requires { IsRegionOf model.now look.now.region }
        ensures { OnOk result (TriesAll model.now look.now.region (IsOfConstraint u) self.old self.new) }
    {
        self.try_precedence(model, look, u)?;
        self.try_order(model, look, u, members_at(model, u))?;
        Ok(())
    }

    /// The arcs of a constraint that begin or end at an interval, if it is of a sequence.
    fn try_member(&mut self, model: &Model, look: &Look<'_>, u: u32, x: u32) -> Result<(), NoMemory>
        requires { IsRegionOf model.now look.now.region }
        ensures { OnOk result (TriesAll model.now look.now.region (IsOfMember u x) self.old self.new) }
    {
        let members = members_at(model, u);
        self.try_precedence(model, look, u)?;
        self.try_side(model, look, false, u, Itv(x), members)?;
        self.try_side(model, look, true, u, Itv(x), members)?;
        Ok(())
    }

    fn try_interval(&mut self, model: &Model, look: &Look<'_>, x: u32) -> Result<(), NoMemory>
        requires { IsRegionOf model.now look.now.region }
        ensures { OnOk result (TriesAll model.now look.now.region (IsOfInterval x) self.old self.new) }
    {
        self.try_name(model, look, named(1, x, 0))?;
        self.try_name(model, look, named(2, x, 0))?;
        Ok(())
    }

    /// Takes all arcs that the look shows in place of those that it had.
    pub fn fill(&mut self, model: &Model, look: &Look<'_>) -> Result<(), NoMemory>
        requires { IsRegionOf model.now look.now.region }
        ensures shown { OnOk result (AreShown model.now look.now.region self.new) }
        ensures tried { OnOk result (HasTried model.now look.now.region (length model.now.constraints) (length look.now.region.bounds) self.new) }
    {
        self.names.clear();
        self.arcs.clear();
        for u in 0..model.constraints().len() as u32 {
            self.try_constraint(model, look, u)?;
        }
        for x in 0..look.len() as u32 {
            self.try_interval(model, look, x)?;
        }
        Ok(())
    }

    /// Takes the arcs of one interval that the look shows in place of those that it had: those of
    /// these constraints, and of its sizes. Of a sequence it takes those at this interval alone.
    pub fn fill_of(
        &mut self,
        model: &Model,
        look: &Look<'_>,
        x: u32,
        constraints: &[u32],
    ) -> Result<(), NoMemory>
        requires { IsRegionOf model.now look.now.region }
        ensures { OnOk result (HasOwn model.now look.now.region x constraints.now self.new) }
    {
        self.names.clear();
        self.arcs.clear();
        for c in constraints {
            self.try_member(model, look, *c, x)?;
        }
        self.try_interval(model, look, x)?;
        Ok(())
    }
}
