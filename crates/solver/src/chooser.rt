ghost use Rattle.std.specs.Prelude.{◌≡◌, IsTrue, IfOk, OnOk, IfSome, IfNone};
ghost use Rattle.std.specs.List.{list_all};
ghost use Rattle.region.specs.Cells.{is_fixed, root};
ghost use Rattle.region.specs.Looks.{IsRegionOf};
ghost use Rattle.solver.specs.code.OpenIntervals.{IsOpenList, Sifts};
ghost use Rattle.solver.specs.code.Searching.{CutsRegion};

use crate::open_intervals::OpenIntervals;
use branching::{Goal, Guide, Links, Pairs, Rule, Shortlist, Soonest, Tree, View, Weights};
use kernel::{NoWitness, Witness};
use prop_energy::EnergyWitness;
use region::{Guess, Look, Presence, Region};
use sched_base::{Itv, NoMemory};
use sched_model::{Constraint, Model};
use std::alloc::Global;

/// So many guesses are kept at most of those that a rule offers.
pub const WIDTH: usize = 8;

/// What picks the guesses to split by: the intervals that may be open, rules, and what these go by.
#[derive(Drop)]
pub struct Chooser {
    intervals: OpenIntervals,
    goal: Goal,
    links: Links,
    weights: Weights,
    tree: Tree,
    /// The rule of a search that goes straight for a schedule, where this is one.
    soonest: Option<Soonest>,
    picks: Shortlist,
    has_profiles: bool,
}

impl std::marker::Model for Chooser {
    ghost use Rattle.solver.specs.code.OpenIntervals.{OpenList};

    ghost Value = { OpenList };

    ghost view = { λ c. c.intervals };
}

/// Whether the function of a constraint tells what may be done at each moment.
fn has_profile(constraint: &Constraint) -> bool {
    matches!(
        constraint,
        Constraint::CumulIn { .. }
            | Constraint::AlwaysEqual { .. }
            | Constraint::AlwaysNoState { .. }
    )
}

fn has_profiles(model: &Model) -> bool {
    for constraint in model.constraints() {
        if has_profile(constraint) {
            return true;
        }
    }
    false
}

fn has_open_presence(look: &Look<'_>, numbers: &[u32]) -> bool {
    for n in numbers {
        if (*n as usize) < look.len() && look.presence(Itv(*n)) == Presence::Maybe {
            return true;
        }
    }
    false
}

impl Chooser {
    /// All intervals of the model may be open. There may be many pairs in sequences without overlap.
    pub fn new(
        alloc: Global,
        model: &Model,
        weights: Weights,
        many_pairs: bool,
    ) -> Result<Chooser, NoMemory>
        ensures { IfOk result (IsOpenList (root model.now)) }
    {
        Ok(Chooser {
            intervals: OpenIntervals::new(alloc, model)?,
            goal: Goal::new(alloc, model)?,
            links: Links::new(alloc, model)?,
            weights,
            tree: Tree::new(Pairs::new(alloc, model, many_pairs)?),
            soonest: None,
            picks: Shortlist::new(alloc, WIDTH)?,
            has_profiles: has_profiles(model),
        })
    }

    /// All intervals of the model again.
    pub fn reopen(&mut self, alloc: Global, model: &Model) -> Result<(), NoMemory>
        ensures { OnOk result (IsOpenList (root model.now) self.new) }
    {
        self.intervals.reopen(alloc, model)?;
        self.restart();
        Ok(())
    }

    fn restart(&mut self)
        ensures { self.new ≡ self.old }
    {
        self.tree.restart();
        if let Some(rule) = &mut self.soonest {
            rule.restart();
        }
    }

    /// Goes by another rule: straight for a schedule, or else by that which looks at everything.
    pub fn follow(&mut self, soonest: Option<Soonest>)
        ensures { self.new ≡ self.old }
    {
        self.soonest = soonest;
    }

    /// The weights, and whether there are many pairs.
    pub fn into_weights(self) -> (Weights, bool) {
        (self.weights, self.tree.pairs.many)
    }

    /// Whether there are more pairs in sequences without overlap than a preparation has nodes.
    pub fn has_many_pairs(&self) -> bool {
        self.tree.pairs.many
    }

    /// Whether functions tell what may be done at each moment.
    pub fn has_profiles(&self) -> bool {
        self.has_profiles
    }

    /// The objective, as it was in the region where guesses were offered last.
    pub fn goal(&self) -> &Goal {
        &self.goal
    }

    /// Which intervals belong together.
    pub fn links(&self) -> &Links {
        &self.links
    }

    /// Whether all presences are known, and all orders of present members of sequences without
    /// overlap.
    pub fn knows_orders(&mut self, model: &Model, look: &Look<'_>) -> bool
        ensures { self.new ≡ self.old }
    {
        !has_open_presence(look, self.intervals.numbers()) && self.tree.pairs.knows_all(model, look)
    }

    /// How many may be open.
    pub fn count(&self) -> usize
        ensures { result ≡ self.now.count }
    {
        self.intervals.count()
    }

    /// The numbers of the intervals that may be open.
    pub fn numbers(&self) -> &[u32] {
        self.intervals.numbers()
    }

    /// As many may be open as there were.
    pub fn restore(&mut self, count: usize)
        ensures { self.new ≡ record self.old { count = count } }
    {
        self.intervals.restore(count);
        self.restart();
    }

    /// Leaves out those that are fixed. A guess that cuts one of the others, if there is one.
    pub fn sift(&mut self, model: &Model, look: &Look<'_>) -> Option<Guess>
        requires of { IsRegionOf model.now look.now.region }
        requires open { IsOpenList look.now.region self.old }
        ensures open { IsOpenList look.now.region self.new }
        ensures sifts { Sifts self.old self.new }
        ensures some { IfSome result (CutsRegion look.now.region) }
        ensures none { IfNone result (IsTrue (list_all is_fixed look.now.region.bounds)) }
    {
        self.intervals.sift(model, look)
    }

    /// Goes to a region, so that costs are those in it.
    pub fn evaluate(&mut self, model: &Model, region: &Region)
        requires { IsRegionOf model.now region.now.region }
        ensures { self.new ≡ self.old }
    {
        self.goal.evaluate(model, region);
    }

    /// Lets the rule offer guesses, so many at most, the best first.
    pub fn offer(
        &mut self,
        model: &Model,
        region: &Region,
        guide: &Guide<'_>,
        is_bold: bool,
        most: usize,
    )
        requires { IsRegionOf model.now region.now.region }
        ensures { self.new ≡ self.old }
    {
        self.goal.evaluate(model, region);
        self.picks.restart(most);
        let view = View {
            model,
            look: &region.look(None, None),
            goal: &self.goal,
            links: &self.links,
            weights: &self.weights,
            guide,
            open: self.intervals.numbers(),
            has_profiles: self.has_profiles,
            is_bold,
        };
        match &mut self.soonest {
            None => self.tree.pick(&view, &mut self.picks),
            Some(rule) => rule.pick(&view, &mut self.picks),
        }
    }

    /// A guess that was offered.
    pub fn pick(&self, i: usize) -> Option<Guess> {
        self.picks.guess(i)
    }

    /// Counts what a witness names that refuted a region, so that it is decided sooner.
    pub fn blame(&mut self, model: &Model, look: &Look<'_>, w: &Witness<NoWitness>)
        ensures { self.new ≡ self.old }
    {
        self.weights.count(model, look, w);
    }

    /// The same of an overload of energy.
    pub fn blame_overload(&mut self, model: &Model, w: &EnergyWitness)
        ensures { self.new ≡ self.old }
    {
        self.weights
            .count_overload(model, w.c.0, w.parts.as_slice());
    }
}
