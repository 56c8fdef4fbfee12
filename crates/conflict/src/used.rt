ghost use Rattle.std.specs.Prelude.{◌≡◌, ◌≤◌, false, true, nat_eq, replicate, length, IfOk, slice_set};
ghost use Rattle.kernel.specs.Named.{named_with};
ghost use Rattle.refute_basic.specs.Named.{named as basic_named, named_if, named_by, named_along};
ghost use Rattle.refute_hier.specs.Named.{named as hier_named};
ghost use Rattle.refute_seq.specs.Named.{named as seq_named};
ghost use Rattle.refute_cumul.specs.Named.{named as cumul_named};
ghost use Rattle.refute_state.specs.Named.{named as state_named};
ghost use Rattle.logtext.specs.Extra.{log_named};
ghost use Rattle.conflict.specs.code.Marks.{marked, listed_from};

use kernel::{Line, Witness};
use logtext::{LogExtra, LogWitness};
use refute_basic::{ArcName, BasicWitness};
use refute_cumul::CumulWitness;
use refute_hier::HierWitness;
use refute_seq::SeqWitness;
use refute_state::StateWitness;
use replay::Watcher;
use sched_base::{Con, List, NoMemory};
use std::alloc::Global;

/// Which constraints of a model were named by the witnesses so far: one mark for each constraint.
#[derive(Drop)]
pub struct Used {
    marks: Vec<bool>,
}

impl std::marker::Model for Used {
    ghost use Rattle.std.specs.Prelude.{Bool, List};

    ghost Value = { List Bool };

    ghost view = { λ u. u.marks.items };
}

impl Used {
    /// None of so many constraints.
    pub fn none(alloc: Global, constraints: usize) -> Result<Used, NoMemory>
        ensures { IfOk result (λ u. u ≡ replicate constraints false) }
    {
        Ok(Used {
            marks: vec![in alloc; false; constraints]?,
        })
    }

    /// The constraints that were named, in rising order.
    pub fn listed(&self, alloc: Global) -> Result<List<Con>, NoMemory>
        requires { length self.now ≤ 20000 }
        ensures { IfOk result (λ cs. cs ≡ listed_from 0 self.now) }
    {
        let mut found = Vec::new(alloc);
        for c in 0..self.marks.len() {
            if self.marks[c] {
                found.push(Con(c as u32))?;
            }
        }
        Ok(List::from_vec(found))
    }

    fn mark(&mut self, c: u32)
        ensures { self.new ≡ slice_set self.old c true }
    {
        if (c as usize) < self.marks.len() {
            self.marks[c as usize] = true;
        }
    }

    /// An arc of a precedence, and one of two members of a sequence, name their constraints.
    fn mark_arc(&mut self, arc: ArcName)
        ensures { self.new ≡ marked (named_by arc) self.old }
    {
        if arc.kind == 0 || arc.kind == 3 {
            self.mark(arc.x);
        }
    }

    fn mark_arcs(&mut self, arcs: &[ArcName])
        ensures { self.new ≡ marked (named_along arcs.now) self.old }
    {
        for arc in arcs {
            self.mark_arc(*arc);
        }
    }

    fn mark_leaf(&mut self, k: u32, u: u32)
        ensures { self.new ≡ marked (named_if (nat_eq k 1) u) self.old }
    {
        if k == 1 {
            self.mark(u);
        }
    }

    fn mark_basic(&mut self, w: &BasicWitness)
        ensures { self.new ≡ marked (basic_named w.now) self.old }
    {
        match w {
            BasicWitness::Size { x: _ } => {}
            BasicWitness::Arc { c, d: _ } => self.mark(*c),
            BasicWitness::Cycle { arcs } => self.mark_arcs(arcs.as_slice()),
            BasicWitness::Expr { c } => self.mark(*c),
            BasicWitness::Obj => {}
            BasicWitness::Leaf { k, u } => self.mark_leaf(*k, *u),
        }
    }

    fn mark_hier(&mut self, w: &HierWitness)
        ensures { self.new ≡ marked (hier_named w.now) self.old }
    {
        match *w {
            HierWitness::Span { c, r: _, i: _ } => self.mark(c),
            HierWitness::Alt {
                c,
                r: _,
                i: _,
                j: _,
            } => self.mark(c),
            HierWitness::Sync { c, i: _ } => self.mark(c),
            HierWitness::SeqRel { c, x: _ } => self.mark(c),
        }
    }

    fn mark_seq(&mut self, w: &SeqWitness)
        ensures { self.new ≡ marked (seq_named w.now) self.old }
    {
        match w {
            SeqWitness::Pair { c, .. } => self.mark(*c),
            SeqWitness::Triple { .. } => {}
            SeqWitness::Overload { c, .. } => self.mark(*c),
            SeqWitness::Edge { c, .. } => self.mark(*c),
            SeqWitness::NotEnd { c, .. } => self.mark(*c),
            SeqWitness::Detect { c, .. } => self.mark(*c),
        }
    }

    fn mark_cumul(&mut self, w: &CumulWitness)
        ensures { self.new ≡ marked (cumul_named w.now) self.old }
    {
        match *w {
            CumulWitness::Point { c, t: _, u: _ } => self.mark(c),
        }
    }

    fn mark_state(&mut self, w: &StateWitness)
        ensures { self.new ≡ marked (state_named w.now) self.old }
    {
        match *w {
            StateWitness::State { c1, c2 } => {
                self.mark(c1);
                self.mark(c2);
            }
            StateWitness::State3 { c1, c2, c3 } => {
                self.mark(c1);
                self.mark(c2);
                self.mark(c3);
            }
        }
    }

    fn mark_extra(&mut self, w: &LogWitness)
        ensures { self.new ≡ marked (log_named w.now) self.old }
    {
        self.mark(w.c.0);
    }

    fn mark_witness(&mut self, w: &Witness<LogWitness>)
        ensures { self.new ≡ marked (named_with log_named w.now) self.old }
    {
        match w {
            Witness::Basic(w) => self.mark_basic(w),
            Witness::Hier(w) => self.mark_hier(w),
            Witness::Seq(w) => self.mark_seq(w),
            Witness::Cumul(w) => self.mark_cumul(w),
            Witness::State(w) => self.mark_state(w),
            Witness::Extra(w) => self.mark_extra(w),
        }
    }
}

impl Watcher<LogExtra> for Used {
    ghost use Rattle.kernel.specs.Named.{named_with};
    ghost use Rattle.kernel.specs.Used.{named_in};
    ghost use Rattle.logtext.specs.Extra.{log_named};
    ghost use Rattle.conflict.specs.code.Marks.{marked};

    ghost noted = { λ s l. marked (named_in (named_with log_named) l) s };

    fn note(&mut self, line: &Line<LogWitness>) -> Result<(), NoMemory> {
        match line {
            Line::Derive(_, w) => {
                self.mark_witness(w);
                Ok(())
            }
            Line::Fail(w) => {
                self.mark_witness(w);
                Ok(())
            }
            Line::Split(_) => Ok(()),
            Line::Sol(_) => Ok(()),
            Line::Restart => Ok(()),
        }
    }
}
