ghost use Rattle.std.specs.Prelude.{◌≡◌, true, map};
ghost use Rattle.std.proofs.Common.{refl, ◌∙◌};
ghost use Rattle.logtext.specs.Lifted.{lifted};
ghost use Rattle.logtext.specs.Logs.{plain_text, plain_lines};
ghost use Rattle.solver.specs.code.Putting.{PutsNamed, BreaksNamed};
ghost use Rattle.solver.specs.laws.Putting.{named_none, named_more, named_breaks, named_ready, named_calm, named_faults, lifted_more, lifted_breaks};

use crate::log_to::LogTo;
use engine::Lines;
use kernel::{Line, NoWitness};
use logtext::{LogWitness, LogWriter};
use sched_base::{Desk, Failed};

/// The lines of a log, behind what is gathered, on a desk.
#[derive(Drop)]
pub struct LogLines<'a, D: Desk> {
    pub writer: LogWriter,
    pub desk: &'a mut D,
}

impl<'a, D: Desk> Lines for LogLines<'a, D> {
    ghost faults = { λ a. (D.state a.desk.now).faults };

    ghost calm = { λ a. (D.state a.desk.now).calm };

    ghost ready = { λ a. (D.state a.desk.now).created ≡ true };

    ghost puts = { λ a xs b. PutsNamed (a.desk.ghost_name ≡ b.desk.ghost_name) (plain_lines (map lifted xs)) a.writer b.writer (D.state a.desk.now) (D.state b.desk.now) };

    ghost breaks = { λ a xs x b. BreaksNamed (a.desk.ghost_name ≡ b.desk.ghost_name) (plain_lines (map lifted xs)) (plain_text (lifted x)) a.writer (D.state a.desk.now) (D.state b.desk.now) };

    fn put(&mut self, line: &Line<NoWitness>) -> Result<(), Failed> {
        self.writer.write_line(line, self.desk)
    }

    ghost none = { λ a. named_none refl };

    ghost more = { λ a b c xs ys first rest. lifted_more xs ys first rest (first.named ∙ rest.named) };

    ghost then_breaks = { λ a b c xs ys x first rest. lifted_breaks xs ys x first rest (first.named ∙ rest.named) };

    ghost stays_ready = { λ a b xs is ready. named_ready is ready };

    ghost stays_calm = { λ a b xs is. named_calm is };

    ghost same_faults = { λ a b xs is. named_faults is };
}

impl<'a, D: Desk> LogTo for LogLines<'a, D> {
    ghost writes = { λ a xs b. PutsNamed (a.desk.ghost_name ≡ b.desk.ghost_name) (plain_lines xs) a.writer b.writer (D.state a.desk.now) (D.state b.desk.now) };

    ghost cuts_off = { λ a xs x b. BreaksNamed (a.desk.ghost_name ≡ b.desk.ghost_name) (plain_lines xs) (plain_text x) a.writer (D.state a.desk.now) (D.state b.desk.now) };

    fn write(&mut self, line: &Line<LogWitness>) -> Result<(), Failed> {
        self.writer.write_line(line, self.desk)
    }

    ghost lifts = { λ a b xs is. is };

    ghost lifts_broken = { λ a b xs x is. is };

    ghost writes_more = { λ a b c xs ys first rest. named_more xs ys first rest (first.named ∙ rest.named) };

    ghost then_cuts_off = { λ a b c xs ys x first rest. named_breaks xs ys x first rest (first.named ∙ rest.named) };

    ghost is_ready_still = { λ a b xs is ready. named_ready is ready };

    ghost is_calm_still = { λ a b xs is. named_calm is };

    ghost has_same_faults = { λ a b xs is. named_faults is };
}
