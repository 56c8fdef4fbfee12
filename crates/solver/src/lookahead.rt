ghost use Rattle.std.specs.Prelude.{OnOk, IsTrue, IfOk};
ghost use Rattle.region.specs.Guesses.{splits};
ghost use Rattle.solver.specs.code.Searching.{IsResting, IsUnmoved};

use crate::chooser::WIDTH;
use crate::silence::Silence;
use crate::state::Search;
use engine::{EngineFault, Propagator, Stop};
use region::{Guess, Look, Presence};
use sched_base::{Itv, NoMemory};
use sched_model::Model;

/// What a part that is refuted counts, as if so much less were open in it.
const REFUTED: i64 = 1_000_000;

/// A guess to split by, and how much less is open in both parts.
#[derive(Clone, Copy, Debug)]
struct Scored {
    guess: Guess,
    score: i128,
}

/// The guess that has the part of the fact.
fn turned(guess: Guess) -> Guess {
    match guess {
        Guess::Present(x) => Guess::Absent(x),
        Guess::Absent(x) => Guess::Present(x),
        Guess::StartLe(x, t) => Guess::StartGe(x, t.saturating_add(1)),
        Guess::StartGe(x, t) => Guess::StartLe(x, t.saturating_sub(1)),
        Guess::EndLe(x, t) => Guess::EndGe(x, t.saturating_add(1)),
        Guess::EndGe(x, t) => Guess::EndLe(x, t.saturating_sub(1)),
        Guess::Before(p, x, y) => Guess::Before(p, y, x),
    }
}

/// How late an interval may start after its earliest start; nothing where it is absent.
fn room_of(look: &Look<'_>, x: Itv) -> i64 {
    if x.0 as usize >= look.len() || look.presence(x) == Presence::Absent {
        return 0;
    }
    look.lst(x).saturating_sub(look.est(x)).max(0)
}

/// The same of several intervals together.
fn room_in(look: &Look<'_>, numbers: &[u32]) -> i64 {
    let mut room: i64 = 0;
    for n in numbers {
        room = room.saturating_add(room_of(look, Itv(*n)));
    }
    room
}

/// Whether a guess cuts a bound.
fn is_on_bound(guess: Guess) -> bool {
    !matches!(
        guess,
        Guess::Present(_) | Guess::Absent(_) | Guess::Before(..)
    )
}

/// How much two parts leave less than the whole. The one that is refuted goes first.
fn weighed(guess: Guess, first: i64, second: i64) -> Scored {
    let factor = i128::from(first).saturating_add(1);
    let score = factor.saturating_mul(i128::from(second).saturating_add(1));
    if second == REFUTED && first != REFUTED {
        return Scored {
            guess: turned(guess),
            score,
        };
    }
    Scored { guess, score }
}

/// How much a run leaves open; none where it refuted the region. A run that has no more room for lines
/// ends before it is at its end.
fn left_by(ran: Result<Stop, EngineFault>, left: i64) -> Result<Option<i64>, NoMemory> {
    match ran {
        Ok(Stop::Failed(_)) => Ok(None),
        Ok(Stop::Quiet) => Ok(Some(left)),
        Ok(Stop::Capped) => Ok(Some(left)),
        Err(EngineFault::Lines) => Ok(Some(left)),
        Err(EngineFault::NoMemory) => Err(NoMemory),
    }
}

fn better(best: Option<Scored>, other: Scored) -> Scored {
    match best {
        Some(b) if b.score >= other.score => b,
        _ => other,
    }
}

fn guess_of(best: Option<Scored>) -> Option<Guess> {
    Some(best?.guess)
}

impl<P: Propagator> Search<P> {
    /// How much is open of the intervals that may be.
    fn room(&self) -> i64 {
        room_in(&self.region.look(None, None), self.intervals.numbers())
    }

    /// Derives in the part with a guess, and goes back. How much is left open there; none where it is
    /// refuted.
    fn look_into(&mut self, model: &Model, guess: Guess) -> Result<Option<i64>, NoMemory>
        requires resting { IsResting P.Propagator model.now self.old }
        requires splits { IsTrue (splits self.old.region.region guess) }
        ensures { OnOk result (IsUnmoved P.Propagator model.now self.old self.new) }
    {
        self.region.save()?;
        let cell = self.region.assume(guess)?;
        self.engine.wake(cell);
        let best = self.best();
        let mut silence = Silence::new(self.region.cells());
        let ran = self.engine.run(model, &mut self.region, best, &mut silence);
        let left = self.room();
        self.region.undo();
        self.engine.rest();
        self.engine.forget_changes();
        left_by(ran, left)
    }

    /// How much less is open in the part with a guess, of so much.
    fn try_part(&mut self, model: &Model, guess: Guess, room: i64) -> Result<i64, NoMemory>
        requires { IsResting P.Propagator model.now self.old }
        ensures { OnOk result (IsUnmoved P.Propagator model.now self.old self.new) }
    {
        if !self.region.splits(guess) {
            return Ok(0);
        }
        match self.look_into(model, guess)? {
            None => Ok(REFUTED),
            Some(left) => Ok(room.saturating_sub(left)),
        }
    }

    /// Tries both parts of a split.
    fn try_split(&mut self, model: &Model, guess: Guess, room: i64) -> Result<Scored, NoMemory>
        requires { IsResting P.Propagator model.now self.old }
        ensures { OnOk result (IsUnmoved P.Propagator model.now self.old self.new) }
    {
        let first = self.try_part(model, guess, room)?;
        let second = self.try_part(model, turned(guess), room)?;
        Ok(weighed(guess, first, second))
    }

    /// Whether the search goes straight for the schedule of the preparation through many pairs, most of
    /// which follow from others.
    fn is_straight(&self) -> bool {
        self.found.is_none() && self.guide.is_some() && self.intervals.has_many_pairs()
    }

    /// Whether it pays to try several of the guesses that are offered.
    fn tries(&self) -> bool {
        if self.is_straight() {
            return false;
        }
        let Some(guess) = self.intervals.pick(0) else {
            return false;
        };
        if is_on_bound(guess) && !self.intervals.has_profiles() {
            return false;
        }
        self.intervals.pick(1).is_some()
    }

    /// Of the guesses that are offered the one whose parts leave least open.
    pub fn best_pick(&mut self, model: &Model) -> Result<Option<Guess>, NoMemory>
        requires { IsResting P.Propagator model.now self.old }
        ensures { OnOk result (IsUnmoved P.Propagator model.now self.old self.new) }
    {
        if !self.tries() {
            return Ok(self.intervals.pick(0));
        }
        let room = self.room();
        let mut best: Option<Scored> = None;
        for i in 0..WIDTH {
            let Some(guess) = self.intervals.pick(i) else {
                return Ok(guess_of(best));
            };
            let scored = self.try_split(model, guess, room)?;
            best = Some(better(best, scored));
        }
        Ok(guess_of(best))
    }
}
