ghost use Rattle.std.specs.Prelude.{◌≡◌, ◌↔◌, ◌+◌, ◌≤◌, ◌<◌, ◌++◌, ◌∷◌, [], length, IfOk, IsOk, OnOk, OnErr, IsTrue, not, nat_lt, ◌&&◌};
ghost use Rattle.sched_model.specs.declared.types.Assignment.{Assignment};
ghost use Rattle.sched_model.specs.Data.{Data};
ghost use Rattle.sched_model.specs.Domain.{is_in_domain};
ghost use Rattle.sched_model.specs.Words.{passes_if_any};
ghost use Rattle.sched_model.specs.Valid.{IsValid};
ghost use Rattle.region.specs.declared.types.Topic.{Topic};
ghost use Rattle.region.specs.declared.types.Topic.TheVariants.{Two};
ghost use Rattle.region.specs.Cells.{Allows, root, is_settled, cell_count, cells_of, settled_slots};
ghost use Rattle.region.specs.Guesses.{admits, admits_topic, splits, is_ready, is_open_between, may_be_there, assumed, refused, assumed_cell, refused_cell, with_guess, with_fact, looked_at, guess_holds, guess_cell, fact_cell, topic};
ghost use Rattle.region.specs.Looks.{IsRegionOf};
ghost use Rattle.region.specs.code.Held.{Regains, IsHeldOf};
ghost use Rattle.region.specs.laws.Narrowing.{HasPairs};
ghost use Rattle.region.specs.Narrows.{Leaves, Narrows, Splits, HasPoint};

use crate::claims::{differ, is_open_at, is_ready_at, is_unknown};
use crate::flat::{assumed_write, first_cells, refused_write, write};
use crate::frame::Frame;
use crate::look::Look;
use crate::types::{CellName, Fact, Guess, Presence, Topic};
use sched_base::{Itv, NoMemory, Seq};
use sched_model::Model;
use std::alloc::Global;
use trail::Cells;

/// What is open of each interval of a model and of the orders of its sequences, with a stack of saved
/// states. A change costs a constant, and going back what was changed since the save.
#[derive(Drop)]
pub struct Region {
    frame: Frame,
    cells: Cells,
}

impl std::marker::Model for Region {
    ghost use Rattle.std.specs.Prelude.{map};
    ghost use Rattle.region.specs.code.Held.{Held};
    ghost use Rattle.region.specs.code.Flat.{IsKept, region_from};

    ghost Value = { Held };

    ghost view = { λ r. record {
      region = region_from r.frame r.cells.list;
      saved = map (region_from r.frame) r.cells.saved;
      promised = r.cells.promised;
      spare = r.cells.spare;
    } };

    ghost invariant = { λ r. IsKept r.frame r.cells };
}

fn is_ready(look: &Look<'_>, t: Topic) -> bool
    requires { IsTrue (admits_topic look.now.region t) }
    ensures { result ≡ is_ready look.now.region t }
{
    match t {
        Topic::One(x, claim) => is_ready_at(claim, look.bounds(x)),
        Topic::Two(_, x, y) => {
            look.presence(x) == Presence::Present && look.presence(y) == Presence::Present
        }
    }
}

impl Region {
    /// The declared ranges of a model, no order known, and no save.
    pub fn root(alloc: Global, model: &Model) -> Result<Region, NoMemory>
        ensures value { IfOk result (λ r. r ≡ record { region = root model.now; saved = []; promised = []; spare = r.spare }) }
        ensures of { IfOk result (IsHeldOf model.now) }
        ensures allows { IfOk result (λ r. (a : Assignment) → IsTrue (is_in_domain model.now a) → Allows r.region a) }
        ensures point { IfOk result (λ r. HasPoint r.region) }
    {
        Region::plain_root(alloc, model)
    }

    fn plain_root(alloc: Global, model: &Model) -> Result<Region, NoMemory>
        ensures value { IfOk result (λ r. r ≡ record { region = root model.now; saved = []; promised = []; spare = r.spare }) }
        ensures valid { IsValid model.now }
    {
        let (frame, numbers) = first_cells(alloc, model)?;
        let cells = Cells::new(alloc, numbers.as_slice())?;
        Ok(Region { frame, cells })
    }

    /// The region with the guess applied, beside the best value so far.
    pub fn look(&self, guess: Option<Guess>, best: Option<i64>) -> Look<'_>
        requires { IsTrue (passes_if_any (admits self.now.region) guess) }
        ensures value { result ≡ record { region = looked_at guess self.now.region; best = best } }
        ensures allows { Leaves (λ a. passes_if_any (λ g. guess_holds g a) guess) self.now.region result.region }
        ensures of { (m : Data) → IsRegionOf m self.now.region → IsRegionOf m result.region }
    {
        self.plain_look(guess, best)
    }

    fn plain_look(&self, guess: Option<Guess>, best: Option<i64>) -> Look<'_>
        requires { IsTrue (passes_if_any (admits self.now.region) guess) }
        ensures value { result ≡ record { region = looked_at guess self.now.region; best = best } }
        ensures pairs { (t : Topic) → IsTrue (admits_topic self.now.region t) → HasPairs self.now.region t }
    {
        Look::new(&self.frame, self.cells.as_slice(), guess, best)
    }

    fn may_be_there(&self, x: Itv) -> bool
        ensures { result ≡ may_be_there self.now.region x }
    {
        let look = self.plain_look(None, None);
        (x.0 as usize) < look.len() && look.presence(x) != Presence::Absent
    }

    fn is_open_between(&self, p: Seq, x: Itv, y: Itv) -> bool
        ensures { result ≡ is_open_between (cells_of self.now.region p) x y }
    {
        let look = self.plain_look(None, None);
        look.is_member(p, x)
            && look.is_member(p, y)
            && differ(x, y)
            && is_unknown(look.order(p, x, y))
    }

    /// Whether there is such a sequence, and the order of the two in it is open.
    fn is_open_in(&self, p: Seq, x: Itv, y: Itv) -> bool
        ensures { result ≡ (nat_lt p.0 (length self.now.region.orders) && is_open_between (cells_of self.now.region p) x y) }
    {
        let look = self.plain_look(None, None);
        (p.0 as usize) < look.sequences() && self.is_open_between(p, x, y)
    }

    #[tactic(auto, using(crate::proofs::Truth::first_fails, base_laws::specs::laws::Truth::second_fails, base_laws::specs::laws::Truth::third_decides))]
    fn admits_order(&self, p: Seq, x: Itv, y: Itv) -> bool
        ensures { result ≡ admits_topic self.now.region (Two p x y) }
    {
        if !self.is_open_in(p, x, y) {
            return false;
        }
        if !self.may_be_there(x) {
            return false;
        }
        self.may_be_there(y)
    }

    fn admits_topic(&self, t: Topic) -> bool
        ensures { result ≡ admits_topic self.now.region t }
    {
        match t {
            Topic::One(x, claim) => {
                let look = self.plain_look(None, None);
                (x.0 as usize) < look.len() && is_open_at(claim, look.bounds(x))
            }
            Topic::Two(p, x, y) => self.admits_order(p, x, y),
        }
    }

    /// Whether the guess names an interval of the region, or two members of a sequence, and is open:
    /// its fact narrows a cell, and empties none.
    pub fn admits(&self, g: Guess) -> bool
        ensures { result ≡ admits self.now.region g }
    {
        self.admits_topic(g.topic())
    }

    fn splits_topic(&self, t: Topic) -> bool
        ensures value { result ≡ (admits_topic self.now.region t && is_ready self.now.region t) }
        ensures pairs { IsTrue result → HasPairs self.now.region t }
    {
        let look = self.plain_look(None, None);
        self.admits_topic(t) && is_ready(&look, t)
    }

    /// Whether the guess is admitted and changes one cell as its fact does: it is on a presence, on
    /// a bound of an interval that is present, or on the order of two that are.
    pub fn splits(&self, g: Guess) -> bool
        ensures test { result ≡ splits self.now.region g }
        ensures parts { IsTrue result → Splits self.now.region (with_guess g self.now.region) (with_fact g self.now.region) }
    {
        self.splits_topic(g.topic())
    }

    fn assume_topic(&mut self, t: Topic) -> Result<CellName, NoMemory>
        requires { IsTrue (admits_topic self.old.region t && is_ready self.old.region t) }
        ensures cell { IfOk result (λ c. c ≡ assumed_cell t) }
        ensures ok { OnOk result (self.new ≡ record self.old { region = assumed t self.old.region; spare = self.new.spare }) }
        ensures pairs { HasPairs self.old.region t }
        ensures err { OnErr result (self.new ≡ self.old) }
        ensures spends { self.old.spare ≤ self.new.spare + 1 }
        ensures given { 0 < self.old.spare → IsOk result }
        ensures unsaved { self.old.saved ≡ [] → IsOk result × (self.new.spare ≡ self.old.spare) }
    {
        write(&mut self.cells, assumed_write(&self.frame, t))
    }

    /// Narrows the region to what the guess allows. The one cell that changes is answered.
    pub fn assume(&mut self, g: Guess) -> Result<CellName, NoMemory>
        requires { IsTrue (splits self.old.region g) }
        ensures cell { IfOk result (λ c. c ≡ guess_cell g) }
        ensures ok { OnOk result (self.new ≡ record self.old { region = with_guess g self.old.region; spare = self.new.spare }) }
        ensures narrows { OnOk result (Narrows (guess_cell g) (guess_holds g) self.old.region self.new.region) }
        ensures of { (m : Data) → IsHeldOf m self.old → IsHeldOf m self.new }
        ensures err { OnErr result (self.new ≡ self.old) }
        ensures spends { self.old.spare ≤ self.new.spare + 1 }

        // What it can't be refused for.
        ensures given { 0 < self.old.spare → IsOk result }
        ensures unsaved { self.old.saved ≡ [] → IsOk result × (self.new.spare ≡ self.old.spare) }
    {
        self.assume_topic(g.topic())
    }

    fn refuse_topic(&mut self, t: Topic) -> Result<CellName, NoMemory>
        requires { IsTrue (admits_topic self.old.region t) }
        ensures cell { IfOk result (λ c. c ≡ refused_cell t) }
        ensures ok { OnOk result (self.new ≡ record self.old { region = refused t self.old.region; spare = self.new.spare }) }
        ensures pairs { HasPairs self.old.region t }
        ensures err { OnErr result (self.new ≡ self.old) }
        ensures spends { self.old.spare ≤ self.new.spare + 1 }
        ensures given { 0 < self.old.spare → IsOk result }
        ensures unsaved { self.old.saved ≡ [] → IsOk result × (self.new.spare ≡ self.old.spare) }
    {
        write(&mut self.cells, refused_write(&self.frame, t))
    }

    /// Narrows the region to what the fact allows. The one cell that changes is answered.
    pub fn learn(&mut self, f: Fact) -> Result<CellName, NoMemory>
        requires { IsTrue (admits self.old.region f.0) }
        ensures cell { IfOk result (λ c. c ≡ fact_cell f.0) }
        ensures ok { OnOk result (self.new ≡ record self.old { region = with_fact f.0 self.old.region; spare = self.new.spare }) }
        ensures narrows { OnOk result (Narrows (fact_cell f.0) (λ a. not (guess_holds f.0 a)) self.old.region self.new.region) }
        ensures of { (m : Data) → IsHeldOf m self.old → IsHeldOf m self.new }
        ensures err { OnErr result (self.new ≡ self.old) }
        ensures spends { self.old.spare ≤ self.new.spare + 1 }

        // What it can't be refused for.
        ensures given { 0 < self.old.spare → IsOk result }
        ensures unsaved { self.old.saved ≡ [] → IsOk result × (self.new.spare ≡ self.old.spare) }
    {
        self.refuse_topic(f.0.topic())
    }

    /// Puts the region on the stack of saved ones.
    pub fn save(&mut self) -> Result<(), NoMemory>
        ensures ok { OnOk result (self.new ≡ record self.old {
          saved = self.old.saved ++ self.old.region ∷ [];
          promised = self.old.promised ++ self.old.spare ∷ [];
          spare = self.new.spare;
        }) }
        ensures err { OnErr result (self.new ≡ self.old) }
        ensures of { (m : Data) → IsHeldOf m self.old → IsHeldOf m self.new }
        ensures spends { self.old.spare ≤ self.new.spare + 1 }
        ensures given { 0 < self.old.spare → IsOk result }
    {
        self.plain_save()
    }

    fn plain_save(&mut self) -> Result<(), NoMemory>
        ensures ok { OnOk result (self.new ≡ record self.old {
          saved = self.old.saved ++ self.old.region ∷ [];
          promised = self.old.promised ++ self.old.spare ∷ [];
          spare = self.new.spare;
        }) }
        ensures err { OnErr result (self.new ≡ self.old) }
        ensures spends { self.old.spare ≤ self.new.spare + 1 }
        ensures given { 0 < self.old.spare → IsOk result }
    {
        self.cells.save()
    }

    /// Takes the region that was saved last from the stack.
    pub fn undo(&mut self)
        requires { 0 < length self.old.saved }
        ensures region { self.old.saved ≡ self.new.saved ++ self.new.region ∷ [] }
        ensures of { (m : Data) → IsHeldOf m self.old → IsHeldOf m self.new }
        ensures spare { Regains self.old self.new }
    {
        self.plain_undo();
    }

    fn plain_undo(&mut self)
        requires { 0 < length self.old.saved }
        ensures region { self.old.saved ≡ self.new.saved ++ self.new.region ∷ [] }
        ensures spare { Regains self.old self.new }
    {
        self.cells.undo();
    }

    /// Makes room for so many changes and saves.
    pub fn reserve(&mut self, n: usize) -> Result<(), NoMemory>
        ensures ok { OnOk result (n ≤ self.new.spare) }
        ensures same { self.new ≡ record self.old { spare = self.new.spare } }
        ensures grows { self.old.spare ≤ self.new.spare }
        ensures given { n ≤ self.old.spare → IsOk result }
    {
        self.cells.reserve(n)
    }

    /// How many changes and saves there is room for.
    pub fn spare(&self) -> usize
        ensures { result ≡ self.now.spare }
    {
        self.cells.spare()
    }

    /// How many regions are saved.
    pub fn saves(&self) -> usize
        ensures { result ≡ length self.now.saved }
    {
        self.cells.saves()
    }

    /// Whether nothing is open, so that one choice of slots is left at most.
    pub fn settled(&self) -> bool
        ensures test { result ≡ is_settled self.now.region }
        ensures once { IsTrue result → (m : Data) (a : Assignment) → IsRegionOf m self.now.region → IsTrue (is_in_domain m a)
            → Allows self.now.region a → a.slots ≡ settled_slots self.now.region }
    {
        self.plain_settled()
    }

    fn plain_settled(&self) -> bool
        ensures { result ≡ is_settled self.now.region }
    {
        self.plain_look(None, None).settled()
    }

    /// The number of cells.
    pub fn cells(&self) -> u64
        ensures { result ≡ cell_count self.now.region }
    {
        self.cells.len() as u64
    }
}
