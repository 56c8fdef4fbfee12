ghost use Rattle.std.specs.Prelude.{◌≡◌, [], ◌∷◌, ◌++◌, map, drop, true, codes};
ghost use Rattle.std.specs.List.{flat_map};
ghost use Rattle.std.specs.Fmt.{decimal, signed_decimal};
ghost use Rattle.region.specs.declared.types.Guess.TheVariants.{Before};
ghost use Rattle.refute_basic.specs.Witness.{numbers_of};
ghost use Rattle.refute_hier.specs.Witness.{numbers_of as hier_numbers};
ghost use Rattle.refute_seq.specs.Witness.{numbers_of as seq_numbers};
ghost use Rattle.refute_cumul.specs.Witness.{numbers_of as cumul_numbers};
ghost use Rattle.refute_state.specs.Witness.{numbers_of as state_numbers};
ghost use Rattle.kernel.specs.declared.types.Witness.TheVariants.{Extra};
ghost use Rattle.logtext.specs.Spelling.{guess_words, basic_kinds, hier_kinds, seq_kinds, cumul_kinds, state_kinds, kind_words, witness_words, slot_words, member_word, order_words, segment_words, segments_words, assignment_words};
ghost use Rattle.textline.specs.Lines.{spaced};
ghost use Rattle.sched_base.specs.declared.desk.Port.TheVariants.{Log};
ghost use Rattle.gatherer.specs.code.Gathering.{Gathers};

use crate::kinds::{basic_word, cumul_word, hier_word, seq_word, state_word};
use crate::writer::LogWriter;
use kernel::Witness;
use refute_basic::BasicWitness;
use refute_cumul::CumulWitness;
use refute_hier::HierWitness;
use refute_seq::SeqWitness;
use refute_state::StateWitness;
use region::{Guess, Numbers};
use sched_base::{Desk, Failed, Itv, List, Seq};
use sched_model::{Assignment, Segment, Slot};

/// The words of the parts of a line, each with a space before it.
impl LogWriter {
    /// A word and an interval.
    fn put_named<D: Desk>(&mut self, word: &[u8], x: Itv, desk: &mut D) -> Result<(), Failed>
        requires { (D.state desk.old).created ≡ true }
        ensures { Gathers Log (word.now ++ spaced (decimal x.0 ∷ [])) result self.old self.new (D.state desk.old) (D.state desk.new) }
    {
        self.put(word, desk)?;
        self.put_number(x.0, desk)
    }

    /// A word, an interval and a moment.
    fn put_timed<D: Desk>(
        &mut self,
        word: &[u8],
        x: Itv,
        t: i64,
        desk: &mut D,
    ) -> Result<(), Failed>
        requires { (D.state desk.old).created ≡ true }
        ensures { Gathers Log (word.now ++ spaced (decimal x.0 ∷ signed_decimal t ∷ [])) result self.old self.new (D.state desk.old) (D.state desk.new) }
    {
        self.put(word, desk)?;
        self.put_number(x.0, desk)?;
        self.put_number(t, desk)
    }

    fn put_before<D: Desk>(&mut self, p: Seq, x: Itv, y: Itv, desk: &mut D) -> Result<(), Failed>
        requires { (D.state desk.old).created ≡ true }
        ensures { Gathers Log (spaced (guess_words (Before p x y))) result self.old self.new (D.state desk.old) (D.state desk.new) }
    {
        self.put(b" B", desk)?;
        self.put_number(p.0, desk)?;
        self.put_number(x.0, desk)?;
        self.put_number(y.0, desk)
    }

    #[tactic(auto, unfolding(textline::specs::Lines::spaced))]
    pub(crate) fn put_guess<D: Desk>(&mut self, g: Guess, desk: &mut D) -> Result<(), Failed>
        requires { (D.state desk.old).created ≡ true }
        ensures { Gathers Log (spaced (guess_words g)) result self.old self.new (D.state desk.old) (D.state desk.new) }
    {
        match g {
            Guess::Present(x) => self.put_named(b" P", x, desk),
            Guess::Absent(x) => self.put_named(b" A", x, desk),
            Guess::StartLe(x, t) => self.put_timed(b" SL", x, t, desk),
            Guess::StartGe(x, t) => self.put_timed(b" SG", x, t, desk),
            Guess::EndLe(x, t) => self.put_timed(b" EL", x, t, desk),
            Guess::EndGe(x, t) => self.put_timed(b" EG", x, t, desk),
            Guess::Before(p, x, y) => self.put_before(p, x, y, desk),
        }
    }

    /// The numbers from a place on.
    fn put_numbers<W: Numbers, D: Desk>(
        &mut self,
        w: &W,
        from: usize,
        desk: &mut D,
    ) -> Result<(), Failed>
        requires { (D.state desk.old).created ≡ true }
        ensures { Gathers Log (spaced (map signed_decimal (drop from (W.numbers w.now)))) result self.old self.new (D.state desk.old) (D.state desk.new) }
    {
        for i in from..w.count() {
            self.put_number(w.number(i), desk)?;
        }
        Ok(())
    }

    /// The word of a kind, and the numbers behind that of its place.
    fn put_kind<W: Numbers, D: Desk>(
        &mut self,
        word: &[u8],
        w: &W,
        desk: &mut D,
    ) -> Result<(), Failed>
        requires { (D.state desk.old).created ≡ true }
        ensures { Gathers Log (spaced (word.now ∷ map signed_decimal (drop 1 (W.numbers w.now)))) result self.old self.new (D.state desk.old) (D.state desk.new) }
    {
        self.put(b" ", desk)?;
        self.put(word, desk)?;
        self.put_numbers(w, 1, desk)
    }

    fn put_basic<D: Desk>(&mut self, w: &BasicWitness, desk: &mut D) -> Result<(), Failed>
        requires { (D.state desk.old).created ≡ true }
        ensures { Gathers Log (spaced (kind_words basic_kinds (numbers_of w.now))) result self.old self.new (D.state desk.old) (D.state desk.new) }
    {
        let place = w.number(0);
        self.put_kind(basic_word(place as usize), w, desk)
    }

    fn put_hier<D: Desk>(&mut self, w: &HierWitness, desk: &mut D) -> Result<(), Failed>
        requires { (D.state desk.old).created ≡ true }
        ensures { Gathers Log (spaced (kind_words hier_kinds (hier_numbers w.now))) result self.old self.new (D.state desk.old) (D.state desk.new) }
    {
        let place = w.number(0);
        self.put_kind(hier_word(place as usize), w, desk)
    }

    fn put_seq<D: Desk>(&mut self, w: &SeqWitness, desk: &mut D) -> Result<(), Failed>
        requires { (D.state desk.old).created ≡ true }
        ensures { Gathers Log (spaced (kind_words seq_kinds (seq_numbers w.now))) result self.old self.new (D.state desk.old) (D.state desk.new) }
    {
        let place = w.number(0);
        self.put_kind(seq_word(place as usize), w, desk)
    }

    fn put_cumul<D: Desk>(&mut self, w: &CumulWitness, desk: &mut D) -> Result<(), Failed>
        requires { (D.state desk.old).created ≡ true }
        ensures { Gathers Log (spaced (kind_words cumul_kinds (cumul_numbers w.now))) result self.old self.new (D.state desk.old) (D.state desk.new) }
    {
        let place = w.number(0);
        self.put_kind(cumul_word(place as usize), w, desk)
    }

    fn put_state<D: Desk>(&mut self, w: &StateWitness, desk: &mut D) -> Result<(), Failed>
        requires { (D.state desk.old).created ≡ true }
        ensures { Gathers Log (spaced (kind_words state_kinds (state_numbers w.now))) result self.old self.new (D.state desk.old) (D.state desk.new) }
    {
        let place = w.number(0);
        self.put_kind(state_word(place as usize), w, desk)
    }

    fn put_extra<W: Numbers, D: Desk>(&mut self, w: &W, desk: &mut D) -> Result<(), Failed>
        requires { (D.state desk.old).created ≡ true }
        ensures { Gathers Log (spaced (witness_words W.numbers (Extra w.now))) result self.old self.new (D.state desk.old) (D.state desk.new) }
    {
        self.put(b" EXTRA", desk)?;
        self.put_number(w.count(), desk)?;
        self.put_numbers(w, 0, desk)
    }

    pub(crate) fn put_witness<W: Numbers, D: Desk>(
        &mut self,
        w: &Witness<W>,
        desk: &mut D,
    ) -> Result<(), Failed>
        requires { (D.state desk.old).created ≡ true }
        ensures { Gathers Log (spaced (witness_words W.numbers w.now)) result self.old self.new (D.state desk.old) (D.state desk.new) }
    {
        match w {
            Witness::Basic(basic) => self.put_basic(basic, desk),
            Witness::Hier(hier) => self.put_hier(hier, desk),
            Witness::Seq(seq) => self.put_seq(seq, desk),
            Witness::Cumul(cumul) => self.put_cumul(cumul, desk),
            Witness::State(state) => self.put_state(state, desk),
            Witness::Extra(extra) => self.put_extra(extra, desk),
        }
    }

    fn put_present<D: Desk>(&mut self, s: i64, e: i64, desk: &mut D) -> Result<(), Failed>
        requires { (D.state desk.old).created ≡ true }
        ensures { Gathers Log (spaced (codes "p" ∷ signed_decimal s ∷ signed_decimal e ∷ [])) result self.old self.new (D.state desk.old) (D.state desk.new) }
    {
        self.put(b" p", desk)?;
        self.put_number(s, desk)?;
        self.put_number(e, desk)
    }

    #[tactic(auto, unfolding(textline::specs::Lines::spaced))]
    fn put_slot<D: Desk>(&mut self, slot: Slot, desk: &mut D) -> Result<(), Failed>
        requires { (D.state desk.old).created ≡ true }
        ensures { Gathers Log (spaced (slot_words slot)) result self.old self.new (D.state desk.old) (D.state desk.new) }
    {
        match slot {
            Slot::Absent => self.put(b" a", desk),
            Slot::Present { s, e } => self.put_present(s, e, desk),
        }
    }

    fn put_slots<D: Desk>(&mut self, slots: &[Slot], desk: &mut D) -> Result<(), Failed>
        requires { (D.state desk.old).created ≡ true }
        ensures { Gathers Log (spaced (flat_map slot_words slots.now)) result self.old self.new (D.state desk.old) (D.state desk.new) }
    {
        for slot in slots {
            self.put_slot(*slot, desk)?;
        }
        Ok(())
    }

    fn put_members<D: Desk>(&mut self, members: &[Itv], desk: &mut D) -> Result<(), Failed>
        requires { (D.state desk.old).created ≡ true }
        ensures { Gathers Log (spaced (map member_word members.now)) result self.old self.new (D.state desk.old) (D.state desk.new) }
    {
        for x in members {
            self.put_number(x.0, desk)?;
        }
        Ok(())
    }

    fn put_order<D: Desk>(&mut self, order: &[Itv], desk: &mut D) -> Result<(), Failed>
        requires { (D.state desk.old).created ≡ true }
        ensures { Gathers Log (spaced (order_words order.now)) result self.old self.new (D.state desk.old) (D.state desk.new) }
    {
        self.put(b" o", desk)?;
        self.put_number(order.len(), desk)?;
        self.put_members(order, desk)
    }

    fn put_orders<D: Desk>(&mut self, orders: &[List<Itv>], desk: &mut D) -> Result<(), Failed>
        requires { (D.state desk.old).created ≡ true }
        ensures { Gathers Log (spaced (flat_map order_words orders.now)) result self.old self.new (D.state desk.old) (D.state desk.new) }
    {
        for order in orders {
            self.put_order(order.as_slice(), desk)?;
        }
        Ok(())
    }

    fn put_segment<D: Desk>(&mut self, segment: Segment, desk: &mut D) -> Result<(), Failed>
        requires { (D.state desk.old).created ≡ true }
        ensures { Gathers Log (spaced (segment_words segment)) result self.old self.new (D.state desk.old) (D.state desk.new) }
    {
        self.put_number(segment.p, desk)?;
        self.put_number(segment.q, desk)?;
        self.put_number(segment.v, desk)
    }

    fn put_segments<D: Desk>(&mut self, segments: &[Segment], desk: &mut D) -> Result<(), Failed>
        requires { (D.state desk.old).created ≡ true }
        ensures { Gathers Log (spaced (flat_map segment_words segments.now)) result self.old self.new (D.state desk.old) (D.state desk.new) }
    {
        for segment in segments {
            self.put_segment(*segment, desk)?;
        }
        Ok(())
    }

    fn put_function<D: Desk>(&mut self, segments: &[Segment], desk: &mut D) -> Result<(), Failed>
        requires { (D.state desk.old).created ≡ true }
        ensures { Gathers Log (spaced (segments_words segments.now)) result self.old self.new (D.state desk.old) (D.state desk.new) }
    {
        self.put(b" g", desk)?;
        self.put_number(segments.len(), desk)?;
        self.put_segments(segments, desk)
    }

    fn put_functions<D: Desk>(
        &mut self,
        functions: &[List<Segment>],
        desk: &mut D,
    ) -> Result<(), Failed>
        requires { (D.state desk.old).created ≡ true }
        ensures { Gathers Log (spaced (flat_map segments_words functions.now)) result self.old self.new (D.state desk.old) (D.state desk.new) }
    {
        for segments in functions {
            self.put_function(segments.as_slice(), desk)?;
        }
        Ok(())
    }

    pub(crate) fn put_assignment<D: Desk>(
        &mut self,
        a: &Assignment,
        desk: &mut D,
    ) -> Result<(), Failed>
        requires { (D.state desk.old).created ≡ true }
        ensures { Gathers Log (spaced (assignment_words a.now)) result self.old self.new (D.state desk.old) (D.state desk.new) }
    {
        self.put_slots(a.slots.as_slice(), desk)?;
        self.put_orders(a.orders.as_slice(), desk)?;
        self.put_functions(a.segs.as_slice(), desk)
    }
}
