ghost use Rattle.std.specs.Prelude.{◌≡◌, ◌<◌, ◌≤◌, length, slice_index_or, IsTrue, not};
ghost use Rattle.std.specs.List.{position, list_all};
ghost use Rattle.sched_model.specs.Data.{has, same};
ghost use Rattle.sched_model.specs.Valid.{is_moment};
ghost use Rattle.region.specs.Cells.{bounds_of, cells_of, is_settled, is_ordered, is_known_order, is_fixed, is_there, unknown};
ghost use Rattle.region.specs.Orders.{is_before, order_in};
ghost use Rattle.region.specs.Guesses.{looked_at};
ghost use Rattle.region.specs.Looks.{HasMoments, is_shifted, est_of, lst_of, ect_of, lct_of};
ghost use Rattle.region.specs.code.Flat.{IsLook, region_from};

use crate::claims::{earliest_end, is_fixed, is_forward, is_unknown, latest_start};
use crate::flat::{
    bounds_under, emax_under, emin_under, order_under, presence_under, read_bounds, read_greatest,
    read_least, read_number, read_order, read_presence, smax_under, smin_under,
};
use crate::frame::Frame;
use crate::types::{Bounds, Guess, OrderCell, Presence};
use sched_base::{Itv, Seq};
use std::marker::Model;

/// A region with a guess applied, beside the best value of the objective so far. It borrows the
/// cells of the region, and the guess is applied where a cell is read.
#[derive(Debug, Drop)]
pub struct Look<'a> {
    frame: &'a Frame,
    cells: &'a [i64],
    guess: Option<Guess>,
    best: Option<i64>,
}

impl<'a> Model for Look<'a> {
    ghost use Rattle.region.specs.Guesses.{looked_at};
    ghost use Rattle.region.specs.Looks.{Seen};
    ghost use Rattle.region.specs.code.Flat.{IsLook, region_from};

    ghost Value = { Seen };

    ghost view = { λ l. record { region = looked_at l.guess (region_from l.frame.now l.cells.now); best = l.best } };

    ghost invariant = { λ l. IsLook l.frame.now l.cells.now l.guess };
}

impl<'a> Look<'a> {
    /// The look at these cells under this guess.
    pub(crate) fn new(
        frame: &'a Frame,
        cells: &'a [i64],
        guess: Option<Guess>,
        best: Option<i64>,
    ) -> Look<'a>
        requires { IsLook frame.now cells.now guess }
        ensures { result ≡ record { region = looked_at guess (region_from frame.entry.now cells.entry.now); best = best } }
    {
        Look {
            frame,
            cells,
            guess,
            best,
        }
    }

    /// The best value of the objective so far.
    pub fn best(&self) -> Option<i64>
        ensures { result ≡ self.now.best }
    {
        self.best
    }

    /// How many intervals there are.
    pub fn len(&self) -> usize
        ensures { result ≡ length self.now.region.bounds }
    {
        self.frame.len()
    }

    pub(crate) fn bounds_at(&self, n: usize) -> Bounds
        requires { n < length self.now.region.bounds }
        ensures value { result ≡ slice_index_or self.now.region.bounds n unknown }
        ensures moments { HasMoments result }
    {
        let c = read_bounds(self.frame, self.cells, n);
        match self.guess {
            None => c,
            Some(g) => bounds_under(g.topic(), n, c),
        }
    }

    /// What is known of an interval under the guess.
    pub fn bounds(&self, x: Itv) -> Bounds
        requires { x.0 < length self.now.region.bounds }
        ensures value { result ≡ bounds_of self.now.region x }
        ensures moments { HasMoments result }
    {
        self.bounds_at(x.0 as usize)
    }

    /// Whether the interval is there.
    pub fn presence(&self, x: Itv) -> Presence
        requires { x.0 < length self.now.region.bounds }
        ensures { result ≡ (bounds_of self.now.region x).presence }
    {
        let n = x.0 as usize;
        let presence = read_presence(self.frame, self.cells, n);
        match self.guess {
            None => presence,
            Some(g) => presence_under(g.topic(), n, presence),
        }
    }

    /// The least start.
    pub fn smin(&self, x: Itv) -> i64
        requires { x.0 < length self.now.region.bounds }
        ensures value { result ≡ (bounds_of self.now.region x).smin }
        ensures moment { IsTrue (is_moment result) }
    {
        let n = x.0 as usize;
        let smin = read_number(self.frame, self.cells, n, 1);
        match self.guess {
            None => smin,
            Some(g) => smin_under(g.topic(), n, smin),
        }
    }

    /// The greatest start.
    pub fn smax(&self, x: Itv) -> i64
        requires { x.0 < length self.now.region.bounds }
        ensures value { result ≡ (bounds_of self.now.region x).smax }
        ensures moment { IsTrue (is_moment result) }
    {
        let n = x.0 as usize;
        let smax = read_number(self.frame, self.cells, n, 2);
        match self.guess {
            None => smax,
            Some(g) => smax_under(g.topic(), n, smax),
        }
    }

    /// The least end.
    pub fn emin(&self, x: Itv) -> i64
        requires { x.0 < length self.now.region.bounds }
        ensures value { result ≡ (bounds_of self.now.region x).emin }
        ensures moment { IsTrue (is_moment result) }
    {
        let n = x.0 as usize;
        let emin = read_number(self.frame, self.cells, n, 3);
        match self.guess {
            None => emin,
            Some(g) => emin_under(g.topic(), n, emin),
        }
    }

    /// The greatest end.
    pub fn emax(&self, x: Itv) -> i64
        requires { x.0 < length self.now.region.bounds }
        ensures value { result ≡ (bounds_of self.now.region x).emax }
        ensures moment { IsTrue (is_moment result) }
    {
        let n = x.0 as usize;
        let emax = read_number(self.frame, self.cells, n, 4);
        match self.guess {
            None => emax,
            Some(g) => emax_under(g.topic(), n, emax),
        }
    }

    /// The least size, as declared.
    pub fn pmin(&self, x: Itv) -> i64
        requires { x.0 < length self.now.region.bounds }
        ensures value { result ≡ (bounds_of self.now.region x).pmin }
        ensures moment { IsTrue (is_moment result) }
    {
        read_least(self.frame, self.cells, x.0 as usize)
    }

    /// The greatest size, as declared.
    pub fn pmax(&self, x: Itv) -> i64
        requires { x.0 < length self.now.region.bounds }
        ensures value { result ≡ (bounds_of self.now.region x).pmax }
        ensures moment { IsTrue (is_moment result) }
    {
        read_greatest(self.frame, self.cells, x.0 as usize)
    }

    /// The earliest start (Vilím 2007, chapter 1).
    pub fn est(&self, x: Itv) -> i64
        requires { x.0 < length self.now.region.bounds }
        ensures value { result ≡ est_of self.now.region x }
        ensures moment { IsTrue (is_moment result) }
    {
        self.smin(x)
    }

    /// The latest completion.
    pub fn lct(&self, x: Itv) -> i64
        requires { x.0 < length self.now.region.bounds }
        ensures value { result ≡ lct_of self.now.region x }
        ensures moment { IsTrue (is_moment result) }
    {
        self.emax(x)
    }

    /// The latest start that the latest completion and the least size leave.
    pub fn lst(&self, x: Itv) -> i64
        requires { x.0 < length self.now.region.bounds }
        ensures value { result ≡ lst_of self.now.region x }
        ensures small { IsTrue (is_shifted result) }
    {
        latest_start(self.smax(x), self.emax(x), self.pmin(x))
    }

    /// The earliest completion that the earliest start and the least size leave.
    pub fn ect(&self, x: Itv) -> i64
        requires { x.0 < length self.now.region.bounds }
        ensures value { result ≡ ect_of self.now.region x }
        ensures small { IsTrue (is_shifted result) }
    {
        earliest_end(self.emin(x), self.smin(x), self.pmin(x))
    }

    /// Which of two members of a sequence stands before the other: forward where the first that is
    /// named does. Of one alone, and of others than members, nothing is known.
    pub fn order(&self, p: Seq, a: Itv, b: Itv) -> OrderCell
        ensures { result ≡ order_in (cells_of self.now.region p) a b }
    {
        let order = read_order(self.frame, self.cells, p, a, b);
        match self.guess {
            None => order,
            Some(g) => order_under(g.topic(), p, a, b, order),
        }
    }

    /// Whether the first of two members is told to stand before the second.
    pub(crate) fn is_before(&self, p: Seq, x: Itv, y: Itv) -> bool
        ensures { result ≡ is_before (cells_of self.now.region p) x y }
    {
        is_forward(self.order(p, x, y))
    }

    /// The place of an interval among the members of a sequence, where it is one of them.
    pub fn place(&self, p: Seq, x: Itv) -> Option<usize>
        ensures { result ≡ position (same x) (cells_of self.now.region p).members }
    {
        if p.0 as usize >= self.frame.sequences() {
            return None;
        }
        let row = self.frame.row(p);
        let place = row.place(x);
        if place < row.members.len() {
            return Some(place);
        }
        None
    }

    /// Whether an interval is a member of a sequence.
    pub(crate) fn is_member(&self, p: Seq, x: Itv) -> bool
        ensures { result ≡ has (cells_of self.now.region p).members x }
    {
        self.place(p, x).is_some()
    }

    /// How many sequences there are.
    pub(crate) fn sequences(&self) -> usize
        ensures value { result ≡ length self.now.region.orders }
        ensures few { result ≤ 200 }
    {
        self.frame.sequences()
    }

    /// The members of a sequence.
    pub(crate) fn members(&self, p: Seq) -> &[Itv]
        requires { p.0 < length self.now.region.orders }
        ensures { result.now ≡ (cells_of self.now.region p).members }
    {
        self.frame.row(p).members.as_slice()
    }

    fn are_fixed(&self) -> bool
        ensures { result ≡ list_all is_fixed self.now.region.bounds }
    {
        for n in 0..self.len() {
            if !is_fixed(self.bounds_at(n)) {
                return false;
            }
        }
        true
    }

    /// Whether the two are both told to be there, and their order isn't known.
    fn is_open_order(&self, p: Seq, x: Itv, y: Itv) -> bool
        requires within { p.0 < length self.now.region.orders }
        ensures { not result ≡ is_known_order self.now.region (cells_of self.now.region p) x y }
    {
        self.is_told_there(x) && self.is_told_there(y) && is_unknown(self.order(p, x, y))
    }

    fn is_told_there(&self, x: Itv) -> bool
        ensures { result ≡ is_there self.now.region x }
    {
        (x.0 as usize) < self.len() && self.presence(x) == Presence::Present
    }

    fn is_ordered_with(&self, p: Seq, x: Itv, later: &[Itv]) -> bool
        requires within { p.0 < length self.now.region.orders }
        ensures { result ≡ list_all (is_known_order self.now.region (cells_of self.now.region p) x) later.now }
    {
        for y in later {
            if self.is_open_order(p, x, *y) {
                return false;
            }
        }
        true
    }

    fn is_ordered(&self, p: Seq) -> bool
        requires within { p.0 < length self.now.region.orders }
        ensures { result ≡ is_ordered self.now.region (cells_of self.now.region p) }
    {
        let members = self.members(p);
        for i in 0..members.len() {
            if !self.is_ordered_with(p, members[i], &members[i + 1..]) {
                return false;
            }
        }
        true
    }

    fn are_ordered(&self) -> bool
        ensures { result ≡ list_all (is_ordered self.now.region) self.now.region.orders }
    {
        for p in 0..self.sequences() {
            if !self.is_ordered(Seq(p as u32)) {
                return false;
            }
        }
        true
    }

    /// Whether nothing is open: each presence is known, each present interval has one start and one
    /// end, and the order of each two present members is known.
    pub fn settled(&self) -> bool
        ensures { result ≡ is_settled self.now.region }
    {
        self.are_fixed() && self.are_ordered()
    }
}
