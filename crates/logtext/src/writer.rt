ghost use Rattle.std.specs.Prelude.{◌≡◌, [], ◌∷◌, OnOk, IsTrue, true, codes};
ghost use Rattle.kernel.specs.Fit.{is_fit};
ghost use Rattle.kernel.specs.declared.types.Line.TheVariants as Line;
ghost use Rattle.textline.specs.Lines.{line};
ghost use Rattle.logtext.specs.Spelling.{guess_words, assignment_words, line_text, head_text, end_text};
ghost use Rattle.sched_base.specs.declared.desk.Port.TheVariants.{Log};
ghost use Rattle.gatherer.specs.code.Gathering.{Gathers};

use crate::version::Version;
use gatherer::Gatherer;
use itoa::{Buffer, Integer};
use kernel::{Line, Witness};
use region::{Guess, Numbers};
use sched_base::{Desk, Failed, Port};
use sched_model::Assignment;

/// Writes the lines of a log. It gathers them and takes no memory; contracts see the bytes that still
/// wait. After a failure nothing further is to be written: a call is still safe then, but what waits
/// and what it writes is not promised.
#[derive(Drop)]
pub struct LogWriter {
    waiting: Gatherer,
}

impl std::marker::Model for LogWriter {
    ghost use Rattle.std.specs.Prelude.{ℕ, List};

    ghost Value = { List ℕ };

    ghost view = { λ w. w.waiting };
}

impl LogWriter {
    /// A writer with nothing gathered.
    pub fn new() -> LogWriter
        ensures { result ≡ [] }
    {
        LogWriter {
            waiting: Gatherer::new(),
        }
    }

    /// Puts the bytes behind those that wait. Inlined, so that a word is copied without a loop over
    /// its length: this more than halves the time for a line.
    #[inline(always)]
    pub(crate) fn put<D: Desk>(&mut self, bytes: &[u8], desk: &mut D) -> Result<(), Failed>
        requires { (D.state desk.old).created ≡ true }
        ensures { Gathers Log bytes.now result self.old self.new (D.state desk.old) (D.state desk.new) }
    {
        self.waiting.put(Port::Log, bytes, desk)
    }

    /// Writes all that waits.
    fn flush<D: Desk>(&mut self, desk: &mut D) -> Result<(), Failed>
        requires { (D.state desk.old).created ≡ true }
        ensures gathers { Gathers Log [] result self.old self.new (D.state desk.old) (D.state desk.new) }
        ensures none { OnOk result (self.new ≡ []) }
    {
        self.waiting.flush(Port::Log, desk)
    }

    /// A space and a number.
    pub(crate) fn put_number<I: Integer, D: Desk>(
        &mut self,
        n: I,
        desk: &mut D,
    ) -> Result<(), Failed>
        requires { (D.state desk.old).created ≡ true }
        ensures { Gathers Log (32 ∷ I.text n) result self.old self.new (D.state desk.old) (D.state desk.new) }
    {
        let mut buffer = Buffer::new();
        self.put(b" ", desk)?;
        self.put_digits(buffer.format(n).as_bytes(), desk)
    }

    /// The bytes of a number, one by one: they are few, and to have them copied costs more than they do.
    fn put_digits<D: Desk>(&mut self, digits: &[u8], desk: &mut D) -> Result<(), Failed>
        requires { (D.state desk.old).created ≡ true }
        ensures { Gathers Log digits.now result self.old self.new (D.state desk.old) (D.state desk.new) }
    {
        for digit in digits {
            self.put(&[*digit], desk)?;
        }
        Ok(())
    }

    fn put_derive<W: Numbers, D: Desk>(
        &mut self,
        g: Guess,
        w: &Witness<W>,
        desk: &mut D,
    ) -> Result<(), Failed>
        requires { (D.state desk.old).created ≡ true }
        ensures { Gathers Log (line_text W.numbers (Line.Derive g w.now)) result self.old self.new (D.state desk.old) (D.state desk.new) }
    {
        self.put(b"d", desk)?;
        self.put_guess(g, desk)?;
        self.put_witness(w, desk)?;
        self.put(b"\n", desk)
    }

    fn put_fail<W: Numbers, D: Desk>(&mut self, w: &Witness<W>, desk: &mut D) -> Result<(), Failed>
        requires { (D.state desk.old).created ≡ true }
        ensures { Gathers Log (line_text W.numbers (Line.Fail w.now)) result self.old self.new (D.state desk.old) (D.state desk.new) }
    {
        self.put(b"f", desk)?;
        self.put_witness(w, desk)?;
        self.put(b"\n", desk)
    }

    fn put_split<D: Desk>(&mut self, g: Guess, desk: &mut D) -> Result<(), Failed>
        requires { (D.state desk.old).created ≡ true }
        ensures { Gathers Log (line (codes "s" ∷ guess_words g)) result self.old self.new (D.state desk.old) (D.state desk.new) }
    {
        self.put(b"s", desk)?;
        self.put_guess(g, desk)?;
        self.put(b"\n", desk)
    }

    fn put_sol<D: Desk>(&mut self, a: &Assignment, desk: &mut D) -> Result<(), Failed>
        requires { (D.state desk.old).created ≡ true }
        ensures { Gathers Log (line (codes "v" ∷ assignment_words a.now)) result self.old self.new (D.state desk.old) (D.state desk.new) }
    {
        self.put(b"v", desk)?;
        self.put_assignment(a, desk)?;
        self.put(b"\n", desk)
    }

    /// The first line.
    pub fn write_head<D: Desk>(&mut self, version: Version, desk: &mut D) -> Result<(), Failed>
        requires { (D.state desk.old).created ≡ true }
        ensures { Gathers Log (head_text version) result self.old self.new (D.state desk.old) (D.state desk.new) }
    {
        match version {
            Version::One => self.put(b"schedlog 1\n", desk),
            Version::Two => self.put(b"schedlog 2\n", desk),
        }
    }

    /// A line that steps.
    pub fn write_line<W: Numbers, D: Desk>(
        &mut self,
        line: &Line<W>,
        desk: &mut D,
    ) -> Result<(), Failed>
        requires created { (D.state desk.old).created ≡ true }
        requires fit { IsTrue (is_fit W.is_valid line.now) }
        ensures { Gathers Log (line_text W.numbers line.now) result self.old self.new (D.state desk.old) (D.state desk.new) }
    {
        match line {
            Line::Derive(g, w) => self.put_derive(*g, w, desk),
            Line::Fail(w) => self.put_fail(w, desk),
            Line::Split(g) => self.put_split(*g, desk),
            Line::Sol(a) => self.put_sol(a, desk),
            Line::Restart => self.put(b"restart\n", desk),
        }
    }

    /// The last line. With it all that waited is written.
    pub fn write_end<D: Desk>(&mut self, desk: &mut D) -> Result<(), Failed>
        requires { (D.state desk.old).created ≡ true }
        ensures gathers { Gathers Log end_text result self.old self.new (D.state desk.old) (D.state desk.new) }
        ensures none { OnOk result (self.new ≡ []) }
    {
        self.put(b"end\n", desk)?;
        self.flush(desk)
    }
}
