ghost use Rattle.std.specs.Prelude.{◌≡◌, [], ◌++◌, true, if◌then◌else◌, OnOk};
ghost use Rattle.gatherer.specs.code.Gathering.{Gathers};

use arrayvec::ArrayVec;
use sched_base::{Desk, Failed, Port};

/// Gathers bytes for a port, at most 8,192 of them, and writes them when there is no room for more.
/// It takes no memory. Contracts see the bytes that still wait. After a failure nothing further is to
/// be put: a call is still safe then, but what waits and what it writes is not promised.
#[derive(Drop)]
pub struct Gatherer {
    waiting: ArrayVec<u8, 8192>,
}

impl std::marker::Model for Gatherer {
    ghost use Rattle.std.specs.Prelude.{ℕ, List};

    ghost Value = { List ℕ };

    ghost view = { λ g. g.waiting.items };
}

impl Gatherer {
    /// Nothing is gathered.
    pub fn new() -> Gatherer
        ensures { result ≡ [] }
    {
        Gatherer {
            waiting: ArrayVec::new(),
        }
    }

    /// Puts the bytes behind those that wait, if there is room for them.
    #[inline(always)]
    fn hold(&mut self, bytes: &[u8]) -> bool
        ensures { self.new ≡ (if result then self.old ++ bytes.now else self.old) }
    {
        self.waiting.try_extend_from_slice(bytes).is_ok()
    }

    /// Writes all that waits.
    #[inline(never)]
    pub fn flush<D: Desk>(&mut self, to: Port, desk: &mut D) -> Result<(), Failed>
        requires { to ≡ Port.Log → (D.state desk.old).created ≡ true }
        ensures gathers { Gathers to [] result self.old self.new (D.state desk.old) (D.state desk.new) }
        ensures none { OnOk result (self.new ≡ []) }
    {
        desk.write(to, self.waiting.as_slice())?;
        self.waiting.clear();
        Ok(())
    }

    /// Writes all that waits, and puts the bytes where it was. A piece for which all the room isn't
    /// enough goes out by itself.
    #[inline(never)]
    fn put_anew<D: Desk>(&mut self, to: Port, bytes: &[u8], desk: &mut D) -> Result<(), Failed>
        requires { to ≡ Port.Log → (D.state desk.old).created ≡ true }
        ensures { Gathers to bytes.now result self.old self.new (D.state desk.old) (D.state desk.new) }
    {
        self.flush(to, desk)?;
        if self.hold(bytes) {
            return Ok(());
        }
        desk.write(to, bytes)
    }

    /// Puts the bytes behind those that wait for this port. Inlined, so that a word is copied without a
    /// loop over its length.
    #[inline(always)]
    pub fn put<D: Desk>(&mut self, to: Port, bytes: &[u8], desk: &mut D) -> Result<(), Failed>
        requires { to ≡ Port.Log → (D.state desk.old).created ≡ true }
        ensures { Gathers to bytes.now result self.old self.new (D.state desk.old) (D.state desk.new) }
    {
        if self.hold(bytes) {
            return Ok(());
        }
        self.put_anew(to, bytes, desk)
    }
}
