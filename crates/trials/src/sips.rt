//! A desk that hands over few bytes at a time.
use sched_base::{Desk, Failed, Inlet, MemDesk, Port};

/// A desk in memory of which each read gives at most so many bytes, and one at least.
#[derive(Drop)]
pub struct Sips {
    pub desk: MemDesk,
    pub most: usize,
}

impl Desk for Sips {
    ghost use Rattle.std.specs.Prelude.{◌≡◌, ◌<◌, true, length, refl};
    ghost use Rattle.sched_base.specs.declared.desk.Port.TheVariants as Port;
    ghost use Rattle.sched_base.specs.State.{is_opened};
    ghost use Rattle.sched_base.specs.Calls.{Opens, Reads, Creates, Writes};
    ghost use Rattle.sched_base.specs.code.Memory.{memory_state};

    ghost state = { λ s. memory_state s.desk };

    fn open_in(&mut self, slot: Inlet, name: &str) -> Result<(), Failed>
        ensures { Opens slot name.now result (memory_state self.old.desk) (memory_state self.new.desk) }
    {
        self.desk.open_in(slot, name)
    }

    fn read(&mut self, slot: Inlet, into: &mut [u8]) -> Result<usize, Failed>
        requires room { 0 < length into.old }
        requires opened { is_opened slot (memory_state self.old.desk) ≡ true }
        ensures { Reads slot into.old into.new result (memory_state self.old.desk) (memory_state self.new.desk) }
    {
        let n = self.most.max(1).min(into.len());
        self.desk.read(slot, &mut into[..n])
    }

    fn create_log(&mut self, name: &str) -> Result<(), Failed>
        ensures { Creates name.now result (memory_state self.old.desk) (memory_state self.new.desk) }
    {
        self.desk.create_log(name)
    }

    fn write(&mut self, to: Port, bytes: &[u8]) -> Result<(), Failed>
        requires { to ≡ Port.Log → (memory_state self.old.desk).created ≡ true }
        ensures { Writes to bytes.now result (memory_state self.old.desk) (memory_state self.new.desk) }
    {
        self.desk.write(to, bytes)
    }

    ghost calm_tells = { λ d e. refl };
}
