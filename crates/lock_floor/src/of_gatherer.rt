//! Bytes that are gathered for a port.
ghost use Rattle.std.specs.Prelude.{◌≡◌, [], true, OnOk};
ghost use Rattle.gatherer.specs.code.Gathering.{Gathers};

use gatherer::Gatherer;
use sched_base::{Desk, Failed, Port};

pub fn flush<D: Desk>(gatherer: &mut Gatherer, to: Port, desk: &mut D) -> Result<(), Failed>
    requires { to ≡ Port.Log → (D.state desk.old).created ≡ true }
    ensures gathers { Gathers to [] result gatherer.old gatherer.new (D.state desk.old) (D.state desk.new) }
    ensures none { OnOk result (gatherer.new ≡ []) }
{
    gatherer.flush(to, desk)
}

pub fn put<D: Desk>(
    gatherer: &mut Gatherer,
    to: Port,
    bytes: &[u8],
    desk: &mut D,
) -> Result<(), Failed>
    requires { to ≡ Port.Log → (D.state desk.old).created ≡ true }
    ensures { Gathers to bytes.now result gatherer.old gatherer.new (D.state desk.old) (D.state desk.new) }
{
    gatherer.put(to, bytes, desk)
}
