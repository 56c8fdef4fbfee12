//! Lists, boxes and the desk.
ghost use Rattle.std.specs.Prelude.{◌≡◌, [], ◌∷◌, ◌++◌, ◌<◌, length, slice_get, slice_index_or, OnOk, OnErr, IfOk, IsSome, true, ◌≤◌, false, take, IfSome, Err, option_map, drop};
ghost use Rattle.std.specs.Option.{option_copied};
ghost use Rattle.sched_base.specs.State.{is_opened, left_in};
ghost use Rattle.sched_base.specs.Calls.{Opens, Reads, Creates, Writes, Rose, Moved};

use sched_base::{Boxed, Desk, Failed, Inlet, List, NoMemory, Port, ReadError};
use std::alloc::Global;

pub fn as_slice<T>(list: &List<T>) -> &[T]
    ensures { result.now ≡ list.now }
{
    list.as_slice()
}

pub fn list_get<T>(list: &List<T>, i: usize) -> &T
    requires { i < length list.now }
    ensures { result.now ≡ slice_index_or list.now i result.now }
{
    list.get(i)
}

pub fn push<T: Drop>(list: &mut List<T>, item: T) -> Result<(), NoMemory>
    ensures ok { OnOk result (list.new ≡ list.old ++ item ∷ []) }
    ensures err { OnErr result (list.new ≡ list.old) }
{
    list.push(item)
}

pub fn at<T>(items: &[T], i: usize) -> Option<&T>
    ensures { option_copied result ≡ slice_get items.now i }
{
    sched_base::at(items, i)
}

pub fn boxed_new<T: Drop>(alloc: Global, value: T) -> Result<Boxed<T>, NoMemory>
    ensures { IfOk result (λ b. b ≡ value) }
{
    Boxed::new(alloc, value)
}

pub fn boxed_get<T>(boxed: &Boxed<T>) -> &T
    ensures { result.now ≡ boxed.now }
{
    boxed.get()
}

pub fn open_in<D: Desk>(desk: &mut D, slot: Inlet, name: &str) -> Result<(), Failed>
    ensures { Opens slot name.now result (D.state desk.old) (D.state desk.new) }
{
    desk.open_in(slot, name)
}

pub fn read<D: Desk>(desk: &mut D, slot: Inlet, into: &mut [u8]) -> Result<usize, Failed>
    requires room { 0 < length into.old }
    requires opened { is_opened slot (D.state desk.old) ≡ true }
    ensures { Reads slot into.old into.new result (D.state desk.old) (D.state desk.new) }
{
    desk.read(slot, into)
}

pub fn create_log<D: Desk>(desk: &mut D, name: &str) -> Result<(), Failed>
    ensures { Creates name.now result (D.state desk.old) (D.state desk.new) }
{
    desk.create_log(name)
}

pub fn write<D: Desk>(desk: &mut D, to: Port, bytes: &[u8]) -> Result<(), Failed>
    requires { to ≡ Port.Log → (D.state desk.old).created ≡ true }
    ensures { Writes to bytes.now result (D.state desk.old) (D.state desk.new) }
{
    desk.write(to, bytes)
}

pub fn read_up_to<D: Desk>(
    alloc: Global,
    desk: &mut D,
    slot: Inlet,
    limit: usize,
) -> Result<List<u8>, ReadError>
    requires opened { is_opened slot (D.state desk.old) ≡ true }
    ensures bytes { IfOk result (λ v. IfSome (left_in slot (D.state desk.old)) (λ bs. v ≡ take limit bs)) }
    ensures short { IfOk result (λ v. length v ≤ limit) }
    ensures left { IfOk result (λ v. left_in slot (D.state desk.new) ≡ option_map (drop (length v)) (left_in slot (D.state desk.old))) }
    ensures kept { OnOk result ((D.state desk.new).faults ≡ (D.state desk.old).faults) }
    ensures moved { Moved slot (D.state desk.old) (D.state desk.new) }
    ensures failed { result ≡ Err ReadError.Failed → Rose (D.state desk.old).faults (D.state desk.new).faults }
    ensures calm { result ≡ Err ReadError.Failed → (D.state desk.old).calm ≡ false }
    ensures memory { result ≡ Err ReadError.NoMemory → (D.state desk.new).faults ≡ (D.state desk.old).faults }
{
    sched_base::read_up_to(alloc, desk, slot, limit)
}

/// A law of every desk: a calm one tells its files.
pub fn calm_tells<D: Desk>(desk: &D)
    ensures { (D.state desk.now).calm ≡ true → IsSome (D.state desk.now).files }
{
    let _ = desk;
}
