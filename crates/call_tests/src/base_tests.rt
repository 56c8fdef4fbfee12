//! Lists, boxes, desks in memory, and lines of words.
use sched_base::{
    Boxed, CalmDesk, Desk, File, Inlet, List, MemDesk, NoMemory, Port, at, read_up_to,
};
use std::alloc::Global;
use std::test::Fail;
use textline::{Words, push_number, read_count, read_number};

fn is_boxed(alloc: Global) -> Result<bool, NoMemory> {
    let b = Boxed::new(alloc, 5u8)?;
    let shown = *b.get();
    let inner = b.into_inner();
    Ok(shown == 5 && inner == 5)
}

#[test]
fn boxes(rt: HostRuntime) -> Result<(), Fail> {
    assert!(rt; is_boxed(rt.alloc())?);
    Ok(())
}

fn push_two(list: &mut List<u8>) -> Result<(), NoMemory> {
    list.push(7)?;
    list.push(9)
}

fn two(alloc: Global) -> Result<List<u8>, NoMemory> {
    let mut list = List::new(alloc);
    push_two(&mut list)?;
    Ok(list)
}

fn holds_two(list: &List<u8>) -> bool {
    list.len() == 2
        && *list.get(1) == 9
        && list.as_slice() == [7, 9].as_slice()
        && at(list.as_slice(), 2).is_none()
}

fn is_listed(alloc: Global) -> Result<bool, NoMemory> {
    let list = two(alloc)?;
    let holds = holds_two(&list);
    let items = list.into_vec();
    Ok(holds && items.as_slice() == [7, 9].as_slice())
}

#[test]
fn lists(rt: HostRuntime) -> Result<(), Fail> {
    assert!(rt; is_listed(rt.alloc())?);
    Ok(())
}

/// Calls of a desk, with whether they go well, or what is read.
#[derive(Clone, Copy)]
enum Act {
    Open(&'static str, bool),
    Read(Inlet, usize, &'static [u8]),
    Out(&'static [u8], bool),
    Err(&'static [u8], bool),
    Log(&'static str, &'static [u8]),
}

/// Whether so many bytes of the file `m` are these.
fn reads<D: Desk>(alloc: Global, desk: &mut D, slot: Inlet, most: usize, want: &[u8]) -> bool {
    if desk.open_in(slot, "m").is_err() {
        return false;
    }
    match read_up_to(alloc, desk, slot, most) {
        Ok(bytes) => bytes.as_slice() == want,
        Err(_) => false,
    }
}

fn logs<D: Desk>(desk: &mut D, name: &str, bytes: &[u8]) -> bool {
    if desk.create_log(name).is_err() {
        return false;
    }
    desk.write(Port::Log, bytes).is_ok()
}

fn goes(alloc: Global, desk: &mut MemDesk, act: Act) -> bool {
    match act {
        Act::Open(name, well) => desk.open_in(Inlet::Model, name).is_ok() == well,
        Act::Read(slot, most, want) => reads(alloc, desk, slot, most, want),
        Act::Out(bytes, well) => desk.write(Port::Out, bytes).is_ok() == well,
        Act::Err(bytes, well) => desk.write(Port::Err, bytes).is_ok() == well,
        Act::Log(name, bytes) => logs(desk, name, bytes),
    }
}

fn wrong_act(alloc: Global, desk: &mut MemDesk, acts: &[Act]) -> Option<usize> {
    for (n, act) in acts.iter().enumerate() {
        if !goes(alloc, desk, *act) {
            return Some(n);
        }
    }
    None
}

fn listed(alloc: Global, bytes: &[u8]) -> Result<List<u8>, NoMemory> {
    Ok(List::from_vec(Vec::from_slice(alloc, bytes)?))
}

fn push_file(
    alloc: Global,
    files: &mut List<File>,
    name: &[u8],
    bytes: &[u8],
) -> Result<(), NoMemory> {
    let name = listed(alloc, name)?;
    let bytes = listed(alloc, bytes)?;
    files.push(File { name, bytes })
}

fn one_file(alloc: Global) -> Result<List<File>, NoMemory> {
    let mut files = List::new(alloc);
    push_file(alloc, &mut files, b"m", b"hello")?;
    Ok(files)
}

/// A desk with the file `m`, which holds `hello`, that fails the calls of these numbers.
fn desk(alloc: Global, failing: &[u32]) -> Result<MemDesk, NoMemory> {
    let numbers = List::from_vec(Vec::from_slice(alloc, failing)?);
    let files = one_file(alloc)?;
    MemDesk::new(alloc, files, numbers)
}

/// What a desk was left with: standard output, standard error, and a log.
type Left = (&'static [u8], &'static [u8], &'static [u8]);

fn is_left(desk: &MemDesk, left: Left) -> bool {
    let (out, err, log) = left;
    desk.out() == out && desk.err() == err && desk.log_bytes() == log
}

/// Whether the one log that was created has this name.
fn is_named(desk: &MemDesk, name: &[u8]) -> bool {
    desk.logs().len() == 1 && desk.logs()[0].as_slice() == name
}

/// Whether all calls go as told, and leave the desk so.
fn goes_well(alloc: Global, failing: &[u32], acts: &[Act], left: Left) -> Result<bool, NoMemory> {
    let mut desk = desk(alloc, failing)?;
    Ok(wrong_act(alloc, &mut desk, acts).is_none() && is_left(&desk, left) && is_named(&desk, b"l"))
}

#[test]
fn reads_and_writes(rt: HostRuntime) -> Result<(), Fail> {
    let acts = [
        Act::Open("n", false),
        Act::Read(Inlet::Model, 4, b"hell"),
        Act::Out(b"ab", true),
        Act::Out(b"cd", true),
        Act::Err(b"ef", false),
        Act::Err(b"gh", true),
        Act::Log("l", b"ij"),
    ];
    let left: Left = (b"abcd", b"gh", b"ij");
    assert!(rt; goes_well(rt.alloc(), &[5], &acts, left)?);
    Ok(())
}

fn reads_whole(alloc: Global) -> Result<bool, NoMemory> {
    let mut desk = desk(alloc, &[])?;
    Ok(goes(alloc, &mut desk, Act::Read(Inlet::Log, 9, b"hello")))
}

#[test]
fn reads_to_the_end(rt: HostRuntime) -> Result<(), Fail> {
    assert!(rt; reads_whole(rt.alloc())?);
    Ok(())
}

/// Whether nothing fails on a calm desk with the file `m` but to open another.
fn is_calm(alloc: Global) -> Result<bool, NoMemory> {
    let files = one_file(alloc)?;
    let mut desk = CalmDesk::new(alloc, files)?;
    Ok(
        desk.open_in(Inlet::Model, "n").is_err()
            && reads(alloc, &mut desk, Inlet::Log, 9, b"hello")
            && logs(&mut desk, "l", b"ij"),
    )
}

#[test]
fn stays_calm(rt: HostRuntime) -> Result<(), Fail> {
    assert!(rt; is_calm(rt.alloc())?);
    Ok(())
}

/// Words, and the numbers and counts that they are.
const NUMBERS: [(&[u8], Option<i64>, Option<u64>); 4] = [
    (b"-9223372036854775808", Some(i64::MIN), None),
    (
        b"9223372036854775808",
        None,
        Some(9_223_372_036_854_775_808),
    ),
    (b"18446744073709551615", None, Some(u64::MAX)),
    (b"18446744073709551616", None, None),
];

fn are_numbers(rows: &[(&[u8], Option<i64>, Option<u64>)]) -> bool {
    for (word, number, count) in rows {
        if read_number(word) != *number || read_count(word) != *count {
            return false;
        }
    }
    true
}

fn spelled(alloc: Global, number: i64) -> Result<Vec<u8>, Fail> {
    let mut text = Vec::new(alloc);
    push_number(&mut text, number)?;
    Ok(text)
}

#[test]
fn numbers(rt: HostRuntime) -> Result<(), Fail> {
    assert!(rt; are_numbers(&NUMBERS));
    let text = spelled(rt.alloc(), -7)?;
    assert_eq!(rt; text.as_slice(), b"-7".as_slice());
    Ok(())
}

fn takes_words() -> bool {
    let mut words = Words::of(b"s  end");
    !words.take(b"end")
        && words.take(b"s")
        && words.next() == Some(b"".as_slice())
        && words.next() == Some(b"end".as_slice())
        && words.is_done()
}

#[test]
fn words(rt: HostRuntime) {
    assert!(rt; takes_words());
}
