//! Lines that are read, and texts that are no line.
use kernel::Line;
use logtext::{Entry, EntryFault, LogReader};
use refute_basic::Basic;
use region::Guess;
use sched_base::{Itv, Seq};
use std::alloc::Global;

/// What is told of a text: a line, with the place behind it and the guess where it splits.
#[derive(Clone, Copy, PartialEq, Eq)]
enum Seen {
    Line(usize),
    Split(usize, Guess),
    Open,
    Bad,
    NoMemory,
}

fn read(alloc: Global, text: &[u8]) -> Seen {
    match LogReader::new(alloc).read_entry::<Basic>(alloc, text, 0) {
        Ok(Some((Entry::Step(Line::Split(g)), to))) => Seen::Split(to, g),
        Ok(Some((_, to))) => Seen::Line(to),
        Ok(None) => Seen::Open,
        Err(EntryFault::Bad) => Seen::Bad,
        Err(EntryFault::NoMemory) => Seen::NoMemory,
    }
}

/// Whether each text is read as one line.
fn are_read(alloc: Global, texts: &[&[u8]]) -> bool {
    for text in texts {
        let end = match read(alloc, text) {
            Seen::Line(to) => to,
            Seen::Split(to, _) => to,
            _ => return false,
        };
        if end != text.len() {
            return false;
        }
    }
    true
}

/// Whether each text is refused.
fn are_refused(alloc: Global, texts: &[&[u8]]) -> bool {
    for text in texts {
        if read(alloc, text) != Seen::Bad {
            return false;
        }
    }
    true
}

const LINES: [&[u8]; 14] = [
    b"schedlog 1\n",
    b"schedlog 2\n",
    b"restart\n",
    b"d P 0 LEAF 1 4294967295\n",
    b"f EXTRA 3 5 0 7\n",
    b"f ARC 4294967295 7\n",
    b"f CYCLE 0\n",
    b"f CYCLE 2 0 4294967295 1 7 9 0 0 0\n",
    b"s SL 4294967295 -4611686018427387904\n",
    b"s EG 0 4611686018427387904\n",
    b"s B 4294967295 0 7\n",
    b"v\n",
    b"v a p 0 1 o 2 1 0 o 0 g 1 0 4611686018427387904 -1\n",
    b"end\n",
];

/// Lines that split, and their guesses.
const SPLITS: [(&[u8], Guess); 2] = [
    (
        b"s SL 4294967295 -4611686018427387904\n",
        Guess::StartLe(Itv(4294967295), -4611686018427387904),
    ),
    (
        b"s B 4294967295 0 7\n",
        Guess::Before(Seq(4294967295), Itv(0), Itv(7)),
    ),
];

fn all_split(alloc: Global) -> bool {
    for (text, g) in &SPLITS {
        if read(alloc, text) != Seen::Split(text.len(), *g) {
            return false;
        }
    }
    true
}

#[test]
fn reads_lines(rt: HostRuntime) {
    assert!(rt; are_read(rt.alloc(), &LINES));
    assert!(rt; all_split(rt.alloc()));
    assert!(rt; read(rt.alloc(), b"end") == Seen::Open);
}

const OTHERS: [&[u8]; 26] = [
    b"\n",
    b"schedlog 01\n",
    b"schedlog 3\n",
    b"restart 1\n",
    b"end \n",
    b"end\r\n",
    b"end of it\n",
    b"x\n",
    b"f LEAF 00 0\n",
    b"f EXTRA 3 5 0\n",
    b"f ARC 0\n",
    b"f ARC 0 0 0\n",
    b"f CYCLE\n",
    b"f CYCLE 1 0 0 0\n",
    b"f CYCLE 2 0 0 0 0\n",
    b"f CYCLE 1 0 0 0 4294967296\n",
    b"f EXTRA 4294967295 5\n",
    b"s P +1\n",
    b"s  P 1\n",
    b"s P 1 \n",
    b"s P 4294967296\n",
    b"s EL 0 4611686018427387905\n",
    b"s EL 0 -0\n",
    b"s B 0 1\n",
    b"s B 0 1 2 3\n",
    b"s B 0 1 4294967296\n",
];

#[test]
fn refuses_other_spellings(rt: HostRuntime) {
    assert!(rt; are_refused(rt.alloc(), &OTHERS));
}
