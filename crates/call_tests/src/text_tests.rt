//! Trees of statements, and a model whose named functions and sequences come first.
use crate::models::{Rows, first_wrong, unless};
use cpo_text::{
    Constrained, Cpart, Cumul, Definition, Form, Int, Ivarg, Moments, Over, Range, Statement, Tree,
    read_text, reading_is_determined,
};
use sched_base::at;
use sched_model::{Constraint, Model, Part, Shape, Window};
use std::alloc::Global;

fn int(minus: bool, size: u64) -> Int {
    Int {
        minus,
        size: Some(size),
    }
}

/// The statement of a text with one statement, where it has a tree.
fn only(tree: &Tree) -> Option<&Statement> {
    match tree.statements.as_slice() {
        [reading] => match &reading.form {
            Form::Tree(statement) => Some(statement),
            Form::Number(_) => None,
        },
        _ => None,
    }
}

/// `noOverlap([a,bc],m,1)`
fn is_no_overlap(statement: &Statement) -> bool {
    match statement {
        Statement::Constrain(Constrained::NoOverlap(Over::Listed(members), Some(spaced))) => {
            match members.as_slice() {
                [first, second] => {
                    first.as_slice() == b"a".as_slice()
                        && second.as_slice() == b"bc".as_slice()
                        && spaced.matrix.as_slice() == b"m".as_slice()
                        && spaced.direct == Some(true)
                }
                _ => false,
            }
        }
        _ => false,
    }
}

/// `-pulse(0,10,2)+g`
fn is_sum(cumul: &Cumul) -> bool {
    let Cpart::Pulse(from, to, height) = &cumul.first.part else {
        return false;
    };
    let [more] = cumul.more.as_slice() else {
        return false;
    };
    let Cpart::Named(other) = &more.part else {
        return false;
    };
    cumul.first.minus
        && *from == int(false, 0)
        && *to == int(false, 10)
        && *height == int(false, 2)
        && !more.minus
        && other.as_slice() == b"g".as_slice()
}

/// `f = -pulse(0,10,2)+g`
fn is_function(statement: &Statement) -> bool {
    match statement {
        Statement::Define(name, Definition::Cumulative(cumul)) => {
            name.as_slice() == b"f".as_slice() && is_sum(cumul)
        }
        _ => false,
    }
}

fn is_during(moments: &Moments, name: &[u8]) -> bool {
    match moments {
        Moments::During(interval) => interval.as_slice() == name,
        _ => false,
    }
}

/// `alwaysIn(f,a,-1,2)`
fn is_window(statement: &Statement) -> bool {
    match statement {
        Statement::Constrain(Constrained::AlwaysIn(cumul, moments, least, greatest)) => {
            cumul.more.is_empty()
                && is_during(moments, b"a")
                && *least == int(true, 1)
                && *greatest == int(false, 2)
        }
        _ => false,
    }
}

/// `ab = intervalVar(start=1..5, end=-3)`
fn is_interval(statement: &Statement) -> bool {
    let start = Range {
        from: int(false, 1),
        to: Some(int(false, 5)),
    };
    let end = Range {
        from: int(true, 3),
        to: None,
    };
    match statement {
        Statement::Define(name, Definition::IntervalVar(args)) => {
            name.as_slice() == b"ab".as_slice()
                && args.as_slice() == [Ivarg::Start(start), Ivarg::End(end)].as_slice()
        }
        _ => false,
    }
}

#[derive(Clone, Copy)]
enum Kind {
    NoOverlap,
    Function,
    Window,
    Interval,
}

fn is_kind(kind: Kind, statement: &Statement) -> bool {
    match kind {
        Kind::NoOverlap => is_no_overlap(statement),
        Kind::Function => is_function(statement),
        Kind::Window => is_window(statement),
        Kind::Interval => is_interval(statement),
    }
}

/// Whether a text is one statement, with the tree of this kind.
fn reads(alloc: Global, text: &[u8], kind: Kind) -> bool {
    match read_text(alloc, text) {
        Ok(tree) => match only(&tree) {
            Some(statement) => is_kind(kind, statement),
            None => false,
        },
        Err(_) => false,
    }
}

#[test]
fn a_sequence_without_a_name(rt: HostRuntime) {
    assert!(rt; reads(rt.alloc(), b"noOverlap([a,bc],m,1);", Kind::NoOverlap));
}

#[test]
fn a_function(rt: HostRuntime) {
    assert!(rt; reads(rt.alloc(), b"f = -pulse(0,10,2)+g;", Kind::Function));
}

#[test]
fn a_window(rt: HostRuntime) {
    assert!(rt; reads(rt.alloc(), b"alwaysIn(f,a,-1,2);", Kind::Window));
}

#[test]
fn a_tree(rt: HostRuntime) {
    reading_is_determined();
    assert!(rt;
        reads(
            rt.alloc(),
            b"ab = intervalVar(start=1..5, end=-3);",
            Kind::Interval
        )
    );
}

const NAMED: &str =
    "a=intervalVar();noOverlap([a]);p=sequenceVar([a]);first(p,a);-pulse(a,1)<=3;f=pulse(0,9,2)-step(3,4);h=-f;f>=-1;";

/// The number of the sequence of a constraint, or that of its cumulative function, by the kind of it.
fn number_of(constraint: &Constraint) -> u32 {
    match constraint {
        Constraint::NoOverlap { p, .. } => p.0,
        Constraint::First { p, .. } => 10 + p.0 % 10,
        Constraint::CumulIn { f, .. } => 20 + f.0 % 10,
        _ => 99,
    }
}

fn bounds_of(constraint: &Constraint) -> (i64, i64) {
    match constraint {
        Constraint::CumulIn {
            window: Window::Always,
            lo,
            hi,
            ..
        } => (*lo, *hi),
        _ => (0, 0),
    }
}

fn are_numbered(model: &Model) -> bool {
    [(0, 1), (1, 10), (2, 22), (3, 20)].iter().all(|(i, want)| at(model.constraints(), *i).map(
        number_of,
    ) == Some(*want))
}

/// The function with its signs turned.
const TURNED: [Part; 2] = [
    Part {
        minus: true,
        shape: Shape::Pulse { u: 0, v: 9, h: 2 },
    },
    Part {
        minus: false,
        shape: Shape::Step { u: 3, h: 4 },
    },
];

fn is_turned(model: &Model) -> bool {
    match at(model.cumuls(), 1) {
        Some(cumul) => cumul.parts.as_slice() == TURNED.as_slice(),
        None => false,
    }
}

fn is_named(model: &Model) -> bool {
    match at(model.sequences(), 0) {
        Some(sequence) => sequence.name.is_some(),
        None => false,
    }
}

fn is_as_told(model: &Model) -> bool {
    model.sequences().len() == 2
        && is_named(model)
        && are_numbered(model)
        && at(model.constraints(), 3).map(bounds_of) == Some((-1, 4_611_686_018_427_387_904))
        && is_turned(model)
}

#[derive(Clone, Copy)]
struct AsTold;

impl Rows for AsTold {
    fn wrong(&self, _: Global, model: &Model) -> Option<usize> {
        unless(is_as_told(model))
    }
}

#[test]
fn numbers_named_things_first(rt: HostRuntime) {
    assert_eq!(rt; first_wrong(rt.alloc(), NAMED, &AsTold), None);
}
