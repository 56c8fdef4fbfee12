//! The texts of answers and of models.
use crate::lines::assignment;
use crate::models::{Rows, first_wrong, unless};
use model_copy::reduce;
use sched_base::{Con, Failed, List, MemDesk, NoMemory};
use sched_model::{Answer, Assignment, Model, Solved};
use sched_text::{print_model, write_answer};
use std::alloc::Global;
use std::test::Fail;

// Each exit of a function that owns a model or a desk makes its proof longer. So these are owned by
// functions that make one and ask once, and a test owns none.

/// What a call answered, and what was written to standard output.
type Printed = (Result<(), Failed>, Vec<u8>);

fn desk(alloc: Global, failing: &[u32]) -> Result<MemDesk, NoMemory> {
    let calls = List::from_vec(Vec::from_slice(alloc, failing)?);
    MemDesk::new(alloc, List::new(alloc), calls)
}

fn print_on(alloc: Global, model: &Model, desk: &mut MemDesk) -> Result<Printed, NoMemory> {
    let told = print_model(model, desk);
    Ok((told, Vec::from_slice(alloc, desk.out())?))
}

fn print(alloc: Global, model: &Model, failing: &[u32]) -> Result<Printed, NoMemory> {
    let mut desk = desk(alloc, failing)?;
    print_on(alloc, model, &mut desk)
}

fn is_told(printed: &Printed, told: Result<(), Failed>, out: &[u8]) -> bool {
    let (answer, text) = printed;
    *answer == told && text.as_slice() == out
}

/// What is printed where the calls of these numbers fail.
#[derive(Clone, Copy)]
struct Prints<'a> {
    failing: &'a [u32],
    told: Result<(), Failed>,
    out: &'a [u8],
}

impl Rows for Prints<'_> {
    fn wrong(&self, alloc: Global, model: &Model) -> Option<usize> {
        match print(alloc, model, self.failing) {
            Ok(printed) => unless(is_told(&printed, self.told, self.out)),
            Err(_) => Some(usize::MAX),
        }
    }
}

/// The text of a model with its first two constraints alone.
fn print_first(alloc: Global, model: &Model) -> Result<Printed, NoMemory> {
    let keep = List::from_vec(Vec::from_slice(alloc, &[Con(0), Con(1)])?);
    let reduced = reduce(alloc, model, &keep)?;
    print(alloc, &reduced, &[])
}

/// The text that is printed of a model with its first two constraints alone.
#[derive(Clone, Copy)]
struct FirstTwo<'a>(&'a [u8]);

impl Rows for FirstTwo<'_> {
    fn wrong(&self, alloc: Global, model: &Model) -> Option<usize> {
        match print_first(alloc, model) {
            Ok(printed) => unless(is_told(&printed, Ok(()), self.0)),
            Err(_) => Some(usize::MAX),
        }
    }
}

const SMALL: &str = "a = intervalVar(optional,size=1,start=0..1,end=1..2);";

#[test]
fn prints_a_model(rt: HostRuntime) {
    let prints = Prints {
        failing: &[],
        told: Ok(()),
        out: b"a = intervalVar(optional,start=0..1,end=1..2,size=1..1);\n",
    };
    assert_eq!(rt; first_wrong(rt.alloc(), SMALL, &prints), None);
}

#[test]
fn tells_a_failure(rt: HostRuntime) {
    let prints = Prints {
        failing: &[0],
        told: Err(Failed),
        out: b"",
    };
    assert_eq!(rt; first_wrong(rt.alloc(), SMALL, &prints), None);
}

fn push_many(alloc: Global, text: &mut String) -> Result<(), Fail> {
    for i in 0..200u32 {
        let line = format!(in alloc; "a{i} = intervalVar();\n")?;
        text.push_str(line.as_str())?;
    }
    Ok(())
}

fn many(alloc: Global) -> Result<String, Fail> {
    let mut text = String::new(alloc);
    push_many(alloc, &mut text)?;
    Ok(text)
}

/// Whether one is whole, and the other ended in a failure behind its first page.
fn are_whole_and_front(whole: &Printed, front: &Printed) -> bool {
    let (well, whole) = whole;
    let (failed, front) = front;
    *well == Ok(())
        && *failed == Err(Failed)
        && whole.as_slice().starts_with(front.as_slice())
        && front.len() > 8_000
        && whole.len().saturating_sub(front.len()) > 1_000
}

fn ends_early(alloc: Global, model: &Model) -> Result<bool, NoMemory> {
    let whole = print(alloc, model, &[])?;
    let front = print(alloc, model, &[1])?;
    Ok(are_whole_and_front(&whole, &front))
}

#[derive(Clone, Copy)]
struct Stops;

impl Rows for Stops {
    fn wrong(&self, alloc: Global, model: &Model) -> Option<usize> {
        unless(ends_early(alloc, model) == Ok(true))
    }
}

fn many_stop(alloc: Global) -> Result<bool, Fail> {
    let text = many(alloc)?;
    Ok(first_wrong(alloc, text.as_str(), &Stops).is_none())
}

/// The first page is written, and the second fails; then nothing more is written.
#[test]
fn stops_at_a_failure(rt: HostRuntime) -> Result<(), Fail> {
    assert!(rt; many_stop(rt.alloc())?);
    Ok(())
}

fn answer_on(
    alloc: Global,
    model: &Model,
    solved: &Solved,
    desk: &mut MemDesk,
) -> Result<Printed, NoMemory> {
    let told = write_answer(model, solved, desk);
    Ok((told, Vec::from_slice(alloc, desk.out())?))
}

fn answer(alloc: Global, model: &Model, solved: &Solved) -> Result<Printed, NoMemory> {
    let mut desk = desk(alloc, &[])?;
    answer_on(alloc, model, solved, &mut desk)
}

/// A model whose objective has values to print.
const AIMED: &str =
    "a = intervalVar(optional,size=1,start=0..1,end=1..2); minimize(startOf(a,-7));";

/// What is printed of an answer.
#[derive(Clone, Copy)]
struct Answers<'a> {
    solved: &'a Solved,
    out: &'a [u8],
}

impl Rows for Answers<'_> {
    fn wrong(&self, alloc: Global, model: &Model) -> Option<usize> {
        match answer(alloc, model, self.solved) {
            Ok(printed) => unless(is_told(&printed, Ok(()), self.out)),
            Err(_) => Some(usize::MAX),
        }
    }
}

fn optimal(a: Assignment) -> Solved {
    Solved {
        nodes: 12,
        answer: Answer::Optimal(-7, a),
    }
}

fn answers_so(alloc: Global, solved: &Solved, out: &[u8]) -> bool {
    first_wrong(alloc, AIMED, &Answers { solved, out }).is_none()
}

fn answers_line(alloc: Global, line: &str, out: &[u8]) -> bool {
    match assignment(alloc, line) {
        Some(a) => answers_so(alloc, &optimal(a), out),
        None => false,
    }
}

#[test]
fn writes_an_answer(rt: HostRuntime) {
    let out = b"optimal -7\nnodes 12\na 0 1\nend\n";
    assert!(rt; answers_line(rt.alloc(), "v p 0 1\n", out));
}

/// Each has to end before the other starts, and they start together.
const CLASHES: &str =
    "a = intervalVar(size=1,end=0..20); b = intervalVar(size=1,end=0..20); endBeforeStart(a,b); endBeforeStart(b,a); startAtStart(a,b); minimize(endOf(a));";

#[test]
fn prints_a_part(rt: HostRuntime) {
    let text = FirstTwo(
        b"a = intervalVar(start=0..1000000000,end=0..20,size=1..1);\nb = intervalVar(start=0..1000000000,end=0..20,size=1..1);\nendBeforeStart(a,b,0);\nendBeforeStart(b,a,0);\n",
    );
    assert_eq!(rt; first_wrong(rt.alloc(), CLASHES, &text), None);
}
