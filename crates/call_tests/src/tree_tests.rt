//! Trees of tasks, with completion times worked out by hand.
ghost use Rattle.std.specs.Prelude.{◌≡◌, length};
ghost use Rattle.thetatree.specs.code.Leaves.{AreTasks};

use sched_base::{H, NoMemory};
use std::alloc::Global;
use std::test::Fail;
use thetatree::Colour::{Gray, Out, White};
use thetatree::{Colour, MAX_TASKS, Task, ThetaTree};

/// What a tree answers: `ect` and `ect_gray`.
type Answers = (Option<i64>, Option<(i64, Option<u32>)>);

fn painted(alloc: Global, tasks: &[Task], colours: &[Colour]) -> Result<ThetaTree, NoMemory>
    requires tasks { AreTasks tasks.now }
    requires colours { length colours.now ≡ length tasks.now }
{
    let mut tree = ThetaTree::new(alloc, tasks)?;
    for (k, colour) in colours.iter().enumerate() {
        tree.paint(k as u32, *colour);
    }
    Ok(tree)
}

/// None where these are no tasks and their colours.
fn answers(alloc: Global, tasks: &[Task], colours: &[Colour]) -> Result<Option<Answers>, NoMemory> {
    if !ThetaTree::takes(tasks) || colours.len() != tasks.len() {
        return Ok(None);
    }
    let tree = painted(alloc, tasks, colours)?;
    Ok(Some((tree.ect(), tree.ect_gray())))
}

/// Tasks, their colours, and what their tree answers.
type Row = (&'static [Task], &'static [Colour], Answers);

const THREE: [Task; 3] = [
    Task { est: 0, p: 5 },
    Task { est: 2, p: 3 },
    Task { est: 10, p: 1 },
];

const AT_ONCE: [Task; 3] = [
    Task { est: 0, p: 5 },
    Task { est: 0, p: 3 },
    Task { est: 0, p: 4 },
];

const ROWS: [Row; 5] = [
    (
        &THREE,
        &[White, White, Gray],
        (Some(8), Some((11, Some(2)))),
    ),
    (&THREE, &[White, White, White], (Some(11), Some((11, None)))),
    (
        &AT_ONCE,
        &[White, Gray, Gray],
        (Some(5), Some((9, Some(2)))),
    ),
    (&[Task { est: 0, p: 5 }], &[Out], (None, None)),
    (&[], &[], (None, None)),
];

fn wrong_row(alloc: Global) -> Result<Option<usize>, NoMemory> {
    for (n, row) in ROWS.iter().enumerate() {
        let (tasks, colours, want) = *row;
        if answers(alloc, tasks, colours)? != Some(want) {
            return Ok(Some(n));
        }
    }
    Ok(None)
}

#[test]
fn worked_rows(rt: HostRuntime) -> Result<(), Fail> {
    assert_eq!(rt; wrong_row(rt.alloc())?, None);
    Ok(())
}

/// Tasks, and whether a tree takes them.
const TAKEN: [(&[Task], bool); 6] = [
    (&[Task { est: -H, p: 0 }, Task { est: H, p: 2 * H }], true),
    (&[Task { est: -H - 1, p: 0 }], false),
    (&[Task { est: H + 1, p: 0 }], false),
    (&[Task { est: 0, p: -1 }], false),
    (
        &[Task {
            est: 0,
            p: 2 * H + 1,
        }],
        false,
    ),
    (&[Task { est: 1, p: 0 }, Task { est: 0, p: 0 }], false),
];

fn are_taken() -> bool {
    TAKEN
        .iter()
        .all(|(tasks, want)| ThetaTree::takes(tasks) == *want)
}

/// Whether a tree takes so many tasks.
fn takes_many(alloc: Global, n: usize) -> Result<bool, NoMemory> {
    let tasks = vec![in alloc; Task { est: 1, p: 1 }; n]?;
    Ok(ThetaTree::takes(tasks.as_slice()))
}

#[test]
fn takes_few_small_tasks_in_order(rt: HostRuntime) -> Result<(), Fail> {
    assert!(rt; are_taken());
    assert!(rt; takes_many(rt.alloc(), MAX_TASKS)?);
    assert!(rt; !takes_many(rt.alloc(), MAX_TASKS + 1)?);
    Ok(())
}
