//! Lists of numbers that go back, and wake queues, by tables of steps.
ghost use Rattle.std.specs.Prelude.{◌≡◌};

use iqueue::WakeQueue;
use sched_base::NoMemory;
use std::alloc::Global;
use std::test::Fail;
use trail::Cells;

#[derive(Clone, Copy)]
enum Move {
    Set(usize, i64),
    Save,
    Undo,
    /// It is set, and takes none of the spare entries.
    SetFree(usize, i64),
    /// The first one is set to each number from 1 to below this, and the length stays.
    SetEach(i64, usize),
    Reserve(usize),
    HasSpare(usize),
    Shows(&'static [i64]),
    Holds(usize, i64),
    Length(usize),
    Saves(usize),
}

fn sets_each(cells: &mut Cells, end: i64, length: usize) -> bool {
    for v in 1..end {
        if cells.len() != length || length == 0 || cells.set(0, v).is_err() {
            return false;
        }
    }
    true
}

fn sets_free(cells: &mut Cells, i: usize, v: i64) -> bool {
    let spare = cells.spare();
    i < cells.len() && cells.set(i, v).is_ok() && cells.spare() == spare
}

/// Whether the move can be made and goes as told.
fn makes(cells: &mut Cells, what: Move) -> bool {
    match what {
        Move::Set(i, v) => i < cells.len() && cells.set(i, v).is_ok(),
        Move::SetFree(i, v) => sets_free(cells, i, v),
        Move::SetEach(end, length) => sets_each(cells, end, length),
        Move::Reserve(n) => cells.reserve(n).is_ok(),
        Move::HasSpare(n) => cells.spare() >= n,
        Move::Save => cells.save().is_ok(),
        Move::Undo => {
            if cells.saves() == 0 {
                return false;
            }
            cells.undo();
            true
        }
        Move::Shows(numbers) => cells.as_slice() == numbers,
        Move::Holds(i, v) => i < cells.len() && cells.get(i) == v,
        Move::Length(n) => cells.len() == n,
        Move::Saves(n) => cells.saves() == n,
    }
}

fn wrong_move(cells: &mut Cells, moves: &[Move]) -> Option<usize> {
    for (n, what) in moves.iter().enumerate() {
        if !makes(cells, *what) {
            return Some(n);
        }
    }
    None
}

fn wrong_in(alloc: Global, first: &[i64], moves: &[Move]) -> Result<Option<usize>, NoMemory> {
    let mut cells = Cells::new(alloc, first)?;
    Ok(wrong_move(&mut cells, moves))
}

#[test]
fn goes_back_to_the_saved_list(rt: HostRuntime) -> Result<(), Fail> {
    let moves = [
        Move::Length(3),
        Move::SetFree(2, i64::MIN),
        Move::Save,
        Move::Set(0, 1),
        Move::Save,
        Move::Set(0, 2),
        Move::Set(1, 3),
        Move::Shows(&[2, 3, i64::MIN]),
        Move::Saves(2),
        Move::Undo,
        Move::Shows(&[1, 8, i64::MIN]),
        Move::Saves(1),
        Move::Undo,
        Move::Length(3),
        Move::Holds(0, 7),
        Move::Shows(&[7, 8, i64::MIN]),
        Move::Saves(0),
    ];
    assert_eq!(rt; wrong_in(rt.alloc(), &[7, 8, -9], moves.as_slice())?, None);
    Ok(())
}

#[test]
fn keeps_what_was_reserved(rt: HostRuntime) -> Result<(), Fail> {
    let moves = [
        Move::Reserve(600),
        Move::Save,
        Move::SetEach(600, 2),
        Move::Saves(1),
        Move::Undo,
        Move::Shows(&[7, 8]),
        Move::HasSpare(600),
    ];
    assert_eq!(rt; wrong_in(rt.alloc(), &[7, 8], moves.as_slice())?, None);
    Ok(())
}

#[derive(Clone, Copy)]
enum Step {
    Wake(u32),
    Unwake(u32),
    Clear,
    Take(Option<u32>),
    First(Option<u32>),
    Has(u32, bool),
    Empty(bool),
}

/// Whether the step can be made and goes as told, in a queue for the numbers below n.
fn goes(queue: &mut WakeQueue, n: u32, step: Step) -> bool
    requires { queue.old.below ≡ n }
    ensures { queue.new.below ≡ n }
{
    match step {
        Step::Wake(k) => {
            if k < n {
                queue.wake(k);
            }
            k < n
        }
        Step::Unwake(k) => {
            if k < n {
                queue.unwake(k);
            }
            k < n
        }
        Step::Clear => {
            queue.clear();
            true
        }
        Step::Take(want) => queue.take() == want,
        Step::First(want) => queue.first() == want,
        Step::Has(k, want) => k < n && queue.has(k) == want,
        Step::Empty(want) => queue.is_empty() == want,
    }
}

fn wrong_step(queue: &mut WakeQueue, n: u32, steps: &[Step]) -> Option<usize>
    requires { queue.old.below ≡ n }
{
    for (at, step) in steps.iter().enumerate() {
        if !goes(queue, n, *step) {
            return Some(at);
        }
    }
    None
}

fn wrong_for(alloc: Global, n: u32, steps: &[Step]) -> Result<Option<usize>, NoMemory> {
    let mut queue = WakeQueue::new(alloc, n)?;
    Ok(wrong_step(&mut queue, n, steps))
}

#[test]
fn takes_in_the_order_of_wakes(rt: HostRuntime) -> Result<(), Fail> {
    let steps = [
        Step::Empty(true),
        Step::Wake(2),
        Step::Wake(0),
        Step::Wake(2),
        Step::Wake(3),
        Step::Has(0, true),
        Step::Has(1, false),
        Step::Take(Some(2)),
        Step::Wake(2),
        Step::Take(Some(0)),
        Step::Empty(false),
        Step::Take(Some(3)),
        Step::Take(Some(2)),
        Step::Take(None),
    ];
    assert_eq!(rt; wrong_for(rt.alloc(), 4, steps.as_slice())?, None);
    Ok(())
}

#[test]
fn clears(rt: HostRuntime) -> Result<(), Fail> {
    let steps = [
        Step::Wake(1),
        Step::Wake(0),
        Step::Clear,
        Step::Empty(true),
        Step::Has(1, false),
        Step::Wake(1),
        Step::Take(Some(1)),
        Step::Take(None),
    ];
    assert_eq!(rt; wrong_for(rt.alloc(), 2, steps.as_slice())?, None);
    Ok(())
}

#[test]
fn unwakes_in_the_middle(rt: HostRuntime) -> Result<(), Fail> {
    let steps = [
        Step::Wake(2),
        Step::Wake(0),
        Step::Wake(3),
        Step::Wake(0),
        Step::Unwake(0),
        Step::Has(0, false),
        Step::Unwake(1),
        Step::First(Some(2)),
        Step::Take(Some(2)),
        Step::Take(Some(3)),
        Step::Take(None),
    ];
    assert_eq!(rt; wrong_for(rt.alloc(), 4, steps.as_slice())?, None);
    Ok(())
}

#[test]
fn unwakes_at_the_ends(rt: HostRuntime) -> Result<(), Fail> {
    let steps = [
        Step::Wake(1),
        Step::First(Some(1)),
        Step::Unwake(1),
        Step::Empty(true),
        Step::First(None),
        Step::Wake(0),
        Step::Wake(1),
        Step::Wake(2),
        Step::Unwake(0),
        Step::First(Some(1)),
        Step::Unwake(2),
        Step::Wake(0),
        Step::Take(Some(1)),
        Step::Take(Some(0)),
        Step::Take(None),
    ];
    assert_eq!(rt; wrong_for(rt.alloc(), 3, steps.as_slice())?, None);
    Ok(())
}

#[test]
fn keeps_the_order_where_slots_run_out(rt: HostRuntime) -> Result<(), Fail> {
    let steps = [
        Step::Wake(0),
        Step::Wake(1),
        Step::Wake(2),
        Step::Take(Some(0)),
        Step::Wake(0),
        Step::Unwake(1),
        Step::Wake(1),
        Step::Unwake(2),
        Step::Wake(2),
        // All six slots were put, of which three are held.
        Step::Take(Some(0)),
        Step::Wake(0),
        Step::Unwake(2),
        Step::Wake(2),
        Step::Take(Some(1)),
        Step::Take(Some(0)),
        Step::Take(Some(2)),
        Step::Take(None),
    ];
    assert_eq!(rt; wrong_for(rt.alloc(), 3, steps.as_slice())?, None);
    Ok(())
}
