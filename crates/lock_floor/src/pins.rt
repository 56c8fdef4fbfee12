//! Runs of a few calls with what they answer.
ghost use Rattle.std.specs.Prelude.{◌≡◌, ◌<◌, ◌∷◌, [], length, Some, OnOk};

use iqueue::WakeQueue;
use sched_base::NoMemory;
use trail::Cells;
use wake_levels::{Turn, WakeLevels};

/// Numbers leave a queue in the order in which they came, each once.
#[tactic(auto, unfolding(iqueue::specs::code::Queue::woken, iqueue::specs::code::Queue::is_in, iqueue::specs::code::Queue::without))]
pub fn numbers_leave_in_order(queue: &mut WakeQueue) -> (Option<u32>, Option<u32>)
    requires below { 5 < queue.old.below }
    requires empty { queue.old.list ≡ [] }
    ensures { result ≡ (Some 3, Some 5) }
{
    queue.wake(3);
    queue.wake(5);
    queue.wake(3);
    let first = queue.take();
    let second = queue.take();
    (first, second)
}

/// A list goes back to what it was at the save.
pub fn a_list_goes_back(cells: &mut Cells, v: i64) -> Result<(), NoMemory>
    requires { 0 < length cells.old.list }
    ensures { OnOk result (cells.new.list ≡ cells.old.list) }
{
    cells.save()?;
    let set = cells.set(0, v);
    cells.undo();
    set
}

/// The more urgent of two has its turn first, though it came last.
pub fn the_urgent_comes_first(awake: &mut WakeLevels) -> (Option<Turn>, Option<Turn>)
    requires below { 7 < awake.old.below }
    requires empty { awake.old.levels ≡ [] ∷ [] ∷ [] }
    ensures { result ≡ (Some (record { k = 3; level = 0 }), Some (record { k = 7; level = 1 })) }
{
    awake.wake(7, 1);
    awake.wake(3, 0);
    let first = awake.first();
    awake.unwake(3);
    let second = awake.first();
    (first, second)
}
