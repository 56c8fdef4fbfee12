ghost use Rattle.std.specs.Prelude.{◌≡◌};
ghost use Rattle.read_schedule.specs.code.Reads.{TakesNumber};

use sched_model::is_small;
use textline::{Words, read_number};

/// Takes a number of magnitude at most 2^62 that stands in front.
pub fn take_number(words: &mut Words<'_>) -> Option<i64>
    ensures { TakesNumber words.old words.new result }
{
    let word = words.next()?;
    let Some(z) = read_number(word) else {
        return None;
    };
    if is_small(z) {
        return Some(z);
    }
    None
}
