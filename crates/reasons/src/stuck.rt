ghost use Rattle.std.specs.Prelude.{◌≡◌, IfOk, IfSome, take};
ghost use Rattle.reasons.specs.Explained.{IsStuckAt};

use crate::finishing::can_begin;
use crate::places::front;
use crate::words::{Word, words_of};
use sched_base::NoMemory;
use std::alloc::Global;

/// How many words there are in front of the first with which no way is found to finish the statement,
/// but for the last of them: where a front can't be finished, none that is longer can.
fn furthest(alloc: Global, text: &[u8], words: &[Word]) -> Result<usize, NoMemory> {
    let mut low = 0;
    let mut high = words.len();
    while high.saturating_sub(low) > 1 {
        let middle = low + (high - low) / 2;
        let Some(word) = words.get(middle) else {
            return Ok(low);
        };
        if can_begin(alloc, front(text, word.from))? {
            low = middle;
        } else {
            high = middle;
        }
    }
    Ok(low)
}

/// The word of a statement in front of which it could be finished, and with which no way is found.
pub fn stuck_at(alloc: Global, text: &[u8]) -> Result<Option<Word>, NoMemory>
    ensures { IfOk result (λ o. IfSome o (IsStuckAt text.now)) }
{
    let words = words_of(alloc, text)?;
    let low = furthest(alloc, text, words.as_slice())?;
    let Some(word) = words.as_slice().get(low).copied() else {
        return Ok(None);
    };
    if can_begin(alloc, front(text, word.to))? {
        return Ok(None);
    }
    if !can_begin(alloc, front(text, word.from))? {
        return Ok(None);
    }
    Ok(Some(word))
}
