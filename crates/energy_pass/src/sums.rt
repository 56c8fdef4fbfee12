//! The start of a cut.
ghost use Rattle.std.specs.Prelude.{◌≡◌, ◌<◌, ◌≤◌, ◌^◌, ◌≤ℤ◌, ◌-ℤ◌, ◌+ℤ◌, neg_ℤ, pos, length};
ghost use Rattle.envelope.specs.code.Bars.{IsCapacity};
ghost use Rattle.energy_pass.specs.code.Rows.{row_at, AreRows, IsNearRow, IsByEst, IsMoment, GivesStart};
ghost use Rattle.energy_pass.specs.code.Starts.{energy_by, starts};

use crate::rows::Row;
use refute_energy::offered;

/// The time from one moment until another.
fn time(start: i64, end: i64) -> i64
    requires start { IsMoment start }
    requires end { IsMoment end }
    ensures value { result ≡ end -ℤ start }
    ensures from { neg_ℤ (pos 2000000000) ≤ℤ result }
    ensures to { result ≤ℤ pos 2000000000 }
{
    end - start
}

/// A sum with the energy of a row, if it completes by a moment.
fn with_row(sum: i128, row: Row, end: i64) -> i128
    requires row { IsNearRow row }
    requires low { pos 0 ≤ℤ sum }
    requires high { sum ≤ℤ pos (2 ^ 90) }
    ensures { result ≡ sum +ℤ energy_by end row }
{
    if row.lct <= end {
        return sum + row.energy;
    }
    sum
}

/// Whether the capacity offers less than a sum from the start of a row, which completes by a moment,
/// until that moment.
fn starts(row: Row, capacity: i64, end: i64, sum: i128) -> bool
    requires row { IsNearRow row }
    requires end { IsMoment end }
    ensures { result ≡ starts capacity end sum row }
{
    row.lct <= end && offered(capacity, time(row.est, end)) < sum
}

/// An earliest start of a row from which on the rows that complete by a moment need more than is offered;
/// none exactly where there is none. It is one walk over the rows, which stand in the order of their
/// earliest starts.
pub fn start_of(rows: &[Row], capacity: i64, end: i64) -> Option<i64>
    requires rows { AreRows rows.now }
    requires by_est { IsByEst rows.now }
    requires end { IsMoment end }
    ensures { GivesStart rows.now capacity end result }
{
    let mut sum: i128 = 0;
    let mut k = rows.len();
    while k > 0 {
        k -= 1;
        sum = with_row(sum, rows[k], end);
        if starts(rows[k], capacity, end, sum) {
            return Some(rows[k].est);
        }
    }
    None
}
