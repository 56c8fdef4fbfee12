//! How far a guess on a member can likely be moved and stay refuted. No promise hangs on this: it only
//! tells where to look first.
use theta_passes::Row;

/// The earliest completion of the members at these places, which rise.
fn completion(rows: &[Row], set: &[u32]) -> i64 {
    let mut end = i64::MIN;
    for k in set {
        if (*k as usize) < rows.len() {
            let row = rows[*k as usize];
            end = end.max(row.est).saturating_add(row.p);
        }
    }
    end
}

/// The latest of the latest starts of the members at these places.
fn last_start(rows: &[Row], set: &[u32]) -> i64 {
    let mut last = i64::MIN;
    for k in set {
        if (*k as usize) < rows.len() {
            last = last.max(rows[*k as usize].lst);
        }
    }
    last
}

/// By how many moments less than it is above the other a number can fall and stay above it.
pub fn moments_above(high: i64, low: i64) -> u64 {
    u64::try_from(high.saturating_sub(low).saturating_sub(1)).unwrap_or(0)
}

/// How much later than in its row a member can start and still start too soon behind a set.
pub fn start_reach(rows: &[Row], set: &[u32], place: u32) -> u64 {
    if place as usize >= rows.len() {
        return 0;
    }
    moments_above(completion(rows, set), rows[place as usize].bar)
}

/// How much sooner than in its row a member can end and still end after all of a set must have
/// started.
pub fn end_reach(rows: &[Row], set: &[u32], place: u32) -> u64 {
    if place as usize >= rows.len() {
        return 0;
    }
    moments_above(rows[place as usize].reach, last_start(rows, set))
}
