//! Which guess PAIR of two members is likely to refute.
use findings::{Likely, Pair, ends_at};
use region::{Presence, Region};

/// The guess where the first of two is told to stand before the second, by a distance: that the second
/// starts, or the first ends, at the end of its window that the other leaves no room for. Where even a
/// start and an end in the middle don't fit, it is on no bound.
pub fn likely_told(region: &Region, pair: Pair, n: i64) -> Likely {
    let (a, b) = (pair.first, pair.second);
    let look = region.look(None, None);
    if a.0 as usize >= look.len() || b.0 as usize >= look.len() {
        return Likely::StandsBehind(pair);
    }
    let (c, d) = (ends_at(&look, a), ends_at(&look, b));
    let ect = c.ect.saturating_add(n);
    if ect > d.lst {
        return Likely::StandsBehind(pair);
    }
    let is_first_there = c.presence == Presence::Present;
    if is_first_there && ect > look.smin(b) {
        return Likely::StartsLater(b);
    }
    if d.presence == Presence::Present && look.emax(a).saturating_add(n) > d.lst {
        return Likely::EndsSooner(a);
    }
    if is_first_there && ect > d.lowest_start {
        return Likely::EndsLater(b);
    }
    Likely::StartsSooner(a)
}
